//! The story of an entry: what it says, in plain words.
ghost use Rattle.std.specs.Prelude.{◌≡◌, ◌++◌, OnOk};
ghost use Rattle.com_draw_stories.specs.Calls.{deed_story, story};

use crate::phrases::{push_does, push_does_link};
use crate::speakers::{Called, Entered, Speaker};
use crate::{call_stories as calls, reference_stories as references};
use com_base::{ByteList, Memory};
use com_classes::Classes;
use com_draw_names::{Born, Caller, Context, object_in};
use com_model::{Deed, Entry, Scenario};
use std::alloc::Global;

// Appends what was done, in plain words.
fn push_deed(
    alloc: Global,
    out: &mut ByteList,
    classes: &Classes,
    speaker: Speaker,
    context: Context,
    deed: &Deed,
) -> Result<(), Memory>
    ensures { OnOk result (out.new ≡ out.old ++ deed_story classes.now speaker context deed.now) }
{
    let lane = speaker.lane;
    let caller = calls::caller_lane(context.caller);
    match deed {
        Deed::Init { home, hr, .. } => references::push_init(
            out,
            speaker,
            *home,
            context.has_home,
            *hr,
        ),
        Deed::Uninit { home, count } => references::push_uninit(out, lane, *home, *count),
        Deed::Made {
            object,
            apartment,
            class,
            hr,
            ..
        } => {
            let born = Born {
                object: *object,
                apartment: *apartment,
            };
            references::push_create(out, classes, speaker, born, class, *hr)
        }
        Deed::Query { object, iface, hr } => {
            references::push_query(out, classes, speaker, *object, iface, *hr)
        }
        Deed::Copy { held } => references::push_copy(out, lane, *held),
        Deed::Release { held } => references::push_release(out, lane, *held),
        Deed::Marshal {
            packet,
            mode,
            held,
            hr,
            ..
        } => { references::push_marshal(out, speaker, *packet, *mode, object_in(*held), *hr) }
        Deed::Unmarshal {
            packet,
            held,
            hr,
            ..
        } => { references::push_unmarshal(out, speaker, *packet, object_in(*held), *hr) }
        Deed::DropPacket { packet, hr } => references::push_drop(out, speaker, *packet, *hr),
        Deed::Raw { buffer, length } => references::push_raw(out, lane, *buffer, *length),
        Deed::Register { cookie, held, hr } => {
            references::push_register(out, speaker, *cookie, object_in(*held), *hr)
        }
        Deed::Get {
            cookie,
            held,
            hr,
            ..
        } => { references::push_get(out, speaker, *cookie, object_in(*held), *hr) }
        Deed::Revoke { cookie, hr } => references::push_revoke(out, speaker, *cookie, *hr),
        Deed::SetFilter { filter, hr } => calls::push_filter(out, lane, *filter, *hr),
        Deed::Post { lane: to, word, hr } => calls::push_post(out, speaker, *to, *word, *hr),
        Deed::Quit { lane: to, hr } => calls::push_quit(out, speaker, *to, *hr),
        Deed::Pump { bound } => calls::push_pump(out, lane, *bound),
        Deed::EndPump => push_does(out, lane, b" ends its pump"),
        Deed::Word { word } => calls::push_took(out, lane, *word),
        Deed::Out {
            call,
            object,
            iface,
            method,
            route,
            ..
        } => {
            let caller = Caller {
                lane,
                iface: *iface,
                method: *method,
            };
            calls::push_out(out, classes, caller, *call, *object, *route)
        }
        Deed::Verdict {
            call,
            call_type,
            verdict,
        } => { calls::push_verdict(out, lane, caller, *call, *call_type, *verdict) }
        Deed::Refuse { call, hr } => calls::push_refuse(out, speaker, caller, *call, *hr),
        Deed::Enter {
            call,
            object,
            apartment,
            call_type,
            ..
        } => {
            let called = Called {
                call: *call,
                caller: context.caller,
            };
            let entered = Entered {
                object: *object,
                apartment: *apartment,
                call_type: *call_type,
            };
            calls::push_enter(out, classes, lane, called, entered)
        }
        Deed::Leave {
            call,
            hr,
            value,
            ..
        } => {
            let called = Called {
                call: *call,
                caller: context.caller,
            };
            calls::push_leave(alloc, out, speaker, called, *hr, value)
        }
        Deed::Retry { call, answer } => calls::push_retry(out, lane, *call, *answer),
        Deed::Again { call } => push_does_link(out, lane, b" sends ", *call, b" again"),
        Deed::Back { call, hr, value } => calls::push_back(alloc, out, speaker, *call, *hr, value),
        Deed::Pending { call, word, answer } => calls::push_pending(
            out, lane, *call, *word, *answer,
        ),
        Deed::Disconnect { object, hr } => references::push_disconnect(out, speaker, *object, *hr),
        Deed::Final { object } => references::push_final(out, lane, *object),
        Deed::Tick { clock } => calls::push_tick(out, *clock),
        Deed::End => push_does(out, lane, b" is over"),
    }
}

/// Appends the story of an entry: what it says in plain words, as it stands in the page, with names and
/// values escaped and calls as links. The only error is want of memory.
pub fn push_story(
    alloc: Global,
    out: &mut ByteList,
    scenario: &Scenario,
    context: Context,
    entry: &Entry,
) -> Result<(), Memory>
    ensures { OnOk result (out.new ≡ out.old ++ story scenario.now context entry.now) }
{
    let speaker = Speaker {
        version: scenario.version,
        lane: entry.lane,
    };
    push_deed(alloc, out, &scenario.classes, speaker, context, &entry.deed)
}
