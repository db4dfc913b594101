//! The words of an entry's label.
ghost use Rattle.std.specs.Prelude.{◌≡◌, ◌++◌, OnOk};
ghost use Rattle.com_draw_labels.specs.Labels.{deed_label, label};

use crate::words::push_words_signed;
use crate::{call_labels as calls, reference_labels as references};
use com_base::{ByteList, Memory};
use com_classes::Classes;
use com_draw_names::{Born, Context, object_in};
use com_draw_words::push_word_and_number;
use com_model::{Deed, Entry, Scenario};

// Appends what was done, in a few words.
fn push_deed(
    out: &mut ByteList,
    classes: &Classes,
    version: u8,
    context: Context,
    deed: &Deed,
) -> Result<(), Memory>
    ensures { OnOk result (out.new ≡ out.old ++ deed_label classes.now version context deed.now) }
{
    match deed {
        Deed::Init { home, hr, .. } => references::push_init(
            out,
            version,
            *home,
            context.has_home,
            *hr,
        ),
        Deed::Uninit { home, count } => references::push_uninit(out, *home, *count),
        Deed::Made {
            object,
            apartment,
            class,
            hr,
            ..
        } => {
            let born = Born {
                object: *object,
                apartment: *apartment,
            };
            references::push_create(out, classes, version, born, class, *hr)
        }
        Deed::Query { object, iface, hr } => {
            references::push_query(out, classes, version, *object, iface, *hr)
        }
        Deed::Copy { held } => references::push_copy(out, *held),
        Deed::Release { held } => references::push_release(out, *held),
        Deed::Marshal {
            packet,
            held,
            hr,
            ..
        } => { references::push_marshal(out, version, *packet, object_in(*held), *hr) }
        Deed::Unmarshal {
            packet,
            held,
            hr,
            ..
        } => { references::push_unmarshal(out, version, *packet, object_in(*held), *hr) }
        Deed::DropPacket { packet, hr } => references::push_drop(out, version, *packet, *hr),
        Deed::Raw { buffer, .. } => push_word_and_number(out, b"bytes in p", *buffer as u32),
        Deed::Register { cookie, held, hr } => {
            references::push_register(out, version, *cookie, object_in(*held), *hr)
        }
        Deed::Get {
            cookie,
            held,
            hr,
            ..
        } => { references::push_get(out, version, *cookie, object_in(*held), *hr) }
        Deed::Revoke { cookie, hr } => references::push_revoke(out, version, *cookie, *hr),
        Deed::SetFilter { filter, hr } => calls::push_filter(out, version, *filter, *hr),
        Deed::Post { lane, word, hr } => calls::push_post(out, version, *lane, *word, *hr),
        Deed::Quit { lane, hr } => calls::push_quit(out, version, *lane, *hr),
        Deed::Pump { bound } => calls::push_pump(out, *bound),
        Deed::EndPump => out.push_all(b"pump ends"),
        Deed::Word { word } => push_words_signed(out, b"takes word ", *word),
        Deed::Out {
            object,
            iface,
            method,
            ..
        } => calls::push_out(out, classes, *object, *iface, *method),
        Deed::Verdict { call, verdict, .. } => calls::push_verdict(out, *verdict, *call),
        Deed::Refuse { call, hr } => calls::push_refuse(out, version, *call, *hr),
        Deed::Enter { object, values, .. } => {
            calls::push_enter(out, classes, context.caller, *object, values.as_slice())
        }
        Deed::Leave { hr, value, .. } => calls::push_gave(out, b"answers", version, *hr, value),
        Deed::Retry { call, answer } => calls::push_retry(out, *call, *answer),
        Deed::Again { call } => push_word_and_number(out, b"again c", *call),
        Deed::Back { hr, value, .. } => calls::push_back(out, version, *hr, value),
        Deed::Pending { call, word, answer } => calls::push_pending(out, *call, *word, *answer),
        Deed::Disconnect { object, hr } => references::push_disconnect(out, version, *object, *hr),
        Deed::Final { object } => push_word_and_number(out, b"destroys o", *object),
        Deed::Tick { .. } => Ok(()),
        Deed::End => out.push_all(b"end"),
    }
}

/// Appends the words of an entry's label, before they are escaped; none for a move of the clock. The only
/// error is want of memory.
pub fn push_label_words(
    out: &mut ByteList,
    scenario: &Scenario,
    context: Context,
    entry: &Entry,
) -> Result<(), Memory>
    ensures { OnOk result (out.new ≡ out.old ++ label scenario.now context entry.now) }
{
    push_deed(
        out,
        &scenario.classes,
        scenario.version,
        context,
        &entry.deed,
    )
}
