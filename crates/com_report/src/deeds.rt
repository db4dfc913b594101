//! The rows of all deeds.
ghost use Rattle.std.specs.Prelude.{◌≡◌, ◌++◌, ◌+◌, ◌≤◌, [], length, drop};
ghost use Rattle.com_model.specs.Text.{deed_line};
ghost use Rattle.com_report.specs.Width.{deed_width};

use crate::pieces::{signed_after, word, word_and_number};
use crate::{calls, references};
use com_model::Deed;

/// Writes what an entry says was done in front of the end, and says where it begins.
pub fn deed(room: &mut [u8], end: usize, version: u8, deed: &Deed) -> usize
    requires { (deed_width deed.now + 160 ≤ end) × (end ≤ length room.old) }
    ensures taken { (result ≤ end) × (end ≤ result + (deed_width deed.now + 160)) }
    ensures written { drop result room.new ≡ deed_line version [] deed.now ++ drop end room.old }
{
    match deed {
        Deed::Init { mode, home, hr } => references::init(room, end, version, *mode, *home, *hr),
        Deed::Uninit { home, count } => references::uninit(room, end, *home, *count),
        Deed::Made {
            object,
            apartment,
            class,
            iface,
            hr,
        } => {
            let at = references::create_asked(room, end, version, class, iface, *hr);
            references::create(room, at, *object, *apartment)
        },
        Deed::Query { object, iface, hr } => references::query(
            room, end, version, *object, iface, *hr,
        ),
        Deed::Copy { held } => references::copy(room, end, version, *held),
        Deed::Release { held } => references::release(room, end, *held),
        Deed::Marshal {
            packet,
            mode,
            held,
            refs,
            hr,
            bytes,
        } => {
            let at = references::marshal_answer(room, end, version, *refs, *hr, bytes);
            references::marshal(room, at, *packet, *mode, *held)
        },
        Deed::Unmarshal {
            packet,
            held,
            refs,
            hr,
        } => references::unmarshal(room, end, version, *packet, *held, *refs, *hr),
        Deed::DropPacket { packet, hr } => references::dropped(room, end, version, *packet, *hr),
        Deed::Raw { buffer, length } => references::raw(room, end, *buffer, *length),
        Deed::Register { cookie, held, hr } => {
            references::register(room, end, version, *cookie, *held, *hr)
        }
        Deed::Get {
            cookie,
            held,
            refs,
            hr,
        } => references::get(room, end, version, *cookie, *held, *refs, *hr),
        Deed::Revoke { cookie, hr } => references::revoke(room, end, version, *cookie, *hr),
        Deed::SetFilter { filter, hr } => calls::filter(room, end, version, *filter, *hr),
        Deed::Post { lane, word, hr } => calls::post(room, end, version, *lane, *word, *hr),
        Deed::Quit { lane, hr } => calls::quit(room, end, version, *lane, *hr),
        Deed::Pump { bound } => word_and_number(room, end, b" pump ", *bound as u64),
        Deed::EndPump => word(room, end, b" endpump"),
        Deed::Word { word } => signed_after(room, end, b" word ", *word),
        Deed::Out {
            call,
            object,
            iface,
            method,
            route,
            cause,
            bytes,
        } => {
            let at = calls::out_way(room, end, *route, *cause, bytes);
            calls::out_method(room, at, *call, *object, *iface, *method)
        },
        Deed::Verdict {
            call,
            call_type,
            verdict,
        } => calls::verdict(room, end, *call, *call_type, *verdict),
        Deed::Refuse { call, hr } => calls::refuse(room, end, version, *call, *hr),
        Deed::Enter {
            call,
            object,
            apartment,
            call_type,
            values,
        } => calls::enter(room, end, *call, *object, *apartment, *call_type, values),
        Deed::Leave {
            call,
            hr,
            value,
            bytes,
        } => calls::leave(room, end, version, *call, *hr, value, bytes),
        Deed::Retry { call, answer } => calls::retry(room, end, *call, *answer),
        Deed::Again { call } => word_and_number(room, end, b" again c", *call as u64),
        Deed::Back { call, hr, value } => calls::back(room, end, version, *call, *hr, value),
        Deed::Pending { call, word, answer } => { calls::pending(room, end, *call, *word, *answer) }
        Deed::Disconnect { object, hr } => references::cut_off(room, end, version, *object, *hr),
        Deed::Final { object } => word_and_number(room, end, b" final o", *object as u64),
        Deed::Tick { clock } => word_and_number(room, end, b" tick ", *clock),
        Deed::End => word(room, end, b" end"),
    }
}
