//! The packet that bytes name, and the entries that read a buffer.

ghost use Rattle.std.specs.Prelude.{◌≡◌, ℕ};
ghost use Rattle.std.specs.Int.{w64, from_le_bytes};
ghost use Rattle.com_body.specs.declared.actions.Action.TheVariants as action;
ghost use Rattle.com_refs_books.specs.Changes.{packet};
ghost use Rattle.com_deeds.specs.Naming.{named_as};
ghost use Rattle.com_deeds.specs.declared.holders.Named.TheVariants as named;
ghost use Rattle.com_model.specs.Deeds.{deed_of, is_named, named_by, named_packet, same_fields};
ghost use Rattle.com_view.specs.Seen.{sight_by};

use crate::asking::Found;
use crate::deeds::unmarshal_deed;
use com_base::{HResult, StdFields};
use com_deeds::{Named, drop_deed, packet_fields, standard_fields};
use com_model::Deed;
use com_refs_books::Packet;
use com_view::View;

// Whether the fields of two packets agree, each with each.
fn same_fields(left: &StdFields, right: &StdFields) -> bool
    ensures { result ≡ same_fields left.now right.now }
{
    *left == *right
}

// The number of the packet in the fields' IPID.
fn number_in(fields: &StdFields) -> u64
    ensures { result ≡ from_le_bytes w64 fields.now.ipid.data4 }
{
    u64::from_le_bytes(fields.ipid.data4)
}

// Whether the packet with this number is outstanding, and its bytes have these fields.
fn is_named<B: Found>(view: &View<'_>, books: &B, fields: &StdFields, number: u32) -> bool
    ensures { result ≡ is_named view.now.scenario (sight_by view.now (B.books books.now)) fields.now number }
{
    let kept = books.packet(number);
    if !kept.outstanding {
        return false;
    }
    let owner = view.objects.owner(kept.object);
    same_fields(fields, &packet_fields(view.scenario, kept, number, owner))
}

// The outstanding packet whose bytes have these fields.
fn find<B: Found>(view: &View<'_>, books: &B, fields: &StdFields) -> Option<u32>
    ensures { result ≡ named_packet view.now.scenario (sight_by view.now (B.books books.now)) fields.now }
{
    let made = books.packets();
    let number = number_in(fields);
    if number == 0 {
        return None;
    }
    if number > u64::from(made) {
        return None;
    }
    let number = number as u32;
    if is_named(view, books, fields, number) {
        Some(number)
    } else {
        None
    }
}

// The packet that the bytes of a buffer name, or why they name none.
fn packet_in<B: Found>(view: &View<'_>, books: &B, lane: u32, buffer: u8) -> Named
    ensures { named_as result ≡ named_by view.now.scenario (sight_by view.now (B.books books.now))
        ((sight_by view.now (B.books books.now)).home lane) ((sight_by view.now
        (B.books books.now)).buffers buffer) }
{
    match standard_fields(view.home(lane), view.scene.buffer(buffer)) {
        Err(hr) => Named::Refused(hr),
        Ok(fields) => match find(view, books, &fields) {
            None => Named::Refused(HResult::CO_E_OBJNOTCONNECTED),
            Some(number) => Named::Packet(number),
        },
    }
}

// The row of the packet that is named.
fn row_of<B: Found>(books: &B, found: Named) -> Packet
    ensures { (p : ℕ) → found ≡ named.Packet p → packet (B.books books.now) p ≡ result }
{
    match found {
        Named::Packet(number) => books.packet(number),
        Named::Refused(_) => books.packet(0),
    }
}

/// The entry of `unmarshal` (CoUnmarshalInterface).
pub fn unmarshal_packet<B: Found>(view: &View<'_>, books: &B, lane: u32, buffer: u8) -> Deed
    ensures { (slot : ℕ) → result
        ≡ deed_of view.now.scenario (sight_by view.now (B.books books.now)) lane
        (action.Unmarshal slot buffer) }
{
    let found = packet_in(view, books, lane, buffer);
    let kept = row_of(books, found);
    let is_live = books.is_connected(kept.object);
    unmarshal_deed(view, lane, found, kept, is_live)
}

/// The entry of `drop` (CoReleaseMarshalData).
pub fn drop_packet<B: Found>(view: &View<'_>, books: &B, lane: u32, buffer: u8) -> Deed
    ensures { result ≡ deed_of view.now.scenario (sight_by view.now (B.books books.now)) lane
        (action.Drop buffer) }
{
    drop_deed(packet_in(view, books, lane, buffer))
}
