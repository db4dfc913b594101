//! The rows of packets and cookies, and the packet that bytes name.
ghost use Rattle.std.specs.Prelude.{◌≡◌, ◌<◌, ◌↔◌, ℕ, true, false, IsTrue, IfSome, IfNone};
ghost use Rattle.std.specs.Prelude.{option_copied, if◌then◌else◌};
ghost use Rattle.std.specs.Int.{from_le_bytes, w64};
ghost use Rattle.com_stub.specs.StubRows.{is_connected};
ghost use Rattle.com_refs_holders.specs.Tables.{books_of};
ghost use Rattle.com_refs_books.specs.Changes.{packet, cookie};
ghost use Rattle.com_refs.specs.Found.{IsFound, fields_by, shown_packet};

use crate::{Cookie, PacketRow, Refs};
use com_base::{Guid, MarshalMode, RefValue, StdFields};
use com_packets::Packet;

// The number that the last eight bytes of an interface pointer are, if it is at most so high.
fn number_in(bytes: [u8; 8], most: u32) -> Option<u32>
    ensures some { IfSome result (λ number. from_le_bytes w64 bytes ≡ number) }
    ensures none { IfNone result (most < from_le_bytes w64 bytes) }
{
    let number = u64::from_le_bytes(bytes);
    if number > u64::from(most) {
        return None;
    }
    Some(number as u32)
}

// The row of a packet in the books.
fn packet_row(packet: Option<&Packet>) -> PacketRow
    ensures { result ≡ shown_packet (option_copied packet.entry) }
{
    match packet {
        None => NO_PACKET,
        Some(packet) => PacketRow {
            outstanding: true,
            mode: packet.mode,
            object: packet.object,
            iface: packet.iface,
            refs: packet.refs,
        },
    }
}

// The row of a cookie in the books: it holds nothing of an object that is not connected.
fn cookie_row(held: RefValue, is_connected: bool) -> Cookie
    ensures { result ≡ record {
      is_revoked = false;
      object = held.object;
      iface = held.iface;
      refs = if
          is_connected then 1 else 0;
    } }
{
    Cookie {
        is_revoked: false,
        object: held.object,
        iface: held.iface,
        refs: if is_connected { 1 } else { 0 },
    }
}

// What is written of a packet with this number, whose object has this owner.
fn packet_fields(row: PacketRow, owner: u32, number: u32, iid: Guid) -> StdFields
    ensures { result ≡ fields_by owner iid row number }
{
    let packet = Packet {
        mode: row.mode,
        object: row.object,
        iface: row.iface,
        owner,
        refs: row.refs,
    };
    packet.fields(number, iid)
}

// The row is that of an outstanding packet of the interface, and the fields are what is written of it with
// this number.
fn is_named(row: PacketRow, owner: u32, number: u32, fields: &StdFields, iface: u16) -> bool
    ensures { IsTrue result ↔ ((row.outstanding ≡ true) × ((row.iface ≡ iface)
        × (fields_by owner fields.now.iid row number ≡ fields.now))) }
{
    row.outstanding
        && row.iface == iface
        && packet_fields(row, owner, number, fields.iid) == *fields
}

// The row of a packet that is not outstanding: it holds nothing.
const NO_PACKET: PacketRow = PacketRow {
    outstanding: false,
    mode: MarshalMode::Weak,
    object: 0,
    iface: 0,
    refs: 0,
};

// The row of a cookie that was never given, or was revoked: it holds nothing.
const NO_COOKIE: Cookie = Cookie {
    is_revoked: true,
    object: 0,
    iface: 0,
    refs: 0,
};

impl Refs {
    /// The outstanding packet of the interface that the fields name: that whose written references, OXID, OID
    /// and IPID they have. The caller read the interface from their IID. `None` exactly where they name none.
    /// Source: MS-DCOM 2.2.18.2.
    pub fn find(&self, fields: &StdFields, iface: u16) -> Option<u32>
        ensures some { IfSome result (IsFound self.now fields.now iface) }
        ensures only { IfSome result (λ number. (other : ℕ) → IsFound self.now fields.now iface other
            → other ≡ number) }
        ensures none { IfNone result ((number : ℕ) → IsFound self.now fields.now iface number → ⊥) }
    {
        let most = self.holders.packets();
        let Some(number) = number_in(fields.ipid.data4, most) else {
            return None;
        };
        let row = self.packet_row(number);
        let owner = self.holders.owner(row.object);
        if !is_named(row, owner, number, fields, iface) {
            return None;
        }
        Some(number)
    }

    /// The row of a packet in the books; that of an ended one where there is no such packet.
    pub fn packet_row(&self, number: u32) -> PacketRow
        ensures { result ≡ packet (books_of self.now) number }
    {
        packet_row(self.holders.packet(number))
    }

    /// The row of a cookie in the books; that of a revoked one where there is no such cookie.
    pub fn cookie_row(&self, number: u32) -> Cookie
        ensures { result ≡ cookie (books_of self.now) number }
    {
        let Some(held) = self.holders.cookie(number) else {
            return NO_COOKIE;
        };
        cookie_row(held, self.holders.is_connected(held.object))
    }
}
