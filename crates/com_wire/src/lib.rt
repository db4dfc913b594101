//! Numbers and GUIDs at a position of a list of bytes. Every number is little-endian.
#![tactic(auto)]

ghost use Rattle.std.specs.Prelude.{◌≡◌, ◌+◌, ◌≤◌, ◌++◌, length, take, drop, OnSome};
ghost use Rattle.std.specs.Int.{w16, w32, w64};
ghost use Rattle.com_wire.specs.Fields.{number_at, guid_at};

use com_base::Guid;

/// The number of 16 bits at a position. None exactly where its two bytes are not whole.
#[tactic(auto, unfolding(crate::specs::Fields::number_at))]
pub fn u16_at(bytes: &[u8], position: usize) -> Option<u16>
    ensures value { result ≡ number_at w16 bytes.now position }
    ensures within { OnSome result (position + 2 ≤ length bytes.now) }
{
    if bytes.len() < 2 || bytes.len() - 2 < position {
        return None;
    }
    Some(u16::from_le_bytes([bytes[position], bytes[position + 1]]))
}

/// The number of 32 bits at a position. None exactly where its four bytes are not whole.
#[tactic(auto, unfolding(crate::specs::Fields::number_at))]
pub fn u32_at(bytes: &[u8], position: usize) -> Option<u32>
    ensures value { result ≡ number_at w32 bytes.now position }
    ensures within { OnSome result (position + 4 ≤ length bytes.now) }
{
    if bytes.len() < 4 || bytes.len() - 4 < position {
        return None;
    }
    Some(u32::from_le_bytes([
        bytes[position],
        bytes[position + 1],
        bytes[position + 2],
        bytes[position + 3],
    ]))
}

/// The number of 64 bits at a position. None exactly where its eight bytes are not whole.
#[tactic(auto, unfolding(crate::specs::Fields::number_at))]
pub fn u64_at(bytes: &[u8], position: usize) -> Option<u64>
    ensures value { result ≡ number_at w64 bytes.now position }
    ensures within { OnSome result (position + 8 ≤ length bytes.now) }
{
    if bytes.len() < 8 || bytes.len() - 8 < position {
        return None;
    }
    let mut field = [0u8; 8];
    field.copy_from_slice(&bytes[position..position + 8]);
    Some(u64::from_le_bytes(field))
}

/// The GUID at a position, in its packet representation. None exactly where its sixteen bytes are not
/// whole. Source: MS-DTYP, "GUID--Packet Representation".
#[tactic(auto, unfolding(crate::specs::Fields::guid_at))]
pub fn guid_at(bytes: &[u8], position: usize) -> Option<Guid>
    ensures value { result ≡ guid_at bytes.now position }
    ensures within { OnSome result (position + 16 ≤ length bytes.now) }
{
    if bytes.len() < 16 || bytes.len() - 16 < position {
        return None;
    }
    let mut wire = [0u8; 16];
    wire.copy_from_slice(&bytes[position..position + 16]);
    Some(Guid::from_wire(&wire))
}

/// Writes a field over the bytes from a position on.
pub fn put(bytes: &mut [u8], position: usize, field: &[u8])
    requires { position + length field.now ≤ length bytes.old }
    ensures { bytes.new
        ≡ take position bytes.old ++ (field.now ++ drop (position + length field.now) bytes.old) }
{
    bytes[position..position + field.len()].copy_from_slice(field);
}
