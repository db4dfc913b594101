//! The packets and cookies of the books: a row for each.

use com_base::MarshalMode;

/// A packet: whether it is outstanding, that is from its making until it ends, and the public references that
/// it holds. One that has ended keeps nothing.
#[derive(Debug, Clone, Copy)]
pub struct Packet {
    /// Whether it was made and has not ended.
    pub outstanding: bool,
    /// What it is for: one unmarshalling, or many, with or without a hold on the object.
    pub mode: MarshalMode,
    /// The object of its reference.
    pub object: u32,
    /// The interface of its reference.
    pub iface: u16,
    /// The public references that it holds: of a strong packet 1, of a weak one 0.
    pub refs: u32,
}

/// A cookie of the global interface table, and the public references that it holds. One that was revoked
/// keeps nothing.
#[derive(Debug, Clone, Copy)]
pub struct Cookie {
    /// Whether it was revoked.
    pub is_revoked: bool,
    /// The object of its reference.
    pub object: u32,
    /// The interface of its reference.
    pub iface: u16,
    /// The public references that it holds: 1, or 0 where the object is not connected.
    pub refs: u32,
}
