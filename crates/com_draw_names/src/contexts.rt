//! What an entry's words rest on beside the entry.

/// Who made a call that is open: its lane, and the method that it called.
#[derive(Debug, Clone, Copy, PartialEq, Eq)]
pub struct Caller {
    /// The lane that made the call.
    pub lane: u32,
    /// The interface that it named.
    pub iface: u16,
    /// The method that it named.
    pub method: u16,
}

/// What the history before an entry says of it.
#[derive(Debug, Clone, Copy, PartialEq, Eq)]
pub struct Context {
    /// Whether the entry's lane is in an apartment.
    pub has_home: bool,
    /// Who made the entry's call, where it has one that is open.
    pub caller: Option<Caller>,
}

/// What an activation made: an object, and the apartment in which it lives; neither where it failed.
#[derive(Debug, Clone, Copy, PartialEq, Eq)]
pub struct Born {
    /// The object.
    pub object: Option<u32>,
    /// The apartment in which it lives.
    pub apartment: Option<u32>,
}
