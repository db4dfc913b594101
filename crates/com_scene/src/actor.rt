//! Who acts, before an entry and after it.

use com_model::Deed;

/// Who acts in a lane, and goes on by the lane's next entry.
#[derive(Debug, Clone, Copy, PartialEq, Eq)]
pub enum Actor {
    /// The body of a call, on an object: that of the lane's topmost opener, where a body stands there.
    Body { call: u32, object: u32 },
    /// The script of a thread's lane that has no opener.
    Script { lane: u32 },
    /// Neither acts, as where a lane waits for a call or pumps.
    Nobody,
}

/// An entry of a lane, with who acts before and after it.
#[derive(Drop)]
pub struct ActedEntry<'a> {
    /// The lane that makes the entry, and 0 for the clock's.
    pub lane: u32,
    /// What the entry says was done.
    pub deed: &'a Deed,
    /// Who makes the entry by its step, and nobody where no step does.
    pub acting: Actor,
    /// Who acts in the lane after the entry.
    pub after: Actor,
}
