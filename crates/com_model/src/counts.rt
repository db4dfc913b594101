//! What a report says of each object and of the end.

/// Whether an object still takes calls.
#[derive(Debug, Clone, Copy, PartialEq, Eq)]
pub enum ObjectState {
    /// It is connected.
    Live,
    /// It is not connected, and did not end yet.
    Disconnected,
    /// It ended.
    Released,
}

/// An object's class, owner and state, and its counted references: the direct ones, the public ones of
/// proxies, of normal packets, and of strong packets and cookies, and their sum at the stub.
#[derive(Debug, Clone, Copy, PartialEq, Eq)]
pub struct Counts {
    /// The number of its class, from 1.
    pub class: u32,
    /// The apartment that its Made entry names: 0 for the neutral one and for an agile object.
    pub owner: u32,
    /// Whether it is connected, or was released.
    pub state: ObjectState,
    /// The places in apartments that own it: slots, links, and results on their way.
    pub direct: u64,
    /// The public references that the proxies of all apartments hold.
    pub proxies: u64,
    /// The public references that outstanding normal packets carry.
    pub packets: u64,
    /// One for each outstanding strong packet and each cookie that was not revoked, as long as the
    /// object is connected.
    pub tables: u64,
    /// The public references that its stub counts: the three before it, added.
    pub stub: u64,
}

/// How a history ended.
#[derive(Debug, Clone, Copy, PartialEq, Eq)]
pub enum Ended {
    /// All is done: every thread ended, nothing is open, posted or dying.
    Ok,
    /// No lane can step and no time is waited for, and not all is done.
    Stuck,
    /// The history has as many entries as it may have.
    Budget,
}
