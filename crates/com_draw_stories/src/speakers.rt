//! Who speaks in a story, and of which call.

use com_draw_names::Caller;

/// Whose words these are: the version of the scenario, by which an HRESULT is written, and the entry's lane.
#[derive(Debug, Clone, Copy, PartialEq, Eq)]
pub struct Speaker {
    /// The version of the scenario.
    pub version: u8,
    /// The entry's lane.
    pub lane: u32,
}

/// A call that a story tells of.
#[derive(Debug, Clone, Copy, PartialEq, Eq)]
pub struct Called {
    /// The call.
    pub call: u32,
    /// Who made it, where somebody waits for it.
    pub caller: Option<Caller>,
}

/// A body that begins to run.
#[derive(Debug, Clone, Copy, PartialEq, Eq)]
pub struct Entered {
    /// The object whose method it is.
    pub object: u32,
    /// The apartment in which it runs.
    pub apartment: u32,
    /// The type of the call, where it was posted to an STA.
    pub call_type: Option<u8>,
}
