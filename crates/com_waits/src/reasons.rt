//! What an explanation says.

use com_base::Rows;

/// Why a lane waits.
#[derive(Debug, Clone, Copy, PartialEq, Eq)]
pub enum Why {
    /// It pumps, and waits for a message.
    Message,
    /// It waits for the body of a call, which was entered in this lane.
    Body { call: u32, lane: u32 },
    /// It waits for a lane of the pool that enters a call; the lane is the least of them.
    Pool { call: u32, lane: u32 },
}

/// A lane, and why it waits.
#[derive(Debug, Clone, Copy, PartialEq, Eq)]
pub struct Wait {
    /// The lane, from 1.
    pub lane: u32,
    /// What it waits for.
    pub why: Why,
}

/// Why a history is stuck: each lane that waits, by lane, and the cycle in which lanes wait for each other,
/// beginning with its least lane. The cycle is empty where each lane waits for a message.
#[derive(Debug, Drop)]
pub struct Waits {
    /// The lanes that wait, by lane, each with what it waits for.
    pub waits: Rows<Wait>,
    /// The lanes of the cycle, from its least lane on.
    pub cycle: Rows<u32>,
}
