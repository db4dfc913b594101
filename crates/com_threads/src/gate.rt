//! Where a lane can be held between the step of a body and its commit.

/// What a worker calls after a body's step and before its commit. No worker holds the lock then, so a gate
/// may hold a lane for as long as it likes: the others go on.
pub trait Gate {
    /// Called by the worker of a lane, from 1. `turn` counts the lane's jobs from 1.
    fn between(&self, lane: u32, turn: u64);
}

/// The gate that holds nobody.
#[derive(Debug, Clone, Copy)]
pub struct OpenGate;

impl Gate for OpenGate {
    fn between(&self, _lane: u32, _turn: u64) {}
}
