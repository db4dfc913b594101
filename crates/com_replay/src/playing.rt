//! What a stream keeps, in one place.

use crate::course::Course;
use com_core::Core;
use com_model::Scenario;
use std::sync::Arc;

/// What a stream keeps: the scenario, the core that makes its entries, and where its schedule stands.
#[derive(Drop)]
pub struct Playing {
    /// The scenario, which the core shares.
    pub scenario: Arc<Scenario>,
    /// The core, which makes the entries.
    pub core: Core,
    /// Where the schedule stands.
    pub course: Course,
}

/// Drops what a stream keeps, and nothing else. All that a core keeps is laid out in the proof of each function
/// that drops one at its end; who calls this there leaves that to one proof.
pub fn end(_playing: Box<Playing>) {}
