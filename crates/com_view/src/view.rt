//! The parts of a core, by reference.

use com_calls::Calls;
use com_lanes::Lanes;
use com_model::Scenario;
use com_objects::{DyingQueue, Objects};
use com_scene::Scene;
use std::marker::Model;

/// The parts of a core that the rules of a lane's next entry look at, by reference.
#[derive(Drop)]
pub struct View<'a> {
    /// What the scenario says.
    pub scenario: &'a Scenario,
    /// The lanes.
    pub lanes: &'a Lanes,
    /// The objects.
    pub objects: &'a Objects,
    /// The calls and their inboxes.
    pub calls: &'a Calls,
    /// What frames, cells and buffers hold.
    pub scene: &'a Scene,
    /// The objects that wait for their Final.
    pub fallen: &'a DyingQueue,
    /// The clock, in milliseconds.
    pub clock: u64,
}

impl<'a> Model for View<'a> {
    ghost use Rattle.com_view.specs.Seen.{Seen};

    ghost Value = { Seen };

    ghost view = { λ w. record {
      scenario = w.scenario.now;
      lanes = w.lanes.now.tables;
      objects = w.objects.now.tables;
      calls = w.calls.now;
      scene = w.scene.now.tables;
      fallen = w.fallen.now.objects;
      clock = w.clock;
    } };
}
