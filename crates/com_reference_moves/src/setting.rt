//! What an entry rests on, by reference.

use com_body::Outcome;
use com_calls::Calls;
use com_objects::Objects;
use com_scene::{Actor, Scene};
use std::marker::Model;

/// What the moves of an entry rest on beside the entry: the tables before it, the home of its lane, who makes
/// it and with which outcome, and who acts in the lane after it.
#[derive(Drop)]
pub struct EntrySetting<'a> {
    /// The home apartment of the entry's lane. `None` where it has none.
    pub home: Option<u32>,
    /// The objects.
    pub objects: &'a Objects,
    /// The calls.
    pub calls: &'a Calls,
    /// What frames, cells and buffers hold.
    pub scene: &'a Scene,
    /// Who makes the entry by its step, and nobody where no step does.
    pub acting: Actor,
    /// The outcome of that step. `None` where no step makes the entry.
    pub outcome: &'a Option<Outcome>,
    /// Who acts in the lane after the entry.
    pub after: Actor,
}

impl<'a> Model for EntrySetting<'a> {
    ghost use Rattle.com_scene.specs.Actors.{acting_of};
    ghost use Rattle.com_reference_moves.specs.Tables.{SettingView};

    ghost Value = { SettingView };

    ghost view = { λ w. record {
      home = w.home;
      objects = w.objects.now.tables;
      calls = w.calls.now.tables;
      scene = w.scene.now.tables;
      acting = acting_of w.acting;
      outcome = w.outcome.now;
      after = acting_of w.after;
    } };
}
