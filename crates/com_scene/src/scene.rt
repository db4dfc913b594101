//! The scene, as contracts of the core see it.
ghost use Rattle.std.specs.Prelude.{◌≡◌, ℕ, IfOk, IfSome, OnOk, MatchOption, [], slice_index_or};
ghost use Rattle.com_body.specs.Frames.{entered};
ghost use Rattle.com_model.specs.Apartments.{ends_sta};
ghost use Rattle.com_state.specs.SceneParts.{cells_at, destination_at, rows_after};
ghost use Rattle.com_scene.specs.Actors.{acting_of};
ghost use Rattle.com_scene.specs.Kept.{FitsActor, IsStep, NamesOwners};
ghost use Rattle.com_scene.specs.Prepared.{IsPrepared};
ghost use Rattle.com_scene.specs.Ranges.{FitsDeed};
ghost use Rattle.com_scene.specs.Scenes.{new_scene, frame_of};

use crate::actor::{ActedEntry, Actor};
use crate::prepare::Taken;
use crate::tables::Tables;
use com_base::Memory;
use com_body::{Cells, Destination, Frame, Outcome};
use com_model::Deed;
use std::alloc::Global;
use std::marker::Model;

/// What the scripts of threads, the bodies of calls, the objects and the packet buffers hold, and where the
/// result of each call goes. Scripts are numbered by lane, and calls and objects from 1; there are 64
/// buffers. Contracts see it as the tables of the state's definition, beside what has room: which calls have
/// a frame of their own, for how many more calls and objects there is a row, and what was taken for the entry
/// that comes.
///
/// A body that has not begun, or has left, has no frame of its own, and a call's row is small then. It reads
/// as the frame of a body that was entered without values.
#[derive(Drop)]
pub struct Scene {
    tables: Tables,
    taken: Taken,
}

impl Model for Scene {
    ghost use Rattle.com_scene.specs.Rooms.{SceneRows, room_of};
    ghost use Rattle.com_scene.specs.Seen.{seen};
    ghost use Rattle.com_scene.specs.Kept.{IsKept};

    ghost Value = { SceneRows };

    ghost view = { λ a. record {
      tables = seen a.tables;
      room = room_of a.tables;
      taken = a.taken;
    } };

    ghost invariant = { λ a. IsKept (seen a.tables) };
}

impl Scene {
    /// The scene before the first entry, with so many threads. The only error is want of memory.
    pub fn new(alloc: Global, threads: u32) -> Result<Scene, Memory>
        ensures { IfOk result (λ scene. scene.tables ≡ new_scene threads) }
    {
        Ok(Scene {
            tables: Tables::new(alloc, threads)?,
            taken: Taken::nothing(),
        })
    }

    /// The frame of whoever acts, where it has one of its own.
    pub fn frame(&self, actor: Actor) -> Option<&Frame>
        ensures frame { MatchOption result (frame_of self.now.tables (acting_of actor) ≡ entered [])
            (λ frame. frame.now ≡ frame_of self.now.tables (acting_of actor)) }
        ensures slots { IfSome result (λ frame. FitsActor (acting_of actor) frame.now) }
    {
        self.tables.frame(actor)
    }

    /// The cells of an object. Those of an object that was not made are zeros and nulls.
    pub fn cells(&self, object: u32) -> Cells
        ensures { result ≡ cells_at self.now.tables object }
    {
        self.tables.cells_of(object)
    }

    /// The bytes in a packet buffer, 0 to 63.
    pub fn buffer(&self, number: u8) -> &[u8]
        ensures { result.now ≡ slice_index_or self.now.tables.buffers number [] }
    {
        self.tables.buffer(number)
    }

    /// Where the result of a call goes, and nowhere for a call that was not issued.
    pub fn destination(&self, call: u32) -> Destination
        ensures { result ≡ destination_at self.now.tables call }
    {
        self.tables.destination(call)
    }

    /// Takes all memory that an entry needs, and keeps it for the entry. `acting` is who makes the entry by
    /// its step, and `after` who acts in the lane afterwards. The only error is want of memory. Whatever is
    /// answered, the scene stays as it is, but for room and for what was taken.
    pub fn prepare(&mut self, acting: Actor, after: Actor, deed: &Deed) -> Result<(), Memory>
        requires { FitsDeed deed.now }
        ensures same { self.new.tables ≡ self.old.tables }
        ensures ready { OnOk result (IsPrepared (acting_of acting) (acting_of after) deed.now self.new.room
            self.new.taken) }
    {
        self.tables.prepare(acting, after, deed, &mut self.taken)
    }

    /// The scene after an entry of a lane, for which memory was taken. It takes no memory. `outcome` has the
    /// step of whoever makes the entry by one. `owners` has the apartment that names the owner of each
    /// object, from 0, where the entry ends an STA; else it may be empty. The step is used where it lies, and
    /// what is left of it has no use any more.
    pub fn apply(&mut self, entry: &ActedEntry<'_>, outcome: &mut Option<Outcome>, owners: &[u32])
        requires deed { FitsDeed entry.now.deed.now }
        requires step { IsStep (acting_of entry.now.acting) outcome.old }
        requires ready { IsPrepared (acting_of entry.now.acting) (acting_of entry.now.after) entry.now.deed.now
            self.old.room self.old.taken }
        ensures { (named : ℕ → ℕ) → NamesOwners named (ends_sta entry.now.deed.now) owners.now →
            self.new.tables ≡ rows_after named (acting_of entry.now.acting) outcome.old
            (acting_of entry.now.after) (record { lane = entry.now.lane; deed = entry.now.deed.now })
            self.old.tables }
    {
        self.tables.apply(&mut self.taken, entry, outcome, owners)
    }
}
