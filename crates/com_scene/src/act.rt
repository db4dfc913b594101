//! The step of whoever acts: its frame and cells, and what the entry writes.
ghost use Rattle.std.specs.Prelude.{◌≡◌, Some};
ghost use Rattle.com_scene.specs.Actors.{acting_of};
ghost use Rattle.com_scene.specs.Kept.{IsStep};
ghost use Rattle.com_scene.specs.Prepared.{packet_in, IsTaken};
ghost use Rattle.com_scene.specs.Ranges.{FitsDeed};
ghost use Rattle.com_scene.specs.Seen.{seen, seats_of, HasSeatFor, KeepsSeats};
ghost use Rattle.com_scene.specs.Steps.{acted, stepped};

use crate::actor::Actor;
use crate::tables::{Seat, Tables};
use crate::writes::{Bytes, Writes, wanted_by};
use com_base::ByteList;
use com_body::{Cells, Frame, Outcome};
use com_model::Deed;

impl Tables {
    // Whoever acts goes on to a frame and cells, and puts bytes in a buffer. The frame that was there before
    // comes in the place of the given one. A body without frame takes the spare one.
    fn step(
        &mut self,
        acting: Actor,
        frame: &mut Frame,
        cells: &Cells,
        bytes: Option<Bytes>,
        spare: &mut Option<Seat>,
    )
        requires seat { HasSeatFor (seats_of self.old.calls.items) (acting_of acting) spare.old }
        ensures tables { seen self.new ≡ stepped acting frame.old cells.now bytes (seen self.old) }
        ensures seats { KeepsSeats (seats_of self.old.calls.items) (seats_of self.new.calls.items) }
    {
        match acting {
            Actor::Body { call, object } => {
                self.place(call, frame, spare);
                self.set_cells(object, *cells);
                self.set_bytes(bytes);
            }
            Actor::Script { lane } => {
                self.set_script(lane, frame);
                self.set_bytes(bytes);
            }
            Actor::Nobody => {}
        }
    }

    // The step of whoever acts, and what the entry writes for it. The step is used where it lies. It is a
    // function of its own: most entries are nobody's step, and would make room here for a frame.
    #[inline(never)]
    #[tactic(auto, using(crate::proofs::StepLemmas::acted_is))]
    fn go_on(
        &mut self,
        acting: Actor,
        outcome: &mut Outcome,
        deed: &Deed,
        spare: &mut Option<Seat>,
        packet: &mut Option<ByteList>,
    )
        requires deed { FitsDeed deed.now }
        requires step { IsStep (acting_of acting) (Some outcome.old) }
        requires seat { HasSeatFor (seats_of self.old.calls.items) (acting_of acting) spare.old }
        requires packet { IsTaken (packet_in deed.now) packet.old }
        ensures tables { seen self.new ≡ acted acting (Some outcome.old) deed.now (seen self.old) }
        ensures seats { KeepsSeats (seats_of self.old.calls.items) (seats_of self.new.calls.items) }
    {
        let wanted = wanted_by(&outcome.action, deed);
        let writes = Writes::of(&mut outcome.action, deed, packet);
        let bytes = writes.put(&mut outcome.frame, &mut outcome.cells);
        self.step(acting, &mut outcome.frame, &outcome.cells, bytes, spare);
        self.want(wanted);
    }

    /// The step of whoever acts, where it makes the entry. A body without frame takes the spare one, and the
    /// packet is what the entry made. What is left of the step has no use any more.
    pub fn act(
        &mut self,
        acting: Actor,
        outcome: &mut Option<Outcome>,
        deed: &Deed,
        spare: &mut Option<Seat>,
        packet: &mut Option<ByteList>,
    )
        requires deed { FitsDeed deed.now }
        requires step { IsStep (acting_of acting) outcome.old }
        requires seat { HasSeatFor (seats_of self.old.calls.items) (acting_of acting) spare.old }
        requires packet { IsTaken (packet_in deed.now) packet.old }
        ensures tables { seen self.new ≡ acted acting outcome.old deed.now (seen self.old) }
        ensures seats { KeepsSeats (seats_of self.old.calls.items) (seats_of self.new.calls.items) }
    {
        match outcome {
            Some(outcome) => self.go_on(acting, outcome, deed, spare, packet),
            None => {}
        }
    }
}
