//! What an entry changes beside the step of whoever acts.
ghost use Rattle.std.specs.Prelude.{◌≡◌, if◌then◌else◌, Some, None, [], ◌∷◌, fold, replicate, slice_index_or};
ghost use Rattle.com_base.specs.declared.limits.TheConstants.{SLOT_COUNT};
ghost use Rattle.com_body.specs.Bodies.{IsDestination};
ghost use Rattle.com_body.specs.Frames.{entered};
ghost use Rattle.com_model.specs.Frames.{to_answer, to_destination};
ghost use Rattle.com_model.specs.Lists.{each_from};
ghost use Rattle.com_state.specs.SceneParts.{body_at, script_at, cells_at, destination_at, with_body};
ghost use Rattle.com_state.specs.SceneParts.{with_script};
ghost use Rattle.com_state.specs.SceneParts.{with_cells, row_written, without_links, links_cut};
ghost use Rattle.com_scene.specs.Actors.{acting_of};
ghost use Rattle.com_scene.specs.Kept.{IsKept};
ghost use Rattle.com_scene.specs.Seen.{seen, seat_of, seats_of, HasSeat, HasSeatFor};
ghost use Rattle.com_scene.specs.Steps.{cut_by, frame_with};

use crate::actor::Actor;
use crate::tables::{Seat, Tables, clear_slots, receive};
use com_base::{HResult, Value};
use com_body::{Cells, Destination};

// Makes the links of an object null, where they are to be cut.
fn cut_if(cells: &mut Cells, is_cut: bool)
    ensures { cells.new ≡ (if is_cut then without_links cells.old else cells.old) }
{
    if is_cut {
        cells.links = [None; 4];
    }
}

// The apartment of an object by the list of owners, and 0 beyond it.
fn owner(owners: &[u32], object: usize) -> u32
    ensures { result ≡ slice_index_or owners.now object 0 }
{
    if object < owners.len() {
        return owners[object];
    }
    0
}

// Makes the links of all objects of an apartment null.
#[tactic(auto, using(crate::proofs::CutLemmas::each_all, crate::proofs::CutLemmas::each_length))]
fn cut(cells: &mut Vec<Cells>, apartment: u32, owners: &[u32])
    ensures { cells.new.items ≡ each_from (cut_by owners.now apartment) 0 cells.old.items }
{
    let count = cells.len();
    for object in 0..count {
        let is_cut = owner(owners, object) == apartment;
        cut_if(&mut cells[object], is_cut);
    }
}

#[tactic(auto, using(crate::proofs::RowLemmas::set_beyond, crate::proofs::RowLemmas::map_set, crate::proofs::RowLemmas::map_kept, crate::proofs::RowLemmas::map_length))]
impl Tables {
    // The body of a call is given an HRESULT, and the result of a call of its own, in its own frame, or in
    // the spare one.
    fn give_body(
        &mut self,
        call: u32,
        hr: HResult,
        to: Destination,
        value: Option<Value>,
        spare: &mut Option<Seat>,
    )
        requires to { IsDestination to }
        requires seat { HasSeat (seats_of self.old.calls.items) call spare.old }
        requires fresh { seat_of spare.old ≡ entered [] }
        ensures { seen self.new ≡ with_body (seen self.old) call
            (fold frame_with (body_at (seen self.old) call) (to_answer hr ∷ to_destination to value)) }
    {
        if (call as usize) < self.calls.len() {
            let row = &mut self.calls[call as usize];
            row.receive(hr, to, value, spare);
        }
    }

    // A script is given an HRESULT, and the result of a call of its own.
    fn give_script(&mut self, lane: u32, hr: HResult, to: Destination, value: Option<Value>)
        requires { IsDestination to }
        ensures { seen self.new ≡ with_script (seen self.old) lane
            (fold frame_with (script_at (seen self.old) lane) (to_answer hr ∷ to_destination to value)) }
    {
        if (lane as usize) < self.scripts.len() {
            receive(&mut self.scripts[lane as usize], hr, to, value);
        }
    }

    /// Whoever acts is given an HRESULT, and the result of a call of its own. A body without frame takes the
    /// spare one.
    #[tactic(auto, using(crate::proofs::GiveLemmas::given_nobody))]
    pub fn give(
        &mut self,
        after: Actor,
        hr: HResult,
        to: Destination,
        value: Option<Value>,
        spare: &mut Option<Seat>,
    )
        requires to { IsDestination to }
        requires seat { HasSeatFor (seats_of self.old.calls.items) (acting_of after) spare.old }
        requires fresh { seat_of spare.old ≡ entered [] }
        ensures { seen self.new
            ≡ fold (row_written (acting_of after)) (seen self.old) (to_answer hr ∷ to_destination to value) }
    {
        match after {
            Actor::Body { call, .. } => self.give_body(call, hr, to, value, spare),
            Actor::Script { lane } => self.give_script(lane, hr, to, value),
            Actor::Nobody => {}
        }
    }

    /// Makes the slots of a script null.
    pub fn clear_script(&mut self, lane: u32)
        requires { IsKept (seen self.old) }
        ensures { seen self.new ≡ with_script (seen self.old) lane
            (record (script_at (seen self.old) lane) { slots = replicate SLOT_COUNT None }) }
    {
        if (lane as usize) < self.scripts.len() {
            clear_slots(&mut self.scripts[lane as usize]);
        }
    }

    /// Makes the links of an object null.
    pub fn clear_links(&mut self, object: u32)
        ensures { seen self.new
            ≡ with_cells (seen self.old) object (without_links (cells_at (seen self.old) object)) }
    {
        if (object as usize) < self.cells.len() {
            let row = &mut self.cells[object as usize];
            row.links = [None; 4];
        }
    }

    /// Makes the links of all objects of an apartment null. The list has the apartment of each object, from
    /// 0.
    pub fn cut_links(&mut self, apartment: u32, owners: &[u32])
        ensures { seen self.new
            ≡ links_cut (λ o. slice_index_or owners.now o 0) (Some apartment) (seen self.old) }
    {
        cut(&mut self.cells, apartment, owners);
    }

    /// Where the result of a call goes, and nowhere for a call without row.
    pub fn destination(&self, call: u32) -> Destination
        ensures { result ≡ destination_at (seen self.now) call }
    {
        if (call as usize) < self.calls.len() {
            return self.calls[call as usize].destination;
        }
        Destination::Nowhere
    }
}
