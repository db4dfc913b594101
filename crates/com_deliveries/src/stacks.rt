//! For each lane what stands open in it.
ghost use Rattle.std.specs.Prelude.{◌≡◌, ◌<◌, ℕ, ◌∷◌, ◌++◌, [], OnOk, length, slice_index_or, slice_set};
ghost use Rattle.com_deliveries.specs.Rows.{closed_in, opened_in, stack_in, top_in, without_top};

use com_base::Memory;
use std::alloc::Global;
use std::marker::Model;

// The calls of what stands open in a lane, the innermost first, 0 for what is no body.
#[derive(Debug, Drop)]
pub(crate) struct Open {
    calls: Vec<u32>,
}

impl Model for Open {
    ghost use Rattle.std.specs.Prelude.{ℕ, List, reverse};

    ghost Value = { List ℕ };

    ghost view = { λ o. reverse o.calls.items };
}

impl Open {
    /// Nothing stands open. It takes no memory.
    pub fn new(alloc: Global) -> Open
        ensures { result ≡ [] }
    {
        Open {
            calls: Vec::new(alloc),
        }
    }

    /// The innermost, 0 where there is none.
    #[tactic(auto, using(crate::proofs::Stacked::top_of_last, crate::proofs::Stacked::top_of_none))]
    pub fn top(&self) -> u32
        ensures { result ≡ top_in self.now }
    {
        match self.calls.as_slice().split_last() {
            None => 0,
            Some((call, _)) => *call,
        }
    }

    /// Something more stands open.
    #[tactic(auto, using(crate::proofs::Stacked::reversed_more))]
    pub fn push(&mut self, call: u32) -> Result<(), Memory>
        ensures { OnOk result (self.new ≡ call ∷ self.old) }
    {
        self.calls.push(call)?;
        Ok(())
    }

    /// The innermost is closed.
    #[tactic(auto, using(crate::proofs::Stacked::popped))]
    pub fn pop(&mut self)
        ensures { self.new ≡ without_top self.old }
    {
        self.calls.pop();
    }
}

// The innermost in a lane, 0 where there is none.
pub(crate) fn top(lanes: &[Open], lane: u32) -> u32
    ensures { result ≡ top_in (stack_in lanes.now lane) }
{
    if lane as usize >= lanes.len() {
        return 0;
    }
    lanes[lane as usize].top()
}

// Something more stands open in a lane.
pub(crate) fn push(alloc: Global, lanes: &mut Vec<Open>, lane: u32, call: u32) -> Result<(), Memory>
    ensures { OnOk result (lanes.new.items ≡ opened_in lane call lanes.old.items) }
{
    make_room(alloc, lanes, lane)?;
    push_at(lanes, lane as usize, call)
}

// Adds lanes in which nothing stands open, until there is one of this number.
#[tactic(auto, using(crate::proofs::Stacked::opened_further))]
fn make_room(alloc: Global, lanes: &mut Vec<Open>, lane: u32) -> Result<(), Memory>
    ensures room { OnOk result (lane < length lanes.new.items) }
    ensures same { OnOk result ((call : ℕ)
        → opened_in lane call lanes.new.items ≡ opened_in lane call lanes.old.items) }
{
    'lanes: while lanes.len() <= lane as usize {
        add_lane(alloc, lanes)?;
    }
    Ok(())
}

// Adds one lane in which nothing stands open.
fn add_lane(alloc: Global, lanes: &mut Vec<Open>) -> Result<(), Memory>
    ensures { OnOk result (lanes.new.items ≡ lanes.old.items ++ ([] ∷ [])) }
{
    lanes.push(Open::new(alloc))?;
    Ok(())
}

// Something more stands open in a lane that is there already.
#[tactic(auto, using(crate::proofs::Stacked::opened_to))]
fn push_at(lanes: &mut [Open], lane: usize, call: u32) -> Result<(), Memory>
    requires { lane < length lanes.old }
    ensures { OnOk result (lanes.new ≡ opened_in lane call lanes.old) }
{
    push_row(lanes, lane, call)?;
    Ok(())
}

// Puts a call on top of what stands open in one of the lanes.
fn push_row(lanes: &mut [Open], lane: usize, call: u32) -> Result<(), Memory>
    requires { lane < length lanes.old }
    ensures { OnOk result (lanes.new ≡ slice_set lanes.old lane (call ∷ slice_index_or lanes.old lane [])) }
{
    lanes[lane].push(call)
}

// The innermost is closed.
#[tactic(auto, using(crate::proofs::Stacked::closed_to, crate::proofs::Stacked::closed_past))]
pub(crate) fn pop(lanes: &mut [Open], lane: u32)
    ensures { lanes.new ≡ closed_in lane lanes.old }
{
    if lane as usize >= lanes.len() {
        return;
    }
    pop_row(lanes, lane as usize);
}

// Closes the innermost in one of the lanes.
fn pop_row(lanes: &mut [Open], lane: usize)
    requires { lane < length lanes.old }
    ensures { lanes.new ≡ slice_set lanes.old lane (without_top (slice_index_or lanes.old lane [])) }
{
    lanes[lane].pop();
}
