//! All that a core keeps of a history beside its scenario, and how it is read.

ghost use Rattle.std.specs.Prelude.{◌≡◌, ◌∷◌, [], IfOk, None};
ghost use Rattle.com_calls.specs.Kept.{IsNamed};
ghost use Rattle.com_core.specs.Beginning.{BeginsParts};
ghost use Rattle.com_core.specs.Sound.{Few, Sound};
ghost use Rattle.com_refs_rows.specs.Books.{books_held};
ghost use Rattle.com_ledger.specs.Ties.{IsNew};
ghost use Rattle.com_model.specs.Ends.{state_of};
ghost use Rattle.com_model.specs.Lists.{is_member};
ghost use Rattle.com_model.specs.Tables.{lanes as all_lanes};

use com_base::Memory;
use com_body::Outcome;
use com_ledger::Ledger;
use com_model::{ObjectState, Scenario};
use com_objects::{DyingQueue, Entered};
use com_parts::Parts;
use com_reference_moves::Moves;
use com_view::{References, View};
use std::alloc::Global;

/// What a core keeps of a history: the parts, who holds references, how many bodies of each object run, the
/// dying objects, and the clock in milliseconds. `moves` and `fresh` are used again from entry to entry: what
/// they hold between two entries means nothing.
#[derive(Drop)]
pub struct Running {
    pub parts: Parts,
    pub ledger: Ledger,
    pub entered: Entered,
    pub fallen: DyingQueue,
    pub moves: Moves,
    pub fresh: Vec<u32>,
    pub clock: u64,
}

// The counts of running bodies before the first entry: object 0 is none, and has a row.
fn no_bodies(alloc: Global) -> Result<Entered, Memory>
    ensures { IfOk result (λ entered. entered.counts ≡ 0 ∷ []) }
{
    let mut entered = Entered::new(alloc);
    entered.reserve()?;
    entered.make();
    Ok(entered)
}

// Forgets a step. It has a function of its own, since a step is wide.
#[inline(never)]
fn drop_step(step: &mut Option<Outcome>)
    ensures { step.new ≡ None }
{
    *step = None;
}

/// Forgets a step, where there is one. `None` is written only then: it is as wide as a step.
#[inline(always)]
pub fn forget(step: &mut Option<Outcome>)
    ensures { step.new ≡ None }
{
    if step.is_some() {
        drop_step(step);
    }
}

impl Running {
    /// All before the first entry of a scenario, which has so many lanes. The only error is want of memory.
    #[tactic(auto, using(crate::proofs::Whole::new_whole, crate::proofs::Runs::none_run, crate::proofs::Runs::none_made))]
    pub fn new(alloc: Global, scenario: &Scenario, lanes: u32) -> Result<Running, Memory>
        requires { lanes ≡ all_lanes scenario.now }
        ensures sound { IfOk result (λ running. Sound running.parts running.entered.counts) }
        ensures stands { IfOk result (λ running.
            BeginsParts scenario.now running.parts running.fallen.objects) }
        ensures held { IfOk result (λ running. IsNew running.ledger) }
        ensures entered { IfOk result (λ running. running.entered.counts ≡ 0 ∷ []) }
        ensures few { IfOk result (λ running. Few running.parts) }
        ensures entries { IfOk result (λ running. running.parts.entries ≡ 0) }
        ensures clock { IfOk result (λ running. running.clock ≡ 0) }
    {
        let parts = Parts::new(alloc, scenario, lanes)?;
        let entered = no_bodies(alloc)?;
        Ok(Running {
            parts,
            ledger: Ledger::new(alloc),
            entered,
            fallen: DyingQueue::new(alloc),
            moves: Moves::new(alloc),
            fresh: Vec::new(alloc),
            clock: 0,
        })
    }

    /// What the rules look at. The apartment that is kept of a call is that of its target.
    pub fn view<'a>(&'a self, scenario: &'a Scenario) -> View<'a>
        ensures value { result ≡ record {
          scenario = scenario.now;
          lanes = self.now.parts.lanes;
          objects = self.now.parts.objects;
          calls = self.now.parts.calls;
          scene = self.now.parts.scene;
          fallen = self.now.fallen.objects;
          clock = self.now.clock;
        } }
        ensures named { IsNamed self.now.parts.objects self.now.parts.calls }
    {
        View {
            scenario,
            lanes: self.parts.lanes(),
            objects: self.parts.objects(),
            calls: self.parts.calls(),
            scene: self.parts.scene(),
            fallen: &self.fallen,
            clock: self.clock,
        }
    }

    /// Whether an object is connected, or else whether it was released.
    pub fn state(&self, object: u32) -> ObjectState
        ensures { result ≡ state_of (is_member object self.now.parts.objects.finaled)
            ((books_held self.now.ledger).live object) }
    {
        if self.parts.objects().is_released(object) {
            return ObjectState::Released;
        }
        if self.ledger.is_connected(object) {
            ObjectState::Live
        } else {
            ObjectState::Disconnected
        }
    }
}
