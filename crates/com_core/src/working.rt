//! The steps of bodies as jobs, and the entries that need no servant.

ghost use Rattle.std.specs.Prelude.{◌≡◌, ℕ, ◌+◌, ◌<◌, ◌≤◌, ◌↔◌, IfErr, IfOk, IfSome, IsSome, IsTrue, OnErr, OnOk};
ghost use Rattle.std.specs.Prelude.{Some, false, true};
ghost use Rattle.com_calls.specs.Kept.{IsNamed};
ghost use Rattle.com_core.specs.Nexts.{FitsTop, kept_top};
ghost use Rattle.com_core.specs.Seen.{IsAsBefore, IsWhole as IsWholeCore, TurnsTo, core_state, kept_of};
ghost use Rattle.com_core.specs.Sound.{Few, Sound};
ghost use Rattle.com_core.specs.Stands.{seen_by};
ghost use Rattle.com_runtime.specs.Jobs.{Fits, IsGivenBack, IsRefused, job_of, kept_in};
ghost use Rattle.com_runtime.specs.Standings.{can_step_in};
ghost use Rattle.com_ledger.specs.Ties.{Ties};
ghost use Rattle.com_refs_rows.specs.Books.{books_held};
ghost use Rattle.com_model.specs.declared.keeps.Opener.TheVariants.{Enters};
ghost use Rattle.com_model.specs.Clock.{ticked};
ghost use Rattle.com_model.specs.Ends.{limit};
ghost use Rattle.com_model.specs.Lists.{first};
ghost use Rattle.com_model.specs.Openers.{is_body};
ghost use Rattle.com_model.specs.Tables.{lanes};
ghost use Rattle.com_reference_moves.specs.Steps.{IsWhole};
ghost use Rattle.com_scene.specs.Kept.{HasSlots};
ghost use Rattle.com_servant.specs.Steps.{IsOfItsClass, job_step};
ghost use Rattle.com_state.specs.Parts.{openers_at};
ghost use Rattle.com_turns.specs.Turns.{IsTurn, body_seen};

use crate::running::{Running, forget};
use com_base::Memory;
use com_body::{Cells, Job, Outcome};
use com_model::{Entry, Opener, Scenario};
use com_runtime::CommitError;
use com_turns::{Turn, fits_work, given_turn, own_turn, same_cells, work_of};
use std::alloc::Global;

// The step of an entry that found no memory. It has a function of its own, since it is wide.
#[inline(never)]
fn given_back(step: Option<Outcome>) -> Outcome
    requires { IsSome step }
    ensures { IfSome step (λ outcome. result ≡ outcome) }
{
    let Some(outcome) = step else { unreachable!() };
    outcome
}

impl Running {
    /// The step of the body that acts in a lane, as a job. The only error is want of memory.
    #[tactic(auto, using(crate::proofs::Whole::bodies_whole, crate::proofs::Worked::job_read))]
    pub fn job(&self, scenario: &Scenario, alloc: Global, lane: u32) -> Result<Job, Memory>
        requires sound { Sound self.now.parts self.now.entered.counts }
        requires core { IsWholeCore (kept_of scenario.now self.now) }
        requires body { is_body (first (openers_at self.now.parts.lanes lane)) ≡ true }
        ensures job { IfOk result (λ job.
            job_of scenario.now (core_state (kept_of scenario.now self.now)) lane ≡ Some job) }
        ensures class { IfOk result (λ job. IsOfItsClass scenario.now.classes job) }
    {
        let view = self.view(scenario);
        let Some(Opener::Enters { call, object, .. }) = view.lanes.top(lane) else {
            unreachable!()
        };
        work_of(&view, alloc, call, object)
    }

    /// Whether a job is that of the body that acts in a lane, but for its cells.
    pub fn fits(&self, scenario: &Scenario, lane: u32, job: &Job) -> bool
        ensures { IsTrue result ↔ FitsTop
            (seen_by scenario.now self.now.parts self.now.fallen.objects self.now.clock)
            (first (openers_at self.now.parts.lanes lane)) job.now }
    {
        let view = self.view(scenario);
        match view.lanes.top(lane) {
            Some(Opener::Enters { call, object, .. }) => fits_work(&view, call, object, job),
            _ => false,
        }
    }

    // The cells of the object whose body is innermost in a lane.
    fn cells_of(&self, lane: u32) -> Cells
        ensures { result ≡ kept_top self.now.parts.scene (first (openers_at self.now.parts.lanes lane)) }
    {
        match self.parts.lanes().top(lane) {
            Some(Opener::Enters { object, .. }) => self.parts.scene().cells(object),
            _ => Cells::new(),
        }
    }

    // The turn of a lane in which a body acts, by a step that was computed before. The only error is want of
    // memory.
    fn given_turn_of(
        &self,
        scenario: &Scenario,
        alloc: Global,
        lane: u32,
        outcome: &Outcome,
    ) -> Result<Turn, Memory>
        requires core { IsWholeCore (kept_of scenario.now self.now) }
        requires room { self.now.parts.entries < limit scenario.now }
        requires body { is_body (first (openers_at self.now.parts.lanes lane)) ≡ true }
        requires step { (c o a : ℕ) → first (openers_at self.now.parts.lanes lane) ≡ Some (Enters c o a)
            → outcome.now
            ≡ body_seen (seen_by scenario.now self.now.parts self.now.fallen.objects self.now.clock) c o }
        ensures named { IsNamed self.now.parts.objects self.now.parts.calls }
        ensures turn { IfOk result (λ made. IsTurn
            (seen_by scenario.now self.now.parts self.now.fallen.objects self.now.clock)
            (books_held self.now.ledger) lane (Some outcome.now) made) }
    {
        let view = self.view(scenario);
        given_turn(&view, &self.ledger, alloc, lane, outcome)
    }

    // Makes the entry of a lane in which a body acts, by a step that was computed before. Where memory is
    // wanting the step comes back.
    #[tactic(auto, using(crate::proofs::Shown::as_before))]
    fn take(
        &mut self,
        scenario: &Scenario,
        alloc: Global,
        lane: u32,
        outcome: Outcome,
        entry: &mut Entry,
    ) -> Result<(), Outcome>
        requires sound { Sound self.old.parts self.old.entered.counts }
        requires few { Few self.old.parts }
        requires core { IsWholeCore (kept_of scenario.now self.old) }
        requires ties { Ties scenario.now (core_state (kept_of scenario.now self.old)) self.old.ledger }
        requires above { 1 ≤ lane }
        requires below { lane ≤ lanes scenario.now }
        requires room { self.old.parts.entries < limit scenario.now }
        requires whole { HasSlots outcome.frame }
        requires body { is_body (first (openers_at self.old.parts.lanes lane)) ≡ true }
        requires step { (c o a : ℕ) → first (openers_at self.old.parts.lanes lane) ≡ Some (Enters c o a)
            → outcome ≡ body_seen
            (seen_by scenario.now self.old.parts self.old.fallen.objects self.old.clock) c o }
        ensures few { Few self.new.parts }
        ensures sound { Sound self.new.parts self.new.entered.counts }
        ensures next { OnOk result (TurnsTo scenario.now lane self.old self.new entry.new) }
        ensures err { OnErr result (IsAsBefore self.old self.new) }
        ensures back { IfErr result (λ step. step ≡ outcome) }
    {
        let Ok(mut turn) = self.given_turn_of(scenario, alloc, lane, &outcome) else {
            return Err(outcome);
        };
        let mut step = Some(outcome);
        match self.make_turn(scenario, lane, &mut turn, &mut step, entry) {
            Ok(()) => Ok(()),
            Err(_) => Err(given_back(step)),
        }
    }

    /// Makes the next entry of a lane in which a body acts, by the outcome of a job that fits it, in the place of
    /// another entry. `Stale` comes where the object's cells are others than the job's.
    #[tactic(auto, using(crate::proofs::Shown::as_before))]
    pub fn commit(
        &mut self,
        scenario: &Scenario,
        alloc: Global,
        lane: u32,
        job: Job,
        outcome: Outcome,
        entry: &mut Entry,
    ) -> Result<(), CommitError>
        requires sound { Sound self.old.parts self.old.entered.counts }
        requires few { Few self.old.parts }
        requires core { IsWholeCore (kept_of scenario.now self.old) }
        requires ties { Ties scenario.now (core_state (kept_of scenario.now self.old)) self.old.ledger }
        requires above { 1 ≤ lane }
        requires below { lane ≤ lanes scenario.now }
        requires room { self.old.parts.entries < limit scenario.now }
        requires fits { Fits scenario.now (core_state (kept_of scenario.now self.old)) lane job }
        requires outcome { outcome ≡ job_step scenario.now.classes job }
        ensures few { Few self.new.parts }
        ensures sound { Sound self.new.parts self.new.entered.counts }
        ensures next { OnOk result (TurnsTo scenario.now lane self.old self.new entry.new) }
        ensures fresh { OnOk result
            (job.cells ≡ kept_in (core_state (kept_of scenario.now self.old)) lane) }
        ensures refused { IfErr result (λ error.
            IsRefused (kept_in (core_state (kept_of scenario.now self.old)) lane) job error) }
        ensures back { IfErr result (IsGivenBack job outcome) }
        ensures err { OnErr result (IsAsBefore self.old self.new) }
    {
        let kept = self.cells_of(lane);
        if !same_cells(&job.cells, &kept) {
            return Err(CommitError::Stale { job, kept });
        }
        match self.take(scenario, alloc, lane, outcome, entry) {
            Ok(()) => Ok(()),
            Err(outcome) => Err(CommitError::Memory { job, outcome }),
        }
    }

    // Makes the turn of a lane that can step, in which no body is innermost, in the place of another.
    fn own_turn_of(
        &self,
        scenario: &Scenario,
        alloc: Global,
        lane: u32,
        step: &mut Option<Outcome>,
        turn: &mut Turn,
    ) -> Result<(), Memory>
        requires none { step.old ≡ None }
        requires core { IsWholeCore (kept_of scenario.now self.now) }
        requires body { is_body (first (openers_at self.now.parts.lanes lane)) ≡ false }
        requires can { can_step_in scenario.now (core_state (kept_of scenario.now self.now)) lane ≡ true }
        requires room { self.now.parts.entries < limit scenario.now }
        ensures whole { IsWhole step.new }
        ensures named { IsNamed self.now.parts.objects self.now.parts.calls }
        ensures turn { OnOk result (IsTurn
            (seen_by scenario.now self.now.parts self.now.fallen.objects self.now.clock)
            (books_held self.now.ledger) lane step.new turn.new) }
    {
        let view = self.view(scenario);
        let made = own_turn(&view, &self.ledger, alloc, lane, step, turn)?;
        if made {
            return Ok(());
        }
        unreachable!()
    }

    // Makes the next entry of such a lane by its turn, which is that of a script. It has a function of its own, since a
    // turn is wide.
    #[inline(never)]
    #[tactic(auto, using(crate::proofs::Shown::as_before))]
    fn advance_by_turn(
        &mut self,
        scenario: &Scenario,
        alloc: Global,
        lane: u32,
        step: &mut Option<Outcome>,
        entry: &mut Entry,
    ) -> Result<(), Memory>
        requires none { step.old ≡ None }
        requires sound { Sound self.old.parts self.old.entered.counts }
        requires few { Few self.old.parts }
        requires core { IsWholeCore (kept_of scenario.now self.old) }
        requires ties { Ties scenario.now (core_state (kept_of scenario.now self.old)) self.old.ledger }
        requires above { 1 ≤ lane }
        requires below { lane ≤ lanes scenario.now }
        requires body { is_body (first (openers_at self.old.parts.lanes lane)) ≡ false }
        requires can { can_step_in scenario.now (core_state (kept_of scenario.now self.old)) lane ≡ true }
        requires room { self.old.parts.entries < limit scenario.now }
        ensures few { Few self.new.parts }
        ensures sound { Sound self.new.parts self.new.entered.counts }
        ensures next { OnOk result (TurnsTo scenario.now lane self.old self.new entry.new) }
        ensures err { OnErr result (IsAsBefore self.old self.new) }
    {
        let mut turn = Turn::nothing(alloc);
        self.own_turn_of(scenario, alloc, lane, step, &mut turn)?;
        self.make_turn(scenario, lane, &mut turn, step, entry)
    }

    /// Makes the next entry of a lane that can step, in which no body is innermost, in the place of another
    /// entry. The step of the entry before, which lies in `step`, makes room for that of this one. The only
    /// error is want of memory.
    #[tactic(auto, using(crate::proofs::Shown::as_before))]
    pub fn advance(
        &mut self,
        scenario: &Scenario,
        alloc: Global,
        lane: u32,
        step: &mut Option<Outcome>,
        entry: &mut Entry,
    ) -> Result<(), Memory>
        requires sound { Sound self.old.parts self.old.entered.counts }
        requires few { Few self.old.parts }
        requires core { IsWholeCore (kept_of scenario.now self.old) }
        requires ties { Ties scenario.now (core_state (kept_of scenario.now self.old)) self.old.ledger }
        requires above { 1 ≤ lane }
        requires below { lane ≤ lanes scenario.now }
        requires body { is_body (first (openers_at self.old.parts.lanes lane)) ≡ false }
        requires can { can_step_in scenario.now (core_state (kept_of scenario.now self.old)) lane ≡ true }
        requires room { self.old.parts.entries < limit scenario.now }
        ensures few { Few self.new.parts }
        ensures sound { Sound self.new.parts self.new.entered.counts }
        ensures next { OnOk result (TurnsTo scenario.now lane self.old self.new entry.new) }
        ensures err { OnErr result (IsAsBefore self.old self.new) }
    {
        forget(step);
        if self.is_ruled(scenario, lane) {
            return self.advance_by_rule(scenario, alloc, lane, step, entry);
        }
        self.advance_by_turn(scenario, alloc, lane, step, entry)
    }
}
