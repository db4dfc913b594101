//! A runtime, and the history that it has made: what lies under the lock.
ghost use Rattle.std.specs.Prelude.{◌≡◌, ◌+◌, ◌<◌, ◌≤◌, false, IfOk, OnOk, None, length};
ghost use Rattle.com_runtime.specs.Standings.{standing_of};
ghost use Rattle.com_runtime.specs.declared.runtime.Standing.TheVariants as standing;
ghost use Rattle.com_runtime.specs.declared.jobs.Next.TheVariants as next;
ghost use Rattle.com_runtime.specs.Jobs.{next_in};
ghost use Rattle.com_model.specs.Ends.{limit};
ghost use Rattle.com_model.specs.Tables.{lanes};
ghost use Rattle.com_servant.specs.Steps.{job_step};
ghost use Rattle.com_threads.specs.Histories.{Adds, UpToDate};
ghost use Rattle.com_threads.specs.declared.desk.Turn.TheVariants as turn;
ghost use Rattle.com_threads.specs.Turns.{IsNextOf, IsWork};

use crate::pages::Pages;
use com_base::Memory;
use com_body::{Job, Outcome};
use com_model::Scenario;
use com_runtime::{CommitError, Jobs, Next, Standing};
use std::alloc::Global;

// How many entries of its own a lane makes at most before its worker leaves the lock, beside the one whose
// step was computed.
const OWN_ENTRIES: u32 = 64;

// What a worker finds for its lane.
#[derive(Debug, Clone, Copy, PartialEq, Eq)]
pub(crate) enum Turn {
    // The step of a body, to be computed outside of the lock. Its job lies in the worker's work.
    Works,
    // The lane may have more entries of its own to make.
    Goes,
    // The lane cannot step.
    Waits,
    // The lane is over, or the run is.
    Over,
}

// The job that a worker has taken, and what its servant computed for it. Both are wide, so they lie in one
// place from the worker's first turn to its last.
#[derive(Drop)]
pub(crate) struct Work {
    pub(crate) job: Option<Job>,
    pub(crate) step: Option<Result<Outcome, Memory>>,
}

impl Work {
    // No job.
    pub(crate) fn new() -> Work
        ensures { result ≡ record { job = None; step = None } }
    {
        Work {
            job: None,
            step: None,
        }
    }
}

// A runtime, and the history that it has made.
#[derive(Drop)]
pub(crate) struct Desk<C: Jobs + Drop> {
    pub(crate) core: C,
    pub(crate) pages: Pages,
}

impl<C: Jobs + Drop> Desk<C> {
    // Whether the history is as long as it may be.
    fn is_full(&self, scenario: &Scenario) -> bool
        requires { C.scenario self.now.core ≡ scenario.now }
        ensures { result ≡ false → (C.state self.now.core).entries < limit scenario.now }
    {
        self.core.entries() >= u64::from(scenario.limit())
    }

    // Makes the entry of a step that was computed outside. Nothing is made where the history is as long as it
    // may be, where the job is none of the lane's any more, or where its cells are no longer the object's.
    #[tactic(auto, using(crate::proofs::Added::reached_at, crate::proofs::Added::adds_none, crate::proofs::Added::adds_one, crate::proofs::Added::one_later, crate::proofs::Added::same_later, crate::proofs::Added::few_entries, crate::proofs::Added::row_of_next))]
    fn commit(
        &mut self,
        alloc: Global,
        scenario: &Scenario,
        lane: u32,
        job: Job,
        outcome: Outcome,
    ) -> Result<(), Memory>
        requires at { UpToDate scenario.now (C.scenario self.old.core) (C.state self.old.core)
            self.old.pages }
        requires lane { (1 ≤ lane) × (lane ≤ lanes scenario.now) }
        requires outcome { outcome ≡ job_step scenario.now.classes job }
        ensures at { OnOk result (UpToDate scenario.now (C.scenario self.new.core) (C.state self.new.core)
            self.new.pages) }
        ensures adds { Adds lane self.old.pages.entries self.new.pages.entries }
    {
        if self.is_full(scenario) {
            return Ok(());
        }
        if !self.core.fits(lane, &job) {
            return Ok(());
        }
        match self.core.commit(alloc, lane, job, outcome) {
            Ok(entry) => self.pages.write(entry),
            Err(CommitError::Stale { .. }) => Ok(()),
            Err(CommitError::Memory { .. }) => Err(Memory),
        }
    }

    // Makes an entry for which no servant is needed; that of lane 0 is the clock's.
    #[tactic(auto, using(crate::proofs::Added::reached_at, crate::proofs::Added::adds_none, crate::proofs::Added::adds_one, crate::proofs::Added::one_later, crate::proofs::Added::few_entries, crate::proofs::Added::row_of_next))]
    pub(crate) fn advance(
        &mut self,
        alloc: Global,
        scenario: &Scenario,
        lane: u32,
    ) -> Result<(), Memory>
        requires at { UpToDate scenario.now (C.scenario self.old.core) (C.state self.old.core)
            self.old.pages }
        requires room { (C.state self.old.core).entries < limit scenario.now }
        requires lane { lane ≤ lanes scenario.now }
        requires clock { lane ≡ 0
            → standing_of scenario.now (C.state self.old.core) ≡ standing.Ticks }
        requires own { 1 ≤ lane → next_in scenario.now (C.state self.old.core) lane ≡ next.Own }
        ensures at { OnOk result (UpToDate scenario.now (C.scenario self.new.core) (C.state self.new.core)
            self.new.pages) }
        ensures one { OnOk result (length self.new.pages.entries ≡ length self.old.pages.entries + 1) }
        ensures adds { Adds lane self.old.pages.entries self.new.pages.entries }
    {
        let entry = self.core.advance(alloc, lane)?;
        self.pages.write(entry)
    }

    // What a lane that cannot step finds: where the clock goes on, its entry is made.
    #[tactic(auto, using(crate::proofs::Added::reached_at, crate::proofs::Added::adds_none))]
    fn wait(&mut self, alloc: Global, scenario: &Scenario) -> Result<Turn, Memory>
        requires at { UpToDate scenario.now (C.scenario self.old.core) (C.state self.old.core)
            self.old.pages }
        requires room { (C.state self.old.core).entries < limit scenario.now }
        ensures at { OnOk result (UpToDate scenario.now (C.scenario self.new.core) (C.state self.new.core)
            self.new.pages) }
        ensures adds { Adds 0 self.old.pages.entries self.new.pages.entries }
        ensures rests { IfOk result (λ found. ¬ (found ≡ turn.Works) × ¬ (found ≡ turn.Goes)) }
    {
        match self.core.standing() {
            Standing::Runs => Ok(Turn::Waits),
            Standing::Ticks => {
                self.advance(alloc, scenario, 0)?;
                Ok(Turn::Waits)
            }
            Standing::Finished => Ok(Turn::Over),
            Standing::Stuck => Ok(Turn::Over),
        }
    }

    // What a lane finds. Where it cannot step and the clock goes on, the clock's entry is made.
    #[tactic(auto, using(crate::proofs::Added::reached_at, crate::proofs::Added::adds_none))]
    fn ask(&mut self, alloc: Global, scenario: &Scenario, lane: u32) -> Result<Turn, Memory>
        requires at { UpToDate scenario.now (C.scenario self.old.core) (C.state self.old.core)
            self.old.pages }
        requires lane { (1 ≤ lane) × (lane ≤ lanes scenario.now) }
        ensures at { OnOk result (UpToDate scenario.now (C.scenario self.new.core) (C.state self.new.core)
            self.new.pages) }
        ensures adds { Adds 0 self.old.pages.entries self.new.pages.entries }
        ensures next { IfOk result (IsNextOf scenario.now (C.state self.new.core) lane) }
    {
        if self.is_full(scenario) {
            return Ok(Turn::Over);
        }
        match self.core.next(lane) {
            Next::Body => Ok(Turn::Works),
            Next::Own => Ok(Turn::Goes),
            Next::Over => Ok(Turn::Over),
            Next::Wait => self.wait(alloc, scenario),
        }
    }

    // Makes the entries of the lane for which no servant is needed, one after the other, until the lane finds
    // something else, or has made so many.
    #[tactic(auto, using(crate::proofs::Added::adds_none))]
    fn go_on(&mut self, alloc: Global, scenario: &Scenario, lane: u32) -> Result<Turn, Memory>
        requires at { UpToDate scenario.now (C.scenario self.old.core) (C.state self.old.core)
            self.old.pages }
        requires lane { (1 ≤ lane) × (lane ≤ lanes scenario.now) }
        ensures at { OnOk result (UpToDate scenario.now (C.scenario self.new.core) (C.state self.new.core)
            self.new.pages) }
        ensures adds { Adds lane self.old.pages.entries self.new.pages.entries }
        ensures works { IfOk result (λ found. found ≡ turn.Works
            → next_in scenario.now (C.state self.new.core) lane ≡ next.Body) }
    {
        for _ in 0..OWN_ENTRIES {
            match self.ask(alloc, scenario, lane)? {
                Turn::Goes => self.advance(alloc, scenario, lane)?,
                turn => return Ok(turn),
            }
        }
        Ok(Turn::Goes)
    }

    // Takes what a worker brings, and leaves it no job.
    #[tactic(auto, using(crate::proofs::Added::adds_none))]
    fn bring(
        &mut self,
        alloc: Global,
        scenario: &Scenario,
        lane: u32,
        work: &mut Work,
    ) -> Result<(), Memory>
        requires at { UpToDate scenario.now (C.scenario self.old.core) (C.state self.old.core)
            self.old.pages }
        requires lane { (1 ≤ lane) × (lane ≤ lanes scenario.now) }
        requires work { IsWork scenario.now work.old }
        ensures at { OnOk result (UpToDate scenario.now (C.scenario self.new.core) (C.state self.new.core)
            self.new.pages) }
        ensures adds { Adds lane self.old.pages.entries self.new.pages.entries }
        ensures none { work.new ≡ record { job = None; step = None } }
    {
        let Some(job) = work.job.take() else {
            return Ok(());
        };
        match work.step.take() {
            Some(Ok(outcome)) => self.commit(alloc, scenario, lane, job, outcome),
            Some(Err(_)) => Err(Memory),
            None => Ok(()),
        }
    }

    // One turn of a lane's worker: what it brings is committed, the lane's own entries are made, and it is
    // told what is next. Where that is the step of a body, its job is taken.
    pub(crate) fn turn(
        &mut self,
        alloc: Global,
        scenario: &Scenario,
        lane: u32,
        work: &mut Work,
    ) -> Result<Turn, Memory>
        requires at { UpToDate scenario.now (C.scenario self.old.core) (C.state self.old.core)
            self.old.pages }
        requires lane { (1 ≤ lane) × (lane ≤ lanes scenario.now) }
        requires work { IsWork scenario.now work.old }
        ensures at { OnOk result (UpToDate scenario.now (C.scenario self.new.core) (C.state self.new.core)
            self.new.pages) }
        ensures adds { Adds lane self.old.pages.entries self.new.pages.entries }
        ensures work { IsWork scenario.now work.new }
    {
        self.bring(alloc, scenario, lane, work)?;
        let turn = self.go_on(alloc, scenario, lane)?;
        if turn != Turn::Works {
            return Ok(turn);
        }
        work.job = Some(self.core.job(alloc, lane)?);
        Ok(turn)
    }
}
