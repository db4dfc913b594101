//! A runtime that makes one entry at a time.

ghost use Rattle.std.specs.Prelude.{◌≡◌, ◌<◌, ◌≤◌, ◌∷◌, ◌↔◌, [], IfErr, IfOk, IsTrue, OnErr, OnOk};
ghost use Rattle.std.specs.Prelude.{IfSome, IsSome, Some, false, map, true};
ghost use Rattle.std.specs.Arc.{arc_value};
ghost use Rattle.com_core.specs.Beginning.{BeginsParts};
ghost use Rattle.com_core.specs.Seen.{IsFirst, Steps, core_state};
ghost use Rattle.com_runtime.specs.declared.runtime.Standing.TheVariants as standing;
ghost use Rattle.com_core.specs.Nexts.{next_as};
ghost use Rattle.com_runtime.specs.Standings.{can_step_in, standing_of};
ghost use Rattle.com_runtime.specs.Reports.{WasMade, counts_in};
ghost use Rattle.com_runtime.specs.Turns.{IsNext, served_in};
ghost use Rattle.com_schedule.specs.Tried.{Tried};
ghost use Rattle.com_runtime.specs.declared.jobs.Next.TheVariants as next;
ghost use Rattle.com_runtime.specs.Jobs.{Fits, IsGivenBack, IsRefused, job_of, kept_in, next_in};
ghost use Rattle.com_ledger.specs.Ties.{IsNew};
ghost use Rattle.com_model.specs.Ends.{limit};
ghost use Rattle.com_model.specs.Formed.{Formed};
ghost use Rattle.com_model.specs.State.{objects_in};
ghost use Rattle.com_model.specs.Tables.{lanes};
ghost use Rattle.com_servant.specs.Rows.{row};
ghost use Rattle.com_servant.specs.Steps.{IsOfItsClass, job_step};

use crate::running::Running;
use com_base::Memory;
use com_body::{Job, Outcome};
use com_model::{Counts, Deed, Entry, Scenario};
use com_runtime::{CommitError, Jobs, Next, Runtime, Standing};
use com_schedule::Tries;
use com_servant::Servant;
use com_turns::Bench;
use com_view::{Next as ViewNext, standing_of};
use std::alloc::Global;
use std::marker::Model;
use std::mem;
use std::sync::Arc;

/// A runtime of a scenario: it keeps what the rules need, and makes one entry at a time. It shares the
/// scenario with its caller.
///
/// Lanes are numbered from 1: the threads in order, the host's lane, then the pool's. Lane 0 is the clock's.
#[derive(Drop)]
pub struct Core {
    scenario: Arc<Scenario>,
    count: u32,
    running: Running,
    // The step of the entry that was made last, and the job of which it was made. They lie here from step to
    // step, since they are wide, and nobody reads them between two entries.
    bench: Bench,
    // The entry that was made last, in one place from its making to its line. It means nothing before the
    // first one, after one that was taken, and where none was made.
    made: Entry,
}

impl Model for Core {
    ghost use Rattle.std.specs.Prelude.{◌≡◌, ◌<◌, ◌^◌, length};
    ghost use Rattle.std.specs.Arc.{arc_value};
    ghost use Rattle.com_core.specs.Seen.{CoreValue, IsKept, core_of};
    ghost use Rattle.com_core.specs.Sound.{Few, Sound};
    ghost use Rattle.com_model.specs.Tables.{lanes};

    ghost Value = { CoreValue };

    ghost view = { λ c. record {
      core = core_of (arc_value c.scenario) c.running;
      made = c.made;
    } };

    ghost invariant = { λ c. Sound c.running.parts c.running.entered.counts
        × Few c.running.parts
        × (c.count ≡ lanes (arc_value c.scenario)) × (length (arc_value c.scenario).threads < 2 ^ 32)
        × IsKept (core_of (arc_value c.scenario) c.running) };
}

// What stands in the place of an entry before there is one.
fn no_entry() -> Entry {
    Entry {
        lane: 0,
        deed: Deed::Tick { clock: 0 },
    }
}

impl Core {
    /// The runtime of a formed scenario before its first entry. The only error is want of memory.
    pub fn new(alloc: Global, scenario: Arc<Scenario>) -> Result<Core, Memory>
        requires formed { Formed (arc_value scenario) }
        ensures scenario { IfOk result (λ new. new.core.scenario ≡ arc_value scenario) }
        ensures begins { IfOk result (λ new. BeginsParts (arc_value scenario) new.core.parts new.core.fallen) }
        ensures entered { IfOk result (λ new. new.core.entered ≡ 0 ∷ []) }
        ensures held { IfOk result (λ new. IsNew new.core.held) }
        ensures first { IfOk result (λ new. IsFirst (arc_value scenario) new.core) }
        ensures entries { IfOk result (λ new. new.core.parts.entries ≡ 0) }
        ensures clock { IfOk result (λ new. new.core.clock ≡ 0) }
    {
        let Some(count) = scenario.lanes() else {
            unreachable!()
        };
        let running = Running::new(alloc, &scenario, count)?;
        Ok(Core {
            scenario,
            count,
            running,
            bench: Bench::new(alloc)?,
            made: no_entry(),
        })
    }

    /// The scenario that it runs.
    pub fn scenario(&self) -> &Scenario
        ensures { result.now ≡ self.now.core.scenario }
    {
        &self.scenario
    }

    /// How many lanes there are.
    pub fn lanes(&self) -> u32
        ensures { result ≡ lanes self.now.core.scenario }
    {
        self.count
    }

    /// Whether a lane, from 1 to `lanes`, can step.
    #[tactic(auto, using(crate::proofs::Readings::can_step_read))]
    pub fn can_step(&self, lane: u32) -> bool
        ensures { result ≡ can_step_in self.now.core.scenario (core_state self.now.core) lane }
    {
        self.running.view(&self.scenario).can_step(lane)
    }

    /// Whether a lane can step, the clock goes on, or all has ended.
    #[tactic(auto, using(crate::proofs::Runs::room_for_sta, crate::proofs::Readings::standing_read))]
    pub fn standing(&self) -> Standing
        ensures { result ≡ standing_of self.now.core.scenario (core_state self.now.core) }
    {
        let threads = self.scenario.threads.len() as u32;
        standing_of(&self.running.view(&self.scenario), threads, self.count)
    }

    /// How many entries were made.
    pub fn entries(&self) -> u64
        ensures { result ≡ (core_state self.now.core).entries }
    {
        self.running.parts.entries() as u64
    }

    /// The clock, in virtual milliseconds.
    pub fn clock(&self) -> u64
        ensures { result ≡ (core_state self.now.core).clock }
    {
        self.running.clock
    }

    /// How many objects were made. They are numbered from 1, in order of making.
    pub fn objects(&self) -> u32
        ensures { result ≡ objects_in (core_state self.now.core) }
    {
        self.running.parts.objects().len()
    }

    // What a report counts of an object that was made.
    fn counts_of(&self, object: u32) -> Counts
        ensures { result ≡ counts_in self.now.core.scenario (core_state self.now.core) object }
    {
        let numbers = self.running.ledger.counts(object);
        Counts {
            class: self.running.parts.objects().class(object),
            owner: self.running.parts.objects().owner(object),
            state: self.running.state(object),
            direct: numbers.direct,
            proxies: numbers.proxies,
            packets: numbers.packets,
            tables: numbers.tables,
            stub: numbers.stub,
        }
    }

    /// What a report counts of an object. None exactly where the object was not made.
    pub fn counts(&self, object: u32) -> Option<Counts>
        ensures made { IsSome result ↔ WasMade (core_state self.now.core) object }
        ensures some { IfSome result (λ counts.
            counts ≡ counts_in self.now.core.scenario (core_state self.now.core) object) }
    {
        if object == 0 || self.objects() < object {
            return None;
        }
        Some(self.counts_of(object))
    }

    /// Tries a lane, from 1 to `lanes`. Where it can step it makes its next entry, which `last` lends then, and
    /// the answer is true. Where a body runs in the lane, the servant of its class's kind computes the step.
    /// Else nothing has changed. The row has one servant of each kind, in the order of the kinds.
    ///
    /// The only error is want of memory, and then nothing has changed but for the entry that is lent: where
    /// there is memory again, the same step makes the entry. A servant may have counted a step whose entry was
    /// not made.
    pub fn try_lane(
        &mut self,
        alloc: Global,
        lane: u32,
        servants: &mut Vec<Box<dyn Servant + Send>>,
    ) -> Result<bool, Memory>
        requires above { 1 ≤ lane }
        requires below { lane ≤ lanes self.old.core.scenario }
        requires room { (core_state self.old.core).entries < limit self.old.core.scenario }
        requires row { map kind_of servants.old.items ≡ row }
        ensures can { IfOk result (λ can. can ≡ can_step_in self.old.core.scenario (core_state self.old.core)
            lane) }
        ensures next { IfOk result (λ can. can ≡ true → Steps lane self.old.core self.new.core self.new.made) }
        ensures tried { IfOk result (λ can. Tried self.old.core.scenario (core_state self.old.core) lane can
            self.new.made (core_state self.new.core) (map stepped servants.old.items)
            (map stepped servants.new.items)) }
        ensures rest { IfOk result (λ can. can ≡ false → self.new.core ≡ self.old.core) }
        ensures err { OnErr result (self.new.core ≡ self.old.core) }
        ensures scenario { self.new.core.scenario ≡ self.old.core.scenario }
        ensures row { map kind_of servants.new.items ≡ row }
    {
        self.running.step(
            &self.scenario,
            alloc,
            lane,
            servants,
            &mut self.bench,
            &mut self.made,
        )
    }

    /// Makes the clock's entry, where the clock goes on: to the least time that a call waits for. `last` lends
    /// it then. The only error is want of memory, and then nothing has changed but for the entry that is lent.
    pub fn let_tick(&mut self) -> Result<(), Memory>
        requires due { standing_of self.old.core.scenario (core_state self.old.core) ≡ standing.Ticks }
        requires room { (core_state self.old.core).entries < limit self.old.core.scenario }
        ensures next { OnOk result (Steps 0 self.old.core self.new.core self.new.made) }
        ensures follows { OnOk result (IsNext self.old.core.scenario (core_state self.old.core) 0
            self.new.made (core_state self.new.core)) }
        ensures err { OnErr result (self.new.core ≡ self.old.core) }
        ensures scenario { self.new.core.scenario ≡ self.old.core.scenario }
    {
        self.running.tick(&self.scenario, &mut self.made)
    }

    /// The entry that was made last.
    pub fn last(&self) -> &Entry
        ensures { result.now ≡ self.now.made }
    {
        &self.made
    }

    /// The entry that was made last, for who keeps it. It is lent no more.
    pub fn take_last(&mut self) -> Entry
        ensures entry { result ≡ self.old.made }
        ensures core { self.new.core ≡ self.old.core }
    {
        mem::replace(&mut self.made, no_entry())
    }

    /// Makes the next entry of a lane that can step. Where a body runs in the lane, the servant of its
    /// class's kind computes the step. The row has one servant of each kind, in the order of the kinds.
    ///
    /// The only error is want of memory, and then nothing has changed: where there is memory again, the same
    /// step makes the entry. A servant may have counted a step whose entry was not made.
    pub fn step(
        &mut self,
        alloc: Global,
        lane: u32,
        servants: &mut Vec<Box<dyn Servant + Send>>,
    ) -> Result<Entry, Memory>
        requires above { 1 ≤ lane }
        requires below { lane ≤ lanes self.old.core.scenario }
        requires can { can_step_in self.old.core.scenario (core_state self.old.core) lane ≡ true }
        requires room { (core_state self.old.core).entries < limit self.old.core.scenario }
        requires row { map kind_of servants.old.items ≡ row }
        ensures follows { IfOk result (λ entry. IsNext self.old.core.scenario (core_state self.old.core) lane entry
            (core_state self.new.core)) }
        ensures err { OnErr result (self.new.core ≡ self.old.core) }
        ensures scenario { self.new.core.scenario ≡ self.old.core.scenario }
        ensures row { map kind_of servants.new.items ≡ row }
        ensures served { OnOk result (map stepped servants.new.items
            ≡ served_in self.old.core.scenario (core_state self.old.core) lane (map stepped servants.old.items)) }
    {
        let made = self.try_lane(alloc, lane, servants)?;
        if made {
            return Ok(self.take_last());
        }
        unreachable!()
    }

    /// Makes the clock's entry, where the clock goes on: to the least time that a call waits for. The only
    /// error is want of memory, and then nothing has changed.
    pub fn tick(&mut self) -> Result<Entry, Memory>
        requires due { standing_of self.old.core.scenario (core_state self.old.core) ≡ standing.Ticks }
        requires room { (core_state self.old.core).entries < limit self.old.core.scenario }
        ensures follows { IfOk result (λ entry. IsNext self.old.core.scenario (core_state self.old.core) 0 entry
            (core_state self.new.core)) }
        ensures err { OnErr result (self.new.core ≡ self.old.core) }
        ensures scenario { self.new.core.scenario ≡ self.old.core.scenario }
    {
        self.let_tick()?;
        Ok(self.take_last())
    }
}

// What a lane does next, in the words of the trait.
fn next_of(next: ViewNext) -> Next
    ensures { result ≡ next_as next }
{
    match next {
        ViewNext::Body => Next::Body,
        ViewNext::Own => Next::Own,
        ViewNext::Wait => Next::Wait,
        ViewNext::Over => Next::Over,
    }
}

impl Core {
    /// What a lane, from 1 to `lanes`, does next: a body acts, where one is innermost; or another next entry
    /// exists; or it has ended; or it waits.
    pub fn next(&self, lane: u32) -> Next
        ensures { result ≡ next_in self.now.core.scenario (core_state self.now.core) lane }
    {
        next_of(self.running.view(&self.scenario).next(lane))
    }

    /// The step of the body that acts in a lane, as a job for a servant of its kind: on copies of the body's
    /// frame and of its object's cells. The only error is want of memory.
    pub fn job(&self, alloc: Global, lane: u32) -> Result<Job, Memory>
        requires body { next_in self.now.core.scenario (core_state self.now.core) lane ≡ next.Body }
        ensures job { IfOk result (λ job.
            job_of self.now.core.scenario (core_state self.now.core) lane ≡ Some job) }
        ensures class { IfOk result (λ job. IsOfItsClass self.now.core.scenario.classes job) }
    {
        self.running.job(&self.scenario, alloc, lane)
    }

    /// Whether a job is that of a lane, but for its cells. True exactly where a body acts there, and the job's
    /// kind, class, interface, method and frame are those of the lane's topmost Enter.
    pub fn fits(&self, lane: u32, job: &Job) -> bool
        ensures { IsTrue result ↔ Fits self.now.core.scenario (core_state self.now.core) lane job.now }
    {
        self.running.fits(&self.scenario, lane, job)
    }

    // As `commit`, but the entry is lent by `last`.
    fn commit_last(
        &mut self,
        alloc: Global,
        lane: u32,
        job: Job,
        outcome: Outcome,
    ) -> Result<(), CommitError>
        requires above { 1 ≤ lane }
        requires below { lane ≤ lanes self.old.core.scenario }
        requires fits { Fits self.old.core.scenario (core_state self.old.core) lane job }
        requires outcome { outcome ≡ job_step self.old.core.scenario.classes job }
        requires room { (core_state self.old.core).entries < limit self.old.core.scenario }
        ensures next { OnOk result (Steps lane self.old.core self.new.core self.new.made) }
        ensures follows { OnOk result (IsNext self.old.core.scenario (core_state self.old.core) lane
            self.new.made (core_state self.new.core)) }
        ensures fresh { OnOk result (job.cells ≡ kept_in (core_state self.old.core) lane) }
        ensures refused { IfErr result (IsRefused (kept_in (core_state self.old.core) lane) job) }
        ensures back { IfErr result (IsGivenBack job outcome) }
        ensures err { OnErr result (self.new.core ≡ self.old.core) }
        ensures scenario { self.new.core.scenario ≡ self.old.core.scenario }
    {
        self.running
            .commit(&self.scenario, alloc, lane, job, outcome, &mut self.made)
    }

    /// Makes the next entry of a lane in which a body acts, by the outcome of a job that fits it.
    ///
    /// `Stale` comes exactly where the object's cells differ from the job's, which is tested first. `Memory`
    /// is want of memory. After either nothing has changed, and the job comes back; after the latter the
    /// outcome too.
    pub fn commit(
        &mut self,
        alloc: Global,
        lane: u32,
        job: Job,
        outcome: Outcome,
    ) -> Result<Entry, CommitError>
        requires above { 1 ≤ lane }
        requires below { lane ≤ lanes self.old.core.scenario }
        requires fits { Fits self.old.core.scenario (core_state self.old.core) lane job }
        requires outcome { outcome ≡ job_step self.old.core.scenario.classes job }
        requires room { (core_state self.old.core).entries < limit self.old.core.scenario }
        ensures follows { IfOk result (λ entry. IsNext self.old.core.scenario (core_state self.old.core) lane entry
            (core_state self.new.core)) }
        ensures fresh { OnOk result (job.cells ≡ kept_in (core_state self.old.core) lane) }
        ensures refused { IfErr result (IsRefused (kept_in (core_state self.old.core) lane) job) }
        ensures back { IfErr result (IsGivenBack job outcome) }
        ensures err { OnErr result (self.new.core ≡ self.old.core) }
        ensures scenario { self.new.core.scenario ≡ self.old.core.scenario }
    {
        self.commit_last(alloc, lane, job, outcome)?;
        Ok(self.take_last())
    }

    // The next entry of a lane that needs no servant, which `last` lends then.
    fn advance_lane(&mut self, alloc: Global, lane: u32) -> Result<(), Memory>
        requires above { 1 ≤ lane }
        requires below { lane ≤ lanes self.old.core.scenario }
        requires own { next_in self.old.core.scenario (core_state self.old.core) lane ≡ next.Own }
        requires room { (core_state self.old.core).entries < limit self.old.core.scenario }
        ensures next { OnOk result (Steps lane self.old.core self.new.core self.new.made) }
        ensures follows { OnOk result (IsNext self.old.core.scenario (core_state self.old.core) lane
            self.new.made (core_state self.new.core)) }
        ensures err { OnErr result (self.new.core ≡ self.old.core) }
        ensures scenario { self.new.core.scenario ≡ self.old.core.scenario }
    {
        self.running.advance(
            &self.scenario,
            alloc,
            lane,
            &mut self.bench.step,
            &mut self.made,
        )
    }

    /// Makes the next entry of a lane that needs no servant, or of lane 0 the clock's entry, where the clock
    /// goes on. The only error is want of memory, and then nothing has changed.
    pub fn advance(&mut self, alloc: Global, lane: u32) -> Result<Entry, Memory>
        requires below { lane ≤ lanes self.old.core.scenario }
        requires clock { lane ≡ 0 → standing_of self.old.core.scenario (core_state self.old.core) ≡ standing.Ticks }
        requires own { 1 ≤ lane → next_in self.old.core.scenario (core_state self.old.core) lane ≡ next.Own }
        requires room { (core_state self.old.core).entries < limit self.old.core.scenario }
        ensures follows { IfOk result (λ entry. IsNext self.old.core.scenario (core_state self.old.core) lane entry
            (core_state self.new.core)) }
        ensures err { OnErr result (self.new.core ≡ self.old.core) }
        ensures scenario { self.new.core.scenario ≡ self.old.core.scenario }
    {
        if lane == 0 {
            return self.tick();
        }
        self.advance_lane(alloc, lane)?;
        Ok(self.take_last())
    }
}

impl Runtime for Core {
    ghost scenario = { λ c. c.core.scenario };

    ghost state = { λ c. core_state c.core };

    fn lanes(&self) -> u32 {
        Core::lanes(self)
    }

    fn can_step(&self, lane: u32) -> bool {
        Core::can_step(self, lane)
    }

    fn standing(&self) -> Standing {
        Core::standing(self)
    }

    fn entries(&self) -> u64 {
        Core::entries(self)
    }

    fn clock(&self) -> u64 {
        Core::clock(self)
    }

    fn objects(&self) -> u32 {
        Core::objects(self)
    }

    fn counts(&self, object: u32) -> Option<Counts> {
        Core::counts(self, object)
    }

    fn step(
        &mut self,
        alloc: Global,
        lane: u32,
        servants: &mut Vec<Box<dyn Servant + Send>>,
    ) -> Result<Entry, Memory> {
        Core::step(self, alloc, lane, servants)
    }

    fn tick(&mut self) -> Result<Entry, Memory> {
        Core::tick(self)
    }
}

impl Tries for Core {
    ghost made = { λ c. c.made };

    fn try_lane(
        &mut self,
        alloc: Global,
        lane: u32,
        servants: &mut Vec<Box<dyn Servant + Send>>,
    ) -> Result<bool, Memory> {
        Core::try_lane(self, alloc, lane, servants)
    }

    fn let_tick(&mut self) -> Result<(), Memory> {
        Core::let_tick(self)
    }

    fn last(&self) -> &Entry {
        Core::last(self)
    }

    fn take_last(&mut self) -> Entry {
        Core::take_last(self)
    }
}

impl Jobs for Core {
    fn next(&self, lane: u32) -> Next {
        Core::next(self, lane)
    }

    fn job(&self, alloc: Global, lane: u32) -> Result<Job, Memory> {
        Core::job(self, alloc, lane)
    }

    fn fits(&self, lane: u32, job: &Job) -> bool {
        Core::fits(self, lane, job)
    }

    fn commit(
        &mut self,
        alloc: Global,
        lane: u32,
        job: Job,
        outcome: Outcome,
    ) -> Result<Entry, CommitError> {
        Core::commit(self, alloc, lane, job, outcome)
    }

    fn advance(&mut self, alloc: Global, lane: u32) -> Result<Entry, Memory> {
        Core::advance(self, alloc, lane)
    }
}
