//! A runtime that hands out the steps of bodies as jobs.

ghost use Rattle.std.specs.Prelude.{◌≡◌, ◌<◌, ◌≤◌, ◌↔◌, IfErr, IfOk, IsTrue, OnErr, OnOk, Some};
ghost use Rattle.com_runtime.specs.declared.runtime.Standing.TheVariants as standing;
ghost use Rattle.com_runtime.specs.Standings.{standing_of, Reached};
ghost use Rattle.com_runtime.specs.Turns.{IsNext};
ghost use Rattle.com_runtime.specs.declared.jobs.Next.TheVariants as next;
ghost use Rattle.com_runtime.specs.Jobs.{Fits, IsGivenBack, IsRefused, job_of, kept_in, next_in};
ghost use Rattle.com_model.specs.Ends.{limit};
ghost use Rattle.com_model.specs.Tables.{lanes};
ghost use Rattle.com_servant.specs.Steps.{IsOfItsClass, job_step};

use crate::Runtime;
use crate::errors::CommitError;
use com_base::Memory;
use com_body::{Job, Outcome};
use com_model::Entry;
use std::alloc::Global;

/// What a lane does next.
#[derive(Debug, Clone, Copy, PartialEq, Eq)]
pub enum Next {
    /// Its innermost body acts: the step is taken as a job.
    Body,
    /// It makes an entry for which no servant is needed.
    Own,
    /// It makes no entry as things stand.
    Wait,
    /// It has ended.
    Over,
}

/// A runtime that hands out the steps of bodies as jobs, so that a servant computes them while others use the
/// runtime.
///
/// A worker asks for its lane's next entry. Where a body acts, it takes the job, has its servant compute the
/// outcome, and commits both, if the job still fits the lane. All other entries are made by `advance`.
pub trait Jobs: Runtime {
    /// What a lane does next, from 1 to `lanes`.
    fn next(&self, lane: u32) -> Next
        requires above { 1 ≤ lane }
        requires below { lane ≤ lanes (Self.scenario self.now) }
        requires reached { Reached (Self.scenario self.now) (Self.state self.now) }
        ensures { result ≡ next_in (Self.scenario self.now) (Self.state self.now) lane };

    /// The step of the body that acts in a lane, to be computed by a servant of its kind: on copies of the
    /// body's frame and of its object's cells. The only error is want of memory.
    fn job(&self, alloc: Global, lane: u32) -> Result<Job, Memory>
        requires body { next_in (Self.scenario self.now) (Self.state self.now) lane ≡ next.Body }
        requires reached { Reached (Self.scenario self.now) (Self.state self.now) }
        ensures job { IfOk result (λ job.
            job_of (Self.scenario self.now) (Self.state self.now) lane ≡ Some job) }
        ensures class { IfOk result (λ job. IsOfItsClass (Self.scenario self.now).classes job) };

    /// Whether a job is that of a lane, but for its cells. True exactly where a body acts there, and the job's
    /// kind, class, interface, method and frame are those of the lane's topmost Enter.
    fn fits(&self, lane: u32, job: &Job) -> bool
        requires reached { Reached (Self.scenario self.now) (Self.state self.now) }
        ensures { IsTrue result ↔ Fits (Self.scenario self.now) (Self.state self.now) lane job.now };

    /// Makes the next entry of a lane in which a body acts, by the outcome of a job that fits it.
    ///
    /// `Stale` comes exactly where the object's cells differ from the job's, which is tested first. `Memory`
    /// is want of memory. After either the state is as before.
    fn commit(
        &mut self,
        alloc: Global,
        lane: u32,
        job: Job,
        outcome: Outcome,
    ) -> Result<Entry, CommitError>
        requires above { 1 ≤ lane }
        requires below { lane ≤ lanes (Self.scenario self.old) }
        requires fits { Fits (Self.scenario self.old) (Self.state self.old) lane job }
        requires outcome { outcome ≡ job_step (Self.scenario self.old).classes job }
        requires reached { Reached (Self.scenario self.old) (Self.state self.old) }
        requires room { (Self.state self.old).entries < limit (Self.scenario self.old) }
        ensures scenario { Self.scenario self.new ≡ Self.scenario self.old }
        ensures entry { IfOk result (λ entry. IsNext (Self.scenario self.old) (Self.state self.old) lane
            entry (Self.state self.new)) }
        ensures fresh { OnOk result (job.cells ≡ kept_in (Self.state self.old) lane) }
        ensures refused { IfErr result (IsRefused (kept_in (Self.state self.old) lane) job) }
        ensures back { IfErr result (IsGivenBack job outcome) }
        ensures err { OnErr result (Self.state self.new ≡ Self.state self.old) };

    /// Makes the next entry of a lane that needs no servant, or of lane 0 the clock's entry, where the clock
    /// goes on.
    ///
    /// The only error is want of memory, and then the state is as before.
    fn advance(&mut self, alloc: Global, lane: u32) -> Result<Entry, Memory>
        requires below { lane ≤ lanes (Self.scenario self.old) }
        requires clock { lane ≡ 0
            → standing_of (Self.scenario self.old) (Self.state self.old) ≡ standing.Ticks }
        requires own { 1 ≤ lane
            → next_in (Self.scenario self.old) (Self.state self.old) lane ≡ next.Own }
        requires reached { Reached (Self.scenario self.old) (Self.state self.old) }
        requires room { (Self.state self.old).entries < limit (Self.scenario self.old) }
        ensures scenario { Self.scenario self.new ≡ Self.scenario self.old }
        ensures entry { IfOk result (λ entry. IsNext (Self.scenario self.old) (Self.state self.old) lane
            entry (Self.state self.new)) }
        ensures err { OnErr result (Self.state self.new ≡ Self.state self.old) };
}
