//! The course of a history: each step is one turn of the schedule and one line.
ghost use Rattle.std.specs.Prelude.{◌≡◌, ◌≤◌, ◌++◌, [], IfOk, OnOk};
ghost use Rattle.std.specs.Prelude.{Err, List, OnErr, map};
ghost use Rattle.com_io.specs.Faults.{Rose};
ghost use Rattle.com_io.specs.Told.{Gains, GainsPrefix};
ghost use Rattle.com_model.specs.Tables.{lanes};
ghost use Rattle.com_model.specs.Ends.{limit};
ghost use Rattle.com_servant.specs.Rows.{row};
ghost use Rattle.com_replay.specs.declared.lines.ReplayError.TheVariants as replay_error;
ghost use Rattle.com_runtime.specs.Standings.{Reached};
ghost use Rattle.com_model.specs.declared.deeds.Entry.{Entry as AnyEntry};
ghost use Rattle.com_replay.specs.Endings.{replayed_in, report_in};
ghost use Rattle.com_replay.specs.Steps.{Fails, IsLaneTurn, StepsTo, TurnsTo, moment_of, place_of};
ghost use Rattle.com_replay.specs.Streams.{Advances, BrokenOff, StandsAt, UnderWay, position};

use crate::finish::finish;
use crate::lines::{ReplayError, show};
use crate::replayed::Replayed;
use com_base::{ByteList, Memory};
use com_io::Sink;
use com_model::{Ended, Scenario};
use com_report::Line;
use com_runtime::{Runtime, Standing, end_of};
use com_schedule::{Tries, take_turn};
use com_servant::Servant;
use std::alloc::Global;

/// What a step of a course did.
#[derive(Debug, Clone, Copy, PartialEq, Eq)]
pub enum Turned {
    /// A turn was made. The runtime lends its entry.
    Made,
    /// The history has ended: nothing was done.
    Over(Ended),
}

/// Where the schedule stands: how many picks were tried, and the last lane but the clock's, or 0. And lines that are
/// kept to be written, which are none between two steps, and the line of the last entry, whose room is used again.
#[derive(Debug, Drop)]
pub struct Course {
    tried: usize,
    last: u32,
    lines: ByteList,
    line: Line,
}

impl Course {
    /// Before the first turn: no pick was tried, there is no last lane, and no line.
    pub fn new(alloc: Global) -> Course
        ensures tried { result.tried ≡ 0 }
        ensures last { result.last ≡ 0 }
        ensures lines { result.lines ≡ [] }
    {
        Course {
            tried: 0,
            last: 0,
            lines: ByteList::new(alloc),
            line: Line::new(alloc),
        }
    }

    // Has the lane whose turn it is make its entry, where there is room for one and a lane can step.
    #[inline(always)]
    #[tactic(auto, using(crate::proofs::Turning::no_room))]
    fn lane_turn<C: Tries>(
        &mut self,
        alloc: Global,
        scenario: &Scenario,
        runtime: &mut C,
        servants: &mut Vec<Box<dyn Servant + Send>>,
    ) -> Result<bool, Memory>
        requires scenario { C.scenario runtime.old ≡ scenario.now }
        requires last { self.old.last ≤ lanes scenario.now }
        requires reached { Reached (C.scenario runtime.old) (C.state runtime.old) }
        requires row { map kind_of servants.old.items ≡ row }
        ensures scenario { C.scenario runtime.new ≡ scenario.now }
        ensures turn { IfOk result (λ made. IsLaneTurn scenario.now
            (place_of scenario.now (C.state runtime.old) self.old (map stepped servants.old.items))
            (place_of scenario.now (C.state runtime.new) self.new (map stepped servants.new.items))
            (C.made runtime.new) made) }
        ensures last { self.new.last ≤ lanes scenario.now }
        ensures lines { self.new.lines ≡ self.old.lines }
        ensures row { map kind_of servants.new.items ≡ row }
    {
        if runtime.entries() >= u64::from(scenario.limit()) {
            return Ok(false);
        }
        let picks = scenario.picks.as_slice();
        let Some(chosen) = take_turn(alloc, runtime, picks, self.tried, self.last, servants)? else {
            return Ok(false);
        };
        self.tried = chosen.tried;
        self.last = chosen.lane;
        Ok(true)
    }

    // Has the lane whose turn it is make its entry, or the clock where no lane can step. Where the history
    // has ended, nothing is done.
    #[inline(always)]
    fn turn<C: Tries>(
        &mut self,
        alloc: Global,
        scenario: &Scenario,
        runtime: &mut C,
        servants: &mut Vec<Box<dyn Servant + Send>>,
    ) -> Result<Turned, Memory>
        requires scenario { C.scenario runtime.old ≡ scenario.now }
        requires entries { (C.state runtime.old).entries ≤ limit scenario.now }
        requires last { self.old.last ≤ lanes scenario.now }
        requires reached { Reached (C.scenario runtime.old) (C.state runtime.old) }
        requires row { map kind_of servants.old.items ≡ row }
        ensures scenario { C.scenario runtime.new ≡ scenario.now }
        ensures turn { IfOk result (λ step. TurnsTo scenario.now
            (place_of scenario.now (C.state runtime.old) self.old (map stepped servants.old.items))
            (place_of scenario.now (C.state runtime.new) self.new (map stepped servants.new.items))
            (C.made runtime.new) step) }
        ensures last { self.new.last ≤ lanes scenario.now }
        ensures lines { self.new.lines ≡ self.old.lines }
        ensures row { map kind_of servants.new.items ≡ row }
    {
        let made = self.lane_turn(alloc, scenario, runtime, servants)?;
        if made {
            return Ok(Turned::Made);
        }
        let standing = runtime.standing();
        if let Some(ended) = end_of(scenario, runtime, standing) {
            return Ok(Turned::Over(ended));
        }
        runtime.let_tick()?;
        Ok(Turned::Made)
    }

    /// Makes one turn of the schedule, and its line: the picks are tried first, each once, and then the lanes
    /// behind the last one and from 1 on; the clock goes on where no lane can step. The runtime lends the
    /// turn's entry then. Where the history has ended, nothing is done.
    ///
    /// The runtime's state stands for a history of the scenario, which is formed; and it did not run out of
    /// memory in the middle of an entry. At Ok that is so again.
    ///
    /// `WriteFault` comes only where the sink's count of faults rose in this call, and `Memory` is want of
    /// memory, and then nothing was written. After either the lines may be broken off: what was written is a
    /// prefix of what was kept and the turn's line.
    #[inline(always)]
    #[tactic(auto, using(crate::proofs::Turning::step_failed, com_runtime::proofs::Resting::same_reached))]
    pub fn step<C: Tries, K: Sink>(
        &mut self,
        alloc: Global,
        scenario: &Scenario,
        runtime: &mut C,
        servants: &mut Vec<Box<dyn Servant + Send>>,
        sink: &mut K,
    ) -> Result<Turned, ReplayError>
        requires scenario { C.scenario runtime.old ≡ scenario.now }
        requires entries { (C.state runtime.old).entries ≤ limit scenario.now }
        requires reached { Reached scenario.now (C.state runtime.old) }
        requires last { self.old.last ≤ lanes scenario.now }
        requires row { map kind_of servants.old.items ≡ row }
        ensures scenario { C.scenario runtime.new ≡ scenario.now }
        ensures entries { OnOk result ((C.state runtime.new).entries ≤ limit scenario.now) }
        ensures reached { OnOk result (Reached scenario.now (C.state runtime.new)) }
        ensures last { self.new.last ≤ lanes scenario.now }
        ensures row { map kind_of servants.new.items ≡ row }
        ensures none { OnOk result (self.old.lines ≡ [] → self.new.lines ≡ []) }
        ensures step { IfOk result (λ step. StepsTo scenario.now
            (moment_of scenario.now (C.state runtime.old) self.old (K.held sink.old)
            (map stepped servants.old.items))
            (moment_of scenario.now (C.state runtime.new) self.new (K.held sink.new)
            (map stepped servants.new.items))
            (C.made runtime.new) step) }
        ensures prefix { OnErr result (Fails scenario.now
            (moment_of scenario.now (C.state runtime.old) self.old (K.held sink.old)
            (map stepped servants.old.items))
            (K.held sink.new)) }
        ensures memory { result ≡ Err replay_error.Memory → K.held sink.new ≡ K.held sink.old }
        ensures fault { result ≡ Err replay_error.WriteFault
            → Rose (K.faults_of sink.old) (K.faults_of sink.new) }
        ensures counts { K.faults_of sink.old ≤ K.faults_of sink.new }
    {
        let step = self.turn(alloc, scenario, runtime, servants)?;
        match step {
            Turned::Over(ended) => Ok(Turned::Over(ended)),
            Turned::Made => {
                let place = runtime.entries();
                show(
                    scenario.version,
                    place,
                    runtime.last(),
                    &mut self.line,
                    &mut self.lines,
                    sink,
                )?;
                Ok(Turned::Made)
            }
        }
    }

    /// Writes the lines that are kept, and the report of a runtime whose history has ended so.
    ///
    /// `WriteFault` comes only where the sink's count of faults rose in this call, and `Memory` is want of
    /// memory, and then nothing was written. What was written is a prefix of the lines and the report.
    pub fn finish<C: Runtime, K: Sink>(
        &mut self,
        alloc: Global,
        scenario: &Scenario,
        runtime: &C,
        ended: Ended,
        sink: &mut K,
    ) -> Result<Replayed, ReplayError>
        requires scenario { C.scenario runtime.now ≡ scenario.now }
        requires reached { Reached scenario.now (C.state runtime.now) }
        ensures ok { OnOk result (Gains (K.held sink.old) (K.held sink.new)
            (self.old.lines ++ report_in scenario.now (C.state runtime.now) ended)) }
        ensures answer { IfOk result (λ replayed. replayed ≡ replayed_in (C.state runtime.now) ended) }
        ensures prefix { GainsPrefix (K.held sink.old) (K.held sink.new)
            (self.old.lines ++ report_in scenario.now (C.state runtime.now) ended) }
        ensures memory { result ≡ Err replay_error.Memory → K.held sink.new ≡ K.held sink.old }
        ensures fault { result ≡ Err replay_error.WriteFault
            → Rose (K.faults_of sink.old) (K.faults_of sink.new) }
        ensures counts { K.faults_of sink.old ≤ K.faults_of sink.new }
    {
        finish(alloc, scenario, runtime, ended, &mut self.lines, sink)
    }

    /// Makes one turn of the schedule and writes its line, which is kept no longer; or, where the history has
    /// ended, writes the report. The answer is what there is to say at the end.
    ///
    /// No line is kept. Let the runtime's state and the schedule stand for a history of the scenario, which is
    /// formed. Where the answer is `None`, the runtime lends the history's next entry, and they stand for the
    /// history with it.
    ///
    /// `WriteFault` comes only where the sink's count of faults rose in this call, and `Memory` is want of
    /// memory, and then nothing was written. What was written is a prefix of the line or the report.
    pub fn advance<C: Tries, K: Sink>(
        &mut self,
        alloc: Global,
        scenario: &Scenario,
        runtime: &mut C,
        servants: &mut Vec<Box<dyn Servant + Send>>,
        sink: &mut K,
    ) -> Result<Option<Replayed>, ReplayError>
        requires scenario { C.scenario runtime.old ≡ scenario.now }
        requires under_way { UnderWay (position scenario.now (C.state runtime.old) self.old.tried self.old.last) }
        requires last { self.old.last ≤ lanes scenario.now }
        requires none { self.old.lines ≡ [] }
        requires row { map kind_of servants.old.items ≡ row }
        ensures scenario { C.scenario runtime.new ≡ scenario.now }
        ensures under_way { OnOk result
            (UnderWay (position scenario.now (C.state runtime.new) self.new.tried self.new.last)) }
        ensures last { self.new.last ≤ lanes scenario.now }
        ensures none { OnOk result (self.new.lines ≡ []) }
        ensures row { map kind_of servants.new.items ≡ row }
        ensures advances { IfOk result (λ replayed. (h : List AnyEntry)
            → StandsAt (position scenario.now (C.state runtime.old) self.old.tried self.old.last) h
            → Advances scenario.now
            (position scenario.now (C.state runtime.new) self.new.tried self.new.last) h
            (C.made runtime.new) (K.held sink.old) (K.held sink.new) (map stepped servants.old.items)
            (map stepped servants.new.items) replayed) }
        ensures prefix { OnErr result ((h : List AnyEntry)
            → StandsAt (position scenario.now (C.state runtime.old) self.old.tried self.old.last) h
            → BrokenOff scenario.now h (K.held sink.old) (K.held sink.new)) }
        ensures memory { result ≡ Err replay_error.Memory → K.held sink.new ≡ K.held sink.old }
        ensures fault { result ≡ Err replay_error.WriteFault
            → Rose (K.faults_of sink.old) (K.faults_of sink.new) }
        ensures counts { K.faults_of sink.old ≤ K.faults_of sink.new }
    {
        match self.step(alloc, scenario, runtime, servants, sink)? {
            Turned::Made => Ok(None),
            Turned::Over(ended) => {
                let replayed = finish(alloc, scenario, runtime, ended, &mut self.lines, sink)?;
                Ok(Some(replayed))
            }
        }
    }
}
