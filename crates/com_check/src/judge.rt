//! Judging a trace line by line, on any runtime that keeps the rules.
ghost use Rattle.std.specs.Prelude.{◌≡◌, ◌<◌, ◌≤◌, ℕ, None, Some, IfOk, OnOk, map};
ghost use Rattle.com_base.specs.declared.limits.TheConstants.{ENTRY_2_LIMIT};
ghost use Rattle.com_model.specs.Ends.{last_after, limit};
ghost use Rattle.com_model.specs.Formed.{Formed};
ghost use Rattle.com_model.specs.State.{first_tables};
ghost use Rattle.com_model.specs.Tables.{lanes};
ghost use Rattle.com_servant.specs.Rows.{row};
ghost use Rattle.com_runtime.specs.Standings.{ended_now, standing_of, Reached};
ghost use Rattle.com_check.specs.Judging.{entry_line, without_end, IsJudged};
ghost use Rattle.com_check.specs.Turning.{IsCompared, IsLast, IsNextOf, IsOther, IsScheduled, IsTold};
ghost use Rattle.com_check.specs.Turning.{IsTried, NamesNone};

use crate::fronts::lane_of;
use crate::judged::{Judged, differs};
use crate::lines::split_line;
use crate::reports::{NO_LINE, compare};
use com_base::{ByteList, Memory};
use com_model::{Ended, Entry, Scenario};
use com_report::{Line, report};
use com_runtime::{Runtime, Standing, all_counts, choose, end_of};
use com_schedule::Tries;
use com_servant::Servant;
use std::alloc::Global;

// The last lane but the clock's, behind an entry of a lane.
#[tactic(auto, using(crate::proofs::Entries::last_clock, crate::proofs::Entries::last_other))]
fn last_after(lane: u32, last: u32) -> u32
    ensures { result ≡ last_after lane last }
{
    if lane == 0 { last } else { lane }
}

// Makes the clock's entry, where the clock goes on. The answer is whether it was made. The only error is want of
// memory.
#[inline(never)]
fn try_clock<C: Tries>(runtime: &mut C) -> Result<bool, Memory>
    requires reached { Reached (C.scenario runtime.old) (C.state runtime.old) }
    requires room { (C.state runtime.old).entries < limit (C.scenario runtime.old) }
    ensures scenario { C.scenario runtime.new ≡ C.scenario runtime.old }
    ensures made { IfOk result (λ made. IsNextOf (C.scenario runtime.old) (C.state runtime.old) 0 made
        (C.made runtime.new) (C.state runtime.new)) }
{
    match runtime.standing() {
        Standing::Ticks => {
            runtime.let_tick()?;
            Ok(true)
        }
        Standing::Runs => Ok(false),
        Standing::Finished => Ok(false),
        Standing::Stuck => Ok(false),
    }
}

// Makes the next entry of a lane, or of the clock as lane 0, where it has one. The answer is whether it was made. The
// only error is want of memory.
#[inline(always)]
fn try_next<C: Tries>(
    alloc: Global,
    runtime: &mut C,
    lane: u32,
    servants: &mut Vec<Box<dyn Servant + Send>>,
) -> Result<bool, Memory>
    requires reached { Reached (C.scenario runtime.old) (C.state runtime.old) }
    requires room { (C.state runtime.old).entries < limit (C.scenario runtime.old) }
    requires row { map kind_of servants.old.items ≡ row }
    ensures scenario { C.scenario runtime.new ≡ C.scenario runtime.old }
    ensures row { map kind_of servants.new.items ≡ row }
    ensures made { IfOk result (λ made. IsNextOf (C.scenario runtime.old) (C.state runtime.old) lane made
        (C.made runtime.new) (C.state runtime.new)) }
{
    if lane < 1 {
        return try_clock(runtime);
    }
    if runtime.lanes() < lane {
        return Ok(false);
    }
    let made = runtime.try_lane(alloc, lane, servants)?;
    Ok(made)
}

// Makes the entry of the schedule without picks: of the first lane that can step from the one behind `last`
// on, or of the clock where no lane can. The only error is want of memory.
#[tactic(auto, using(crate::proofs::Entries::lane_scheduled, crate::proofs::Entries::clock_scheduled, com_runtime::proofs::Choices::not_runs, com_runtime::proofs::Limits::not_finished, com_runtime::proofs::Limits::not_stuck))]
fn step_schedule<C: Runtime>(
    alloc: Global,
    runtime: &mut C,
    standing: Standing,
    last: u32,
    servants: &mut Vec<Box<dyn Servant + Send>>,
) -> Result<Entry, Memory>
    requires standing { standing ≡ standing_of (C.scenario runtime.old) (C.state runtime.old) }
    requires goes_on { ended_now (C.scenario runtime.old) (C.state runtime.old) ≡ None }
    requires room { (C.state runtime.old).entries < limit (C.scenario runtime.old) }
    requires reached { Reached (C.scenario runtime.old) (C.state runtime.old) }
    requires last { last ≤ lanes (C.scenario runtime.old) }
    requires row { map kind_of servants.old.items ≡ row }
    ensures { IfOk result (λ e. IsScheduled (C.scenario runtime.old) (C.state runtime.old) last e
        (C.state runtime.new)) }
{
    match standing {
        Standing::Runs => match choose(runtime, &[], 0, last) {
            Some(chosen) => {
                let entry = runtime.step(alloc, chosen.lane, servants)?;
                Ok(entry)
            }
            None => unreachable!(),
        },
        Standing::Ticks => {
            let entry = runtime.tick()?;
            Ok(entry)
        }
        Standing::Finished => unreachable!(),
        Standing::Stuck => unreachable!(),
    }
}

// Judges what a trace has left where the history has ended so: it is to be the report. The only error is
// want of memory.
fn judge_report<C: Runtime>(
    alloc: Global,
    scenario: &Scenario,
    runtime: &C,
    ended: Ended,
    rest: &[u8],
) -> Result<Judged, Memory>
    requires scenario { C.scenario runtime.now ≡ scenario.now }
    requires reached { Reached scenario.now (C.state runtime.now) }
    requires few { (C.state runtime.now).entries ≤ ENTRY_2_LIMIT }
    ensures { IfOk result (λ j. IsTold scenario.now (C.state runtime.now) ended rest.now j) }
{
    let counts = all_counts(alloc, scenario, runtime)?;
    let entries = runtime.entries();
    let clock = runtime.clock();
    let mut text = ByteList::new(alloc);
    report(alloc, counts.as_slice(), entries, clock, ended, &mut text)?;
    compare(alloc, entries, text.as_slice(), rest)
}

// Judges a found line, which is the first of what a trace has left and names no lane that makes an entry: it is in the
// place of the report, where the history has ended, or there is no legal line. The only error is want of memory.
#[inline(never)]
fn judge_unmade<C: Runtime>(
    alloc: Global,
    scenario: &Scenario,
    runtime: &C,
    rest: &[u8],
    found: &[u8],
) -> Result<Judged, Memory>
    requires scenario { C.scenario runtime.now ≡ scenario.now }
    requires reached { Reached scenario.now (C.state runtime.now) }
    requires few { (C.state runtime.now).entries ≤ limit scenario.now }
    requires none { NamesNone scenario.now (C.state runtime.now) found.now }
    ensures { IfOk result (λ j. (last : ℕ) → IsLast scenario.now (C.state runtime.now) last rest.now
        (Some found.now) (ended_now scenario.now (C.state runtime.now)) j) }
{
    let standing = runtime.standing();
    if let Some(ended) = end_of(scenario, runtime, standing) {
        return judge_report(alloc, scenario, runtime, ended, rest);
    }
    differs(alloc, runtime.entries() + 1, found, NO_LINE)
}

// A line without its end.
#[inline(always)]
fn without_end(line: &[u8]) -> &[u8]
    ensures { result.now ≡ without_end line.now }
{
    line.split_at(line.len().saturating_sub(1)).0
}

// What a judge keeps from line to line: the last lane but the clock's, or 0, and the line of the last entry.
#[derive(Drop)]
struct Judge {
    last: u32,
    line: Line,
}

impl Judge {
    // Before the first line.
    fn new(alloc: Global) -> Judge
        ensures { result.last ≡ 0 }
    {
        Judge {
            last: 0,
            line: Line::new(alloc),
        }
    }

    // Writes the line of an entry that was just made. The only error is want of memory.
    #[inline(always)]
    #[tactic(auto, using(crate::proofs::Judging::without_end))]
    fn write(&mut self, version: u8, place: u64, entry: &Entry) -> Result<(), Memory>
        ensures last { self.new.last ≡ self.old.last }
        ensures line { OnOk result (without_end self.new.line ≡ entry_line version place entry.now) }
    {
        self.line.write(version, place, entry)
    }

    // Whether a found line is the line that was written for an entry of this lane, which is then the last one, if it is
    // not the clock's.
    #[inline(always)]
    fn agrees(&mut self, lane: u32, found: &[u8]) -> bool
        ensures line { self.new.line ≡ self.old.line }
        ensures agrees { IsCompared lane found.now (without_end self.old.line) self.old.last result self.new.last }
    {
        if found != without_end(self.line.as_slice()) {
            return false;
        }
        self.last = last_after(lane, self.last);
        true
    }

    // Judges the end of a trace in the place of an entry: the legal line is that of the schedule's entry.
    // The only error is want of memory.
    fn early<C: Runtime>(
        &mut self,
        alloc: Global,
        version: u8,
        runtime: &mut C,
        standing: Standing,
        servants: &mut Vec<Box<dyn Servant + Send>>,
    ) -> Result<Judged, Memory>
        requires version { version ≡ (C.scenario runtime.old).version }
        requires standing { standing ≡ standing_of (C.scenario runtime.old) (C.state runtime.old) }
        requires goes_on { ended_now (C.scenario runtime.old) (C.state runtime.old) ≡ None }
        requires room { (C.state runtime.old).entries < limit (C.scenario runtime.old) }
        requires reached { Reached (C.scenario runtime.old) (C.state runtime.old) }
        requires last { self.old.last ≤ lanes (C.scenario runtime.old) }
        requires row { map kind_of servants.old.items ≡ row }
        ensures { IfOk result (λ j. IsOther (C.scenario runtime.old)
            (C.state runtime.old) self.old.last None j) }
    {
        let place = runtime.entries() + 1;
        let entry = step_schedule(alloc, runtime, standing, self.last, servants)?;
        self.write(version, place, &entry)?;
        differs(alloc, place, NO_LINE, without_end(self.line.as_slice()))
    }

    // Makes the next entry of the lane that a found line names, or of the clock as lane 0, where there is room for one
    // and it has one, and writes its line. The answer is the lane. Else nothing has changed. The only error is want of
    // memory.
    #[inline(always)]
    #[tactic(auto, using(com_runtime::proofs::Resting::same_reached))]
    fn try_named<C: Tries>(
        &mut self,
        alloc: Global,
        scenario: &Scenario,
        runtime: &mut C,
        found: &[u8],
        servants: &mut Vec<Box<dyn Servant + Send>>,
    ) -> Result<Option<u32>, Memory>
        requires scenario { C.scenario runtime.old ≡ scenario.now }
        requires reached { Reached scenario.now (C.state runtime.old) }
        requires few { (C.state runtime.old).entries ≤ limit scenario.now }
        requires row { map kind_of servants.old.items ≡ row }
        ensures scenario { C.scenario runtime.new ≡ scenario.now }
        ensures row { map kind_of servants.new.items ≡ row }
        ensures last { self.new.last ≡ self.old.last }
        ensures tried { IfOk result (λ lane. IsTried scenario.now (C.state runtime.old) found.now lane
            (C.state runtime.new) (without_end self.new.line)) }
    {
        if runtime.entries() >= u64::from(scenario.limit()) {
            return Ok(None);
        }
        let Some(lane) = lane_of(found) else {
            return Ok(None);
        };
        let made = try_next(alloc, runtime, lane, servants)?;
        if !made {
            return Ok(None);
        }
        let place = runtime.entries();
        self.write(scenario.version, place, runtime.last())?;
        Ok(Some(lane))
    }

    // Judges the end of a trace: it is in the place of the report, or of an entry. The only error is want of
    // memory.
    #[inline(never)]
    #[tactic(auto, using(com_runtime::proofs::Resting::same_reached, crate::proofs::Judging::below_at))]
    fn judge_end<C: Runtime>(
        &mut self,
        alloc: Global,
        scenario: &Scenario,
        runtime: &mut C,
        rest: &[u8],
        servants: &mut Vec<Box<dyn Servant + Send>>,
    ) -> Result<Judged, Memory>
        requires scenario { C.scenario runtime.old ≡ scenario.now }
        requires reached { Reached scenario.now (C.state runtime.old) }
        requires few { (C.state runtime.old).entries ≤ limit scenario.now }
        requires last { self.old.last ≤ lanes scenario.now }
        requires row { map kind_of servants.old.items ≡ row }
        ensures { IfOk result (λ j. IsLast scenario.now (C.state runtime.old) self.old.last rest.now None
            (ended_now scenario.now (C.state runtime.old)) j) }
    {
        let standing = runtime.standing();
        if let Some(ended) = end_of(scenario, runtime, standing) {
            return judge_report(alloc, scenario, runtime, ended, rest);
        }
        self.early(alloc, scenario.version, runtime, standing, servants)
    }
}

/// Judges a trace on a runtime of a formed scenario that has made no entry. The row has one servant of each
/// kind, in the order of the kinds. The only error is want of memory.
pub fn judge_trace<C: Tries>(
    alloc: Global,
    scenario: &Scenario,
    runtime: &mut C,
    servants: &mut Vec<Box<dyn Servant + Send>>,
    trace: &[u8],
) -> Result<Judged, Memory>
    requires formed { Formed scenario.now }
    requires scenario { C.scenario runtime.old ≡ scenario.now }
    requires first { C.state runtime.old ≡ first_tables scenario.now }
    requires row { map kind_of servants.old.items ≡ row }
    ensures { IfOk result (λ j. IsJudged scenario.now trace.now j) }
{
    let mut judge = Judge::new(alloc);
    let mut rest = trace;
    'lines: while !rest.is_empty() {
        let (found, behind) = split_line(rest);
        let Some(lane) = judge.try_named(alloc, scenario, runtime, found, servants)? else {
            return judge_unmade(alloc, scenario, runtime, rest, found);
        };
        if !judge.agrees(lane, found) {
            let legal = without_end(judge.line.as_slice());
            return differs(alloc, runtime.entries(), found, legal);
        }
        rest = behind;
    }
    judge.judge_end(alloc, scenario, runtime, rest, servants)
}
