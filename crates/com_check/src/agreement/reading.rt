//! The history that an agreed trace is, made again line by line.
ghost use Rattle.std.specs.Arc.{arc_value};
ghost use Rattle.std.specs.Prelude.{◌≡◌, ◌<◌, IfOk, map};
ghost use Rattle.com_model.specs.Ends.{limit};
ghost use Rattle.com_model.specs.Formed.{Formed};
ghost use Rattle.com_model.specs.State.{first_tables};
ghost use Rattle.com_servant.specs.Rows.{row};
ghost use Rattle.com_runtime.specs.Reports.{all_counts_in};
ghost use Rattle.com_runtime.specs.Standings.{Reached};
ghost use Rattle.com_check.specs.Judging.{IsText};
ghost use Rattle.com_check.specs.Agreeing.{IsAgreed};
ghost use Rattle.com_check.specs.AgreedLines.{IsMadeFor, NamesNext};

use crate::agreement::traces::Agreed;
use crate::{lane_of, split_line};
use com_base::{Memory, Rows};
use com_model::{Ended, Entry, Scenario};
use com_replay::{Core, fresh_row, let_go, make_next};
use com_runtime::{Runtime, all_counts, end_of};
use com_servant::Servant;
use std::alloc::Global;
use std::sync::Arc;

// Makes the next entry of the lane that a line names. The only error is want of memory.
#[tactic(auto, using(crate::proofs::AgreedLines::names_lane))]
fn make_named<C: Runtime>(
    alloc: Global,
    runtime: &mut C,
    servants: &mut Vec<Box<dyn Servant + Send>>,
    line: &[u8],
) -> Result<Entry, Memory>
    requires names { NamesNext (C.scenario runtime.old) (C.state runtime.old) line.now }
    requires room { (C.state runtime.old).entries < limit (C.scenario runtime.old) }
    requires reached { Reached (C.scenario runtime.old) (C.state runtime.old) }
    requires row { map kind_of servants.old.items ≡ row }
    ensures scenario { C.scenario runtime.new ≡ C.scenario runtime.old }
    ensures row { map kind_of servants.new.items ≡ row }
    ensures made { IfOk result (λ entry. IsMadeFor (C.scenario runtime.old)
        (C.state runtime.old) line.now entry (C.state runtime.new)) }
{
    match lane_of(line) {
        Some(lane) => make_next(alloc, runtime, servants, lane),
        None => unreachable!(),
    }
}

// What was read, where a runtime has made these entries and its history has ended so. The only error is want
// of memory.
fn agreement<C: Runtime>(
    alloc: Global,
    scenario: &Scenario,
    runtime: &C,
    entries: Vec<Entry>,
    ended: Ended,
) -> Result<Agreed, Memory>
    requires scenario { C.scenario runtime.now ≡ scenario.now }
    requires reached { Reached scenario.now (C.state runtime.now) }
    ensures { IfOk result (λ agreed. agreed
        ≡ record {
          history = entries.items;
          counts =
              all_counts_in scenario.now (C.state runtime.now);
          clock =
              (C.state runtime.now).clock;
          ended = ended;
        }) }
{
    let counts = all_counts(alloc, scenario, runtime)?;
    let clock = runtime.clock();
    Ok(Agreed {
        history: Rows::from_vec(entries),
        counts: Rows::from_vec(counts),
        clock,
        ended,
    })
}

// Reads an agreed trace on a runtime that has made no entry: each line names the lane whose entry it is. The
// row has one servant of each kind, in the order of the kinds. The only error is want of memory.
fn read_by<C: Runtime>(
    alloc: Global,
    scenario: &Scenario,
    runtime: &mut C,
    servants: &mut Vec<Box<dyn Servant + Send>>,
    trace: &[u8],
) -> Result<Agreed, Memory>
    requires formed { Formed scenario.now }
    requires text { IsText scenario.now trace.now }
    requires scenario { C.scenario runtime.old ≡ scenario.now }
    requires first { C.state runtime.old ≡ first_tables scenario.now }
    requires row { map kind_of servants.old.items ≡ row }
    ensures { IfOk result (λ agreed. IsAgreed scenario.now trace.now agreed) }
{
    let mut entries = Vec::new(alloc);
    let mut rest = trace;
    'lines: loop {
        let standing = runtime.standing();
        if let Some(ended) = end_of(scenario, runtime, standing) {
            return agreement(alloc, scenario, runtime, entries, ended);
        }
        let (line, behind) = split_line(rest);
        let entry = make_named(alloc, runtime, servants, line)?;
        entries.push(entry)?;
        rest = behind;
    }
}

// Reads an agreed trace by servants that have made no step.
fn read_on<C: Runtime>(
    alloc: Global,
    scenario: &Scenario,
    runtime: &mut C,
    trace: &[u8],
) -> Result<Agreed, Memory>
    requires formed { Formed scenario.now }
    requires text { IsText scenario.now trace.now }
    requires scenario { C.scenario runtime.old ≡ scenario.now }
    requires first { C.state runtime.old ≡ first_tables scenario.now }
    ensures { IfOk result (λ agreed. IsAgreed scenario.now trace.now agreed) }
{
    let mut servants = fresh_row!(alloc);
    read_by(alloc, scenario, runtime, &mut servants, trace)
}

/// Reads an agreed trace of a formed scenario. The only error is want of memory.
pub fn read(alloc: Global, scenario: &Arc<Scenario>, trace: &[u8]) -> Result<Agreed, Memory>
    requires formed { Formed (arc_value scenario.now) }
    requires text { IsText (arc_value scenario.now) trace.now }
    ensures { IfOk result (λ agreed. IsAgreed (arc_value scenario.now) trace.now agreed) }
{
    let mut core = Core::new(alloc, scenario.clone()?)?;
    let agreed = read_on(alloc, &**scenario, &mut core, trace);
    let_go(core);
    agreed
}
