//! The row of servants by which a trace is judged.
ghost use Rattle.std.specs.Prelude.{◌≡◌, IfOk};
ghost use Rattle.com_model.specs.Formed.{Formed};
ghost use Rattle.com_model.specs.State.{first_tables};
ghost use Rattle.com_check.specs.Judging.{IsJudged};

use crate::judge::judge_trace;
use crate::judged::Judged;
use com_base::Memory;
use com_model::Scenario;
use com_replay::fresh_row;
use com_schedule::Tries;
use std::alloc::Global;

/// Judges a trace of a formed scenario, on a runtime that has made no entry, by servants that have made no
/// step. The only error is want of memory.
pub fn judge_on<C: Tries>(
    alloc: Global,
    scenario: &Scenario,
    runtime: &mut C,
    trace: &[u8],
) -> Result<Judged, Memory>
    requires formed { Formed scenario.now }
    requires scenario { C.scenario runtime.old ≡ scenario.now }
    requires first { C.state runtime.old ≡ first_tables scenario.now }
    ensures { IfOk result (λ j. IsJudged scenario.now trace.now j) }
{
    let mut servants = fresh_row!(alloc);
    judge_trace(alloc, scenario, runtime, &mut servants, trace)
}
