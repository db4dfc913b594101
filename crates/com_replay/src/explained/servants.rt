//! The row of servants by which a history is made again.
ghost use Rattle.std.specs.Prelude.{◌≡◌, IfOk};
ghost use Rattle.com_model.specs.State.{first_tables};
ghost use Rattle.com_replay.specs.Stuck.{IsLawful, is_stuck_by};

use crate::explained::retracing::stuck_after;
use crate::fresh_row;
use com_base::Memory;
use com_model::{Entry, Scenario};
use com_runtime::Runtime;
use std::alloc::Global;

/// Whether a legal history of a formed scenario is stuck, by its entries in the order of their making, on a
/// runtime that has made none: it makes them again, by servants that have made no step. The only error is
/// want of memory.
pub fn is_stuck_on<C: Runtime>(
    alloc: Global,
    scenario: &Scenario,
    runtime: &mut C,
    history: &[Entry],
) -> Result<bool, Memory>
    requires lawful { IsLawful scenario.now history.now }
    requires scenario { C.scenario runtime.old ≡ scenario.now }
    requires first { C.state runtime.old ≡ first_tables scenario.now }
    ensures { IfOk result (λ yes. yes ≡ is_stuck_by scenario.now history.now) }
{
    let mut servants = fresh_row!(alloc);
    stuck_after(alloc, scenario, runtime, &mut servants, history)
}
