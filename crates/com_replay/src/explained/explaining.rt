//! Why a history is stuck, on any runtime that keeps the rules.
ghost use Rattle.std.specs.Prelude.{◌≡◌, ◌≤◌, ◌↔◌, None, Some, true, false, IfOk, length};
ghost use Rattle.com_model.specs.Ends.{limit, stuck};
ghost use Rattle.com_model.specs.Formed.{Formed};
ghost use Rattle.com_model.specs.Rules.{legal};
ghost use Rattle.com_model.specs.State.{first_tables};
ghost use Rattle.com_waits.specs.Chains.{explanation};
ghost use Rattle.com_waits.specs.Walks.{told};
ghost use Rattle.com_replay.specs.Stuck.{IsLawful, explained_by, is_stuck_by};

use crate::explained::servants::is_stuck_on;
use com_base::Memory;
use com_model::{Entry, Scenario};
use com_runtime::Runtime;
use com_waits::{Waits, waits_stuck};
use std::alloc::Global;

// What explains a legal history of a formed scenario, of which it is known whether it is stuck.
fn explain_entries(
    alloc: Global,
    scenario: &Scenario,
    history: &[Entry],
    is_stuck: bool,
) -> Result<Option<Waits>, Memory>
    requires lawful { IsLawful scenario.now history.now }
    requires stuck { is_stuck ≡ is_stuck_by scenario.now history.now }
    ensures { IfOk result (λ waits. waits ≡ explained_by scenario.now history.now) }
{
    if !is_stuck {
        return Ok(None);
    }
    let waits = waits_stuck(alloc, scenario, history)?;
    Ok(Some(waits))
}

/// What explains a legal history of a formed scenario, on a runtime that has made no entry. The only error is
/// want of memory.
pub fn explained_on<C: Runtime>(
    alloc: Global,
    scenario: &Scenario,
    runtime: &mut C,
    history: &[Entry],
) -> Result<Option<Waits>, Memory>
    requires lawful { IsLawful scenario.now history.now }
    requires scenario { C.scenario runtime.old ≡ scenario.now }
    requires first { C.state runtime.old ≡ first_tables scenario.now }
    ensures { IfOk result (λ waits. waits ≡ explained_by scenario.now history.now) }
{
    let is_stuck = is_stuck_on(alloc, scenario, runtime, history)?;
    explain_entries(alloc, scenario, history, is_stuck)
}

/// Why a legal history of a formed scenario is stuck, as `explain` says it, on any runtime of that scenario
/// that keeps the rules and has made no entry. The runtime makes the history's entries. The only error is
/// want of memory.
pub fn explain_on<C: Runtime>(
    alloc: Global,
    scenario: &Scenario,
    runtime: &mut C,
    history: &[Entry],
) -> Result<Option<Waits>, Memory>
    requires formed { Formed scenario.now }
    requires lawful { legal scenario.now (told history.now) }
    requires few { length history.now ≤ limit scenario.now }
    requires scenario { C.scenario runtime.old ≡ scenario.now }
    requires first { C.state runtime.old ≡ first_tables scenario.now }
    ensures waits { IfOk result (λ waits. stuck scenario.now (told history.now) ≡ true
        → waits ≡ Some (explanation scenario.now (told history.now))) }
    ensures none { IfOk result (λ waits. waits ≡ None
        ↔ stuck scenario.now (told history.now) ≡ false) }
{
    explained_on(alloc, scenario, runtime, history)
}
