//! Why a legal history is stuck, and that it is: found from its entries alone.
//!
//! Whether a history is stuck rests on what is dying and on what waits for a time, which its entries do not
//! show at once. So a core makes the entries again, and is asked how it stands behind them.
ghost use Rattle.std.specs.Arc.{arc_value};
ghost use Rattle.std.specs.Prelude.{◌≡◌, ◌≤◌, ◌↔◌, None, Some, true, false, IfOk, length};
ghost use Rattle.com_model.specs.Ends.{limit, stuck};
ghost use Rattle.com_model.specs.Formed.{Formed};
ghost use Rattle.com_model.specs.Rules.{legal};
ghost use Rattle.com_waits.specs.Chains.{explanation};
ghost use Rattle.com_waits.specs.Walks.{told};
ghost use Rattle.com_replay.specs.Stuck.{IsLawful, explained_by};

mod explaining;
mod retracing;
mod servants;

use crate::let_go;
use com_base::Memory;
use com_core::Core;
use com_model::{Entry, Scenario};
use com_waits::Waits;
pub use explaining::explain_on;
use explaining::explained_on;
use std::alloc::Global;
use std::sync::Arc;

// What explains a legal history of a formed scenario: a core makes its entries again.
fn explain_shared(
    alloc: Global,
    scenario: &Arc<Scenario>,
    history: &[Entry],
) -> Result<Option<Waits>, Memory>
    requires formed { Formed (arc_value scenario.now) }
    requires lawful { IsLawful (arc_value scenario.now) history.now }
    ensures { IfOk result (λ waits. waits ≡ explained_by (arc_value scenario.now) history.now) }
{
    let mut core = Core::new(alloc, scenario.clone()?)?;
    let waits = explained_on(alloc, &**scenario, &mut core, history);
    let_go(core);
    waits
}

/// Why a legal history of a formed scenario is stuck, by its entries in the order of their making: each lane
/// with something open and what it waits for, by lane, and the cycle in which lanes wait for each other.
/// `None` exactly where the history is not stuck. The only error is want of memory.
///
/// The history is legal and has at most as many entries as the scenario's limit; it need not be the one of
/// the schedule.
pub fn explain(
    alloc: Global,
    scenario: Arc<Scenario>,
    history: &[Entry],
) -> Result<Option<Waits>, Memory>
    requires formed { Formed (arc_value scenario) }
    requires lawful { legal (arc_value scenario) (told history.now) }
    requires few { length history.now ≤ limit (arc_value scenario) }
    ensures waits { IfOk result (λ waits. stuck (arc_value scenario) (told history.now) ≡ true
        → waits ≡ Some (explanation (arc_value scenario) (told history.now))) }
    ensures none { IfOk result (λ waits. waits ≡ None
        ↔ stuck (arc_value scenario) (told history.now) ≡ false) }
{
    explain_shared(alloc, &scenario, history)
}
