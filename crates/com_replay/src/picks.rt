//! Schedules of one's own: the history that a list of lanes makes, whatever the list.
ghost use Rattle.std.specs.Arc.{arc_value};
ghost use Rattle.std.specs.Prelude.{◌≡◌, ◌≤◌, IfOk, length, reverse};
ghost use Rattle.com_model.specs.Ends.{limit};
ghost use Rattle.com_model.specs.Formed.{Formed};
ghost use Rattle.com_model.specs.Rules.{legal};
ghost use Rattle.com_replay.specs.Picked.{IsPicked, picked};

mod laws;
mod picking;

use crate::let_go;
use com_base::Memory;
use com_core::Core;
use com_model::{Entry, Scenario};
pub use laws::picks_and_histories;
use picking::picked_on;
use std::alloc::Global;
use std::sync::Arc;

// As `history_of_picks`, with what it answers as one fact.
fn picked_shared(
    alloc: Global,
    scenario: &Arc<Scenario>,
    picks: &[u32],
) -> Result<Vec<Entry>, Memory>
    requires { Formed (arc_value scenario.now) }
    ensures { IfOk result (λ entries. IsPicked (arc_value scenario.now) picks.now entries.items) }
{
    let mut core = Core::new(alloc, scenario.clone()?)?;
    let entries = picked_on(alloc, &**scenario, &mut core, picks);
    let_go(core);
    entries
}

/// Makes the history that a list of picks makes, and answers its entries in the order of their making. Each
/// pick is the number of a lane, or 0 for the clock. It is tried once, in order: where that lane can step, or
/// the clock can go on, it makes its next entry, else the pick is passed over. So is each pick behind the
/// last entry that the scenario's limit leaves room for. The scenario is a formed one.
///
/// Whatever the picks, the history is a legal one of the scenario (`lawful`), with an entry for each pick
/// that could step and no other (`is`), and no more entries than it may have (`few`). It need not have ended.
/// The only error is want of memory.
pub fn history_of_picks(
    alloc: Global,
    scenario: &Arc<Scenario>,
    picks: &[u32],
) -> Result<Vec<Entry>, Memory>
    requires { Formed (arc_value scenario.now) }
    ensures lawful { IfOk result (λ entries. legal (arc_value scenario.now) (reverse entries.items)) }
    ensures is { IfOk result (λ entries. reverse entries.items ≡ picked (arc_value scenario.now) picks.now) }
    ensures few { IfOk result (λ entries. length entries.items ≤ limit (arc_value scenario.now)) }
{
    picked_shared(alloc, scenario, picks)
}
