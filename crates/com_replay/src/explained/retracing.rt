//! Making a history again, on any runtime that keeps the rules.
ghost use Rattle.std.specs.Prelude.{◌≡◌, IfOk, map};
ghost use Rattle.com_model.specs.State.{first_tables};
ghost use Rattle.com_servant.specs.Rows.{row};
ghost use Rattle.com_replay.specs.Stuck.{IsLawful, is_stuck, is_stuck_by};

use crate::make_next;
use com_base::Memory;
use com_model::{Entry, Scenario};
use com_runtime::{Runtime, Standing};
use com_servant::Servant;
use std::alloc::Global;

// Whether a runtime that stands so is stuck: no lane can step, no call waits for a time, and not
// all is done.
fn is_stuck(standing: Standing) -> bool
    ensures { result ≡ is_stuck standing }
{
    matches!(standing, Standing::Stuck)
}

/// Whether a legal history of a formed scenario is stuck, by its entries in the order of their making: a
/// runtime that has made none makes them again. The row has one servant of each kind, in the order of the
/// kinds. The only error is want of memory.
pub fn stuck_after<C: Runtime>(
    alloc: Global,
    scenario: &Scenario,
    runtime: &mut C,
    servants: &mut Vec<Box<dyn Servant + Send>>,
    history: &[Entry],
) -> Result<bool, Memory>
    requires lawful { IsLawful scenario.now history.now }
    requires scenario { C.scenario runtime.old ≡ scenario.now }
    requires first { C.state runtime.old ≡ first_tables scenario.now }
    requires row { map kind_of servants.old.items ≡ row }
    ensures { IfOk result (λ yes. yes ≡ is_stuck_by scenario.now history.now) }
{
    let mut rest = history;
    'entries: while let Some((entry, others)) = rest.split_first() {
        make_next(alloc, runtime, servants, entry.lane)?;
        rest = others;
    }
    let standing = runtime.standing();
    Ok(is_stuck(standing))
}
