//! What a report counts of each object.
ghost use Rattle.std.specs.Prelude.{◌≡◌, IfOk};
ghost use Rattle.com_runtime.specs.Reports.{all_counts_in};
ghost use Rattle.com_runtime.specs.Standings.{Reached};

use crate::runtime::Runtime;
use com_base::Memory;
use com_model::{Counts, Scenario};
use std::alloc::Global;

/// What a report counts of each object, in order of making. The only error is want of memory.
#[tactic(auto, using(crate::proofs::Counting::one_more_counted_at, crate::proofs::Resting::same_reached))]
pub fn all_counts<C: Runtime>(
    alloc: Global,
    scenario: &Scenario,
    runtime: &C,
) -> Result<Vec<Counts>, Memory>
    requires scenario { C.scenario runtime.now ≡ scenario.now }
    requires reached { Reached scenario.now (C.state runtime.now) }
    ensures { IfOk result (λ all. all.items ≡ all_counts_in scenario.now (C.state runtime.now)) }
{
    let mut all = Vec::new(alloc);
    let objects = runtime.objects();
    for number in 0..objects {
        let Some(counts) = runtime.counts(number + 1) else {
            unreachable!()
        };
        all.push(counts)?;
    }
    Ok(all)
}
