//! What explains how the one history of a scenario ended.
ghost use Rattle.std.specs.Arc.{arc_value};
ghost use Rattle.std.specs.Prelude.{◌≡◌, IfOk, Some};
ghost use Rattle.com_model.specs.Ends.{ended_as, scheduled};
ghost use Rattle.com_model.specs.Formed.{Formed};
ghost use Rattle.com_replay.specs.Recorded.{IsRecorded};
ghost use Rattle.com_waits.specs.Chains.{explanation_of};

use com_base::Memory;
use com_io::Discard;
use com_model::{Ended, Scenario};
use com_replay::{Recorded, fresh_row, keep};
use com_waits::{Waits, waits_at};
use std::alloc::{AllocError, Global};
use std::sync::Arc;

// The entries of the one history of a scenario, made by servants that have made no step. The only error is
// want of memory.
fn record(alloc: Global, scenario: &Arc<Scenario>) -> Result<Recorded, Memory>
    requires { Formed (arc_value scenario.now) }
    ensures { IfOk result (λ recorded. IsRecorded
        (arc_value scenario.now) recorded.entries.items recorded.ended) }
{
    let mut servants = fresh_row!(alloc);
    let mut nowhere = Discard;
    match keep(alloc, scenario, &mut servants, &mut nowhere) {
        Ok(recorded) => Ok(recorded),
        Err(_) => Err(AllocError),
    }
}

// What explains the one history of a scenario: it is made once more, and its entries are kept. The only error
// is want of memory.
fn explain_again(alloc: Global, scenario: &Arc<Scenario>) -> Result<Option<Waits>, Memory>
    requires { Formed (arc_value scenario.now) }
    ensures { IfOk result (λ waits. waits
        ≡ explanation_of (arc_value scenario.now) (scheduled (arc_value scenario.now))) }
{
    let recorded = record(alloc, scenario)?;
    waits_at(
        alloc,
        &**scenario,
        recorded.entries.as_slice(),
        recorded.ended,
    )
}

/// What explains the one history of a scenario, which has ended so: nothing where it is not stuck. Only a
/// stuck history is made once more, to look at its entries. The only error is want of memory.
#[tactic(auto, using(com_waits::proofs::Explained::ended_ok, com_waits::proofs::Explained::ended_budget))]
pub fn explain_end(
    alloc: Global,
    scenario: &Arc<Scenario>,
    ended: Ended,
) -> Result<Option<Waits>, Memory>
    requires formed { Formed (arc_value scenario.now) }
    requires ends { ended_as (arc_value scenario.now) (scheduled (arc_value scenario.now)) ≡ Some ended }
    ensures { IfOk result (λ waits. waits
        ≡ explanation_of (arc_value scenario.now) (scheduled (arc_value scenario.now))) }
{
    match ended {
        Ended::Stuck => explain_again(alloc, scenario),
        Ended::Ok => Ok(None),
        Ended::Budget => Ok(None),
    }
}
