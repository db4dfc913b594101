//! Why a history is stuck, by its entries alone, and whether an explanation is the right one.
ghost use Rattle.std.specs.Prelude.{◌≡◌, ◌↔◌, Some, true, IfOk, IsTrue};
ghost use Rattle.com_model.specs.declared.scenario.Scenario.{Scenario as AnyScenario};
ghost use Rattle.com_model.specs.Tables.{lanes};
ghost use Rattle.com_model.specs.Ends.{ended_as, stuck};
ghost use Rattle.com_model.specs.Formed.{Formed};
ghost use Rattle.com_model.specs.Rules.{legal};
ghost use Rattle.com_waits.specs.Chains.{explained, explanation, explanation_of};
ghost use Rattle.com_waits.specs.Reasons.{pool_lane};
ghost use Rattle.com_waits.specs.Walks.{seen_waits, told};

use crate::chains::explain;
use crate::reasons::{Wait, Waits, Why};
use crate::walks::wait_rows;
use com_base::Memory;
use com_model::{Ended, Entry, Scenario};
use std::alloc::Global;

/// How many lanes a scenario has, and the least lane of its pool.
#[derive(Debug, Clone, Copy)]
pub struct LaneNumbers {
    /// How many lanes there are.
    pub lanes: u32,
    /// The least lane of the pool.
    pub pool: u32,
}

/// The numbers of a formed scenario's lanes.
pub fn lane_numbers(scenario: &Scenario) -> LaneNumbers
    requires { Formed scenario.now }
    ensures lanes { result.lanes ≡ lanes scenario.now }
    ensures pool { result.pool ≡ pool_lane scenario.now }
{
    let threads = scenario.threads.len() as u32;
    LaneNumbers {
        lanes: threads + 1 + scenario.pool,
        pool: threads + 2,
    }
}

// Why the lanes of a stuck history wait.
fn explain_rows(alloc: Global, numbers: LaneNumbers, history: &[Entry]) -> Result<Waits, Memory>
    ensures { IfOk result (λ waits. waits
        ≡ explained (seen_waits numbers.pool (told history.now) numbers.lanes)) }
{
    let waits = wait_rows(alloc, history, numbers.lanes, numbers.pool)?;
    explain(alloc, waits)
}

/// Why a history that has ended so is stuck, by its entries in the order of their making, for any scenario
/// with these numbers of lanes; nothing where it is not stuck. The only error is want of memory.
#[tactic(auto, using(crate::proofs::Explained::ended_by, crate::proofs::Explained::ended_ok, crate::proofs::Explained::ended_budget))]
pub fn explain_by(
    alloc: Global,
    numbers: LaneNumbers,
    history: &[Entry],
    ended: Ended,
) -> Result<Option<Waits>, Memory>
    ensures { IfOk result (λ waits. (s : AnyScenario) → numbers.lanes ≡ lanes s
        → numbers.pool ≡ pool_lane s → Formed s
        → legal s (told history.now) → ended_as s (told history.now) ≡ Some ended
        → waits ≡ explanation_of s (told history.now)) }
{
    match ended {
        Ended::Stuck => {
            let waits = explain_rows(alloc, numbers, history)?;
            Ok(Some(waits))
        }
        Ended::Ok => Ok(None),
        Ended::Budget => Ok(None),
    }
}

/// Why a history of a formed scenario that has ended so is stuck, by its entries in the order of their making;
/// nothing where it is not stuck. The only error is want of memory.
///
/// It is for callers that made the history and know its end. `com_replay::explain` finds the end by itself.
pub fn waits_at(
    alloc: Global,
    scenario: &Scenario,
    history: &[Entry],
    ended: Ended,
) -> Result<Option<Waits>, Memory>
    requires { Formed scenario.now }
    ensures { IfOk result (λ waits. legal scenario.now (told history.now)
        → ended_as scenario.now (told history.now) ≡ Some ended
        → waits ≡ explanation_of scenario.now (told history.now)) }
{
    let numbers = lane_numbers(scenario);
    explain_by(alloc, numbers, history, ended)
}

/// Why the lanes of a formed scenario's stuck history wait, by its entries in the order of their making. The
/// only error is want of memory.
#[tactic(auto, using(crate::proofs::Explained::stuck_rows))]
pub fn waits_stuck(alloc: Global, scenario: &Scenario, history: &[Entry]) -> Result<Waits, Memory>
    requires { Formed scenario.now }
    ensures { IfOk result (λ waits. legal scenario.now (told history.now)
        → stuck scenario.now (told history.now) ≡ true
        → waits ≡ explanation scenario.now (told history.now)) }
{
    let numbers = lane_numbers(scenario);
    explain_rows(alloc, numbers, history)
}

// Whether two reasons are equal, in the call and the lane too where they name them.
fn same_why(left: Why, right: Why) -> bool
    ensures { IsTrue result ↔ (left ≡ right) }
{
    left == right
}

// Whether two rows are of one lane and give one reason.
fn same_wait(left: Wait, right: Wait) -> bool
    ensures { IsTrue result ↔ (left ≡ right) }
{
    left.lane == right.lane && same_why(left.why, right.why)
}

// Whether two lists have equal rows, in one order.
fn same_waits(left: &[Wait], right: &[Wait]) -> bool
    ensures { IsTrue result ↔ (left.now ≡ right.now) }
{
    let mut left = left;
    let mut right = right;
    'waits: while let Some((wait, others)) = left.split_first() {
        let Some((other, more)) = right.split_first() else {
            return false;
        };
        if !same_wait(*wait, *other) {
            return false;
        }
        left = others;
        right = more;
    }
    right.is_empty()
}

// Whether two explanations have equal rows and equal cycles.
fn same(left: &Waits, right: &Waits) -> bool
    ensures { IsTrue result ↔ (left.now ≡ right.now) }
{
    same_waits(left.waits.as_slice(), right.waits.as_slice())
        && left.cycle.as_slice() == right.cycle.as_slice()
}

/// Whether these are the lanes that wait in a formed scenario's stuck history, with their reasons and their
/// cycle. It is judged by the entries alone, in the order of their making, so it asks for no trust in what made
/// the explanation. The only error is want of memory.
pub fn confirms(
    alloc: Global,
    scenario: &Scenario,
    history: &[Entry],
    waits: &Waits,
) -> Result<bool, Memory>
    requires { Formed scenario.now }
    ensures { IfOk result (λ yes. legal scenario.now (told history.now)
        → stuck scenario.now (told history.now) ≡ true
        → (IsTrue yes ↔ (waits.now ≡ explanation scenario.now (told history.now)))) }
{
    let own = waits_stuck(alloc, scenario, history)?;
    Ok(same(&own, waits))
}
