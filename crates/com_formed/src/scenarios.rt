//! Whole scenarios.

ghost use Rattle.std.specs.Prelude.{◌≡◌, ◌≤◌, ◌^◌, ◌<◌, ◌↔◌, IsTrue, All, length};
ghost use Rattle.com_model.specs.Formed.{FormedBody, in_script, Formed};

use crate::classes::are_classes_formed;
use crate::filters::are_filters;
use crate::interfaces::are_interfaces_formed;
use crate::statements::{Standing, is_body};
use crate::tables::count_classes;
use com_base::{CLASS_LIMIT, INTERFACE_LIMIT, POOL_LIMIT, Rows, SCRIPT_LIMIT, THREAD_LIMIT};
use com_body::Body;
use com_model::Scenario;

// Where the statements of a script stand.
fn in_script(scenario: &Scenario) -> Standing
    requires few { length scenario.now.classes.classes ≤ CLASS_LIMIT }
    ensures { result ≡ in_script scenario.now }
{
    Standing {
        body: false,
        links: false,
        classes: count_classes(&scenario.classes),
    }
}

// Whether there are at most `THREAD_LIMIT` scripts, each of at most `SCRIPT_LIMIT` statements that may stand
// in a script.
fn are_threads(scenario: &Scenario) -> bool
    requires few { length scenario.now.classes.classes ≤ CLASS_LIMIT }
    requires named { length scenario.now.classes.interfaces ≤ INTERFACE_LIMIT }
    ensures { IsTrue result
        ↔ (All (FormedBody scenario.now (in_script scenario.now) SCRIPT_LIMIT) scenario.now.threads
        × (length scenario.now.threads ≤ THREAD_LIMIT)) }
{
    let at = in_script(scenario);
    scenario
        .threads
        .as_slice()
        .iter()
        .all(|script| is_body(scenario, &at, SCRIPT_LIMIT, script))
        && scenario.threads.len() <= THREAD_LIMIT
}

// Lanes that are tried first have any number of 32 bits, so it is true of each list of them.
fn are_picks(picks: &[u32]) -> bool
    ensures { IsTrue result ↔ All (λ lane. lane < 2 ^ 32) picks.now }
{
    true
}

/// Whether a scenario is one of the language: whether it keeps the limits, the forms and the ranges, repeats
/// no name or GUID, and names only what is declared. These are the scenarios that a text can spell, so those
/// that can be printed and replayed. It takes no memory, and time for each statement once.
#[tactic(auto, using(crate::proofs::Whole::formed))]
pub fn is_formed(scenario: &Scenario) -> bool
    ensures { IsTrue result ↔ Formed scenario.now }
{
    1 <= scenario.version
        && scenario.version <= 2
        && 1 <= scenario.pool
        && scenario.pool <= POOL_LIMIT
        && are_interfaces_formed(&scenario.classes)
        && are_classes_formed(scenario)
        && are_filters(&scenario.filters)
        && are_threads(scenario)
        && are_picks(scenario.picks.as_slice())
}
