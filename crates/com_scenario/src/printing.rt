//! A scenario as text.

ghost use Rattle.std.specs.Prelude.{◌≡◌, Ok, IfOk};
ghost use Rattle.com_model.specs.declared.scenario.Scenario.{Scenario as ScenarioValue};
ghost use Rattle.com_model.specs.Formed.{Formed};
ghost use Rattle.com_print_scenario.specs.Printed.{printed};
ghost use Rattle.com_print_scenario.specs.Ranges.{FitsTypes};
ghost use Rattle.com_scenario.specs.Scenarios.{reading};

use com_base::{ByteList, Memory};
use com_model::Scenario;
use com_print_scenario::scenario_text;
use std::alloc::Global;

/// The text of a formed scenario, which reading gives back as the same scenario. The only error is
/// want of memory.
///
/// The text has the header, the pool, the interfaces beside the built-in ones, the classes and
/// natives, the filters, the threads, and all picks in one line, each word behind one space. A
/// scenario does not keep its filters' names: they are written as `F1`, `F2` and on.
#[tactic(auto, using(crate::proofs::Again::again))]
pub fn print(alloc: Global, scenario: &Scenario) -> Result<ByteList, Memory>
    requires { Formed scenario.now }
    ensures text { IfOk result (λ text. text ≡ printed scenario.now) }
    ensures again { IfOk result (λ text. reading text ≡ Ok scenario.now) }
{
    scenario_text(alloc, scenario)
}

/// The law of the round trip: a formed scenario, whose numbers are in the ranges of their types, is
/// read again from its text. It does nothing.
pub fn printed_is_read()
    ensures { (s : ScenarioValue) → Formed s → FitsTypes s → reading (printed s) ≡ Ok s }
{}
