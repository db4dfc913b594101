//! A scenario from its text, with its first fault.
ghost use Rattle.std.specs.Prelude.{◌≡◌, IfOk};
ghost use Rattle.com_model.specs.Formed.{Formed};
ghost use Rattle.com_scenario.specs.Scenarios.{reading};

use crate::inputs::first_fault;
use com_base::Memory;
use com_model::Scenario;
use com_read_operands::Fault;
use com_scenario::parse;
use std::alloc::Global;

/// The scenario that a text spells, or its first fault. The only error is want of memory.
#[tactic(auto, using(crate::proofs::Asking::given_read))]
pub fn read_scenario(alloc: Global, text: &[u8]) -> Result<Result<Scenario, Fault>, Memory>
    ensures value { IfOk result (λ read. read ≡ reading text.now) }
    ensures formed { IfOk result (λ read. IfOk read Formed) }
{
    first_fault(parse(alloc, text))
}
