//! A scenario as an input.
ghost use Rattle.std.specs.Prelude.{◌≡◌, IfOk};
ghost use Rattle.com_model.specs.Formed.{Formed};
ghost use Rattle.com_commands.specs.Inputs.{IsSound};
ghost use Rattle.com_command_replay.specs.Scenarios.{scenario_input};

use com_base::Memory;
use com_commands::{Input, read_scenario};
use com_model::Scenario;
use com_scenario::is_too_long;
use std::alloc::Global;

/// What an input of these bytes is: too long for its version, faulty, or a scenario. The only error is want
/// of memory.
#[tactic(auto, unfolding(com_commands::specs::Inputs::input_of))]
pub fn scenario_input(alloc: Global, text: &[u8]) -> Result<Input<Scenario>, Memory>
    ensures value { IfOk result (λ input. input ≡ scenario_input text.now) }
    ensures formed { IfOk result (λ input. IsSound Formed input) }
{
    if is_too_long(alloc, text)? {
        return Ok(Input::TooLong);
    }
    match read_scenario(alloc, text)? {
        Ok(scenario) => Ok(Input::Reads(scenario)),
        Err(fault) => Ok(Input::Faulty(fault)),
    }
}
