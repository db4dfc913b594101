//! What is written where a scenario is moved.
ghost use Rattle.std.specs.Prelude.{◌≡◌, ◌≤◌, IfOk, length};
ghost use Rattle.com_base.specs.declared.limits.TheConstants.{TEXT_1_LIMIT};
ghost use Rattle.com_model.specs.Formed.{Formed};
ghost use Rattle.com_print_scenario.specs.Printed.{printed};
ghost use Rattle.com_laws_versions.specs.Moved.{moved};
ghost use Rattle.com_command_migrate.specs.Answers.{IsMoved, IsMovedBy};
ghost use Rattle.com_command_migrate.specs.Inputs.{IsShort};

use crate::inputs::Moving;
use crate::writing::{VERSION, push_trace};
use com_base::{ByteList, Memory};
use com_check::{Trace, read_trace};
use com_model::Scenario;
use com_scenario::print;
use std::alloc::Global;
use std::sync::Arc;

/// What is answered where a scenario is moved.
#[derive(Debug, Drop)]
pub struct Moved {
    /// Whether it was moved; else its trace differs.
    pub agrees: bool,
    /// The scenario in version 2, and its trace; or the three lines of a trace that differs.
    pub text: ByteList,
}

/// Moves a scenario to version 2, all else equal: its text, and where there is a trace that agrees with the
/// rules, the line `trace` and the text and the report of its history in version 2. Of a trace that differs
/// the answer is what `check` answers, and nothing else. The trace has at most as many bytes as a text of
/// version 1. The only error is want of memory.
pub fn move_input(alloc: Global, moving: Moving) -> Result<Moved, Memory>
    requires formed { Formed moving.scenario }
    requires short { IsShort moving.trace }
    ensures { IfOk result (λ answer. IsMoved moving answer) }
{
    let Moving { scenario, trace } = moving;
    let (scenario, text) = print_scenario(alloc, scenario)?;
    match trace {
        None => Ok(Moved { agrees: true, text }),
        Some(trace) => move_trace(alloc, scenario, trace.as_slice(), text),
    }
}

// The text of a scenario in version 2, and the scenario as it was. The only error is want of memory.
#[tactic(auto, using(crate::proofs::Moves::moves_form))]
fn print_scenario(alloc: Global, scenario: Scenario) -> Result<(Scenario, ByteList), Memory>
    requires { Formed scenario }
    ensures same { IfOk result (λ both. both.0 ≡ scenario) }
    ensures text { IfOk result (λ both. both.1 ≡ printed (moved scenario)) }
{
    let version = scenario.version;
    let mut scenario = scenario;
    scenario.version = VERSION;
    let text = print(alloc, &scenario)?;
    scenario.version = version;
    Ok((scenario, text))
}

// Puts a trace of a scenario in version 2 behind a text; or what is answered where it differs. The only error
// is want of memory.
#[tactic(auto, using(crate::proofs::Moves::is_carried, crate::proofs::Moves::is_refused))]
fn move_trace(
    alloc: Global,
    scenario: Scenario,
    trace: &[u8],
    text: ByteList,
) -> Result<Moved, Memory>
    requires formed { Formed scenario }
    requires short { length trace.now ≤ TEXT_1_LIMIT }
    ensures { IfOk result (λ answer. IsMovedBy scenario trace.now text answer) }
{
    let scenario = Arc::new(alloc, scenario)?;
    match read_trace(alloc, &scenario, trace)? {
        Trace::Agrees(agreed) => {
            let mut text = text;
            text.push_all(b"trace\n")?;
            push_trace(alloc, &agreed, &mut text)?;
            Ok(Moved { agrees: true, text })
        }
        Trace::Differs(judged) => {
            let text = judged.text(alloc)?;
            Ok(Moved {
                agrees: false,
                text,
            })
        }
    }
}
