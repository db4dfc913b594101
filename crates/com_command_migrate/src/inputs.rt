//! What is moved to version 2: a scenario of version 1, and a trace behind it.
ghost use Rattle.std.specs.Prelude.{◌≡◌, ◌<◌, ◌-◌, ◌^◌, IfOk, length};
ghost use Rattle.com_model.specs.Formed.{Formed};
ghost use Rattle.com_command_migrate.specs.Inputs.{moving_of, second_fault, with_trace, within_version_1};

use com_base::{ByteList, Memory};
use com_check::{Cut, cut_text};
use com_commands::read_scenario;
use com_model::Scenario;
use com_read_operands::Fault;
use com_scenario::{SecondVersion, second_version};
use std::alloc::Global;

/// What is moved.
#[derive(Drop)]
pub struct Moving {
    /// A scenario of version 1.
    pub scenario: Scenario,
    /// What stands behind the line `trace`, if there is that line.
    pub trace: Option<ByteList>,
}

/// Reads a scenario of version 1 with a trace or without, or its first fault: a text whose first words are
/// `scenario` and `2` has fault 1 at the word `2`, if it has none above. The only error is want of memory.
#[tactic(auto, unfolding(crate::specs::Inputs::moving_of))]
pub fn read_moving(alloc: Global, bytes: &[u8]) -> Result<Result<Moving, Fault>, Memory>
    requires { length bytes.now < 2 ^ 32 - 2 }
    ensures value { IfOk result (λ read. read ≡ moving_of bytes.now) }
    ensures sound { IfOk result (λ read. IfOk read (λ moving. Formed moving.scenario)) }
{
    let header = second_version(alloc, bytes)?;
    match cut_text(alloc, bytes)? {
        Cut::Missing { .. } => {
            let read = read_scenario(alloc, bytes)?;
            Ok(with_trace(within_version_1(header, read), None))
        }
        Cut::At { until, from } => {
            let read = read_scenario(alloc, &bytes[..until])?;
            let trace = ByteList::from_slice(alloc, &bytes[from..])?;
            Ok(with_trace(within_version_1(header, read), Some(trace)))
        }
    }
}

// The fault of a header of version 2: at the word `2`.
fn second_fault(header: SecondVersion) -> Fault
    ensures { result ≡ second_fault header }
{
    Fault {
        number: Fault::HEADER,
        line: header.line,
        column: header.column,
    }
}

// What is read where version 1 alone is: a header of version 2 is at fault, if nothing above it is.
fn within_version_1(
    header: Option<SecondVersion>,
    read: Result<Scenario, Fault>,
) -> Result<Scenario, Fault>
    requires { IfOk read (λ scenario. Formed scenario) }
    ensures value { result ≡ within_version_1 header read }
    ensures formed { IfOk result (λ scenario. Formed scenario) }
{
    let Some(header) = header else {
        return read;
    };
    match read {
        Ok(_) => Err(second_fault(header)),
        Err(fault) => {
            if fault.line < header.line {
                Err(fault)
            } else {
                Err(second_fault(header))
            }
        }
    }
}

// What is moved, where the scenario was read: it and what stands behind the line `trace`. Else its
// fault.
fn with_trace(read: Result<Scenario, Fault>, trace: Option<ByteList>) -> Result<Moving, Fault>
    requires { IfOk read (λ scenario. Formed scenario) }
    ensures value { result ≡ with_trace read trace }
    ensures formed { IfOk result (λ moving. Formed moving.scenario) }
{
    match read {
        Ok(scenario) => Ok(Moving { scenario, trace }),
        Err(fault) => Err(fault),
    }
}
