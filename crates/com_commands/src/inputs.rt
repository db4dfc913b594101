//! What an input is, and the line of a fault.
ghost use Rattle.std.specs.Arc.{arc_value};
ghost use Rattle.std.specs.Prelude.{◌≡◌, Err, IfOk, OnErr};
ghost use Rattle.com_read_operands.specs.declared.faults.ScenarioError.TheVariants as errors;
ghost use Rattle.com_commands.specs.Inputs.{answer_of, read_as};
ghost use Rattle.com_commands.specs.Statuses.{refused_line};

use crate::numbers::push_number;
use com_base::{ByteList, Memory};
use com_model::Scenario;
use com_read_operands::{Fault, ScenarioError};
use std::alloc::{AllocError, Global};
use std::sync::Arc;

/// What the input of a command is.
#[derive(Drop)]
pub enum Input<T> {
    /// A text that is longer than the command allows.
    TooLong,
    /// A text that the command cannot read, with its first fault.
    Faulty(Fault),
    /// What the text spells.
    Reads(T),
}

/// What a text spells or its first fault, by what a reader of texts answered. The only error is want of
/// memory, which comes exactly where the reader answered it.
pub fn first_fault<T: Drop>(answer: Result<T, ScenarioError>) -> Result<Result<T, Fault>, Memory>
    ensures ok { IfOk result (λ read. answer ≡ answer_of read) }
    ensures err { OnErr result (answer ≡ Err errors.Memory) }
{
    match answer {
        Ok(read) => Ok(Ok(read)),
        Err(
            ScenarioError::Fault {
                number,
                line,
                column,
            },
        ) => Ok(Err(Fault {
            number,
            line,
            column,
        })),
        Err(ScenarioError::Memory) => Err(AllocError),
    }
}

/// What an input is, by what its text spells or by its first fault.
pub fn read_as<T: Drop>(read: Result<T, Fault>) -> Input<T>
    ensures { result ≡ read_as read }
{
    match read {
        Ok(read) => Input::Reads(read),
        Err(fault) => Input::Faulty(fault),
    }
}

/// A scenario that can be shared. The only error is want of memory.
pub fn share(alloc: Global, scenario: Scenario) -> Result<Arc<Scenario>, Memory>
    ensures { IfOk result (λ shared. arc_value shared ≡ scenario) }
{
    Ok(Arc::new(alloc, scenario)?)
}

/// The line of a fault: its line, its column and its number. The only error is want of memory.
#[tactic(auto, unfolding(crate::specs::Statuses::refused_line))]
pub fn refused_line(alloc: Global, fault: Fault) -> Result<ByteList, Memory>
    ensures { IfOk result (λ line. line ≡ refused_line fault) }
{
    let mut line = ByteList::new(alloc);
    line.push_all(b"refused ")?;
    push_number(&mut line, fault.line as u64)?;
    line.push_all(b" ")?;
    push_number(&mut line, fault.column as u64)?;
    line.push_all(b" ")?;
    push_number(&mut line, fault.number as u64)?;
    line.push_all(b"\n")?;
    Ok(line)
}
