//! Scenario text with event sources: the language of scenarios with the section line
//! `source <name> <guid> <model>`.
#![tactic(auto)]

ghost use Rattle.std.specs.Prelude.{◌≡◌, IfOk};
ghost use Rattle.com_model.specs.Formed.{Formed};
ghost use Rattle.com_read_operands.specs.Reading.{Gives, error_of};
ghost use Rattle.com_points.specs.Sources.{reading_points};
ghost use Rattle.com_points.specs.Placing.{placed as placed_in};

mod source_text;
mod sources;

pub use com_base::Memory;
use com_model::Scenario;
use com_read_operands::Fault;
pub use com_read_operands::ScenarioError;
use com_scenario::parse;
use source_text::{place_fault, write_out};
pub use sources::{ADVISE, FIRE, UNADVISE, source_interface};
use std::alloc::Global;

/// The scenario that a text spells, or its first fault by position, and of two at one position the one with
/// the lower number.
///
/// A line `source <name> <guid> <model>` declares an event source after IConnectionPoint: a class whose one
/// interface is `IPoint` {5C0B0030-0000-4000-8000-000000000001}, and whose methods `advise`, `unadvise` and
/// `fire` have the bodies of a source. The model is `none` or `Apartment`, another word is fault
/// `UNEXPECTED`. The first such line declares the interface too, so it is fault `REPEATED`, where a
/// line above it declares one of this name or IID. Everything else is read by `com_scenario::parse`.
///
/// The scenario keeps the limits, the forms and the ranges of the language, repeats no name or GUID, and
/// names only what is declared. `Memory` comes where memory is short, and for a text of nearly 2^32 bytes
/// or more.
#[tactic(auto, unfolding(crate::specs::Sources::reading_points))]
pub fn read_points(alloc: Global, text: &[u8]) -> Result<Scenario, ScenarioError>
    ensures value { Gives (λ s. s) result (reading_points text.now) }
    ensures formed { IfOk result (λ s. Formed s) }
{
    let written = write_out(alloc, text)?;
    match parse(alloc, written.as_slice()) {
        Ok(scenario) => Ok(scenario),
        Err(ScenarioError::Memory) => Err(ScenarioError::Memory),
        Err(
            ScenarioError::Fault {
                number,
                line,
                column,
            },
        ) => Err(in_text(alloc, text, number, line, column)?),
    }
}

// A fault of the written text, where it stands in the text itself.
fn in_text(
    alloc: Global,
    text: &[u8],
    number: u8,
    line: u32,
    column: u32,
) -> Result<ScenarioError, Memory>
    ensures { IfOk result (λ e. e ≡ error_of (placed_in text.now
        (record { number = number; line = line; column = column }))) }
{
    let fault = place_fault(
        alloc,
        text,
        Fault {
            number,
            line,
            column,
        },
    )?;
    Ok(fault.error())
}
