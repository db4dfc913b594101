//! Scenario text: reading it, with every fault at its position, and writing it.
#![tactic(auto)]

mod laws;
mod printing;
mod reading;
mod sizes;

pub use com_base::Memory;
pub use com_read_operands::ScenarioError;
pub use laws::scenarios_are_formed;
pub use printing::{print, printed_is_read};
pub use reading::{parse, scenario};
pub use sizes::{SecondVersion, is_too_long, second_version};
