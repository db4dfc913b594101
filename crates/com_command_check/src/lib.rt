//! The command `check`: a scenario and a trace, and whether the trace agrees with the rules.
#![tactic(auto)]

mod check;
mod questions;

pub use check::{CheckCommand, TRACE_INPUT_LIMIT, check_main};
pub use com_base::Memory;
pub use questions::Question;
