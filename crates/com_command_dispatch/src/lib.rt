//! The command `dispatch`: the replay of a scenario whose calls may be late-bound, behind a line for each
//! of these calls that says what it is bound to.
#![tactic(auto)]

mod command;
mod laws;
mod lines;
mod playing;

pub use com_base::Memory;
pub use command::dispatch_main;
pub use laws::{calls_by_name_replay, dispatch_completeness};
