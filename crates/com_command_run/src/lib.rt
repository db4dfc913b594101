//! A run of a scenario on threads, over the core, and the command `run`.
#![tactic(auto)]

mod command;
mod laws;
mod threaded;
mod written;

pub use com_base::Memory;
pub use command::{RunInput, run_main};
pub use laws::run_is_complete;
pub use threaded::run;
