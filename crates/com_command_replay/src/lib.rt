//! The command `replay`: the one history of a scenario, and its report. The inputs that are scenarios, and
//! what the commands write that replay them.
#![tactic(auto)]

mod command;
mod scenarios;

pub use com_base::Memory;
pub use com_replay::{Recorded, Replayed, keep, replay};
pub use command::{ReplayCommand, replay_main, write_history};
pub use scenarios::scenario_input;
