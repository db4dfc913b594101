//! The top call: what the words ask for, read from a source and written to a sink.
#![tactic(auto)]

mod commands;
mod laws;
mod load;
mod objrefs;
mod waits;
mod words;

pub use com_base::Memory;
pub use com_command_check::{CheckCommand, Question, check_main};
pub use com_command_dispatch::dispatch_main;
pub use com_command_migrate::migrate_main;
pub use com_command_points::points_main;
pub use com_command_replay::{ReplayCommand, replay_main, scenario_input};
pub use com_command_run::run_main;
pub use com_commands::Status;
pub use commands::com_main;
pub use laws::{
    check_completeness, completeness, load_completeness, objref_completeness, scenarios_are_safe,
    scenarios_replay, waits_completeness,
};
pub use load::load_main;
pub use objrefs::{ObjRefCommand, objref_main};
pub use waits::waits_main;
pub use words::{Command, command_of};
