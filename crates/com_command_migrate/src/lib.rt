//! The command `migrate`: a scenario of version 1, and a history of it, in version 2.
#![tactic(auto)]

mod answers;
mod inputs;
mod laws;
mod migrating;
mod tracing;
mod writing;

pub use answers::{Moved, move_input};
pub use com_base::Memory;
pub use inputs::{Moving, read_moving};
pub use laws::migrate_completeness;
pub use migrating::migrate_main;
pub use tracing::traces_move;
pub use writing::push_trace;
