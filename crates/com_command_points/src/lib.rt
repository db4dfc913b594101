//! The command `points`: the history of a scenario with event sources after IConnectionPoint, and which sinks
//! got each event.
#![tactic(auto)]

mod command;
mod events;
mod playing;

pub use com_base::Memory;
pub use command::{PointsCommand, points_completeness, points_main};
