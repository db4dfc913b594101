//! The program `comdraw`: histories drawn as pages. The page of the one history of a scenario, with or
//! without event sources, and that of the history which a trace is.
#![tactic(auto)]

mod beginning;
mod commands;
mod ending;
mod frame;
mod laws;
mod points;
mod replays;
mod requests;
mod stuck;
mod traces;

pub use com_base::Memory;
pub use commands::draw_main;
pub use frame::{TellingCommand, answer_by_row};
pub use laws::{draw_points_completeness, draw_replay_completeness, draw_trace_completeness};
pub use points::draw_points_main;
pub use replays::draw_replay_main;
pub use requests::{Request, request_of};
pub use traces::{TracePage, draw_trace_main};
