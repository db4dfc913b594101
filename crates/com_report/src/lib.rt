//! The text of a history's entries, and of the report behind them.
#![tactic(auto)]

mod calls;
mod deeds;
mod kept_line;
mod lines;
mod pieces;
mod references;
mod reports;
mod values;
mod width;
mod words;

pub use com_base::Memory;
pub use kept_line::Line;
pub use lines::line;
pub use reports::report;
