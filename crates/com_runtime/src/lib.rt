//! What a runtime of many lanes is, as its drivers see it: it keeps the rules, makes one entry at a time, and
//! hands out the steps of bodies as jobs, so that several threads can share its work. The schedule chooses whose
//! turn it is. Nothing here knows how a core keeps its parts, nor what is done with the entries.
#![tactic(auto)]

mod counts;
mod errors;
mod jobs;
mod laws;
mod runtime;
mod schedule;
mod tables;

pub use com_base::Memory;
pub use counts::all_counts;
pub use errors::CommitError;
pub use jobs::{Jobs, Next};
pub use laws::{fitting_jobs_step, histories_go_on, taken_jobs_fit};
pub use runtime::{Runtime, Standing};
pub use schedule::{Chosen, choose, end_of, stand};
pub use tables::by_tables;
