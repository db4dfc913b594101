//! Scenarios as they are written: the header, the pool, interfaces, classes and natives, filters,
//! threads and picks, line by line. What is written is read again as the same scenario.
#![tactic(auto)]

mod classes;
mod filters;
mod interfaces;
mod laws;
mod names;
mod scenario;

pub use com_base::Memory;
pub use laws::printed_is_read;
pub use scenario::scenario_text;
