//! Scenarios, entries and what a report counts.
#![tactic(auto)]

mod counts;
mod deeds;
mod keeps;
pub mod laws;
mod scenario;

pub use com_base::Memory;
pub use com_refs_books::{Cookie, Packet};
pub use counts::{Counts, Ended, ObjectState};
pub use deeds::{Deed, Entry, Route};
pub use keeps::{Admission, Ending, Issue, Leaving, Making, Mark, Opener, Phase, Word};
pub use scenario::Scenario;
