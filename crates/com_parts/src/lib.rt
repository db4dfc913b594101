//! The parts of a core, changed together by one entry: the lanes, the objects, the calls with their inboxes,
//! and what frames, cells and buffers hold.
//!
//! Each part becomes what the state by parts says of the entry. A change is begun, which takes all memory and
//! changes nothing but room, and then it is finished, which cannot fail.
#![tactic(auto)]

mod apply;
mod change;
mod issue;
mod owners;
mod parts;

pub use change::Change;
pub use issue::is_calls_alone;
pub use parts::{MOST_ENTRIES, Parts};
