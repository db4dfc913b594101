//! Entries that move no reference leave the books of references, the list of the dying and all places as they
//! were. The laws are stated on functions that do nothing.
#![tactic(auto)]

mod laws;

pub use laws::{books_by_ends, outs, quiet_entries, resting, rowless_entries, untouched};
