//! The laws of the page: it is well-formed markup, and nothing comes in. Stated on functions that do nothing.
#![tactic(auto)]

mod laws;

pub use laws::{page_is_well_formed, stories_are_closed};
