//! Which references an entry takes from places and brings to them, by the tables of a core.
#![tactic(auto)]

mod fill;
mod laws;
mod moves;
mod setting;
mod steps;
mod written;

pub use laws::{frames_are_whole, moves_stand, places_by_lists};
pub use moves::{Move, Moves};
pub use setting::EntrySetting;
