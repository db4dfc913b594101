//! Moving a scenario and a history of it to version 2 of the language.
#![tactic(auto)]

mod laws;

pub use laws::moves;
