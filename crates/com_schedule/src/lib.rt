//! The schedule by lanes that are looked at and tried: the lane whose turn it is makes its entry as soon as it is
//! found, and a lane that waits costs the look alone. The runtime lends the entry that it made last, and nothing
//! hands it on.
#![tactic(auto)]

mod tries;
mod turns;

pub use tries::Tries;
pub use turns::take_turn;
