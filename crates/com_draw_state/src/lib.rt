//! What a picture keeps while it is drawn: the lanes with what stands open in them, and the tracks of
//! objects.
//!
//! It takes memory for lanes, for what is open and for tracks, and none for entries.
#![tactic(auto)]

mod board;
mod lanes;
mod stacks;
mod tracks;

pub use board::{Board, MOST_LANES};
pub use com_base::Memory;
pub use lanes::{Home, Lane, Waiter};
pub use stacks::{Manner, Opened, Opening, Openings, Start};
pub use tracks::{Track, Tracks, is_live_in, is_live_of, is_of};
