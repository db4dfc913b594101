//! What a core keeps of lanes and apartments: what stands open in each lane, its home, its words and its
//! quit, and the single-threaded apartments that threads make.
#![tactic(auto)]

mod apply;
mod columns;
mod lanes;

pub use lanes::Lanes;
