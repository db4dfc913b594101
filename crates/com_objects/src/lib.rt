//! What a core keeps of objects: who made each and of what class, which were released, how many bodies of
//! each run, and which of them wait for their Final.
#![tactic(auto)]

mod dying;
mod entered;
mod objects;

pub use dying::DyingQueue;
pub use entered::Entered;
pub use objects::Objects;
