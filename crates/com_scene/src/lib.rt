//! The scene of a core: what scripts, open bodies, objects and packet buffers hold, and how an entry changes
//! it.
//!
//! An entry changes it in the order of the definitions: a row comes for a call or an object; whoever acts
//! goes on to its step's frame and cells, and is given what the entry writes; then comes what the entry does
//! beside that. All memory for it is taken first, by a call of its own; the change itself cannot fail.
#![tactic(auto)]

mod act;
mod actor;
mod apply;
mod arrive;
mod fitting;
mod prepare;
mod readers;
mod scene;
mod tables;
mod writes;

pub use actor::{ActedEntry, Actor};
pub use fitting::fits_deed;
pub use scene::Scene;
pub use writes::given_reference;
