//! The state of a core by parts: lanes, objects, calls and the scene, each with what an entry changes in it.
//! The law says that the parts together are the state of the definitions; it is stated on a function that
//! does nothing.
#![tactic(auto)]

mod laws;

pub use laws::{after_by_parts, parts_make_the_state, rests, scene_by_rows};
