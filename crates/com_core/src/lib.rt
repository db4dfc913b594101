//! The core of many lanes: the state of a runtime by parts, and the next entry of each lane.
//!
//! An entry is made in this order: who acts in the lane, the step of whoever does and the entry that the
//! rules give; what the entry takes from places and brings to them, and all memory that the parts want; then
//! the books, which change whole or not at all; and then the parts and the objects that begin to die, which
//! want no memory. So an entry that finds none changes nothing.
//!
//! An entry that moves no reference, has no row in the books, and begins and ends no body, is spared the moves,
//! the search for dying objects, and all of the books but the row of a new call. One that changes nothing but the
//! calls, and that nobody's step makes, is spared the rest of the parts too.
#![tactic(auto)]

mod changing;
mod laws;
mod ruled;
mod running;
mod runtime;
mod still;
mod working;

pub use com_base::Memory;
pub use com_runtime::{CommitError, Next, Standing};
pub use laws::{begins_first, steps_are_next};
pub use runtime::Core;
