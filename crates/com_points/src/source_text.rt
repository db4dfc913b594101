//! A text with `source` lines, written out in lines of the scenario language, and where a fault of the
//! written text stands in the text itself.
//!
//! A line `source <name> <guid> <model>` declares an event source after IConnectionPoint: a class whose one
//! interface, `IPoint`, the first such line declares too, and whose three methods have a source's bodies.
mod bodies;
mod heads;
mod placing;
mod writing;

pub use heads::{Cut, Seen};
pub use placing::{Found, place_fault};
pub use writing::write_out;
