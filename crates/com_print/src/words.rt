//! Words and lines of scenario text as they are written: a line is words joined by single spaces
//! and a line end, and the scanner reads each such line as those very words.
mod laws;
mod write;

pub use com_base::Memory;
pub use laws::written_is_read;
pub use write::{push_end, push_word};
