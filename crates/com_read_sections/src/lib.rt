//! The sections of scenario text, line by line: what a line makes of what was read so far, or its
//! first fault.
#![tactic(auto)]

mod begin;
mod going;
mod header;
mod open;
mod outline;
mod state;

pub use begin::SectionWord;
pub use com_base::Memory;
pub use com_read_lines::{Code, RuleWord, Signature, TypeWord};
pub use open::step;
pub use outline::{Outline, finish, outline_of, start};
pub use state::{Section, State};
