//! The lists of lanes that grow, each with the room that it has: what stands open in one lane, the words of
//! one lane with the marks of its calls, and the single-threaded apartments that threads make.
//!
//! What brings one more takes no memory: a call before it makes room, and its own contract asks for that
//! room.
#![tactic(auto)]

mod mail;
mod marks;
mod numbers;
mod openers;
mod stack;
mod stas;

pub use mail::Mail;
pub use openers::Openers;
pub use stas::Stas;
