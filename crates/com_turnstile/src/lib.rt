//! A ticket lock round a value that grows. Its contracts say what each of its callers has seen, and which
//! entries are its own.
//!
//! A turnstile is made with a number of passes, one for each lane. A pass enters, the value is added to, and
//! the pass leaves; passes enter in the order in which they drew their tickets. At each enter the value's
//! list begins with all that the pass has seen before, and after the list that the turnstile was made with,
//! the entries of the pass's lane in it are those that the pass made, each once and in their order.
#![tactic(auto)]

pub mod grows;
pub mod turnstile;
mod view;

pub use grows::Grows;
pub use std::alloc::AllocError as Memory;
pub use turnstile::{Guard, Pass, Turnstile};
