//! The books of public references: what stubs, proxies, packets and cookies count, how a row changes them,
//! and what is given back and cut. They know no deeds and no histories. The law is stated on a function that
//! does nothing.
#![tactic(auto)]

mod keeps;

ghost use Rattle.com_refs_books.specs.Evens.{StaysEven};

pub use keeps::{Cookie, Packet};

/// Where each stub counts what the proxies, packets and cookies hold of it, it does so after each change that
/// fits, after what is given back, and after the cut.
pub fn stays_even()
    ensures { StaysEven }
{}
