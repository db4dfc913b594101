//! The deed of a lane: the entry that the rules give it, and the entry of each action, with the bytes of
//! requests, of replies and of packets. Nothing is changed.
#![tactic(auto)]

mod actions;
mod alone;
mod asking;
mod chain;
mod deeds;
mod making;
mod naming;
mod sending;

pub use actions::{Doing, act};
pub use asking::Found;
pub use chain::{rule_deed, script_over};
pub use com_base::Memory;
pub use com_calls::Enclosed;
pub use com_view::References;
