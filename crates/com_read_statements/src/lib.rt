//! The statements of bodies and scripts, each from its line of words.
#![tactic(auto)]

mod actions;
mod calls;
mod keywords;
mod lanes;
mod local;
mod names;
mod statements;

pub use calls::{
    MethodNumber, Target, argument, arguments, call, destination, method_at, target_at,
};
pub use com_base::Memory;
pub use keywords::{Keyword, LaneWord, LocalWord, ObjectWord, Program, keyword_of};
pub use names::{Names, method_position};
pub use statements::{statement, takes};
