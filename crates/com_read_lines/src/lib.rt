//! Single lines of scenario text: what the words of a declaration say, the header's version, a method, a
//! filter's rule, and a statement of a body or a script. Of the lines above only what a reader is given is
//! known here: names, GUIDs, and the statements of the same program.
//!
//! Each reader takes a line's words and answers what they say, or the first fault by position.
#![tactic(auto)]

mod code;
mod declare;
mod header;
mod methods;
mod programs;
mod rules;
mod tables;

pub use code::Code;
pub use declare::{
    filter_name, free_guid, free_name, interface_list, interface_name, model, native, natives,
    picks,
};
pub use header::{FIRST, earlier, lone, version};
pub use methods::{Signature, TypeWord, method};
pub use programs::program_line;
pub use rules::{RuleWord, rule, rule_word_of};
