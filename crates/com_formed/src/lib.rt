//! Whether a scenario that a program builds by hand is one of the language: whether it keeps the limits, the
//! forms and the ranges, repeats no name or GUID, and names only what is declared.
#![tactic(auto)]

mod built_ins;
mod classes;
mod filters;
mod interfaces;
mod scenarios;
mod statements;
mod tables;
mod words;

pub use scenarios::is_formed;
