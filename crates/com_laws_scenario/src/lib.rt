//! Laws of scenario text: the words and the statements that are read from any text keep the forms
//! and ranges of the language, and name only what is declared above them.
#![tactic(auto)]

mod laws;

pub use laws::{statements_fit, words_are_formed};
