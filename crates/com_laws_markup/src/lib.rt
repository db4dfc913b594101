//! The laws of the page's markup: its words are well formed, and nothing comes in.
#![tactic(auto)]

mod laws;

pub use laws::{nothing_comes_in, rows_hold_their_entries, well_formed_bites, words_are_closed};
