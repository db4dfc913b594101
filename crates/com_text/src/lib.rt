//! The words of scenario text, each with its position.
//!
//! A text is lines of words. Characters are the bytes 32 to 126, byte 9, which counts as a space,
//! and byte 10, which ends a line; a byte 13 directly before a line end is passed over. A word that
//! begins with `;` and the rest of its line are a comment. A text literal is one word, from `"` to
//! the next `"` on its line, and a bytes literal is one word, from `x"` to the next `"`; what stands
//! directly behind the mark that closes it begins the next word.
#![tactic(auto)]

mod line;
mod scan;
mod stray;
mod token;
mod word;

pub use line::line_at;
pub use scan::{Class, LineEnd, Scanner, Within};
pub use std::alloc::AllocError as Memory;
pub use token::{TEXT_LIMIT, TextError, Token, TokenSort, tokens};
pub use word::{Kind, Sort, Word, is_over};
