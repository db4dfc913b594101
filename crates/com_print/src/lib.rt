//! What a scenario consists of as it is written: words and lines, the operands of statements, and statements. Each is
//! read again as what was written.
#![tactic(auto)]

pub mod operands;
pub mod statements;
pub mod words;
