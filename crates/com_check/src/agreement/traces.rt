//! What is read of a trace.

use crate::Judged;
use com_base::Rows;
use com_model::{Counts, Ended, Entry};

/// The history that a trace is.
#[derive(Debug, Drop)]
pub struct Agreed {
    /// Its entries, in the order of their making.
    pub history: Rows<Entry>,
    /// What its report counts of each object, in the order of their making.
    pub counts: Rows<Counts>,
    /// Its clock at the end, in virtual milliseconds.
    pub clock: u64,
    /// How it ended.
    pub ended: Ended,
}

/// What a trace is.
#[derive(Debug, Drop)]
pub enum Trace {
    /// The text and the report of a history that has ended.
    Agrees(Agreed),
    /// It differs: what was judged of it, which is never that it agrees.
    Differs(Judged),
}
