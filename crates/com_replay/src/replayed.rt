//! What a replay answers.

use com_model::Ended;

/// What a replay has made: how its history ended, how many entries it has, and where its clock stands, in
/// virtual milliseconds.
#[derive(Debug, Clone, Copy, PartialEq, Eq)]
pub struct Replayed {
    /// How the history ended.
    pub ended: Ended,
    /// How many entries it has.
    pub entries: u64,
    /// Where its clock stands, in virtual milliseconds.
    pub clock: u64,
}
