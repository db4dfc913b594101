//! What an input of `check` asks.

use com_base::ByteList;
use com_model::Scenario;

/// A scenario, and a text whose bytes from an index on are its trace.
#[derive(Drop)]
pub struct Question {
    /// The scenario.
    pub scenario: Scenario,
    /// The whole input, in bytes.
    pub text: ByteList,
    /// Where its trace begins: the index of the first byte behind the line `trace`.
    pub from: usize,
}
