//! What stands outside the runtime: sources of bytes and sinks for bytes, each with a count of its
//! faults, and the two calls that read an input whole and write a text whole.
#![tactic(auto)]

ghost use Rattle.std.specs.Prelude.{◌≡◌, ℕ, ◌<◌, ◌≤◌, List, Option, IfOk, OnErr, length, take};
ghost use Rattle.com_io.specs.Faults.{Rose};
ghost use Rattle.com_io.specs.Told.{Loses, Gains, IsAtEnd};

mod memory;
mod standard;
mod whole;

pub use memory::{MemorySink, MemorySource};
pub use standard::{Discard, StdSink, StdSource};
pub use whole::{ReadAllError, read_all, write_all};

/// A read or a write that failed. The source or sink has counted it.
#[derive(Debug, Clone, Copy, PartialEq, Eq)]
pub struct Failed;

/// Where bytes are read from.
///
/// The meaning of a source is the bytes that are left, where it tells them, and the count of its
/// faults.
pub trait Source {
    // The bytes that are left, where the source tells them.
    ghost left: { Self → Option (List ℕ) };

    // How many faults were counted.
    ghost faults_of: { Self → ℕ };

    /// Reads some bytes to the front of `into`, and answers how many.
    ///
    /// 0 for an `into` that is not empty means the end of the input, and then no byte is left.
    /// `Failed` comes only where the count of faults rose, and then no byte was taken.
    fn read(&mut self, into: &mut [u8]) -> Result<usize, Failed>
        ensures within { IfOk result (λ n. n ≤ length into.new) }
        ensures taken { IfOk result (λ n. Loses (left self.old) (left self.new) (take n into.new)) }
        ensures end { IfOk result (λ n. n ≡ 0 → 0 < length into.new → IsAtEnd (left self.new)) }
        ensures failed { OnErr result (Rose (faults_of self.old) (faults_of self.new)) }
        ensures kept { OnErr result (left self.new ≡ left self.old) }
        ensures counts { faults_of self.old ≤ faults_of self.new };

    /// How many faults were counted; the greatest `u64` stands for that many or more.
    fn faults(&self) -> u64
        ensures { result ≡ faults_of self.now };
}

/// Where bytes are written to.
///
/// The meaning of a sink is the bytes that it holds, where it tells them, and the count of its
/// faults.
pub trait Sink {
    // The bytes that the sink holds, where it tells them.
    ghost held: { Self → Option (List ℕ) };

    // How many faults were counted.
    ghost faults_of: { Self → ℕ };

    /// Writes bytes from the front of `from`, and answers how many: at least 1, if `from` is not
    /// empty.
    ///
    /// `Failed` comes only where the count of faults rose, and then no byte was taken.
    fn write(&mut self, from: &[u8]) -> Result<usize, Failed>
        ensures within { IfOk result (λ n. n ≤ length from.now) }
        ensures some { IfOk result (λ n. 0 < length from.now → 0 < n) }
        ensures taken { IfOk result (λ n. Gains (held self.old) (held self.new) (take n from.now)) }
        ensures failed { OnErr result (Rose (faults_of self.old) (faults_of self.new)) }
        ensures kept { OnErr result (held self.new ≡ held self.old) }
        ensures counts { faults_of self.old ≤ faults_of self.new };

    /// How many faults were counted; the greatest `u64` stands for that many or more.
    fn faults(&self) -> u64
        ensures { result ≡ faults_of self.now };
}
