//! The lines of entries and the report.
ghost use Rattle.std.specs.Prelude.{◌≡◌, ◌≤◌, ◌++◌, [], OnOk, OnErr, IfErr, Err};
ghost use Rattle.com_io.specs.Faults.{Rose};
ghost use Rattle.com_io.specs.Told.{Gains, GainsPrefix};
ghost use Rattle.com_model.specs.Text.{line_text, report_text};
ghost use Rattle.com_runtime.specs.Turns.{GoesOn};
ghost use Rattle.com_replay.specs.declared.lines.ReplayError.TheVariants as replay_error;

use com_base::ByteList;
use com_io::{Sink, write_all};
use com_model::{Counts, Ended, Entry};
use com_report::{Line, report};
use std::alloc::{AllocError, Global};

/// Why a replay stopped.
#[derive(Debug, Clone, Copy, PartialEq, Eq)]
pub enum ReplayError {
    /// A write failed: the sink's count of faults rose in this call.
    WriteFault,
    /// Want of memory.
    Memory,
}

impl From<AllocError> for ReplayError {
    ghost use Rattle.std.specs.Prelude.{◌≡◌};
    ghost use Rattle.com_replay.specs.declared.lines.ReplayError.TheVariants as replay_error;

    ghost from_gives = { λ _ e. e ≡ replay_error.Memory };

    fn from(_error: AllocError) -> ReplayError {
        ReplayError::Memory
    }
}

/// Makes the line of an entry, and writes what is kept and the line behind it.
#[inline(always)]
#[tactic(auto, using(com_io::proofs::Passing::prefix_of_none, crate::proofs::Kept::goes_on_sent, crate::proofs::Kept::sent_prefix, crate::proofs::Kept::goes_on_alone, crate::proofs::Kept::alone_prefix))]
pub fn show<K: Sink>(
    version: u8,
    place: u64,
    entry: &Entry,
    line: &mut Line,
    kept: &mut ByteList,
    sink: &mut K,
) -> Result<(), ReplayError>
    ensures ok { OnOk result (GoesOn (K.held sink.old) (K.held sink.new) kept.old kept.new
        (line_text version place entry.now)) }
    ensures empty { OnOk result (kept.new ≡ []) }
    ensures prefix { GainsPrefix (K.held sink.old) (K.held sink.new)
        (kept.old ++ line_text version place entry.now) }
    ensures memory { result ≡ Err replay_error.Memory → K.held sink.new ≡ K.held sink.old }
    ensures fault { result ≡ Err replay_error.WriteFault
        → Rose (K.faults_of sink.old) (K.faults_of sink.new) }
    ensures counts { K.faults_of sink.old ≤ K.faults_of sink.new }
{
    line.write(version, place, entry)?;
    if kept.is_empty() {
        return write(line.as_slice(), sink);
    }
    kept.push_all(line.as_slice())?;
    send(kept, sink)
}

// Writes bytes.
#[inline(always)]
fn write<K: Sink>(bytes: &[u8], sink: &mut K) -> Result<(), ReplayError>
    ensures ok { OnOk result (Gains (K.held sink.old) (K.held sink.new) bytes.now) }
    ensures prefix { GainsPrefix (K.held sink.old) (K.held sink.new) bytes.now }
    ensures error { IfErr result (λ error. error ≡ replay_error.WriteFault) }
    ensures fault { OnErr result (Rose (K.faults_of sink.old) (K.faults_of sink.new)) }
    ensures counts { K.faults_of sink.old ≤ K.faults_of sink.new }
{
    match write_all(sink, bytes) {
        Ok(()) => Ok(()),
        Err(_) => Err(ReplayError::WriteFault),
    }
}

/// Writes what is kept.
#[inline(never)]
pub fn send<K: Sink>(kept: &mut ByteList, sink: &mut K) -> Result<(), ReplayError>
    ensures ok { OnOk result (Gains (K.held sink.old) (K.held sink.new) kept.old) }
    ensures empty { OnOk result (kept.new ≡ []) }
    ensures prefix { GainsPrefix (K.held sink.old) (K.held sink.new) kept.old }
    ensures error { IfErr result (λ error. error ≡ replay_error.WriteFault) }
    ensures fault { OnErr result (Rose (K.faults_of sink.old) (K.faults_of sink.new)) }
    ensures counts { K.faults_of sink.old ≤ K.faults_of sink.new }
{
    write(kept.as_slice(), sink)?;
    kept.clear();
    Ok(())
}

/// Writes what is kept and the report.
#[tactic(auto, using(com_io::proofs::Passing::prefix_of_none, crate::proofs::Kept::sent_prefix))]
pub fn tell<K: Sink>(
    alloc: Global,
    counts: &[Counts],
    entries: u64,
    clock: u64,
    ended: Ended,
    kept: &mut ByteList,
    sink: &mut K,
) -> Result<(), ReplayError>
    ensures ok { OnOk result (Gains (K.held sink.old) (K.held sink.new)
        (kept.old ++ report_text counts.now entries clock ended)) }
    ensures empty { OnOk result (kept.new ≡ []) }
    ensures prefix { GainsPrefix (K.held sink.old) (K.held sink.new)
        (kept.old ++ report_text counts.now entries clock ended) }
    ensures memory { result ≡ Err replay_error.Memory → K.held sink.new ≡ K.held sink.old }
    ensures fault { result ≡ Err replay_error.WriteFault
        → Rose (K.faults_of sink.old) (K.faults_of sink.new) }
    ensures counts { K.faults_of sink.old ≤ K.faults_of sink.new }
{
    report(alloc, counts, entries, clock, ended, kept)?;
    send(kept, sink)
}
