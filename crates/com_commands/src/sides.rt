//! What each command does with its source and its sink.
ghost use Rattle.std.specs.Prelude.{◌≡◌, ◌⊎◌, ◌<◌, ◌≤◌, ℕ, List, IfErr, IfOk, OnOk, Some, length};
ghost use Rattle.com_io.specs.Faults.{Rose};
ghost use Rattle.com_io.specs.Told.{Gains, IsAtEnd};
ghost use Rattle.com_commands.specs.declared.statuses.TheConstants.{WRITE_FAULT_CODE};
ghost use Rattle.com_commands.specs.Statuses.{Says, sides_of};
ghost use Rattle.com_commands.specs.Unread.{IsUnread, Refuses};

use crate::inputs::refused_line;
use crate::statuses::{Status, WRITE_FAULT_CODE};
use com_base::ByteList;
use com_io::{ReadAllError, Sink, Source, read_all, write_all};
use com_pieces::Pieces;
use com_read_operands::Fault;
use std::alloc::Global;

/// The line of an input that is too long.
pub const TOO_LONG: &[u8] = b"refused 0 0 12\n";

/// Reads an input of at most so many bytes to its end. Where it was not read, the line that says why was
/// written, and the error is the status that goes with it.
#[tactic(auto, using(crate::proofs::Unreading::fault_unread, crate::proofs::Unreading::long_unread, crate::proofs::Unreading::memory_unread, crate::proofs::Unreading::told_longer, crate::proofs::Unreading::told_read))]
pub fn read_input<S: Source, K: Sink>(
    alloc: Global,
    limit: usize,
    source: &mut S,
    sink: &mut K,
) -> Result<ByteList, Status>
    requires { limit < usize.MAX }
    ensures within { IfOk result (λ text. length text ≤ limit) }
    ensures end { OnOk result (IsAtEnd (S.left source.new)) }
    ensures told { IfOk result (λ text. (bytes : List ℕ) → S.left source.old ≡ Some bytes → bytes ≡ text) }
    ensures kept { OnOk result (sink.new ≡ sink.old) }
    ensures unread { IfErr result (λ status. IsUnread limit status
        (sides_of S.left S.faults_of K.held K.faults_of
        source.old source.new sink.old sink.new)) }
{
    match read_all(alloc, source, limit) {
        Ok(text) => Ok(text),
        Err(ReadAllError::ReadFault) => Err(say(b"read fault\n", Status::ReadFault, sink)),
        Err(ReadAllError::TooLong) => Err(say(TOO_LONG, Status::Refused, sink)),
        Err(ReadAllError::Memory) => Err(Status::Memory),
    }
}

/// Writes a text, and answers the status that it goes with, or that it could not be written.
pub fn say<K: Sink>(text: &[u8], status: Status, sink: &mut K) -> Status
    ensures said { Says result status text.now (K.held sink.old) (K.held sink.new)
        (K.faults_of sink.old) (K.faults_of sink.new) }
{
    match write_all(sink, text) {
        Ok(()) => status,
        Err(_) => Status::WriteFault,
    }
}

/// Writes the line of a text's fault, and answers the status that it goes with, or that it could not be
/// written; or want of memory came, and nothing was written.
#[tactic(auto, using(crate::proofs::Unreading::line_refuses, crate::proofs::Unreading::nothing_refuses))]
pub fn refuse<K: Sink>(alloc: Global, fault: Fault, sink: &mut K) -> Status
    ensures { Refuses fault result (K.held sink.old) (K.held sink.new)
        (K.faults_of sink.old) (K.faults_of sink.new) }
{
    match refused_line(alloc, fault) {
        Ok(line) => say(line.as_slice(), Status::Refused, sink),
        Err(_) => Status::Memory,
    }
}

/// The exit status of a program once the last piece of what it wrote is handed on: that of a write fault where it
/// could not be.
pub fn handed_on<K: Sink + Drop>(sink: &mut Pieces<K>, status: u8) -> u8
    ensures { ((result ≡ status) × Gains (K.held sink.old.sink) (K.held sink.new.sink) sink.old.kept)
        ⊎ ((result ≡ WRITE_FAULT_CODE) × Rose (K.faults_of sink.old.sink) (K.faults_of sink.new.sink)) }
{
    match sink.flush() {
        Ok(()) => status,
        Err(_) => WRITE_FAULT_CODE,
    }
}
