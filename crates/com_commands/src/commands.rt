//! The frames of commands.
ghost use Rattle.std.specs.Prelude.{◌≡◌, ◌<◌, ◌≤◌, ◌-◌, ◌^◌, ℕ, List, Bool, Result};
ghost use Rattle.std.specs.Prelude.{Ok, Some, true, IfErr, IfOk, OnOk, length, map};
ghost use Rattle.com_io.specs.Told.{IsAtEnd};
ghost use Rattle.com_read_operands.specs.declared.faults.Fault.{Fault as AnyFault};
ghost use Rattle.com_servant.specs.Rows.{row};
ghost use Rattle.com_commands.specs.declared.statuses.TheConstants.{MEMORY_CODE};
ghost use Rattle.com_commands.specs.declared.inputs.Input.TheVariants as input;
ghost use Rattle.com_commands.specs.declared.statuses.Status.{Status as AnyStatus};
ghost use Rattle.com_commands.specs.declared.statuses.Status.TheVariants as status;
ghost use Rattle.com_commands.specs.Inputs.{IsSound, NoneFits, input_of};
ghost use Rattle.com_commands.specs.Responses.{Causes, FitsServed, GivesWhole, IsAnswered, Responds, Serves};
ghost use Rattle.com_commands.specs.Statuses.{Concludes, IsEnd, sides_of};

use crate::inputs::Input;
use crate::sides::{TOO_LONG, read_input, refuse, say};
use crate::statuses::{Reply, Status};
use com_base::{ByteList, Memory};
use com_io::{Sink, Source};
use com_read_operands::Fault;
use com_servant::Servant;
use std::alloc::Global;

/// How a command reads its input: what the whole text spells, or its first fault.
pub trait InputReader {
    /// What is read.
    type Read: Drop;

    /// No input of more bytes can be read, and so many are taken from the source at most, and one more.
    const LIMIT: usize;

    ghost LIMIT: { ℕ };

    // Whether a text is too long. A text that is not may still be shorter than the limit.
    ghost too_long: { List ℕ → Bool };

    // What a text spells whose length is allowed, or its first fault.
    ghost reading: { List ℕ → Result Self.Read AnyFault };

    // What is known of each thing that was read.
    ghost sound: { Self.Read → Type 0 };

    /// What an input is. The only error is want of memory.
    fn read(alloc: Global, text: ByteList) -> Result<Input<Self::Read>, Memory>
        requires { length text ≤ LIMIT }
        ensures value { IfOk result (λ input. input ≡ input_of too_long reading text) }
        ensures sound { IfOk result (λ input. IsSound sound input) };

    // The limit is a length that can be read.
    ghost limited: { LIMIT < 2 ^ 64 - 1 };

    // What has more bytes is too long.
    ghost longer: { (bytes : List ℕ) → LIMIT < length bytes → too_long bytes ≡ true };
}

/// Reads the input of a command. Where nothing was read, the line that says why was written, and the error is
/// the status that goes with it.
#[tactic(auto, using(crate::proofs::Asking::unread_causes, crate::proofs::Asking::long_causes, crate::proofs::Asking::fault_causes, crate::proofs::Asking::memory_causes, crate::proofs::Asking::reads_told, crate::proofs::Unreading::unread_memory, crate::proofs::Unreading::refuses_unwritten))]
pub fn receive<R: InputReader, S: Source, K: Sink>(
    alloc: Global,
    source: &mut S,
    sink: &mut K,
) -> Result<R::Read, Status>
    ensures read { IfOk result (λ read. (bytes : List ℕ) → S.left source.old ≡ Some bytes
        → input_of R.too_long R.reading bytes ≡ input.Reads read) }
    ensures sound { IfOk result (λ read. R.sound read) }
    ensures end { OnOk result (IsAtEnd (S.left source.new)) }
    ensures kept { OnOk result (sink.new ≡ sink.old) }
    ensures refused { IfErr result (λ s. Causes (input_of R.too_long R.reading) NoneFits s
        (sides_of S.left S.faults_of K.held K.faults_of
        source.old source.new sink.old sink.new)) }
    ensures unwritten { IfErr result (λ s. s ≡ status.Memory → K.held sink.new ≡ K.held sink.old) }
{
    let text = match read_input(alloc, R::LIMIT, source, sink) {
        Ok(text) => text,
        Err(status) => return Err(status),
    };
    match R::read(alloc, text) {
        Ok(Input::Reads(read)) => Ok(read),
        Ok(Input::TooLong) => Err(say(TOO_LONG, Status::Refused, sink)),
        Ok(Input::Faulty(fault)) => Err(refuse(alloc, fault, sink)),
        Err(_) => Err(Status::Memory),
    }
}

/// A command that answers what it read with one text.
pub trait ReplyingCommand: InputReader {
    // Which status and text answer what was read.
    ghost fits: { Self.Read → AnyStatus → List ℕ → Type 0 };

    /// The status and the text that answer what was read. The only error is want of memory.
    fn reply(alloc: Global, read: Self::Read) -> Result<Reply, Memory>
        requires { Self.sound read }
        ensures { IfOk result (λ reply. fits read reply.status reply.text) };

    // The statuses of the answers are those of texts that were written whole.
    ghost concludes: { (read : Self.Read) (s : AnyStatus) (text : List ℕ) → fits read s text → Concludes s };
}

/// Does a command that answers what it read with one text: reads the input within its limit, makes of it what
/// the reader says, and writes the answer to the sink. The answer is the exit status: each has its cause
/// (`answers`), and where want of memory comes nothing was written (`unwritten`).
pub fn respond<C: ReplyingCommand, S: Source, K: Sink>(
    alloc: Global,
    source: &mut S,
    sink: &mut K,
) -> u8
    ensures answers { Responds (input_of C.too_long C.reading) C.fits result
        (sides_of S.left S.faults_of K.held K.faults_of source.old source.new sink.old sink.new) }
    ensures unwritten { result ≡ MEMORY_CODE → K.held sink.new ≡ K.held sink.old }
{
    reply_to::<C, S, K>(alloc, source, sink).code()
}

// Reads the input, and writes what the command answers, or the line that says why it does not.
// Gives the status that goes with it.
#[tactic(auto, using(crate::proofs::Answering::refused_causes, crate::proofs::Answering::said_causes, crate::proofs::Answering::same_causes, crate::proofs::Answering::said_no_memory))]
fn reply_to<C: ReplyingCommand, S: Source, K: Sink>(
    alloc: Global,
    source: &mut S,
    sink: &mut K,
) -> Status
    ensures answers { Causes (input_of C.too_long C.reading) C.fits result
        (sides_of S.left S.faults_of K.held K.faults_of source.old source.new sink.old sink.new) }
    ensures unwritten { result ≡ status.Memory → K.held sink.new ≡ K.held sink.old }
{
    match receive::<C, S, K>(alloc, source, sink) {
        Ok(read) => match C::reply(alloc, read) {
            Ok(reply) => say(reply.text.as_slice(), reply.status, sink),
            Err(_) => Status::Memory,
        },
        Err(status) => status,
    }
}

/// A command that replays what it read by a row of servants, and writes as it goes.
pub trait PlayingCommand: InputReader {
    // Which status and text answer what was read.
    ghost fits: { Self.Read → AnyStatus → List ℕ → Type 0 };

    // The servants' counts of steps after the history of what was read, by those before.
    ghost served: { Self.Read → List ℕ → List ℕ };

    /// Answers what was read: writes the whole text that goes with the status, or a front of it where the
    /// sink's count of faults rose or want of memory came. The row has one servant of each kind, in the order
    /// of the kinds, and keeps them so.
    fn play<K: Sink>(
        alloc: Global,
        read: Self::Read,
        servants: &mut Vec<Box<dyn Servant + Send>>,
        sink: &mut K,
    ) -> Status
        requires sound { Self.sound read }
        requires row { map kind_of servants.old.items ≡ row }
        ensures answered { IsAnswered (fits read) result (K.held sink.old) (K.held sink.new)
            (K.faults_of sink.old) (K.faults_of sink.new) }
        ensures served { IsEnd result
            → map stepped servants.new.items ≡ served read (map stepped servants.old.items) }
        ensures row { map kind_of servants.new.items ≡ row };

    // The statuses of the answers are those of texts that were written whole.
    ghost concludes: { (read : Self.Read) (s : AnyStatus) (text : List ℕ) → fits read s text → Concludes s };
}

/// Does a command that replays by a row of servants: reads the input within its limit, makes of it what the
/// reader says, and answers as the command does. The answer is the exit status: each has its cause
/// (`answers`). Where it is 0, 5 or 6, each servant's steps rose by those of its bodies in the history
/// (`served`). The kind at each index of the row stays (`row`).
pub fn perform<C: PlayingCommand, S: Source, K: Sink>(
    alloc: Global,
    servants: &mut Vec<Box<dyn Servant + Send>>,
    source: &mut S,
    sink: &mut K,
) -> u8
    requires { map kind_of servants.old.items ≡ row }
    ensures answers { Responds (input_of C.too_long C.reading) C.fits result
        (sides_of S.left S.faults_of K.held K.faults_of source.old source.new sink.old sink.new) }
    ensures served { Serves (input_of C.too_long C.reading) C.fits C.served result
        (sides_of S.left S.faults_of K.held K.faults_of source.old source.new sink.old sink.new)
        (map stepped servants.old.items) (map stepped servants.new.items) }
    ensures row { map kind_of servants.new.items ≡ row }
{
    play_for::<C, S, K>(alloc, servants, source, sink).code()
}

// Reads the input, and lets the command play it, or writes the line that says why it does not.
// Gives the status that goes with it.
#[tactic(auto, using(crate::proofs::Answering::refused_causes, crate::proofs::Answering::refused_serves, crate::proofs::Answering::answered_causes, crate::proofs::Answering::answered_serves))]
fn play_for<C: PlayingCommand, S: Source, K: Sink>(
    alloc: Global,
    servants: &mut Vec<Box<dyn Servant + Send>>,
    source: &mut S,
    sink: &mut K,
) -> Status
    requires { map kind_of servants.old.items ≡ row }
    ensures answers { Causes (input_of C.too_long C.reading) C.fits result
        (sides_of S.left S.faults_of K.held K.faults_of source.old source.new sink.old sink.new) }
    ensures served { IsEnd result
        → GivesWhole (input_of C.too_long C.reading)
        (FitsServed C.fits C.served (map stepped servants.old.items) (map stepped servants.new.items)) result
        (sides_of S.left S.faults_of K.held K.faults_of source.old source.new sink.old sink.new) }
    ensures row { map kind_of servants.new.items ≡ row }
{
    match receive::<C, S, K>(alloc, source, sink) {
        Ok(read) => C::play(alloc, read, servants, sink),
        Err(status) => status,
    }
}
