//! The frame of commands that replay by a row of servants and answer with one text.
ghost use Rattle.std.specs.Prelude.{◌≡◌, ℕ, List, IfOk, OnOk, map};
ghost use Rattle.com_commands.specs.declared.statuses.TheConstants.{MEMORY_CODE};
ghost use Rattle.com_commands.specs.declared.statuses.Status.{Status as AnyStatus};
ghost use Rattle.com_commands.specs.declared.statuses.Status.TheVariants as status;
ghost use Rattle.com_commands.specs.Inputs.{input_of};
ghost use Rattle.com_commands.specs.Responses.{Causes, FitsServed, GivesWhole, Responds, Serves};
ghost use Rattle.com_commands.specs.Statuses.{Concludes, IsEnd, sides_of};
ghost use Rattle.com_servant.specs.Rows.{row};

use com_base::Memory;
use com_commands::{InputReader, Reply, Status, receive, say};
use com_io::{Sink, Source};
use com_servant::Servant;
use std::alloc::Global;

/// A command that replays what it read by a row of servants, and answers with one text.
pub trait TellingCommand: InputReader {
    // Which status and text answer what was read.
    ghost fits: { Self.Read → AnyStatus → List ℕ → Type 0 };

    // The servants' counts of steps after the history of what was read, by those before.
    ghost served: { Self.Read → List ℕ → List ℕ };

    /// The status and the text that answer what was read. The only error is want of memory. The row has one
    /// servant of each kind, in the order of the kinds, and keeps them so.
    fn tell(
        alloc: Global,
        read: Self::Read,
        servants: &mut Vec<Box<dyn Servant + Send>>,
    ) -> Result<Reply, Memory>
        requires sound { Self.sound read }
        requires row { map kind_of servants.old.items ≡ row }
        ensures answer { IfOk result (λ reply. fits read reply.status reply.text) }
        ensures served { OnOk result (map stepped servants.new.items
            ≡ served read (map stepped servants.old.items)) }
        ensures row { map kind_of servants.new.items ≡ row };

    // The statuses of the answers are those of texts that were written whole.
    ghost concludes: { (read : Self.Read) (s : AnyStatus) (text : List ℕ) → fits read s text → Concludes s };
}

/// Does a command that replays by a row of servants and answers with one text: reads the input within its
/// limit, makes of it what the reader says, and writes the answer to the sink. The answer is the exit status:
/// each has its cause (`answers`), and where want of memory comes nothing was written (`unwritten`). Where it
/// is 0, 5 or 6, each servant's steps rose by those of its bodies in the history (`served`). The kind at each
/// index of the row stays (`row`).
pub fn answer_by_row<C: TellingCommand, S: Source, K: Sink>(
    alloc: Global,
    servants: &mut Vec<Box<dyn Servant + Send>>,
    source: &mut S,
    sink: &mut K,
) -> u8
    requires { map kind_of servants.old.items ≡ row }
    ensures answers { Responds (input_of C.too_long C.reading) C.fits result
        (sides_of S.left S.faults_of K.held K.faults_of source.old source.new sink.old sink.new) }
    ensures served { Serves (input_of C.too_long C.reading) C.fits C.served result
        (sides_of S.left S.faults_of K.held K.faults_of source.old source.new sink.old sink.new)
        (map stepped servants.old.items) (map stepped servants.new.items) }
    ensures row { map kind_of servants.new.items ≡ row }
    ensures unwritten { result ≡ MEMORY_CODE → K.held sink.new ≡ K.held sink.old }
{
    tell_for::<C, S, K>(alloc, servants, source, sink).code()
}

// Reads the input, makes the answer by the row of servants, and writes it. The status is that of
// the answer, or tells what was wrong with the input, the sink or the memory.
#[tactic(auto, using(com_commands::proofs::Answering::refused_causes, com_commands::proofs::Answering::refused_serves, com_commands::proofs::Answering::same_causes, com_commands::proofs::Answering::said_no_memory))]
fn tell_for<C: TellingCommand, S: Source, K: Sink>(
    alloc: Global,
    servants: &mut Vec<Box<dyn Servant + Send>>,
    source: &mut S,
    sink: &mut K,
) -> Status
    requires { map kind_of servants.old.items ≡ row }
    ensures answers { Causes (input_of C.too_long C.reading) C.fits result
        (sides_of S.left S.faults_of K.held K.faults_of source.old source.new sink.old sink.new) }
    ensures served { IsEnd result
        → GivesWhole (input_of C.too_long C.reading)
        (FitsServed C.fits C.served (map stepped servants.old.items) (map stepped servants.new.items)) result
        (sides_of S.left S.faults_of K.held K.faults_of source.old source.new sink.old sink.new) }
    ensures row { map kind_of servants.new.items ≡ row }
    ensures unwritten { result ≡ status.Memory → K.held sink.new ≡ K.held sink.old }
{
    match receive::<C, S, K>(alloc, source, sink) {
        Ok(read) => match C::tell(alloc, read, servants) {
            Ok(reply) => say(reply.text.as_slice(), reply.status, sink),
            Err(_) => Status::Memory,
        },
        Err(status) => status,
    }
}
