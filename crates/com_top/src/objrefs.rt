//! The command `objref`.
ghost use Rattle.std.specs.Prelude.{◌≡◌, IfOk, ⊤};
ghost use Rattle.std.proofs.Common.{lit<};
ghost use Rattle.com_commands.specs.declared.statuses.TheConstants.{MEMORY_CODE};
ghost use Rattle.com_commands.specs.Lengths.{long_text};
ghost use Rattle.com_commands.specs.Responses.{Responds};
ghost use Rattle.com_commands.specs.Statuses.{sides_of};
ghost use Rattle.com_top.specs.declared.objrefs.TheConstants.{DIGITS_LIMIT};
ghost use Rattle.com_top.specs.Showing.{IsShown, are_long_digits, digits_input, digits_of, shown_concludes};
ghost use Rattle.com_top.specs.Showing.{status_for};

use com_base::{ByteList, Memory};
use com_commands::{Input, InputReader, Reply, ReplyingCommand, Status, respond};
use com_io::{Sink, Source};
use com_objref::show;
use std::alloc::Global;

// The bytes of the longest text of hexadecimal digits.
const DIGITS_LIMIT: usize = 1_048_576;

/// The command `objref`: hexadecimal digits, and the fields of the OBJREF that they spell.
pub struct ObjRefCommand;

impl InputReader for ObjRefCommand {
    type Read = ByteList;

    const LIMIT: usize = DIGITS_LIMIT;

    ghost LIMIT = { DIGITS_LIMIT };

    ghost too_long = { are_long_digits };

    ghost reading = { digits_of };

    ghost sound = { λ _. ⊤ };

    fn read(_alloc: Global, text: ByteList) -> Result<Input<ByteList>, Memory> {
        Ok(Input::Reads(text))
    }

    ghost limited = { lit< tt };

    ghost longer = { long_text DIGITS_LIMIT };
}

impl ReplyingCommand for ObjRefCommand {
    ghost fits = { IsShown };

    fn reply(alloc: Global, read: ByteList) -> Result<Reply, Memory> {
        show_digits(alloc, read.as_slice())
    }

    ghost concludes = { shown_concludes };
}

// The status and the text that answer a text of digits. The only error is want of memory.
fn show_digits(alloc: Global, digits: &[u8]) -> Result<Reply, Memory>
    ensures { IfOk result (λ reply. IsShown digits.now reply.status reply.text) }
{
    let shown = show(alloc, digits)?;
    Ok(Reply {
        status: status_for(shown.is_found),
        text: shown.text,
    })
}

// The status of a text of digits, by whether it spells an OBJREF.
fn status_for(is_found: bool) -> Status
    ensures { result ≡ status_for is_found }
{
    if is_found {
        Status::Done
    } else {
        Status::Refused
    }
}

/// Reads hexadecimal text from the source, and shows the fields of the OBJREF that it spells, or its first
/// fault. The answer is the exit status: each has its cause (`answers`). Where want of memory comes, nothing
/// was written (`unwritten`). Source: MS-DCOM 2.2.18, "OBJREF".
pub fn objref_main<S: Source, K: Sink>(alloc: Global, source: &mut S, sink: &mut K) -> u8
    ensures answers { Responds digits_input IsShown result
        (sides_of S.left S.faults_of K.held K.faults_of source.old source.new sink.old sink.new) }
    ensures unwritten { result ≡ MEMORY_CODE → K.held sink.new ≡ K.held sink.old }
{
    respond::<ObjRefCommand, S, K>(alloc, source, sink)
}
