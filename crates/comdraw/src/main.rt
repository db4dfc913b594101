//! `comdraw`: the program over the call that draws. All that it prints goes to the standard output.
#![tactic(auto)]

ghost use Rattle.std.specs.Prelude.{◌≡◌, IfOk, OnErr, OnOk, map, string_bytes};
ghost use Rattle.com_commands.specs.Statuses.{sides_of, sides_without_source};
ghost use Rattle.com_command_draw.specs.Commands.{Answered, ReadsNone};
ghost use Rattle.com_command_draw.specs.Words.{request_of};

use com_base::Memory;
use com_command_draw::draw_main;
use com_commands::{Status, handed_on};
use com_io::{Sink, Source, StdSink, StdSource};
use com_pieces::Pieces;
use com_replay::fresh_row;
use std::alloc::{AllocError, Global};
use std::env;
use std::io::ErrorKind;
use std::process::ExitCode;

// Does what the words behind the program's name ask for, and ends with the status of that. Want of
// memory for the words, the pieces or the row of servants has a status of its own.
fn main(rt: HostRuntime) -> ExitCode {
    let words = match words_of(&rt) {
        Ok(words) => words,
        Err(_) => return ExitCode::from(Status::Memory.code()),
    };
    let mut source = StdSource::new(rt.stdin());
    let mut sink = match Pieces::new(rt.alloc(), StdSink::new(rt.stdout())) {
        Ok(sink) => sink,
        Err(_) => return ExitCode::from(Status::Memory.code()),
    };
    match serve(rt.alloc(), words.as_slice(), &mut source, &mut sink) {
        // A write that failed is the last one.
        Ok(status) if status == Status::WriteFault.code() => ExitCode::from(status),
        Ok(status) => ExitCode::from(handed_on(&mut sink, status)),
        Err(_) => ExitCode::from(Status::Memory.code()),
    }
}

// Does what the words ask for, with a row of servants that have made no step: the answer is the status. The
// only error is want of memory for the row; then nothing was read or written.
fn serve<S: Source, K: Sink>(
    alloc: Global,
    words: &[String],
    source: &mut S,
    sink: &mut K,
) -> Result<u8, Memory>
    ensures answers { IfOk result (λ status. Answered (request_of (map string_bytes words.now)) status
        (sides_of S.left S.faults_of K.held K.faults_of source.old source.new sink.old sink.new)
        (sides_without_source K.held K.faults_of sink.old sink.new)) }
    ensures unread { OnOk result (ReadsNone (request_of (map string_bytes words.now))
        → source.new ≡ source.old) }
    ensures source { OnErr result (source.new ≡ source.old) }
    ensures sink { OnErr result (sink.new ≡ sink.old) }
{
    let mut servants = fresh_row!(alloc);
    Ok(draw_main(alloc, words, &mut servants, source, sink))
}

// The words after the program's name. Where they cannot be had for another cause than memory, one empty word
// stands in their place, which is no request.
fn words_of(rt: &HostRuntime) -> Result<Vec<String>, AllocError> {
    let mut words = Vec::new(rt.alloc());
    match env::args(rt) {
        Ok(args) => {
            for word in args.skip(1) {
                words.push(word)?;
            }
        }
        Err(error) => {
            if error.kind() == ErrorKind::OutOfMemory {
                return Err(AllocError);
            }
            words.push(String::new(rt.alloc()))?;
        }
    }
    Ok(words)
}
