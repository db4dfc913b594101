//! `comrun`: the program over the top call. All that it prints goes to the standard output.
#![tactic(auto)]

ghost use Rattle.std.specs.Prelude.{◌≡◌, IfOk, OnErr, OnOk, map, string_bytes};
ghost use Rattle.com_commands.specs.Statuses.{sides_of, sides_without_source};
ghost use Rattle.com_top.specs.Commands.{Answered, ReadsNone};
ghost use Rattle.com_top.specs.Words.{command_of};

use com_base::Memory;
use com_commands::{Status, handed_on};
use com_io::{Sink, Source, StdSink, StdSource};
use com_pieces::Pieces;
use com_replay::fresh_row;
use com_servant::{ROWS, Servant, is_manned};
use com_threads::OpenGate;
use com_top::com_main;
use std::alloc::{AllocError, Global};
use std::env;
use std::io::ErrorKind;
use std::process::ExitCode;
use std::sync::Wait;
use std::thread::Threads;

// Does what the words ask for, on the standard input and output. The exit status is that of the
// command, and that of want of memory where it lacks for the words, the pieces or the crew.
fn main(rt: HostRuntime) -> ExitCode {
    let words = match words_of(&rt) {
        Ok(words) => words,
        Err(_) => return ExitCode::from(Status::Memory.code()),
    };
    let mut source = StdSource::new(rt.stdin());
    let mut sink = match Pieces::new(rt.alloc(), StdSink::new(rt.stdout())) {
        Ok(sink) => sink,
        Err(_) => return ExitCode::from(Status::Memory.code()),
    };
    match serve(&rt, rt.alloc(), words.as_slice(), &mut source, &mut sink) {
        // A write that failed is the last one.
        Ok(status) if status == Status::WriteFault.code() => ExitCode::from(status),
        Ok(status) => ExitCode::from(handed_on(&mut sink, status)),
        Err(_) => ExitCode::from(Status::Memory.code()),
    }
}

// Does what the words ask for, with a crew of servants that have made no step, and a gate that holds nobody:
// the answer is the status. The only error is want of memory for the crew; then nothing was read or written.
fn serve<R: Threads + Wait + Sync, S: Source, K: Sink>(
    rt: &R,
    alloc: Global,
    words: &[String],
    source: &mut S,
    sink: &mut K,
) -> Result<u8, Memory>
    ensures answers { IfOk result (λ status. Answered (command_of (map string_bytes words.now)) status
        (sides_of S.left S.faults_of K.held K.faults_of source.old source.new sink.old sink.new)
        (sides_without_source K.held K.faults_of sink.old sink.new)) }
    ensures unread { OnOk result (ReadsNone (command_of (map string_bytes words.now))
        → source.new ≡ source.old) }
    ensures source { OnErr result (source.new ≡ source.old) }
    ensures sink { OnErr result (sink.new ≡ sink.old) }
{
    let mut crew: Vec<Vec<Box<dyn Servant + Send>>> = Vec::new(alloc);
    for _ in 0..ROWS {
        crew.push(fresh_row!(alloc))?;
    }
    // The loop has no invariant that names the kinds of boxes, so they are looked at once.
    if !is_manned(&crew) {
        return Err(AllocError);
    }
    Ok(com_main(rt, alloc, words, &mut crew, &OpenGate, source, sink))
}

// The words after the program's name. Where they cannot be had for another cause than memory, one empty word
// stands in their place, which is no command.
fn words_of(rt: &HostRuntime) -> Result<Vec<String>, AllocError> {
    let mut words = Vec::new(rt.alloc());
    match env::args(rt) {
        Ok(args) => {
            for word in args.skip(1) {
                words.push(word)?;
            }
        }
        Err(error) => {
            if error.kind() == ErrorKind::OutOfMemory {
                return Err(AllocError);
            }
            words.push(String::new(rt.alloc()))?;
        }
    }
    Ok(words)
}
