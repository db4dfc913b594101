//! What the words ask for is done.
ghost use Rattle.std.specs.Prelude.{◌≡◌, map, string_bytes};
ghost use Rattle.com_commands.specs.declared.statuses.TheConstants.{MEMORY_CODE};
ghost use Rattle.com_commands.specs.declared.statuses.Status.TheVariants as status;
ghost use Rattle.com_commands.specs.Statuses.{Says, sides_of, sides_without_source};
ghost use Rattle.com_servant.specs.Rows.{row};
ghost use Rattle.com_command_draw.specs.Commands.{Answered, IsUsage, ReadsNone, Served, usage_line};
ghost use Rattle.com_command_draw.specs.Words.{request_of};

use crate::points::draw_points_main;
use crate::replays::draw_replay_main;
use crate::requests::{Request, request_of};
use crate::traces::draw_trace_main;
use com_commands::{Status, say};
use com_io::{Sink, Source};
use com_servant::Servant;
use std::alloc::Global;

/// Does what the words ask for: `replay` reads a scenario and writes the page of its one history; `points`
/// reads a scenario that may have event sources, and marks the events; `trace` reads a scenario, the line
/// `trace` and a trace, and writes the page of the history that the trace is, or which line differs. The
/// answer is the exit status: each has its cause (`answers`). Status 1 comes exactly for other words, unless
/// the line that says so cannot be written; then nothing was read (`unread`). Where want of memory comes,
/// nothing was written (`unwritten`).
///
/// The row has one servant of each kind, in the order of the kinds, and keeps them so (`row`). A request that
/// replays has had them count the steps of the bodies of its history, where the status is 0, 5 or 6
/// (`served`).
pub fn draw_main<S: Source, K: Sink>(
    alloc: Global,
    words: &[String],
    servants: &mut Vec<Box<dyn Servant + Send>>,
    source: &mut S,
    sink: &mut K,
) -> u8
    requires { map kind_of servants.old.items ≡ row }
    ensures answers { Answered (request_of (map string_bytes words.now)) result
        (sides_of S.left S.faults_of K.held K.faults_of source.old source.new sink.old sink.new)
        (sides_without_source K.held K.faults_of sink.old sink.new) }
    ensures served { Served (request_of (map string_bytes words.now)) result
        (sides_of S.left S.faults_of K.held K.faults_of source.old source.new sink.old sink.new)
        (map stepped servants.old.items) (map stepped servants.new.items) }
    ensures row { map kind_of servants.new.items ≡ row }
    ensures unread { ReadsNone (request_of (map string_bytes words.now)) → source.new ≡ source.old }
    ensures unwritten { result ≡ MEMORY_CODE → K.held sink.new ≡ K.held sink.old }
{
    answer(alloc, request_of(words), servants, source, sink)
}

// Does what is asked for.
fn answer<S: Source, K: Sink>(
    alloc: Global,
    asked: Request,
    servants: &mut Vec<Box<dyn Servant + Send>>,
    source: &mut S,
    sink: &mut K,
) -> u8
    requires { map kind_of servants.old.items ≡ row }
    ensures answers { Answered asked result
        (sides_of S.left S.faults_of K.held K.faults_of source.old source.new sink.old sink.new)
        (sides_without_source K.held K.faults_of sink.old sink.new) }
    ensures served { Served asked result
        (sides_of S.left S.faults_of K.held K.faults_of source.old source.new sink.old sink.new)
        (map stepped servants.old.items) (map stepped servants.new.items) }
    ensures row { map kind_of servants.new.items ≡ row }
    ensures unread { ReadsNone asked → source.new ≡ source.old }
    ensures unwritten { result ≡ MEMORY_CODE → K.held sink.new ≡ K.held sink.old }
{
    match asked {
        Request::Replay => draw_replay_main(alloc, servants, source, sink),
        Request::Points => draw_points_main(alloc, servants, source, sink),
        Request::Trace => draw_trace_main(alloc, source, sink),
        Request::Usage => usage(sink),
    }
}

// Writes the line of the usage, and answers its status, or that it could not be written.
#[tactic(auto, using(crate::proofs::Answered::usage_unwritten))]
fn say_usage<K: Sink>(sink: &mut K) -> Status
    ensures said { Says result status.Usage usage_line (K.held sink.old) (K.held sink.new)
        (K.faults_of sink.old) (K.faults_of sink.new) }
    ensures unwritten { result ≡ status.Memory → K.held sink.new ≡ K.held sink.old }
{
    say(b"usage: comdraw replay|points|trace\n", Status::Usage, sink)
}

// The usage, by the number of its status.
fn usage<K: Sink>(sink: &mut K) -> u8
    ensures usage { IsUsage result (sides_without_source K.held K.faults_of sink.old sink.new) }
    ensures unwritten { result ≡ MEMORY_CODE → K.held sink.new ≡ K.held sink.old }
{
    say_usage(sink).code()
}
