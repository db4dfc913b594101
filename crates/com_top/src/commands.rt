//! The command that the words ask for.
ghost use Rattle.std.specs.Prelude.{◌≡◌, ◌≢◌, All, map, string_bytes, vec_len};
ghost use Rattle.com_servant.specs.declared.crew.TheConstants.{ROWS};
ghost use Rattle.com_servant.specs.Rows.{row};
ghost use Rattle.com_commands.specs.Statuses.{sides_of, sides_without_source};
ghost use Rattle.com_top.specs.Commands.{Answered, CrewServed, IsUsage, ReadsNone, Served};
ghost use Rattle.com_top.specs.declared.words.Command.TheVariants as command;
ghost use Rattle.com_top.specs.Words.{command_of};

use crate::load::load_main;
use crate::objrefs::objref_main;
use crate::waits::waits_main;
use crate::words::{Command, command_of};
use com_command_check::check_main;
use com_command_dispatch::dispatch_main;
use com_command_migrate::migrate_main;
use com_command_points::points_main;
use com_command_replay::replay_main;
use com_command_run::run_main;
use com_commands::{Status, say};
use com_io::{Sink, Source};
use com_servant::Servant;
use com_threads::Gate;
use std::alloc::Global;
use std::mem;
use std::sync::Wait;
use std::thread::Threads;

/// Does what the words ask for: `replay` reads a scenario from the source and writes its history and report
/// to the sink, or the line of the refusal; `run` does the same with a thread for each lane; `check` reads a
/// scenario with a trace, and says whether the trace agrees with the rules, or which line differs; `load` and
/// a number replay the scenario of that number, and show how it ended; `objref` reads hexadecimal text and
/// shows the OBJREF that it spells; `migrate` reads a scenario, with a trace or without one, and writes both
/// in version 2; `waits` reads a scenario, and says why its history is stuck, or that it is not; `dispatch`
/// replays a scenario that may call by name, and says what each such call was bound to; `points` replays a
/// scenario that may have event sources, and says who got each event. The answer is the exit status: each has
/// its cause (`answers`). Status 1 comes exactly for other words, unless the line that says so cannot be
/// written; then nothing was read (`unread`).
///
/// The crew has `ROWS` rows, each with one servant of each kind in the order of the kinds; the first is that of
/// lane 1. `run` takes the rows, and calls the gate between each step of a body and its commit. For all other
/// words the crew keeps its rows (`rows`), and a command that replays uses the first one: it has had these
/// servants count the steps of the bodies of its history, where its status is 0, 5 or 6. No other servant has
/// made a step then (`served`). Each servant that is left is of its kind as before (`crew`).
pub fn com_main<R: Threads + Wait + Sync, S: Source, K: Sink, G: Gate + Sync>(
    rt: &R,
    alloc: Global,
    words: &[String],
    crew: &mut Vec<Vec<Box<dyn Servant + Send>>>,
    gate: &G,
    source: &mut S,
    sink: &mut K,
) -> u8
    requires rows { vec_len crew.old ≡ ROWS }
    requires crew { All (λ servants. map kind_of servants.items ≡ row) crew.old.items }
    ensures answers { Answered (command_of (map string_bytes words.now)) result
        (sides_of S.left S.faults_of K.held K.faults_of source.old source.new sink.old sink.new)
        (sides_without_source K.held K.faults_of sink.old sink.new) }
    ensures served { command_of (map string_bytes words.now) ≢ command.Run
        → CrewServed (command_of (map string_bytes words.now)) result
        (sides_of S.left S.faults_of K.held K.faults_of source.old source.new sink.old sink.new)
        (sides_without_source K.held K.faults_of sink.old sink.new)
        (map (λ servants. map stepped servants.items) crew.old.items)
        (map (λ servants. map stepped servants.items) crew.new.items) }
    ensures rows { command_of (map string_bytes words.now) ≢ command.Run → vec_len crew.new ≡ ROWS }
    ensures crew { All (λ servants. map kind_of servants.items ≡ row) crew.new.items }
    ensures unread { ReadsNone (command_of (map string_bytes words.now)) → source.new ≡ source.old }
{
    match command_of(words) {
        Command::Run => {
            let rows = mem::replace(crew, Vec::new(alloc));
            run_main(rt, alloc, rows, gate, source, sink)
        }
        asked => answer_by_row(alloc, asked, &mut crew[0], source, sink),
    }
}

// Does what is asked, but for a run, with a row of servants.
fn answer_by_row<S: Source, K: Sink>(
    alloc: Global,
    asked: Command,
    servants: &mut Vec<Box<dyn Servant + Send>>,
    source: &mut S,
    sink: &mut K,
) -> u8
    requires asked { asked ≢ command.Run }
    requires row { map kind_of servants.old.items ≡ row }
    ensures answers { Answered asked result
        (sides_of S.left S.faults_of K.held K.faults_of source.old source.new sink.old sink.new)
        (sides_without_source K.held K.faults_of sink.old sink.new) }
    ensures served { Served asked result
        (sides_of S.left S.faults_of K.held K.faults_of source.old source.new sink.old sink.new)
        (sides_without_source K.held K.faults_of sink.old sink.new)
        (map stepped servants.old.items) (map stepped servants.new.items) }
    ensures row { map kind_of servants.new.items ≡ row }
    ensures unread { ReadsNone asked → source.new ≡ source.old }
{
    match asked {
        Command::Replay => replay_main(alloc, servants, source, sink),
        Command::Run => unreachable!(),
        Command::Check => check_main(alloc, source, sink),
        Command::Load(number) => load_main(alloc, number, servants, sink),
        Command::ObjRef => objref_main(alloc, source, sink),
        Command::Migrate => migrate_main(alloc, source, sink),
        Command::Waits => waits_main(alloc, servants, source, sink),
        Command::Dispatch => dispatch_main(alloc, servants, source, sink),
        Command::Points => points_main(alloc, servants, source, sink),
        Command::Usage => usage(sink),
    }
}

// Writes the line of the usage.
fn usage<K: Sink>(sink: &mut K) -> u8
    ensures { IsUsage result (sides_without_source K.held K.faults_of sink.old sink.new) }
{
    say(
        b"usage: comrun replay|run|check|load N|objref|migrate|waits|dispatch|points\n",
        Status::Usage,
        sink,
    )
    .code()
}
