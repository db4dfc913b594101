//! A replay, and the lines of its events.
ghost use Rattle.std.specs.Prelude.{◌≡◌, ◌≤◌, ◌<◌, ◌^◌, Err, Some, IfOk, OnOk, length, map, reverse};
ghost use Rattle.com_commands.specs.Responses.{IsAnswered};
ghost use Rattle.com_commands.specs.Statuses.{IsEnd};
ghost use Rattle.com_deliveries.specs.Tables.{AreSources};
ghost use Rattle.com_io.specs.Faults.{Rose};
ghost use Rattle.com_io.specs.Told.{Gains, GainsPrefix};
ghost use Rattle.com_replay.specs.declared.lines.ReplayError.TheVariants as replay_error;
ghost use Rattle.com_replay.specs.Replays.{whole_served, whole_text};
ghost use Rattle.com_model.specs.Ends.{ended_as, scheduled};
ghost use Rattle.com_model.specs.declared.scenario.Scenario.{Scenario};
ghost use Rattle.com_model.specs.Formed.{Formed};
ghost use Rattle.com_model.specs.Rules.{legal};
ghost use Rattle.com_command_points.specs.Playing.{IsPlayed, AreLines};
ghost use Rattle.com_servant.specs.Rows.{row};

use crate::events::event_lines;
use com_base::{ByteList, Memory};
use com_commands::{Status, say, share, status_at};
use com_deliveries::{deliveries_by, source_table};
use com_io::Sink;
use com_model::{Ended, Entry, Scenario};
use com_replay::{ReplayError, keep};
use com_servant::Servant;
use std::alloc::Global;

// The lines of the events of a history that was written, and how it ended.
#[derive(Drop)]
struct Played {
    lines: ByteList,
    ended: Ended,
}

// Writes the one history of a scenario and its report, and then a line for each event of a source.
//
// Which classes are sources is found first, so that nothing is written where memory is short for that.
#[tactic(auto, using(crate::proofs::Answered::played_nothing, crate::proofs::Answered::sources_of))]
pub(crate) fn play<K: Sink>(
    alloc: Global,
    scenario: Scenario,
    servants: &mut Vec<Box<dyn Servant + Send>>,
    sink: &mut K,
) -> Status
    requires sound { Formed scenario }
    requires row { map kind_of servants.old.items ≡ row }
    ensures answered { IsAnswered (IsPlayed scenario) result (K.held sink.old) (K.held sink.new)
        (K.faults_of sink.old) (K.faults_of sink.new) }
    ensures served { IsEnd result
        → map stepped servants.new.items ≡ whole_served scenario (map stepped servants.old.items) }
    ensures row { map kind_of servants.new.items ≡ row }
{
    match source_table(alloc, &scenario) {
        Ok(table) => play_by(alloc, scenario, table.as_slice(), servants, sink),
        Err(_) => Status::Memory,
    }
}

// Plays the scenario and writes its events, by the table of the scenario's sources.
#[tactic(auto, using(crate::proofs::Answered::played_said, crate::proofs::Answered::played_fault, crate::proofs::Answered::played_memory))]
fn play_by<K: Sink>(
    alloc: Global,
    scenario: Scenario,
    table: &[Option<u16>],
    servants: &mut Vec<Box<dyn Servant + Send>>,
    sink: &mut K,
) -> Status
    requires sound { Formed scenario }
    requires sources { AreSources scenario table.now }
    requires row { map kind_of servants.old.items ≡ row }
    ensures answered { IsAnswered (IsPlayed scenario) result (K.held sink.old) (K.held sink.new)
        (K.faults_of sink.old) (K.faults_of sink.new) }
    ensures served { IsEnd result
        → map stepped servants.new.items ≡ whole_served scenario (map stepped servants.old.items) }
    ensures row { map kind_of servants.new.items ≡ row }
{
    match write_replay(alloc, scenario, table, servants, sink) {
        Ok(played) => say(played.lines.as_slice(), status_at(played.ended), sink),
        Err(ReplayError::WriteFault) => Status::WriteFault,
        Err(ReplayError::Memory) => Status::Memory,
    }
}

// Writes the one history of a scenario and its report, and makes the lines of its events.
#[tactic(auto, using(com_io::proofs::Passing::prefix_of_none))]
fn write_replay<K: Sink>(
    alloc: Global,
    scenario: Scenario,
    table: &[Option<u16>],
    servants: &mut Vec<Box<dyn Servant + Send>>,
    sink: &mut K,
) -> Result<Played, ReplayError>
    requires sound { Formed scenario }
    requires sources { AreSources scenario table.now }
    requires row { map kind_of servants.old.items ≡ row }
    ensures ok { OnOk result (Gains (K.held sink.old) (K.held sink.new) (whole_text scenario)) }
    ensures ends { IfOk result (λ played. ended_as scenario (scheduled scenario) ≡ Some played.ended) }
    ensures lines { IfOk result (λ played. AreLines scenario (scheduled scenario) played.lines) }
    ensures prefix { GainsPrefix (K.held sink.old) (K.held sink.new) (whole_text scenario) }
    ensures served { OnOk result (map stepped servants.new.items
        ≡ whole_served scenario (map stepped servants.old.items)) }
    ensures row { map kind_of servants.new.items ≡ row }
    ensures fault { result ≡ Err replay_error.WriteFault
        → Rose (K.faults_of sink.old) (K.faults_of sink.new) }
    ensures counts { K.faults_of sink.old ≤ K.faults_of sink.new }
{
    let scenario = share(alloc, scenario)?;
    let recorded = keep(alloc, &scenario, servants, sink)?;
    let lines = lines_of(alloc, table, recorded.entries.as_slice())?;
    Ok(Played {
        lines,
        ended: recorded.ended,
    })
}

// The lines of the events of a history, by the table of its scenario's sources. The only error is want of
// memory.
#[tactic(auto, using(crate::proofs::Answered::lines_by))]
fn lines_of(alloc: Global, table: &[Option<u16>], entries: &[Entry]) -> Result<ByteList, Memory>
    ensures { IfOk result (λ lines. (s : Scenario) → AreSources s table.now → Formed s
        → legal s (reverse entries.now) → length (reverse entries.now) < 2 ^ 63
        → AreLines s (reverse entries.now) lines) }
{
    let events = deliveries_by(alloc, table, entries)?;
    event_lines(alloc, events.as_slice())
}
