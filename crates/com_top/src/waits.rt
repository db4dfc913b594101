//! The command `waits`.
ghost use Rattle.std.specs.Prelude.{◌≡◌, IfOk, OnOk, map};
ghost use Rattle.std.specs.Arc.{arc_value};
ghost use Rattle.com_model.specs.Formed.{Formed};
ghost use Rattle.com_servant.specs.Rows.{row};
ghost use Rattle.com_command_replay.specs.Replays.{whole_served};
ghost use Rattle.com_command_replay.specs.Recorded.{IsRecorded};
ghost use Rattle.com_commands.specs.declared.statuses.TheConstants.{MEMORY_CODE};
ghost use Rattle.com_commands.specs.declared.statuses.Status.TheVariants as status;
ghost use Rattle.com_commands.specs.Responses.{Causes, FitsServed, GivesWhole, Responds, Serves};
ghost use Rattle.com_commands.specs.Statuses.{IsEnd, sides_of};
ghost use Rattle.com_top.specs.Explaining.{IsExplained, explanation};
ghost use Rattle.com_command_replay.specs.Scenarios.{scenario_input};

use com_base::{ByteList, Memory};
use com_command_replay::{Recorded, ReplayCommand, keep};
use com_commands::{Status, receive, say, share};
use com_io::{Discard, Sink, Source};
use com_model::Scenario;
use com_servant::Servant;
use com_waits::{text_of, waits_at};
use std::alloc::{AllocError, Global};
use std::sync::Arc;

// The entries of the one history of a scenario. The only error is want of memory.
fn record(
    alloc: Global,
    scenario: &Arc<Scenario>,
    servants: &mut Vec<Box<dyn Servant + Send>>,
) -> Result<Recorded, Memory>
    requires formed { Formed (arc_value scenario.now) }
    requires row { map kind_of servants.old.items ≡ row }
    ensures kept { IfOk result (λ recorded. IsRecorded
        (arc_value scenario.now) recorded.entries.items recorded.ended) }
    ensures served { OnOk result (map stepped servants.new.items
        ≡ whole_served (arc_value scenario.now) (map stepped servants.old.items)) }
    ensures row { map kind_of servants.new.items ≡ row }
{
    let mut nowhere = Discard;
    match keep(alloc, scenario, servants, &mut nowhere) {
        Ok(recorded) => Ok(recorded),
        Err(_) => Err(AllocError),
    }
}

// Why the history of these entries is stuck, or that it is not. The only error is want of memory.
fn explain(alloc: Global, scenario: &Arc<Scenario>, recorded: Recorded) -> Result<ByteList, Memory>
    requires formed { Formed (arc_value scenario.now) }
    requires kept { IsRecorded (arc_value scenario.now) recorded.entries.items recorded.ended }
    ensures { IfOk result (λ text. text ≡ explanation (arc_value scenario.now)) }
{
    let waits = waits_at(
        alloc,
        &**scenario,
        recorded.entries.as_slice(),
        recorded.ended,
    )?;
    text_of(alloc, &waits)
}

// Why the one history of a scenario is stuck, or that it is not. The only error is want of memory.
fn explanation(
    alloc: Global,
    scenario: Scenario,
    servants: &mut Vec<Box<dyn Servant + Send>>,
) -> Result<ByteList, Memory>
    requires formed { Formed scenario }
    requires row { map kind_of servants.old.items ≡ row }
    ensures text { IfOk result (λ text. text ≡ explanation scenario) }
    ensures served { OnOk result (map stepped servants.new.items
        ≡ whole_served scenario (map stepped servants.old.items)) }
    ensures row { map kind_of servants.new.items ≡ row }
{
    let scenario = share(alloc, scenario)?;
    let recorded = record(alloc, &scenario, servants)?;
    explain(alloc, &scenario, recorded)
}

// What `waits_main` does, with the status for its answer in place of the code.
#[tactic(auto, using(com_commands::proofs::Answering::refused_causes, com_commands::proofs::Answering::refused_serves, com_commands::proofs::Answering::same_causes, crate::proofs::Explained::explained_causes, crate::proofs::Explained::explained_serves, crate::proofs::Explained::explained_unwritten))]
fn answer<S: Source, K: Sink>(
    alloc: Global,
    servants: &mut Vec<Box<dyn Servant + Send>>,
    source: &mut S,
    sink: &mut K,
) -> Status
    requires { map kind_of servants.old.items ≡ row }
    ensures answers { Causes scenario_input IsExplained result
        (sides_of S.left S.faults_of K.held K.faults_of source.old source.new sink.old sink.new) }
    ensures served { IsEnd result → GivesWhole scenario_input
        (FitsServed IsExplained whole_served (map stepped servants.old.items)
        (map stepped servants.new.items)) result
        (sides_of S.left S.faults_of K.held K.faults_of source.old source.new sink.old sink.new) }
    ensures row { map kind_of servants.new.items ≡ row }
    ensures unwritten { result ≡ status.Memory → K.held sink.new ≡ K.held sink.old }
{
    match receive::<ReplayCommand, S, K>(alloc, source, sink) {
        Ok(scenario) => match explanation(alloc, scenario, servants) {
            Ok(text) => say(text.as_slice(), Status::Done, sink),
            Err(_) => Status::Memory,
        },
        Err(status) => status,
    }
}

/// Reads a scenario from the source, and says why its history is stuck: which lane waits for what, and the
/// cycle in which lanes wait for each other; or that it is not stuck. An input that is too long or whose text
/// is no scenario is refused. The answer is the exit status: each has its cause (`answers`). Where
/// want of memory comes, nothing was written (`unwritten`).
///
/// The row has one servant of each kind, in the order of the kinds, and keeps them so (`row`). Where the
/// status is 0, each has counted the entries that bodies of its kind made (`served`).
pub fn waits_main<S: Source, K: Sink>(
    alloc: Global,
    servants: &mut Vec<Box<dyn Servant + Send>>,
    source: &mut S,
    sink: &mut K,
) -> u8
    requires { map kind_of servants.old.items ≡ row }
    ensures answers { Responds scenario_input IsExplained result
        (sides_of S.left S.faults_of K.held K.faults_of source.old source.new sink.old sink.new) }
    ensures served { Serves scenario_input IsExplained whole_served result
        (sides_of S.left S.faults_of K.held K.faults_of source.old source.new sink.old sink.new)
        (map stepped servants.old.items) (map stepped servants.new.items) }
    ensures row { map kind_of servants.new.items ≡ row }
    ensures unwritten { result ≡ MEMORY_CODE → K.held sink.new ≡ K.held sink.old }
{
    answer(alloc, servants, source, sink).code()
}
