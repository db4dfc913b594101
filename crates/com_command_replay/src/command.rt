//! The command `replay`.
ghost use Rattle.std.specs.Prelude.{◌≡◌, map};
ghost use Rattle.std.proofs.Common.{lit<};
ghost use Rattle.com_base.specs.declared.limits.TheConstants.{TEXT_2_LIMIT};
ghost use Rattle.std.specs.Arc.{arc_value};
ghost use Rattle.com_model.specs.Formed.{Formed};
ghost use Rattle.com_scenario.proofs.Lengths.{longer_than_all};
ghost use Rattle.com_scenario.specs.Scenarios.{reading};
ghost use Rattle.com_scenario.specs.Sizes.{is_too_long};
ghost use Rattle.com_servant.specs.Rows.{row};
ghost use Rattle.com_replay.specs.Replays.{whole_served};
ghost use Rattle.com_command_replay.specs.Histories.{IsHistory, history_concludes};
ghost use Rattle.com_commands.specs.Responses.{IsAnswered, Responds, Serves};
ghost use Rattle.com_commands.specs.Statuses.{IsEnd, sides_of};
ghost use Rattle.com_command_replay.specs.Scenarios.{scenario_input};

use crate::scenarios::scenario_input;
use com_base::{ByteList, Memory, TEXT_2_LIMIT};
use com_commands::{Input, InputReader, PlayingCommand, Status, perform, share, status_at};
use com_io::{Sink, Source};
use com_model::Scenario;
use com_replay::{ReplayError, replay};
use com_servant::Servant;
use std::alloc::Global;
use std::sync::Arc;

/// The command `replay`: a scenario, and its history and report.
pub struct ReplayCommand;

impl InputReader for ReplayCommand {
    type Read = Scenario;

    const LIMIT: usize = TEXT_2_LIMIT;

    ghost LIMIT = { TEXT_2_LIMIT };

    ghost too_long = { is_too_long };

    ghost reading = { reading };

    ghost sound = { Formed };

    fn read(alloc: Global, text: ByteList) -> Result<Input<Scenario>, Memory> {
        scenario_input(alloc, text.as_slice())
    }

    ghost limited = { lit< tt };

    ghost longer = { longer_than_all };
}

impl PlayingCommand for ReplayCommand {
    ghost fits = { IsHistory };

    ghost served = { whole_served };

    fn play<K: Sink>(
        alloc: Global,
        read: Scenario,
        servants: &mut Vec<Box<dyn Servant + Send>>,
        sink: &mut K,
    ) -> Status {
        play(alloc, read, servants, sink)
    }

    ghost concludes = { history_concludes };
}

// Writes the history and the report of a scenario, and answers the status of its end.
#[tactic(auto, using(crate::proofs::Histories::history_shared, com_commands::proofs::Answering::unwritten_answered))]
fn play<K: Sink>(
    alloc: Global,
    scenario: Scenario,
    servants: &mut Vec<Box<dyn Servant + Send>>,
    sink: &mut K,
) -> Status
    requires formed { Formed scenario }
    requires row { map kind_of servants.old.items ≡ row }
    ensures answered { IsAnswered (IsHistory scenario) result (K.held sink.old) (K.held sink.new)
        (K.faults_of sink.old) (K.faults_of sink.new) }
    ensures served { IsEnd result
        → map stepped servants.new.items ≡ whole_served scenario (map stepped servants.old.items) }
    ensures row { map kind_of servants.new.items ≡ row }
{
    match share(alloc, scenario) {
        Ok(scenario) => write_history(alloc, scenario, servants, sink),
        Err(_) => Status::Memory,
    }
}

/// Writes the text and the report of the one history of a scenario, and answers the status of its end; or a
/// front of them where the sink's count of faults rose or want of memory came. The row has one servant of
/// each kind, in the order of the kinds, and keeps them so (`row`). Where the status is 0, 5 or 6, each has
/// counted the entries that bodies of its kind made (`served`).
#[tactic(auto, using(crate::proofs::Histories::history_done, crate::proofs::Histories::history_faults, crate::proofs::Histories::history_wants))]
pub fn write_history<K: Sink>(
    alloc: Global,
    scenario: Arc<Scenario>,
    servants: &mut Vec<Box<dyn Servant + Send>>,
    sink: &mut K,
) -> Status
    requires formed { Formed (arc_value scenario) }
    requires row { map kind_of servants.old.items ≡ row }
    ensures answered { IsAnswered (IsHistory (arc_value scenario)) result (K.held sink.old) (K.held sink.new)
        (K.faults_of sink.old) (K.faults_of sink.new) }
    ensures served { IsEnd result
        → map stepped servants.new.items
        ≡ whole_served (arc_value scenario) (map stepped servants.old.items) }
    ensures row { map kind_of servants.new.items ≡ row }
{
    match replay(alloc, scenario, servants, sink) {
        Ok(replayed) => status_at(replayed.ended),
        Err(ReplayError::WriteFault) => Status::WriteFault,
        Err(ReplayError::Memory) => Status::Memory,
    }
}

/// Reads a scenario from the source, and writes its history and report to the sink. An input that is too
/// long or whose text is no scenario is refused by a line with the line, the column and the number of the
/// fault. The answer is the exit status: each has its cause (`answers`).
///
/// The row has one servant of each kind, in the order of the kinds, and keeps them so (`row`). Where the
/// status is 0, 5 or 6, each has counted the entries that bodies of its kind made (`served`).
pub fn replay_main<S: Source, K: Sink>(
    alloc: Global,
    servants: &mut Vec<Box<dyn Servant + Send>>,
    source: &mut S,
    sink: &mut K,
) -> u8
    requires { map kind_of servants.old.items ≡ row }
    ensures answers { Responds scenario_input IsHistory result
        (sides_of S.left S.faults_of K.held K.faults_of source.old source.new sink.old sink.new) }
    ensures served { Serves scenario_input IsHistory whole_served result
        (sides_of S.left S.faults_of K.held K.faults_of source.old source.new sink.old sink.new)
        (map stepped servants.old.items) (map stepped servants.new.items) }
    ensures row { map kind_of servants.new.items ≡ row }
{
    perform::<ReplayCommand, S, K>(alloc, servants, source, sink)
}
