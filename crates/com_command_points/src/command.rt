//! The command, in the frame of commands that replay by a row of servants.
ghost use Rattle.std.specs.Prelude.{◌≡◌, map};
ghost use Rattle.std.proofs.Common.{lit<};
ghost use Rattle.com_base.specs.declared.limits.TheConstants.{TEXT_2_LIMIT};
ghost use Rattle.com_commands.specs.Inputs.{input_of};
ghost use Rattle.com_commands.specs.Responses.{Responds, RespondsWhole, Serves};
ghost use Rattle.com_commands.specs.Statuses.{sides_of};
ghost use Rattle.com_replay.specs.Replays.{whole_served};
ghost use Rattle.com_model.specs.Formed.{Formed};
ghost use Rattle.com_command_points.specs.Playing.{IsPlayed, played_concludes};
ghost use Rattle.com_points.specs.Sources.{reading_points};
ghost use Rattle.com_scenario.proofs.Lengths.{longer_than_all};
ghost use Rattle.com_scenario.specs.Sizes.{is_too_long};
ghost use Rattle.com_servant.specs.Rows.{row};

use crate::playing::play;
use com_base::{ByteList, Memory, TEXT_2_LIMIT};
use com_commands::{Input, InputReader, PlayingCommand, Status, first_fault, perform, read_as};
use com_io::{Sink, Source};
use com_model::Scenario;
use com_points::read_points;
use com_scenario::is_too_long;
use com_servant::Servant;
use std::alloc::Global;

/// The command `points`: a scenario with event sources, its history and report, and its events.
pub struct PointsCommand;

impl InputReader for PointsCommand {
    type Read = Scenario;

    const LIMIT: usize = TEXT_2_LIMIT;

    ghost LIMIT = { TEXT_2_LIMIT };

    ghost too_long = { is_too_long };

    ghost reading = { reading_points };

    ghost sound = { Formed };

    #[tactic(auto, using(com_commands::proofs::Asking::long_input, com_commands::proofs::Asking::given_input, com_commands::proofs::Asking::given_sound))]
    fn read(alloc: Global, text: ByteList) -> Result<Input<Scenario>, Memory> {
        if is_too_long(alloc, text.as_slice())? {
            return Ok(Input::TooLong);
        }
        let read = first_fault(read_points(alloc, text.as_slice()))?;
        Ok(read_as(read))
    }

    ghost limited = { lit< tt };

    ghost longer = { longer_than_all };
}

impl PlayingCommand for PointsCommand {
    ghost fits = { IsPlayed };

    ghost served = { whole_served };

    fn play<K: Sink>(
        alloc: Global,
        read: Scenario,
        servants: &mut Vec<Box<dyn Servant + Send>>,
        sink: &mut K,
    ) -> Status {
        play(alloc, read, servants, sink)
    }

    ghost concludes = { played_concludes };
}

/// Reads a scenario from the source, whose text may declare event sources by lines
/// `source <name> <guid> <model>`, and writes its history and report to the sink, as a replay does, and then
/// a line for each event: the call of `fire`, and the cookies of the sinks that got it. An input that is too
/// long or whose text is no scenario is refused by a line with the line, the column and the number of the
/// fault. The answer is the exit status: each has its cause (`answers`).
///
/// The row has one servant of each kind, in the order of the kinds. Where the status is 0, 5 or 6, each
/// servant's steps rose by those of its bodies in the history (`served`). The kind at each index of the row
/// stays (`row`).
pub fn points_main<S: Source, K: Sink>(
    alloc: Global,
    servants: &mut Vec<Box<dyn Servant + Send>>,
    source: &mut S,
    sink: &mut K,
) -> u8
    requires { map kind_of servants.old.items ≡ row }
    ensures answers { Responds (input_of is_too_long reading_points) IsPlayed result
        (sides_of S.left S.faults_of K.held K.faults_of source.old source.new sink.old sink.new) }
    ensures served { Serves (input_of is_too_long reading_points) IsPlayed whole_served result
        (sides_of S.left S.faults_of K.held K.faults_of source.old source.new sink.old sink.new)
        (map stepped servants.old.items) (map stepped servants.new.items) }
    ensures row { map kind_of servants.new.items ≡ row }
{
    perform::<PointsCommand, S, K>(alloc, servants, source, sink)
}

/// Where the input is told and no count of faults rises, `points` answers it whole; or want of memory comes.
pub fn points_completeness()
    ensures { RespondsWhole (input_of is_too_long reading_points) IsPlayed }
{}
