//! The command `dispatch`, in the frame of commands that replay by a row of servants.
ghost use Rattle.std.specs.Prelude.{◌≡◌, map};
ghost use Rattle.std.proofs.Common.{lit<};
ghost use Rattle.com_base.specs.declared.limits.TheConstants.{TEXT_2_LIMIT};
ghost use Rattle.com_commands.specs.Inputs.{input_of};
ghost use Rattle.com_commands.specs.Responses.{Responds, Serves};
ghost use Rattle.com_commands.specs.Statuses.{sides_of};
ghost use Rattle.com_dispatch.specs.Late.{late};
ghost use Rattle.com_command_dispatch.specs.Dispatching.{IsDispatched, IsLate, dispatched_concludes};
ghost use Rattle.com_command_dispatch.specs.Dispatching.{dispatched_served};
ghost use Rattle.com_scenario.proofs.Lengths.{longer_than_all};
ghost use Rattle.com_scenario.specs.Sizes.{is_too_long};
ghost use Rattle.com_servant.specs.Rows.{row};

use crate::playing::play;
use com_base::{ByteList, Memory, TEXT_2_LIMIT};
use com_commands::{Input, InputReader, PlayingCommand, Status, first_fault, perform, read_as};
use com_dispatch::{Late, elaborate};
use com_io::{Sink, Source};
use com_scenario::is_too_long;
use com_servant::Servant;
use std::alloc::Global;

// The command `dispatch`.
struct Dispatch;

impl InputReader for Dispatch {
    type Read = Late;

    const LIMIT: usize = TEXT_2_LIMIT;

    ghost LIMIT = { TEXT_2_LIMIT };

    ghost too_long = { is_too_long };

    ghost reading = { late };

    ghost sound = { IsLate };

    #[tactic(auto, using(com_commands::proofs::Asking::long_input, com_commands::proofs::Asking::given_input, com_commands::proofs::Asking::given_sound))]
    fn read(alloc: Global, text: ByteList) -> Result<Input<Late>, Memory> {
        if is_too_long(alloc, text.as_slice())? {
            return Ok(Input::TooLong);
        }
        let read = first_fault(elaborate(alloc, text.as_slice()))?;
        Ok(read_as(read))
    }

    ghost limited = { lit< tt };

    ghost longer = { longer_than_all };
}

impl PlayingCommand for Dispatch {
    ghost fits = { IsDispatched };

    ghost served = { dispatched_served };

    fn play<K: Sink>(
        alloc: Global,
        read: Late,
        servants: &mut Vec<Box<dyn Servant + Send>>,
        sink: &mut K,
    ) -> Status {
        play(alloc, read, servants, sink)
    }

    ghost concludes = { dispatched_concludes };
}

/// Reads a scenario with late-bound calls from the source, and writes a line for each of these calls that
/// says what it is bound to, `bind <k> I<i>.<method> (<arguments>)` or `bind <k> <refusal>`, and then what
/// `replay` writes for the scenario: its history and its report. An input that is too long or whose text is
/// no such scenario is refused by a line with the line, the column and the number of the fault. The answer
/// is the exit status: each has its cause (`answers`).
///
/// The row has one servant of each kind, in the order of the kinds, and keeps them so (`row`). Where the
/// answer is 0, 5 or 6, each servant's steps rose by the entries that bodies of its kind made (`served`).
pub fn dispatch_main<S: Source, K: Sink>(
    alloc: Global,
    servants: &mut Vec<Box<dyn Servant + Send>>,
    source: &mut S,
    sink: &mut K,
) -> u8
    requires { map kind_of servants.old.items ≡ row }
    ensures answers { Responds (input_of is_too_long late) IsDispatched result
        (sides_of S.left S.faults_of K.held K.faults_of source.old source.new sink.old sink.new) }
    ensures served { Serves (input_of is_too_long late) IsDispatched dispatched_served result
        (sides_of S.left S.faults_of K.held K.faults_of source.old source.new sink.old sink.new)
        (map stepped servants.old.items) (map stepped servants.new.items) }
    ensures row { map kind_of servants.new.items ≡ row }
{
    perform::<Dispatch, S, K>(alloc, servants, source, sink)
}
