//! The command in its frame.
ghost use Rattle.std.specs.Prelude.{◌≡◌};
ghost use Rattle.std.proofs.Common.{lit<};
ghost use Rattle.com_base.specs.declared.limits.TheConstants.{TEXT_2_LIMIT};
ghost use Rattle.com_commands.specs.declared.statuses.TheConstants.{MEMORY_CODE};
ghost use Rattle.com_commands.specs.Responses.{Responds};
ghost use Rattle.com_commands.specs.Statuses.{sides_of};
ghost use Rattle.com_scenario.specs.Sizes.{is_too_long};
ghost use Rattle.com_scenario.proofs.Lengths.{longer_than_all};
ghost use Rattle.com_command_migrate.specs.Inputs.{moving_of};
ghost use Rattle.com_command_migrate.specs.Migrating.{IsMigrated, IsReady, migrated_concludes};
ghost use Rattle.com_command_migrate.specs.Migrating.{migrating, status_of};

use crate::{Moving, move_input, read_moving};
use com_base::{ByteList, Memory, TEXT_2_LIMIT};
use com_commands::{Input, InputReader, Reply, ReplyingCommand, Status, respond};
use com_io::{Sink, Source};
use com_scenario::is_too_long;
use std::alloc::Global;

// The command `migrate`.
struct Migrate;

impl InputReader for Migrate {
    type Read = Moving;

    const LIMIT: usize = TEXT_2_LIMIT;

    ghost LIMIT = { TEXT_2_LIMIT };

    ghost too_long = { is_too_long };

    ghost reading = { moving_of };

    ghost sound = { IsReady };

    #[tactic(auto, using(com_commands::proofs::Asking::long_input, com_commands::proofs::Asking::faulty_input, com_commands::proofs::Asking::reads_input))]
    fn read(alloc: Global, text: ByteList) -> Result<Input<Moving>, Memory> {
        if is_too_long(alloc, text.as_slice())? {
            return Ok(Input::TooLong);
        }
        match read_moving(alloc, text.as_slice())? {
            Ok(moving) => Ok(Input::Reads(moving)),
            Err(fault) => Ok(Input::Faulty(fault)),
        }
    }

    ghost limited = { lit< tt };

    ghost longer = { longer_than_all };
}

// The status of what was moved, or of a trace that differs.
fn status_of(agrees: bool) -> Status
    ensures { result ≡ status_of agrees }
{
    if agrees {
        Status::Done
    } else {
        Status::Differs
    }
}

impl ReplyingCommand for Migrate {
    ghost fits = { IsMigrated };

    fn reply(alloc: Global, read: Moving) -> Result<Reply, Memory> {
        let moved = move_input(alloc, read)?;
        Ok(Reply {
            status: status_of(moved.agrees),
            text: moved.text,
        })
    }

    ghost concludes = { migrated_concludes };
}

/// Reads a scenario of version 1 from the source, with a trace behind a line `trace` or without, and writes
/// the scenario in version 2 to the sink, all else equal; and where there was a trace, the line `trace` and
/// the text and the report of the same history in version 2. Where the trace does not agree with the rules,
/// the three lines of `check` are written, and nothing else. An input that is too long or whose text is no
/// scenario of version 1 is refused; a text of version 2 has fault 1 at the word `2`. The answer is the exit
/// status: each has its cause (`answers`). Where want of memory comes, nothing was written (`unwritten`).
pub fn migrate_main<S: Source, K: Sink>(alloc: Global, source: &mut S, sink: &mut K) -> u8
    ensures answers { Responds migrating IsMigrated result
        (sides_of S.left S.faults_of K.held K.faults_of source.old source.new sink.old sink.new) }
    ensures unwritten { result ≡ MEMORY_CODE → K.held sink.new ≡ K.held sink.old }
{
    respond::<Migrate, S, K>(alloc, source, sink)
}
