//! The lines of the bindings, and then a replay.
ghost use Rattle.std.specs.Prelude.{◌≡◌, map};
ghost use Rattle.com_commands.specs.Responses.{IsAnswered};
ghost use Rattle.com_commands.specs.Statuses.{IsEnd};
ghost use Rattle.com_command_dispatch.specs.Dispatching.{IsDispatched, IsLate, dispatched_served};
ghost use Rattle.com_servant.specs.Rows.{row};

use crate::lines::bindings_text;
use com_command_replay::write_history;
use com_commands::{Status, share};
use com_dispatch::Late;
use com_io::{Sink, write_all};
use com_servant::Servant;
use std::alloc::Global;

// Writes the lines of a text's bindings, and then the history and the report of its scenario.
#[tactic(auto, using(crate::proofs::Answering::lines_fault, crate::proofs::Answering::answered_behind))]
pub(crate) fn play<K: Sink>(
    alloc: Global,
    read: Late,
    servants: &mut Vec<Box<dyn Servant + Send>>,
    sink: &mut K,
) -> Status
    requires sound { IsLate read }
    requires row { map kind_of servants.old.items ≡ row }
    ensures answered { IsAnswered (IsDispatched read) result (K.held sink.old) (K.held sink.new)
        (K.faults_of sink.old) (K.faults_of sink.new) }
    ensures served { IsEnd result
        → map stepped servants.new.items ≡ dispatched_served read (map stepped servants.old.items) }
    ensures row { map kind_of servants.new.items ≡ row }
{
    let Late { scenario, bindings } = read;
    let Ok(lines) = bindings_text(alloc, bindings.as_slice()) else {
        return Status::Memory;
    };
    let Ok(scenario) = share(alloc, scenario) else {
        return Status::Memory;
    };
    match write_all(sink, lines.as_slice()) {
        Ok(()) => write_history(alloc, scenario, servants, sink),
        Err(_) => Status::WriteFault,
    }
}
