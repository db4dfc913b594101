//! Histories on one thread: the replay of any scenario, which is the one history of its schedule with its lines
//! and its report; the same with its entries kept; a legal history made again, lane by lane or by a list of
//! picks; and why a history is stuck.
#![tactic(auto)]

ghost use Rattle.std.specs.Prelude.{◌≡◌, ◌≤◌, IfOk, OnOk, Err, map};
ghost use Rattle.std.specs.Arc.{arc_value};
ghost use Rattle.com_io.specs.Faults.{Rose};
ghost use Rattle.com_servant.specs.Rows.{row};
ghost use Rattle.com_replay.specs.declared.lines.ReplayError.TheVariants as replay_error;
ghost use Rattle.com_replay.specs.Replays.{whole_served, whole_text, IsReplay};
ghost use Rattle.com_io.specs.Told.{Gains, GainsPrefix};
ghost use Rattle.com_model.specs.Formed.{Formed};

mod by_lane;
mod course;
mod driver;
mod ends;
mod explained;
mod finish;
mod lines;
mod picks;
mod playing;
mod recorded;
mod replayed;
mod stream;

pub use by_lane::{box_of, has_next, make_next, row_of};
pub use com_base::Memory;
pub use com_core::Core;
use com_io::Sink;
use com_model::Scenario;
use com_servant::Servant;
pub use com_servant::{Counter, Interpreter, Latch, Relay};
pub use course::{Course, Turned};
pub use driver::drive;
pub use ends::let_go;
pub use explained::{explain, explain_on};
pub use lines::{ReplayError, show, tell};
pub use picks::{history_of_picks, picks_and_histories};
pub use recorded::{Recorded, keep};
pub use replayed::Replayed;
use std::alloc::Global;
use std::sync::Arc;
pub use stream::{Step, Stream};

/// Makes the one history of a scenario's schedule, entry by entry, and writes its lines and the report to the
/// sink: exactly the text and the report of that history (`ok`). The answer is how it ended, how many entries
/// it has and its time (`answer`).
///
/// The row has one servant of each kind, in the order of the kinds. Each entry that a body made is a step of
/// the servant of its class's kind (`served`), and the kind at each index stays (`row`).
///
/// `WriteFault` comes only where the sink's count of faults rose in this call, and `Memory` is want of
/// memory. Whatever is answered, what was written is a prefix of that text (`prefix`); after either, servants
/// may have counted steps.
#[tactic(auto, using(com_io::proofs::Passing::prefix_of_none))]
pub fn replay<K: Sink>(
    alloc: Global,
    scenario: Arc<Scenario>,
    servants: &mut Vec<Box<dyn Servant + Send>>,
    sink: &mut K,
) -> Result<Replayed, ReplayError>
    requires formed { Formed (arc_value scenario) }
    requires row { map kind_of servants.old.items ≡ row }
    ensures ok { OnOk result (Gains (K.held sink.old) (K.held sink.new) (whole_text (arc_value scenario))) }
    ensures answer { IfOk result (λ replayed. IsReplay (arc_value scenario) replayed) }
    ensures prefix { GainsPrefix (K.held sink.old) (K.held sink.new) (whole_text (arc_value scenario)) }
    ensures served { OnOk result (map stepped servants.new.items
        ≡ whole_served (arc_value scenario) (map stepped servants.old.items)) }
    ensures row { map kind_of servants.new.items ≡ row }
    ensures fault { result ≡ Err replay_error.WriteFault
        → Rose (K.faults_of sink.old) (K.faults_of sink.new) }
    ensures counts { K.faults_of sink.old ≤ K.faults_of sink.new }
{
    let mut core = Core::new(alloc, scenario.clone()?)?;
    let replayed = drive(alloc, &*scenario, &mut core, servants, sink);
    let_go(core);
    replayed
}
