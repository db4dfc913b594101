//! The entries of the one history of a scenario, kept as they are made and written.
ghost use Rattle.std.specs.Prelude.{◌≡◌, ◌≤◌, ◌∷◌, ◌++◌, [], Err, IfOk, OnOk, map};
ghost use Rattle.std.specs.Arc.{arc_value};
ghost use Rattle.com_io.specs.Faults.{Rose};
ghost use Rattle.com_io.specs.Told.{Gains, GainsPrefix};
ghost use Rattle.com_model.specs.Formed.{Formed};
ghost use Rattle.com_model.specs.State.{first_tables};
ghost use Rattle.com_servant.specs.Rows.{row};
ghost use Rattle.com_replay.specs.declared.lines.ReplayError.TheVariants as replay_error;
ghost use Rattle.com_replay.specs.Replays.{whole_served, whole_text};
ghost use Rattle.com_replay.specs.Recorded.{IsRecorded};

use crate::course::{Course, Turned};
use crate::let_go;
use crate::lines::ReplayError;
use com_base::Memory;
use com_core::Core;
use com_io::Sink;
use com_model::{Ended, Entry, Scenario};
use com_schedule::Tries;
use com_servant::Servant;
use std::alloc::Global;
use std::sync::Arc;

/// The entries of a history in the order of their making, and how it ended.
#[derive(Drop)]
pub struct Recorded {
    /// The entries, in the order of their making.
    pub entries: Vec<Entry>,
    /// How the history ended.
    pub ended: Ended,
}

/// Makes the one history of a scenario's schedule, entry by entry, writes its lines and the report to the
/// sink (`ok`), and keeps the entries (`kept`). Who wants the entries alone gives a sink that takes all.
///
/// The row has one servant of each kind, in the order of the kinds. Each entry that a body made is a step of
/// the servant of its class's kind (`served`), and the kind at each index stays (`row`).
///
/// `WriteFault` comes only where the sink's count of faults rose in this call, and `Memory` is want of
/// memory.
/// Whatever is answered, what was written is a prefix of the text (`prefix`); after either, servants may have
/// counted steps.
#[tactic(auto, using(com_io::proofs::Passing::prefix_of_none))]
pub fn keep<K: Sink>(
    alloc: Global,
    scenario: &Arc<Scenario>,
    servants: &mut Vec<Box<dyn Servant + Send>>,
    sink: &mut K,
) -> Result<Recorded, ReplayError>
    requires formed { Formed (arc_value scenario.now) }
    requires row { map kind_of servants.old.items ≡ row }
    ensures ok { OnOk result
        (Gains (K.held sink.old) (K.held sink.new) (whole_text (arc_value scenario.now))) }
    ensures kept { IfOk result (λ recorded. IsRecorded
        (arc_value scenario.now) recorded.entries.items recorded.ended) }
    ensures prefix { GainsPrefix (K.held sink.old) (K.held sink.new)
        (whole_text (arc_value scenario.now)) }
    ensures served { OnOk result (map stepped servants.new.items
        ≡ whole_served (arc_value scenario.now) (map stepped servants.old.items)) }
    ensures row { map kind_of servants.new.items ≡ row }
    ensures fault { result ≡ Err replay_error.WriteFault
        → Rose (K.faults_of sink.old) (K.faults_of sink.new) }
    ensures counts { K.faults_of sink.old ≤ K.faults_of sink.new }
{
    let mut core = Core::new(alloc, scenario.clone()?)?;
    let recorded = keep_by(alloc, &**scenario, &mut core, servants, sink);
    let_go(core);
    recorded
}

// Plays and writes the history of a runtime that has made no entry, and keeps it.
#[tactic(auto, using(com_io::proofs::Passing::prefix_of_none))]
fn keep_by<C: Tries, K: Sink>(
    alloc: Global,
    scenario: &Scenario,
    runtime: &mut C,
    servants: &mut Vec<Box<dyn Servant + Send>>,
    sink: &mut K,
) -> Result<Recorded, ReplayError>
    requires formed { Formed scenario.now }
    requires scenario { C.scenario runtime.old ≡ scenario.now }
    requires first { C.state runtime.old ≡ first_tables scenario.now }
    requires row { map kind_of servants.old.items ≡ row }
    ensures ok { OnOk result (Gains (K.held sink.old) (K.held sink.new) (whole_text scenario.now)) }
    ensures kept { IfOk result (λ recorded. IsRecorded scenario.now recorded.entries.items recorded.ended) }
    ensures prefix { GainsPrefix (K.held sink.old) (K.held sink.new) (whole_text scenario.now) }
    ensures served { OnOk result (map stepped servants.new.items
        ≡ whole_served scenario.now (map stepped servants.old.items)) }
    ensures row { map kind_of servants.new.items ≡ row }
    ensures fault { result ≡ Err replay_error.WriteFault
        → Rose (K.faults_of sink.old) (K.faults_of sink.new) }
    ensures counts { K.faults_of sink.old ≤ K.faults_of sink.new }
{
    let mut course = Course::new(alloc);
    let mut entries = Vec::new(alloc);
    'turns: loop {
        match course.step(alloc, scenario, runtime, servants, sink)? {
            Turned::Made => add(&mut entries, runtime.take_last())?,
            Turned::Over(ended) => {
                course.finish(alloc, scenario, runtime, ended, sink)?;
                return Ok(Recorded { entries, ended });
            }
        }
    }
}

// Puts an entry behind the others. The only error is want of memory.
fn add(entries: &mut Vec<Entry>, entry: Entry) -> Result<(), Memory>
    ensures { OnOk result (entries.new.items ≡ entries.old.items ++ (entry ∷ [])) }
{
    entries.push(entry)?;
    Ok(())
}
