//! The driver of a replay over any runtime that keeps the rules.
ghost use Rattle.std.specs.Prelude.{◌≡◌, ◌≤◌, IfOk, OnOk, Err, map};
ghost use Rattle.com_io.specs.Faults.{Rose};
ghost use Rattle.com_io.specs.Told.{Gains, GainsPrefix};
ghost use Rattle.com_model.specs.Formed.{Formed};
ghost use Rattle.com_model.specs.State.{first_tables};
ghost use Rattle.com_servant.specs.Rows.{row};
ghost use Rattle.com_replay.specs.declared.lines.ReplayError.TheVariants as replay_error;
ghost use Rattle.com_replay.specs.Replays.{whole_text, whole_served, IsReplay};
ghost use Rattle.com_replay.specs.Steps.{over_of};

use crate::course::{Course, Turned};
use crate::lines::ReplayError;
use crate::replayed::Replayed;
use com_io::Sink;
use com_model::{Ended, Scenario};
use com_schedule::Tries;
use com_servant::Servant;
use std::alloc::Global;

/// Makes the one history of a formed scenario on a runtime that has made no entry, and writes its lines and
/// the report to the sink. The row has one servant of each kind, in the order of the kinds, and keeps them
/// so; each counts the steps of the bodies of its kind.
///
/// `WriteFault` comes only where the sink's count of faults rose in this call, and `Memory` is want of
/// memory. Whatever is answered, what was written is a prefix of the whole text.
#[tactic(auto, using(com_io::proofs::Passing::prefix_of_none))]
pub fn drive<C: Tries, K: Sink>(
    alloc: Global,
    scenario: &Scenario,
    runtime: &mut C,
    servants: &mut Vec<Box<dyn Servant + Send>>,
    sink: &mut K,
) -> Result<Replayed, ReplayError>
    requires formed { Formed scenario.now }
    requires scenario { C.scenario runtime.old ≡ scenario.now }
    requires first { C.state runtime.old ≡ first_tables scenario.now }
    requires row { map kind_of servants.old.items ≡ row }
    ensures ok { OnOk result (Gains (K.held sink.old) (K.held sink.new) (whole_text scenario.now)) }
    ensures answer { IfOk result (λ replayed. IsReplay scenario.now replayed) }
    ensures prefix { GainsPrefix (K.held sink.old) (K.held sink.new) (whole_text scenario.now) }
    ensures served { OnOk result (map stepped servants.new.items
        ≡ whole_served scenario.now (map stepped servants.old.items)) }
    ensures row { map kind_of servants.new.items ≡ row }
    ensures fault { result ≡ Err replay_error.WriteFault
        → Rose (K.faults_of sink.old) (K.faults_of sink.new) }
    ensures counts { K.faults_of sink.old ≤ K.faults_of sink.new }
{
    let mut course = Course::new(alloc);
    'turns: loop {
        let step = course.step(alloc, scenario, runtime, servants, sink)?;
        if let Some(ended) = over(step) {
            return course.finish(alloc, scenario, runtime, ended, sink);
        }
    }
}

// How the history had ended, where a step did nothing.
fn over(step: Turned) -> Option<Ended>
    ensures { result ≡ over_of step }
{
    match step {
        Turned::Made => None,
        Turned::Over(ended) => Some(ended),
    }
}
