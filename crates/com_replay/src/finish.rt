//! The end of a replay: the report behind the lines, and the answer.
ghost use Rattle.std.specs.Prelude.{◌≡◌, ◌≤◌, ◌++◌, [], IfOk, OnOk, Err};
ghost use Rattle.com_io.specs.Faults.{Rose};
ghost use Rattle.com_io.specs.Told.{Gains, GainsPrefix};
ghost use Rattle.com_replay.specs.declared.lines.ReplayError.TheVariants as replay_error;
ghost use Rattle.com_replay.specs.Endings.{replayed_in, report_in};
ghost use Rattle.com_runtime.specs.Standings.{Reached};

use crate::lines::{ReplayError, tell};
use crate::replayed::Replayed;
use com_base::ByteList;
use com_io::Sink;
use com_model::{Ended, Scenario};
use com_runtime::{Runtime, all_counts};
use std::alloc::Global;

/// Writes the lines that are kept, and the report of a runtime whose history has ended so.
#[tactic(auto, using(com_io::proofs::Passing::prefix_of_none))]
pub fn finish<C: Runtime, K: Sink>(
    alloc: Global,
    scenario: &Scenario,
    runtime: &C,
    ended: Ended,
    kept: &mut ByteList,
    sink: &mut K,
) -> Result<Replayed, ReplayError>
    requires scenario { C.scenario runtime.now ≡ scenario.now }
    requires reached { Reached scenario.now (C.state runtime.now) }
    ensures ok { OnOk result (Gains (K.held sink.old) (K.held sink.new)
        (kept.old ++ report_in scenario.now (C.state runtime.now) ended)) }
    ensures empty { OnOk result (kept.new ≡ []) }
    ensures answer { IfOk result (λ replayed. replayed ≡ replayed_in (C.state runtime.now) ended) }
    ensures prefix { GainsPrefix (K.held sink.old) (K.held sink.new)
        (kept.old ++ report_in scenario.now (C.state runtime.now) ended) }
    ensures memory { result ≡ Err replay_error.Memory → K.held sink.new ≡ K.held sink.old }
    ensures fault { result ≡ Err replay_error.WriteFault
        → Rose (K.faults_of sink.old) (K.faults_of sink.new) }
    ensures counts { K.faults_of sink.old ≤ K.faults_of sink.new }
{
    let counts = all_counts(alloc, scenario, runtime)?;
    let entries = runtime.entries();
    let clock = runtime.clock();
    tell(alloc, counts.as_slice(), entries, clock, ended, kept, sink)?;
    Ok(Replayed {
        ended,
        entries,
        clock,
    })
}
