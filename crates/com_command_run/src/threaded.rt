//! A run on the core.
ghost use Rattle.std.specs.Arc.{arc_value};
ghost use Rattle.std.specs.Prelude.{◌≡◌, ◌+◌, ◌≤◌, All, IfOk, Some, map, vec_len};
ghost use Rattle.com_model.specs.Clock.{clock};
ghost use Rattle.com_model.specs.Ends.{all_counts, ended_as};
ghost use Rattle.com_model.specs.Formed.{Formed};
ghost use Rattle.com_model.specs.Rules.{legal};
ghost use Rattle.com_model.specs.Safe.{Safe};
ghost use Rattle.com_model.specs.Tables.{lanes};
ghost use Rattle.com_servant.specs.Rows.{row};
ghost use Rattle.com_threads.specs.Commits.{Tallies};
ghost use Rattle.com_threads.specs.Runs.{history_of};

use com_base::Memory;
use com_core::Core;
use com_model::Scenario;
use com_threads::{Gate, Ran, Row, run_on};
use std::alloc::Global;
use std::sync::{Arc, Wait};
use std::thread::Threads;

/// Runs a scenario on threads: a worker for each lane makes the entries of its lane, in a thread of its own
/// where one can be made, and the calling thread makes what is left at the end.
///
/// The step of a body is computed by the servants of its lane's row of the crew, whose first row is that of
/// lane 1. Then the gate is called, and then the step takes effect, unless its job is none of the lane's any
/// more or its object's cells have changed: then it is computed anew. The crew has a row for each lane at
/// least, each with one servant of each kind in the order of the kinds.
///
/// The history is legal in the scenario and safe, and it has ended (`lawful`, `safe`, `ended`). What is told
/// with it is its own (`counts`, `clock`, `commits`). Which history it is rests on how the threads fall. The
/// only error is want of memory, which is answered only once all workers were joined; the crew is gone then.
#[tactic(auto, using(crate::proofs::Running::safe_run))]
pub fn run<R: Threads + Wait + Sync, G: Gate + Sync>(
    rt: &R,
    alloc: Global,
    scenario: Arc<Scenario>,
    crew: Vec<Row>,
    gate: &G,
) -> Result<Ran, Memory>
    requires formed { Formed (arc_value scenario) }
    requires rows { lanes (arc_value scenario) ≤ vec_len crew }
    requires crew { All (λ servants. map kind_of servants.items ≡ row) crew.items }
    ensures lawful { IfOk result (λ ran. legal (arc_value scenario) (history_of ran)) }
    ensures safe { IfOk result (λ ran. Safe (arc_value scenario) (history_of ran)) }
    ensures ended { IfOk result (λ ran. ended_as (arc_value scenario) (history_of ran) ≡ Some ran.ended) }
    ensures counts { IfOk result (λ ran. ran.counts ≡ all_counts (arc_value scenario) (history_of ran)) }
    ensures clock { IfOk result (λ ran. ran.clock ≡ clock (history_of ran)) }
    ensures commits { IfOk result (λ ran. Tallies (lanes (arc_value scenario) + 1) ran.history ran.commits) }
{
    let core = Core::new(alloc, scenario.clone()?)?;
    run_on(rt, alloc, &*scenario, core, crew, gate)
}
