//! The step of whoever acts in a lane.

ghost use Rattle.std.specs.Prelude.{◌≡◌, ◌≤◌, IfOk, None, OnOk, Some, map};
ghost use Rattle.com_model.specs.Tables.{threads};
ghost use Rattle.com_servant.specs.Rows.{one_served, row};
ghost use Rattle.com_servant.specs.Steps.{native_at};
ghost use Rattle.com_state.specs.Parts.{class_at};
ghost use Rattle.com_turns.specs.Turns.{body_seen, script_seen};
ghost use Rattle.com_turns.specs.Work.{HasWork};
ghost use Rattle.com_reference_moves.specs.Steps.{BodiesWhole, IsWhole};

use crate::step_of;
use crate::work::{fill_work, no_job};
use com_base::Memory;
use com_body::{Job, Outcome};
use com_scene::Actor;
use com_servant::{Servant, serve};
use com_view::View;
use std::alloc::Global;

/// What a step is made of and where it lies, from entry to entry: the job of the body's step that was made last, in
/// whose memory the next one is made, and the step of the entry that was made last, if it was somebody's.
#[derive(Debug, Drop)]
pub struct Bench {
    /// The job of the body's step that was made last.
    pub job: Job,
    /// The step of the entry that was made last, if it was somebody's.
    pub step: Option<Outcome>,
}

impl Bench {
    /// The bench before the first step. The only error is want of memory.
    pub fn new(alloc: Global) -> Result<Bench, Memory>
        ensures none { IfOk result (λ bench. bench.step ≡ None) }
    {
        Ok(Bench {
            job: no_job(alloc)?,
            step: None,
        })
    }
}

/// Puts the next step of the body of a call, on an object, on the bench, by the servant of its class's kind,
/// which has made one more then. The only error is want of memory, and then there is no step.
#[tactic(auto, using(crate::proofs::Whole::job_whole, crate::proofs::Bodies::job_steps, crate::proofs::Bodies::job_kind))]
pub fn body_step(
    view: &View<'_>,
    alloc: Global,
    call: u32,
    object: u32,
    servants: &mut Vec<Box<dyn Servant + Send>>,
    bench: &mut Bench,
) -> Result<(), Memory>
    requires none { bench.old.step ≡ None }
    requires row { map kind_of servants.old.items ≡ row }
    requires bodies { BodiesWhole view.now.scene }
    requires work { HasWork view.now call object }
    ensures row { map kind_of servants.new.items ≡ row }
    ensures whole { IsWhole bench.new.step }
    ensures outcome { OnOk result (bench.new.step ≡ Some (body_seen view.now call object)) }
    ensures counted { OnOk result (map stepped servants.new.items
        ≡ one_served (native_at view.now.scenario.classes (class_at view.now.objects object))
        (map stepped servants.old.items)) }
{
    fill_work(view, alloc, call, object, &mut bench.job)?;
    match serve(alloc, servants, &view.scenario.classes, &bench.job) {
        Ok(outcome) => {
            bench.step = Some(outcome);
            Ok(())
        }
        Err(error) => Err(error),
    }
}

/// Puts the next step of the script of a thread's lane in `step`. The only error is want of memory.
pub fn script_step(
    view: &View<'_>,
    alloc: Global,
    lane: u32,
    step: &mut Option<Outcome>,
) -> Result<(), Memory>
    requires none { step.old ≡ None }
    requires above { 1 ≤ lane }
    requires below { lane ≤ threads view.now.scenario }
    ensures whole { IsWhole step.new }
    ensures outcome { OnOk result (step.new ≡ Some (script_seen view.now lane)) }
{
    let Some(body) = view.scenario.threads.as_slice().get(lane as usize - 1) else {
        unreachable!()
    };
    match step_of(alloc, view.scene, Actor::Script { lane }, body)? {
        Some(outcome) => {
            *step = Some(outcome);
            Ok(())
        }
        None => unreachable!(),
    }
}
