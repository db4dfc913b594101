//! The servant that interprets statements.
ghost use Rattle.std.specs.Prelude.{◌≡◌, IfOk};
ghost use Rattle.com_body.specs.BodySteps.{body_step, no_body};
ghost use Rattle.com_servant.specs.Steps.{job_step};

use crate::{Memory, Servant};
use com_body::{Job, Native, Outcome, step_copies, step_no_body};
use com_classes::Classes;
use std::alloc::Global;

// The step of a method that was given no body. It has a function of its own, since it is wide and rare.
#[inline(never)]
fn step_bare(alloc: Global, job: &Job) -> Result<Outcome, Memory>
    ensures { IfOk result (λ outcome. outcome ≡ body_step no_body job.now.frame job.now.cells) }
{
    Ok(step_no_body(job.frame.copy(alloc)?, job.cells))
}

// The body step of a job, by its statements.
pub(crate) fn interpret(alloc: Global, classes: &Classes, job: &Job) -> Result<Outcome, Memory>
    ensures { IfOk result (λ outcome. outcome ≡ job_step classes.now job.now) }
{
    match classes.body(job.class, job.iface, job.method) {
        Some(body) => step_copies(alloc, body, &job.frame, &job.cells),
        None => step_bare(alloc, job),
    }
}

/// The servant of classes whose bodies are statements.
#[derive(Debug, Drop)]
pub struct Interpreter {
    steps: u64,
}

impl Interpreter {
    /// A servant that has made no step.
    pub fn new() -> Interpreter
        ensures { result.steps ≡ 0 }
    {
        Interpreter { steps: 0 }
    }
}

impl Servant for Interpreter {
    ghost use Rattle.com_body.specs.declared.frame.Native.TheVariants as native;

    ghost kind_of = { λ _. native.Bodies };

    ghost stepped = { λ s. s.steps };

    fn kind(&self) -> Native {
        Native::Bodies
    }

    fn steps(&self) -> u64 {
        self.steps
    }

    fn step(&mut self, alloc: Global, classes: &Classes, job: &Job) -> Result<Outcome, Memory> {
        let made = interpret(alloc, classes, job);
        if made.is_ok() {
            self.steps = self.steps.saturating_add(1);
        }
        made
    }
}
