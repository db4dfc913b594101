//! Servants whose steps are counted by lane.
ghost use Rattle.std.specs.Prelude.{◌≡◌};

use com_body::{Job, Native, Outcome};
use com_classes::Classes;
use com_servant::{Memory, ROWS, Servant};
use std::alloc::Global;
use std::array;
use std::sync::Arc;
use std::sync::atomic::AtomicU64;
use std::sync::atomic::Ordering::SeqCst;

/// How many steps the servants of each row made. The rows count from 0.
#[derive(Drop)]
pub struct Steps {
    words: [AtomicU64; ROWS],
}

impl Steps {
    /// No steps yet.
    pub fn new() -> Steps {
        Steps {
            words: array::from_fn(|_| AtomicU64::new(0)),
        }
    }

    /// The steps of a row.
    pub fn of(&self, row: usize) -> u64 {
        self.words[row % ROWS].load(SeqCst)
    }

    fn add(&self, row: usize) {
        self.words[row % ROWS].fetch_add(1, SeqCst);
    }
}

/// A servant of a row that counts its steps, or refuses each for want of memory.
#[derive(Drop)]
pub struct Counted<S: Servant> {
    servant: S,
    row: usize,
    refuses: bool,
    steps: Arc<Steps, Global>,
}

impl<S: Servant> Counted<S> {
    /// A servant that counts into its row of `steps`, from 0. Where it `refuses`, each step answers want of
    /// memory.
    pub fn new(servant: S, row: usize, refuses: bool, steps: Arc<Steps, Global>) -> Counted<S>
        ensures { result.servant ≡ servant }
    {
        Counted {
            servant,
            row,
            refuses,
            steps,
        }
    }
}

impl<S: Servant> Servant for Counted<S> {
    ghost kind_of = { λ s. S.kind_of s.servant };

    ghost stepped = { λ s. S.stepped s.servant };

    fn kind(&self) -> Native {
        self.servant.kind()
    }

    fn steps(&self) -> u64 {
        self.servant.steps()
    }

    fn step(&mut self, alloc: Global, classes: &Classes, job: &Job) -> Result<Outcome, Memory> {
        if self.refuses {
            return Err(Memory);
        }
        self.steps.add(self.row);
        self.servant.step(alloc, classes, job)
    }
}
