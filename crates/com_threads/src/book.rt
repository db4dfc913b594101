//! The book behind the turnstile. Its type names the scenario, so that what is taken out at the end is known
//! to belong to it.
ghost use Rattle.std.specs.Prelude.{◌≡◌, ◌≤◌, IfOk};
ghost use Rattle.com_model.specs.Tables.{lanes};
ghost use Rattle.com_threads.specs.Histories.{Adds, UpToDate};
ghost use Rattle.com_threads.specs.Turns.{IsWork};

use crate::desk::{Desk, Turn, Work};
use com_base::Memory;
use com_model::{Entry, Scenario};
use com_runtime::Jobs;
use com_turnstile::Grows;
use std::alloc::Global;
use std::marker::{Brand, Model, PhantomData};

/// Names the scenario of a run.
pub trait Plays {
    ghost use Rattle.com_model.specs.declared.scenario.Scenario.{Scenario as AnyScenario};

    // The scenario.
    ghost scenario: { AnyScenario };
}

impl Plays for Brand {
    ghost use Rattle.com_model.specs.Cases.{direct_call};

    // Each call names its own scenario in place of this one.
    ghost scenario = { direct_call };
}

// A runtime and its history. Once memory was wanting, no entry is made any more.
#[derive(Drop)]
pub(crate) struct Book<C: Jobs + Drop, J: Plays> {
    // In a box, since the turnstile moves the book at each enter and each leave.
    desk: Box<Desk<C>>,
    has_failed: bool,
    of: PhantomData<J>,
}

impl<C: Jobs + Drop, J: Plays> Model for Book<C, J> {
    ghost use Rattle.std.specs.Prelude.{◌≡◌, List, false};
    ghost use Rattle.com_model.specs.declared.deeds.Entry.{Entry as AnyEntry};
    ghost use Rattle.com_threads.specs.Histories.{UpToDate};

    ghost Value = { List AnyEntry };

    ghost view = { λ b. b.desk.value.pages.entries };

    ghost invariant = { λ b. b.has_failed ≡ false → UpToDate J.scenario (C.scenario b.desk.value.core)
        (C.state b.desk.value.core) b.desk.value.pages };
}

impl<C: Jobs + Drop, J: Plays> Book<C, J> {
    // A book round a runtime that has made no entry.
    pub(crate) fn new(alloc: Global, desk: Desk<C>) -> Result<Book<C, J>, Memory>
        requires { UpToDate J.scenario (C.scenario desk.core) (C.state desk.core)
            desk.pages }
        ensures { IfOk result (λ book. book ≡ desk.pages.entries) }
    {
        Ok(Book {
            desk: Box::new(alloc, desk)?,
            has_failed: false,
            of: PhantomData,
        })
    }

    // One turn of a lane's worker. Once memory was wanting, each lane is over.
    #[tactic(auto, using(crate::proofs::Added::at_named, crate::proofs::Added::named_at, crate::proofs::Added::adds_none))]
    pub(crate) fn turn(
        &mut self,
        alloc: Global,
        scenario: &Scenario,
        lane: u32,
        work: &mut Work,
    ) -> Turn
        requires scenario { scenario.now ≡ J.scenario }
        requires lane { (1 ≤ lane) × (lane ≤ lanes scenario.now) }
        requires work { IsWork scenario.now work.old }
        ensures adds { Adds lane self.old self.new }
        ensures work { IsWork scenario.now work.new }
    {
        if self.has_failed {
            return Turn::Over;
        }
        match self.desk.turn(alloc, scenario, lane, work) {
            Ok(turn) => turn,
            Err(_) => {
                self.has_failed = true;
                Turn::Over
            }
        }
    }

    // Whether the worker of a lane has something to do.
    #[tactic(auto, using(crate::proofs::Added::reached_at))]
    pub(crate) fn calls(&self, lane: u32) -> bool {
        if self.has_failed {
            return true;
        }
        if lane < 1 || lane > self.desk.core.lanes() {
            return false;
        }
        self.desk.core.can_step(lane)
    }

    // How many lanes there are.
    pub(crate) fn lanes(&self) -> u32 {
        self.desk.core.lanes()
    }

    // A lane, another one after each entry.
    pub(crate) fn other_lane(&self) -> u32 {
        (self.desk.pages.len() % (self.desk.core.lanes() as u64 + 1)) as u32
    }

    // What lies in the book, unless memory was wanting.
    pub(crate) fn into_desk(self) -> Result<Desk<C>, Memory>
        ensures { IfOk result (λ desk. UpToDate J.scenario (C.scenario desk.core) (C.state desk.core)
            desk.pages) }
    {
        let Book {
            desk,
            has_failed,
            of: _,
        } = self;
        if has_failed {
            return Err(Memory);
        }
        Ok(Box::into_inner(desk))
    }
}

impl<C: Jobs + Drop, J: Plays> Grows for Book<C, J> {
    type Entry = Entry;

    ghost list = { λ b. b };

    ghost lane = { λ e. e.lane };

    fn length(&self) -> u64 {
        self.desk.pages.len()
    }
}
