//! What is left when the workers have ended: the calling thread makes the rest of the entries.
ghost use Rattle.std.specs.Prelude.{◌≡◌, ◌+◌, ◌≤◌, ◌<◌, Some, All, IfOk, IfSome, OnOk, length, map};
ghost use Rattle.std.specs.Prelude.{vec_len};
ghost use Rattle.com_runtime.specs.Standings.{ended_now, standing_of, CanGo, Reached};
ghost use Rattle.com_model.specs.Ends.{limit};
ghost use Rattle.com_model.specs.Tables.{lanes};
ghost use Rattle.com_servant.specs.Rows.{row};
ghost use Rattle.com_threads.specs.Drives.{IsDriven};
ghost use Rattle.com_threads.specs.Histories.{UpToDate};

use crate::desk::Desk;
use crate::worker::Row;
use com_base::Memory;
use com_model::{Ended, Scenario};
use com_runtime::{Chosen, Jobs, Standing, choose, end_of};
use std::alloc::Global;

// What a turn of the driver did.
#[derive(Drop)]
pub(crate) enum Driven {
    // An entry was made. The last lane but the clock's is this one, or 0.
    Made(u32),
    // The history had ended so, and nothing was done.
    Over(Ended),
}

// How a runtime stands, whose lanes were tried: it runs where one of them can step.
#[tactic(auto, using(com_runtime::proofs::Resting::runs_reached))]
fn stand<C: Jobs>(runtime: &C, chosen: Option<Chosen>) -> Standing
    requires goes { IfSome chosen (λ chosen. CanGo (C.scenario runtime.now)
        (C.state runtime.now) chosen.lane) }
    requires reached { Reached (C.scenario runtime.now) (C.state runtime.now) }
    ensures { result ≡ standing_of (C.scenario runtime.now) (C.state runtime.now) }
{
    match chosen {
        Some(_) => Standing::Runs,
        None => runtime.standing(),
    }
}

impl<C: Jobs + Drop> Desk<C> {
    // The next entry of a lane that can step, with the servants of that lane. The rows are those of the last
    // lane first.
    #[tactic(auto, using(crate::proofs::Added::reached_at, crate::proofs::Added::one_later, crate::proofs::Added::few_entries, crate::proofs::Added::row_of_next))]
    fn step(
        &mut self,
        alloc: Global,
        scenario: &Scenario,
        lane: u32,
        rows: &mut Vec<Row>,
    ) -> Result<(), Memory>
        requires at { UpToDate scenario.now (C.scenario self.old.core) (C.state self.old.core)
            self.old.pages }
        requires can { CanGo (C.scenario self.old.core) (C.state self.old.core) lane }
        requires room { (C.state self.old.core).entries < limit scenario.now }
        requires rows { All (λ servants. map kind_of servants.items ≡ row) rows.old.items }
        requires each { vec_len rows.old ≡ lanes scenario.now }
        ensures at { OnOk result (UpToDate scenario.now (C.scenario self.new.core) (C.state self.new.core)
            self.new.pages) }
        ensures one { OnOk result (length self.new.pages.entries ≡ length self.old.pages.entries + 1) }
        ensures rows { All (λ servants. map kind_of servants.items ≡ row) rows.new.items }
        ensures each { vec_len rows.new ≡ lanes scenario.now }
    {
        let at = rows.len() - lane as usize;
        let entry = self.core.step(alloc, lane, &mut rows[at])?;
        self.pages.write(entry)
    }

    // One turn round all lanes: the entry of the first lane behind the last one that can step, or the clock's
    // where none can. Where the history has ended, nothing is done.
    fn turn_round(
        &mut self,
        alloc: Global,
        scenario: &Scenario,
        last: u32,
        rows: &mut Vec<Row>,
    ) -> Result<Driven, Memory>
        requires at { UpToDate scenario.now (C.scenario self.old.core) (C.state self.old.core)
            self.old.pages }
        requires last { last ≤ lanes scenario.now }
        requires rows { All (λ servants. map kind_of servants.items ≡ row) rows.old.items }
        requires each { vec_len rows.old ≡ lanes scenario.now }
        ensures at { OnOk result (UpToDate scenario.now (C.scenario self.new.core) (C.state self.new.core)
            self.new.pages) }
        ensures driven { IfOk result (λ driven. IsDriven scenario.now (C.state self.new.core)
            (length self.old.pages.entries) (length self.new.pages.entries) driven) }
        ensures rows { All (λ servants. map kind_of servants.items ≡ row) rows.new.items }
        ensures each { vec_len rows.new ≡ lanes scenario.now }
    {
        let chosen = choose(&self.core, &[], 0, last);
        let standing = stand(&self.core, chosen);
        if let Some(ended) = end_of(scenario, &self.core, standing) {
            return Ok(Driven::Over(ended));
        }
        match standing {
            Standing::Runs => match chosen {
                Some(chosen) => {
                    self.step(alloc, scenario, chosen.lane, rows)?;
                    Ok(Driven::Made(chosen.lane))
                }
                None => unreachable!(),
            },
            Standing::Ticks => {
                self.advance(alloc, scenario, 0)?;
                Ok(Driven::Made(last))
            }
            Standing::Finished => unreachable!(),
            Standing::Stuck => unreachable!(),
        }
    }

    // Makes all that is left, and answers how the history has ended.
    pub(crate) fn drive(
        &mut self,
        alloc: Global,
        scenario: &Scenario,
        rows: &mut Vec<Row>,
    ) -> Result<Ended, Memory>
        requires at { UpToDate scenario.now (C.scenario self.old.core) (C.state self.old.core)
            self.old.pages }
        requires rows { All (λ servants. map kind_of servants.items ≡ row) rows.old.items }
        requires each { vec_len rows.old ≡ lanes scenario.now }
        ensures at { OnOk result (UpToDate scenario.now (C.scenario self.new.core) (C.state self.new.core)
            self.new.pages) }
        ensures ended { IfOk result (λ ended. ended_now scenario.now (C.state self.new.core) ≡ Some ended) }
    {
        let mut last = 0;
        'turns: loop {
            match self.turn_round(alloc, scenario, last, rows)? {
                Driven::Made(lane) => last = lane,
                Driven::Over(ended) => return Ok(ended),
            }
        }
    }
}
