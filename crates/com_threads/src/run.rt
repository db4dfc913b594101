//! A run on threads: the workers, and what is left for the calling thread.
ghost use Rattle.std.specs.Prelude.{◌≡◌, ◌+◌, ◌≤◌, All, IfOk, Some, map, vec_len};
ghost use Rattle.com_runtime.specs.Standings.{ended_now};
ghost use Rattle.com_model.specs.Clock.{clock};
ghost use Rattle.com_model.specs.Ends.{all_counts, ended_as};
ghost use Rattle.com_model.specs.Formed.{Formed};
ghost use Rattle.com_model.specs.Rules.{legal};
ghost use Rattle.com_model.specs.State.{first_tables};
ghost use Rattle.com_model.specs.Tables.{lanes};
ghost use Rattle.com_servant.specs.Rows.{row};
ghost use Rattle.com_threads.specs.Commits.{Tallies};
ghost use Rattle.com_threads.specs.Histories.{UpToDate};
ghost use Rattle.com_threads.specs.Runs.{history_of};
ghost use Rattle.com_turnstile.specs.Passes.{IsPassOf, lane_of};

use crate::bells::Bells;
use crate::book::{Book, Plays};
use crate::desk::Desk;
use crate::gate::Gate;
use crate::pages::Pages;
use crate::worker::{Row, Shared, Worker, deal, in_threads, work};
use com_base::{Memory, Rows};
use com_model::{Counts, Ended, Entry, Scenario};
use com_runtime::{Jobs, all_counts};
use com_turnstile::{Guard, Turnstile};
use std::alloc::Global;
use std::marker::Brand;
use std::sync::Wait;
use std::thread;
use std::thread::Threads;

/// What a run has made.
#[derive(Debug, Drop)]
pub struct Ran {
    /// The entries, in the order in which they were made.
    pub history: Rows<Entry>,
    /// What a report counts of each object, in order of making.
    pub counts: Rows<Counts>,
    /// Where the clock stands, in virtual milliseconds.
    pub clock: u64,
    /// How the history ended.
    pub ended: Ended,
    /// How many entries each lane has, lane 0 first.
    pub commits: Rows<u64>,
}

// What is answered of a runtime whose history has ended so.
#[tactic(auto, using(crate::proofs::Added::reached_of, crate::proofs::Added::ended_told, crate::proofs::Added::counts_told))]
fn answer<C: Jobs + Drop>(
    alloc: Global,
    scenario: &Scenario,
    desk: Desk<C>,
    ended: Ended,
) -> Result<Ran, Memory>
    requires at { UpToDate scenario.now (C.scenario desk.core) (C.state desk.core)
        desk.pages }
    requires ended { ended_now scenario.now (C.state desk.core) ≡ Some ended }
    ensures lawful { IfOk result (λ ran. legal scenario.now (history_of ran)) }
    ensures ended { IfOk result (λ ran. ended_as scenario.now (history_of ran) ≡ Some ran.ended) }
    ensures counts { IfOk result (λ ran. ran.counts ≡ all_counts scenario.now (history_of ran)) }
    ensures clock { IfOk result (λ ran. ran.clock ≡ clock (history_of ran)) }
    ensures commits { IfOk result (λ ran. Tallies (lanes scenario.now + 1) ran.history ran.commits) }
{
    let Desk { core, pages } = desk;
    let counts = all_counts(alloc, scenario, &core)?;
    let clock = core.clock();
    let (history, commits) = pages.into_parts();
    Ok(Ran {
        history,
        counts: Rows::from_vec(counts),
        clock,
        ended,
        commits,
    })
}

// How many processors the workers have, and 1 where that is not known.
fn processors<R: Threads>(rt: &R) -> u32 {
    match thread::available_parallelism(rt) {
        Ok(count) => u32::try_from(count.get()).unwrap_or(u32::MAX),
        Err(_) => 1,
    }
}

// A run whose book names the scenario.
#[tactic(auto, using(crate::proofs::Added::first_told, crate::proofs::Added::few_passes, crate::proofs::Added::few_sum, crate::proofs::Added::at_named))]
fn run_named<
    C: Jobs + Drop + Send,
    J: Plays + Send + Sync,
    R: Threads + Wait + Sync,
    G: Gate + Sync,
>(
    rt: &R,
    alloc: Global,
    scenario: &Scenario,
    core: C,
    crew: Vec<Row>,
    gate: &G,
) -> Result<Ran, Memory>
    requires named { scenario.now ≡ J.scenario }
    requires formed { Formed scenario.now }
    requires scenario { C.scenario core ≡ scenario.now }
    requires first { C.state core ≡ first_tables scenario.now }
    requires rows { lanes scenario.now ≤ vec_len crew }
    requires crew { All (λ servants. map kind_of servants.items ≡ row) crew.items }
    ensures lawful { IfOk result (λ ran. legal scenario.now (history_of ran)) }
    ensures ended { IfOk result (λ ran. ended_as scenario.now (history_of ran) ≡ Some ran.ended) }
    ensures counts { IfOk result (λ ran. ran.counts ≡ all_counts scenario.now (history_of ran)) }
    ensures clock { IfOk result (λ ran. ran.clock ≡ clock (history_of ran)) }
    ensures commits { IfOk result (λ ran. Tallies (lanes scenario.now + 1) ran.history ran.commits) }
{
    let count = core.lanes();
    let pages = Pages::new(alloc, count)?;
    let book = Book::<C, J>::new(alloc, Desk { core, pages })?;
    let (turnstile, mut passes) = Turnstile::new(alloc, book, count + 1)?;
    let Some(driver) = passes.pop() else {
        unreachable!()
    };
    let lock = &turnstile;
    let bells = &Bells::new(processors(rt));
    let workers = deal(alloc, scenario, lock, passes, crew, count)?;
    let mut rows = in_threads(
        rt,
        workers,
        &|worker: Worker<Book<C, J>, Row>| -> Row
            requires pass { IsPassOf lock.now worker.pass × (lane_of worker.pass ≡ worker.lane) }
            requires named { scenario.now ≡ J.scenario }
            requires lane { (1 ≤ worker.lane) × (worker.lane ≤ lanes scenario.now) }
            requires servants { map kind_of worker.servants.items ≡ row }
            ensures { map kind_of result.items ≡ row }
        {
            let shared = Shared {
                alloc,
                scenario,
                bells,
            };
            work(rt, &shared, lock, gate, worker)
        },
    )?;
    let Guard { value, pass: _ } = turnstile.enter(rt, driver);
    let mut desk = value.into_desk()?;
    let ended = desk.drive(alloc, scenario, &mut rows)?;
    answer(alloc, scenario, desk, ended)
}

/// Runs a scenario on a runtime of it that has made no entry: with a worker for each lane, in a thread of its
/// own where one can be made, and with what is left at the end in the calling thread.
///
/// A worker makes the entries of its lane under a lock that holds the runtime and the history; the step of a
/// body is computed outside of the lock by the lane's servants, then the gate is called, and then the step is
/// committed, unless its job is none of the lane's any more or its object's cells have changed: then it is
/// computed anew. The crew has a row of servants for each lane at least, that of lane 1 first, each with one
/// servant of each kind in the order of the kinds.
///
/// The history is legal in the scenario and has ended (`lawful`, `ended`), and what is told with it is its
/// own (`counts`, `clock`, `commits`). Which history it is rests on how the threads fall. The only error is
/// want of memory, which is answered only once all workers were joined; the crew is gone then.
pub fn run_on<C: Jobs + Drop + Send, R: Threads + Wait + Sync, G: Gate + Sync>(
    rt: &R,
    alloc: Global,
    scenario: &Scenario,
    core: C,
    crew: Vec<Row>,
    gate: &G,
) -> Result<Ran, Memory>
    requires formed { Formed scenario.now }
    requires scenario { C.scenario core ≡ scenario.now }
    requires first { C.state core ≡ first_tables scenario.now }
    requires rows { lanes scenario.now ≤ vec_len crew }
    requires crew { All (λ servants. map kind_of servants.items ≡ row) crew.items }
    ensures lawful { IfOk result (λ ran. legal scenario.now (history_of ran)) }
    ensures ended { IfOk result (λ ran. ended_as scenario.now (history_of ran) ≡ Some ran.ended) }
    ensures counts { IfOk result (λ ran. ran.counts ≡ all_counts scenario.now (history_of ran)) }
    ensures clock { IfOk result (λ ran. ran.clock ≡ clock (history_of ran)) }
    ensures commits { IfOk result (λ ran. Tallies (lanes scenario.now + 1) ran.history ran.commits) }
{
    run_named::<C, Brand, R, G>(rt, alloc, scenario, core, crew, gate)
}
