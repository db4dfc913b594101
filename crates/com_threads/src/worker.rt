//! One worker for each lane.
ghost use Rattle.std.specs.Prelude.{◌≡◌, ℕ, ◌+◌, ◌≤◌, All, IfOk, Some, map, slice_get, vec_len};
ghost use Rattle.std.specs.Fork.{AcceptsJobs, GivesJobs};
ghost use Rattle.com_model.specs.Tables.{lanes};
ghost use Rattle.com_servant.specs.Rows.{row};
ghost use Rattle.com_threads.specs.Turns.{IsWork};
ghost use Rattle.com_turnstile.specs.Passes.{IsPassOf, lane_of};

use crate::bells::{Bells, Doing};
use crate::book::{Book, Plays};
use crate::desk::{Turn, Work};
use crate::gate::Gate;
use com_base::Memory;
use com_model::Scenario;
use com_runtime::Jobs;
use com_servant::{Servant, serve};
use com_turnstile::{Grows, Pass, Turnstile};
use std::alloc::Global;
use std::sync::Wait;
use std::thread;
use std::thread::Threads;
use std::time::Duration;

/// The servants of one lane: one of each kind, in the order of the kinds.
pub type Row = Vec<Box<dyn Servant + Send>>;

// After so many turns one after the other in which its lane could not step a worker ends.
const IDLE_TURNS: u32 = 1_000;

// How long a worker sleeps at most, in microseconds, where a lane can step whose worker has begun. So long
// may a lane that can step have to wait where nobody rings for its worker, as while the gate holds another
// one.
const LONG: u64 = 5_000;

// How long it sleeps where lanes can step whose workers have not begun. It may be that no thread can be made
// for them before this worker ends.
const SHORT: u64 = 20;

// What all workers of a run share, beside the lock and the gate.
#[derive(Drop)]
pub(crate) struct Shared<'a> {
    // Where memory comes from.
    pub(crate) alloc: Global,
    // The scenario that runs.
    pub(crate) scenario: &'a Scenario,
    // By which they wake one another.
    pub(crate) bells: &'a Bells,
}

// What a worker begins with.
#[derive(Drop)]
pub(crate) struct Worker<B: Grows, S: Drop> {
    pub(crate) lane: u32,
    pub(crate) pass: Pass<B>,
    pub(crate) servants: S,
}

// A worker between two turns.
#[derive(Drop)]
struct Shift {
    lane: u32,
    servants: Row,
    work: Work,
    // How many jobs it has taken.
    jobs: u64,
    // For how many turns its lane could not step, one after the other.
    idle: u32,
}

// What a worker has learned under the lock: what its lane does next, and for how long it may sleep, in
// microseconds.
#[derive(Drop)]
struct Held<C: Jobs + Drop, J: Plays> {
    pass: Pass<Book<C, J>>,
    turn: Turn,
    sleep: u64,
}

// For whom a worker rings once it has left the lock. Whoever was rung for while the lock is held would wake
// only to wait for it.
#[derive(Clone, Copy)]
enum Rings {
    Nobody,
    One(u32),
    All,
}

// What a worker does once it has left the lock: for whom it rings, and for how long it may sleep, in
// microseconds.
#[derive(Clone, Copy)]
struct Round {
    rings: Rings,
    sleep: u64,
}

// What a worker whose lane cannot step sees of the others.
#[derive(Drop)]
struct Look {
    // How many are at work on lanes that can step.
    at_work: u32,
    // How many doze.
    dozing: u32,
    // The first that dozes, and the first that sleeps, though its lane can step.
    dozer: Option<u32>,
    sleeper: Option<u32>,
    // For how long this worker may sleep: not at all where nobody is there for a lane that can step.
    sleep: u64,
}

impl Look {
    // Sees the workers of all lanes but `own`, that of the next lane first.
    fn round<C: Jobs + Drop, J: Plays>(book: &Book<C, J>, bells: &Bells, own: u32) -> Look {
        let mut look = Look {
            at_work: 0,
            dozing: 0,
            dozer: None,
            sleeper: None,
            sleep: 0,
        };
        for lane in own.saturating_add(1)..=book.lanes() {
            look.see(bells.doing(lane), lane, book.calls(lane));
        }
        for lane in 1..own {
            look.see(bells.doing(lane), lane, book.calls(lane));
        }
        look
    }

    // Who goes on, unless enough are at work.
    fn next(&self, bells: &Bells) -> Rings {
        if bells.are_enough(self.at_work) {
            return Rings::Nobody;
        }
        match self.dozer.or(self.sleeper) {
            Some(lane) => Rings::One(lane),
            None => Rings::Nobody,
        }
    }

    // Sees the worker of one lane, that can step or cannot.
    fn see(&mut self, doing: Doing, lane: u32, can_step: bool) {
        if doing == Doing::Dozes {
            self.dozing = self.dozing.saturating_add(1);
        }
        if !can_step || doing == Doing::Gone {
            return;
        }
        if doing == Doing::Absent {
            self.sleep = self.sleep.max(SHORT);
            return;
        }
        self.sleep = LONG;
        match doing {
            Doing::Awake => self.at_work = self.at_work.saturating_add(1),
            Doing::Dozes => self.dozer = self.dozer.or(Some(lane)),
            Doing::Asleep => self.sleeper = self.sleeper.or(Some(lane)),
            _ => {}
        }
    }
}

// How many workers are at the lock or on their way to it.
fn at_work<C: Jobs + Drop, J: Plays>(book: &Book<C, J>, bells: &Bells) -> u32 {
    let mut count = 0u32;
    for lane in 1..=book.lanes() {
        if bells.doing(lane) == Doing::Awake {
            count = count.saturating_add(1);
        }
    }
    count
}

// Another worker to go on beside one that goes on, where too few are at work. It looks at one other lane each
// time, since the others lose nothing: there is one core.
fn helper<C: Jobs + Drop, J: Plays>(book: &Book<C, J>, bells: &Bells) -> Rings {
    let lane = book.other_lane();
    let doing = bells.doing(lane);
    if doing != Doing::Dozes && doing != Doing::Asleep {
        return Rings::Nobody;
    }
    if bells.are_enough(at_work(book, bells)) || !book.calls(lane) {
        return Rings::Nobody;
    }
    Rings::One(lane)
}

// Another worker goes on in the place of one whose lane cannot step, unless enough are at work. It says that
// it waits, unless the clock's entry has let its own lane step.
fn hand_on<C: Jobs + Drop, J: Plays>(book: &Book<C, J>, bells: &Bells, own: u32) -> Round {
    let look = Look::round(book, bells, own);
    if look.sleep == 0 || book.calls(own) {
        return Round {
            rings: Rings::Nobody,
            sleep: 0,
        };
    }
    bells.set(own, look.dozing);
    Round {
        rings: look.next(bells),
        sleep: look.sleep,
    }
}

// Looks round after a turn, and says what the lane's worker does next.
fn look_round<C: Jobs + Drop, J: Plays>(
    book: &Book<C, J>,
    bells: &Bells,
    lane: u32,
    turn: Turn,
) -> Round {
    match turn {
        Turn::Works => {
            let rings = helper(book, bells);
            bells.away(lane);
            Round { rings, sleep: 0 }
        }
        Turn::Goes => Round {
            rings: helper(book, bells),
            sleep: 0,
        },
        Turn::Waits => hand_on(book, bells, lane),
        Turn::Over => Round {
            rings: Rings::All,
            sleep: 0,
        },
    }
}

// One stay under the lock. Once it has left, it rings for those who have something to do.
fn hold<C: Jobs + Drop, J: Plays, R: Wait>(
    rt: &R,
    shared: &Shared<'_>,
    lock: &Turnstile<Book<C, J>>,
    pass: Pass<Book<C, J>>,
    lane: u32,
    work: &mut Work,
) -> Held<C, J>
    requires pass { IsPassOf lock.now pass × (lane_of pass ≡ lane) }
    requires scenario { shared.now.scenario.now ≡ J.scenario }
    requires lane { (1 ≤ lane) × (lane ≤ lanes shared.now.scenario.now) }
    requires work { IsWork shared.now.scenario.now work.old }
    ensures pass { IsPassOf lock.now result.pass × (lane_of result.pass ≡ lane) }
    ensures work { IsWork shared.now.scenario.now work.new }
{
    let Shared {
        alloc,
        scenario,
        bells,
    } = *shared;
    let mut guard = lock.enter(rt, pass);
    let turn = guard.value.turn(alloc, scenario, lane, work);
    let Round { rings, sleep } = look_round(&guard.value, bells, lane, turn);
    let pass = lock.leave(guard);
    match rings {
        Rings::Nobody => {}
        Rings::One(other) => bells.ring(other),
        Rings::All => bells.ring_all(),
    }
    Held { pass, turn, sleep }
}

// Has the servant of the job's kind compute its step, and puts it beside the job.
fn compute(alloc: Global, scenario: &Scenario, servants: &mut Row, work: &mut Work)
    requires work { IsWork scenario.now work.old }
    requires servants { map kind_of servants.old.items ≡ row }
    ensures work { IsWork scenario.now work.new }
    ensures servants { map kind_of servants.new.items ≡ row }
{
    let Some(job) = &work.job else {
        return;
    };
    work.step = Some(serve(alloc, servants, &scenario.classes, job));
}

// Waits for a while, without the lock.
fn pause<R: Wait>(rt: &R, bells: &Bells, lane: u32, sleep: u64) {
    if sleep == 0 {
        thread::yield_now();
        return;
    }
    bells.wait(rt, lane, Duration::from_micros(sleep));
}

impl Shift {
    // What the worker does without the lock, after a turn in it. The step of a body is computed, and the gate
    // is called. Answers whether the worker goes on.
    fn outside<R: Wait, G: Gate>(
        &mut self,
        rt: &R,
        shared: &Shared<'_>,
        gate: &G,
        turn: Turn,
        sleep: u64,
    ) -> bool
        requires work { IsWork shared.now.scenario.now self.old.work }
        requires servants { map kind_of self.old.servants.items ≡ row }
        ensures lane { self.new.lane ≡ self.old.lane }
        ensures work { IsWork shared.now.scenario.now self.new.work }
        ensures servants { map kind_of self.new.servants.items ≡ row }
    {
        let Shared {
            alloc,
            scenario,
            bells,
        } = *shared;
        match turn {
            Turn::Works => {
                compute(alloc, scenario, &mut self.servants, &mut self.work);
                self.jobs = self.jobs.saturating_add(1);
                self.idle = 0;
                gate.between(self.lane, self.jobs);
                bells.awake(self.lane);
                true
            }
            Turn::Goes => {
                self.idle = 0;
                true
            }
            Turn::Waits => {
                pause(rt, bells, self.lane, sleep);
                self.idle = self.idle.saturating_add(1);
                self.idle < IDLE_TURNS
            }
            Turn::Over => false,
        }
    }
}

// Makes the entries of its lane, until the lane is over or the run is, or until the lane could not step
// for a thousand turns. Gives the servants back.
pub(crate) fn work<C: Jobs + Drop, J: Plays, R: Wait, G: Gate>(
    rt: &R,
    shared: &Shared<'_>,
    lock: &Turnstile<Book<C, J>>,
    gate: &G,
    worker: Worker<Book<C, J>, Row>,
) -> Row
    requires pass { IsPassOf lock.now worker.pass × (lane_of worker.pass ≡ worker.lane) }
    requires scenario { shared.now.scenario.now ≡ J.scenario }
    requires lane { (1 ≤ worker.lane) × (worker.lane ≤ lanes shared.now.scenario.now) }
    requires servants { map kind_of worker.servants.items ≡ row }
    ensures { map kind_of result.items ≡ row }
{
    let Worker {
        lane,
        mut pass,
        servants,
    } = worker;
    shared.bells.awake(lane);
    let mut shift = Shift {
        lane,
        servants,
        work: Work::new(),
        jobs: 0,
        idle: 0,
    };
    for _ in rt.forever() {
        let Held {
            pass: later,
            turn,
            sleep,
        } = hold(rt, shared, lock, pass, lane, &mut shift.work);
        pass = later;
        if !shift.outside(rt, shared, gate, turn, sleep) {
            break;
        }
    }
    shared.bells.end(lane);
    let Shift { servants, .. } = shift;
    servants
}

// A worker for each lane, with the lane's pass and servants, that of the last lane first. What the crew has
// beyond the lanes is dropped.
pub(crate) fn deal<C: Jobs + Drop, J: Plays>(
    alloc: Global,
    scenario: &Scenario,
    lock: &Turnstile<Book<C, J>>,
    passes: Vec<Pass<Book<C, J>>>,
    crew: Vec<Row>,
    count: u32,
) -> Result<Vec<Worker<Book<C, J>, Row>>, Memory>
    requires count { count ≡ lanes scenario.now }
    requires passes { vec_len passes ≡ count }
    requires new { (i : ℕ) (p : _) → slice_get passes.items i ≡ Some p
        → IsPassOf lock.now p × (lane_of p ≡ i + 1) }
    requires rows { count ≤ vec_len crew }
    requires crew { All (λ servants. map kind_of servants.items ≡ row) crew.items }
    ensures count { IfOk result (λ workers. vec_len workers ≡ count) }
    ensures passes { IfOk result (λ workers. All (λ worker. IsPassOf lock.now worker.pass
        × (lane_of worker.pass ≡ worker.lane)) workers.items) }
    ensures lanes { IfOk result (λ workers. All (λ worker. (1 ≤ worker.lane)
        × (worker.lane ≤ lanes scenario.now)) workers.items) }
    ensures servants { IfOk result (λ workers. All (λ worker. map kind_of worker.servants.items ≡ row)
        workers.items) }
{
    let mut passes = passes;
    let mut crew = crew;
    crew.truncate(count as usize);
    let mut workers = Vec::with_capacity(alloc, count as usize)?;
    let mut lane = count;
    while let Some(pass) = passes.pop() {
        let Some(servants) = crew.pop() else {
            unreachable!()
        };
        workers.push(Worker {
            lane,
            pass,
            servants,
        })?;
        lane = lane.saturating_sub(1);
    }
    Ok(workers)
}

// Has each worker do its work in a thread of its own, where one can be made, and joins them all.
pub(crate) fn in_threads<
    B: Grows + Send,
    S: Send + Drop,
    X: Send + Drop,
    R: Threads + Sync,
    F: Fn(Worker<B, S>) -> X + Sync,
>(rt: &R, workers: Vec<Worker<B, S>>, work: &F) -> Result<Vec<X>, Memory>
    requires { AcceptsJobs F.Fn work.now workers.items }
    ensures len { IfOk result (λ rows. vec_len rows ≡ vec_len workers) }
    ensures each { IfOk result (λ rows. GivesJobs F.Fn work.now workers.items rows.items) }
{
    thread::map_vec(rt, workers, work)
}
