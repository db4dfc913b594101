//! Which workers are at work, and where the others sleep. No clause rests on a bell: it says only how long a
//! worker sleeps before it looks again.
use std::sync::Wait;
use std::sync::atomic::AtomicU64;
use std::sync::atomic::Ordering::SeqCst;
use std::time::Duration;
use std::{array, thread};

// As many bells as a turnstile has passes at most.
const BELLS: usize = 64;

// The word of a bell whose lane's worker has not begun.
const ABSENT: u64 = 0;

// The word while the worker is at the lock, or on its way to it.
const AWAKE: u64 = 1;

// The word while the worker computes a step, or the gate holds it.
const AWAY: u64 = 2;

// The word while the worker waits, and looks at its bell.
const DOZES: u64 = 3;

// The word while the worker sleeps, or is about to.
const ASLEEP: u64 = 4;

// The word once the worker has ended.
const GONE: u64 = 5;

// How often a worker that dozes looks at its bell before it sleeps.
const LOOKS: u32 = 50;

// What a worker is doing.
#[derive(Debug, Clone, Copy, PartialEq, Eq)]
pub(crate) enum Doing {
    // It has not begun.
    Absent,
    // It is at the lock, or on its way to it.
    Awake,
    // It computes a step, or the gate holds it.
    Away,
    // It waits, and looks at its bell.
    Dozes,
    // It sleeps, or is about to.
    Asleep,
    // It has ended.
    Gone,
}

// A word for each lane.
#[derive(Drop)]
pub(crate) struct Bells {
    words: [AtomicU64; BELLS],
    // How many workers may be at work at a time, before one that goes on rings for another one.
    at_work: u32,
    // How many may doze at a time.
    dozing: u32,
}

impl Bells {
    // Bells for workers that share so many processors. There is one core, so two workers at a time keep it
    // busy: while one holds it the other one wakes, or computes a step. On one or two processors the second
    // would take its time from the first. Those who doze use processors that are left.
    pub(crate) fn new(processors: u32) -> Bells {
        let at_work = if processors > 2 { 2 } else { 1 };
        Bells {
            words: array::from_fn(|_| AtomicU64::new(ABSENT)),
            at_work,
            dozing: processors.saturating_sub(at_work),
        }
    }

    // The word of a lane. Lanes whose numbers are `BELLS` apart have one word.
    fn of(&self, lane: u32) -> &AtomicU64 {
        &self.words[(lane % BELLS as u32) as usize]
    }

    // The lane's worker is awake.
    pub(crate) fn awake(&self, lane: u32) {
        self.of(lane).store(AWAKE, SeqCst);
    }

    // The lane's worker leaves the lock to compute a step.
    pub(crate) fn away(&self, lane: u32) {
        self.of(lane).store(AWAY, SeqCst);
    }

    // The lane's worker is about to wait. It says so while it holds the lock, so that whoever holds the lock
    // next rings for it. It dozes where so many others do and a processor is left, and else sleeps at once.
    pub(crate) fn set(&self, lane: u32, others: u32) {
        let word = if others < self.dozing { DOZES } else { ASLEEP };
        self.of(lane).store(word, SeqCst);
    }

    // The lane's worker has ended.
    pub(crate) fn end(&self, lane: u32) {
        self.of(lane).store(GONE, SeqCst);
    }

    // What the lane's worker is doing.
    pub(crate) fn doing(&self, lane: u32) -> Doing {
        match self.of(lane).load(SeqCst) {
            ABSENT => Doing::Absent,
            AWAKE => Doing::Awake,
            AWAY => Doing::Away,
            DOZES => Doing::Dozes,
            ASLEEP => Doing::Asleep,
            _ => Doing::Gone,
        }
    }

    // Whether so many workers at work are as many as use the core.
    pub(crate) fn are_enough(&self, at_work: u32) -> bool {
        at_work >= self.at_work
    }

    // Waits until the bell rings, or for as long as that once it sleeps. Who dozes lets other threads run
    // between two looks.
    pub(crate) fn wait<R: Wait>(&self, rt: &R, lane: u32, most: Duration) {
        let bell = self.of(lane);
        for _ in 0..LOOKS {
            if bell.load(SeqCst) != DOZES {
                break;
            }
            thread::yield_now();
        }
        self.turns(lane, DOZES, ASLEEP);
        if bell.load(SeqCst) == ASLEEP {
            bell.park_timeout(rt, ASLEEP as u32, most);
        }
        self.awake(lane);
    }

    // Writes a lane's word, if it has that one. Answers whether it had.
    fn turns(&self, lane: u32, word: u64, new: u64) -> bool {
        self.of(lane)
            .compare_exchange(word, new, SeqCst, SeqCst)
            .is_ok()
    }

    // Has the lane's worker look again, if it waits. One that dozes may fall asleep meanwhile, and is woken
    // then; one that does not sleep costs no call of the system.
    pub(crate) fn ring(&self, lane: u32) {
        if self.turns(lane, DOZES, AWAKE) {
            return;
        }
        if self.turns(lane, ASLEEP, AWAKE) {
            self.of(lane).wake_all();
        }
    }

    // Has every lane's worker look again, if it waits.
    pub(crate) fn ring_all(&self) {
        for lane in 0..BELLS as u32 {
            self.ring(lane);
        }
    }
}
