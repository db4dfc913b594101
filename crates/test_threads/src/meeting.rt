//! A gate at which two lanes wait for each other.
use com_threads::Gate;
use std::sync::atomic::AtomicU64;
use std::sync::atomic::Ordering::SeqCst;
use std::thread;

// How often a lane that is held looks for the other one.
const LOOKS: u64 = 10_000_000;

// For how many looks lane 2 stays when it has seen lane 1.
const STAYS: u64 = 10_000;

/// Holds each of the lanes 1 and 2 between the step and the commit of its first job, until the other one is
/// there too, and lane 2 for a while longer. A lane that did not see the other one goes on after so many
/// looks.
#[derive(Drop)]
pub struct Meeting {
    here: [AtomicU64; 2],
    met: [AtomicU64; 2],
    left: [AtomicU64; 2],
}

impl Meeting {
    /// A meeting to which no lane has come yet.
    pub fn new() -> Meeting {
        Meeting {
            here: [AtomicU64::new(0), AtomicU64::new(0)],
            met: [AtomicU64::new(0), AtomicU64::new(0)],
            left: [AtomicU64::new(0), AtomicU64::new(0)],
        }
    }

    /// Whether each of the two saw the other one while it was held.
    pub fn is_met(&self) -> bool {
        self.met[0].load(SeqCst) == 1 && self.met[1].load(SeqCst) == 1
    }

    /// Whether both went on.
    pub fn is_left(&self) -> bool {
        self.left[0].load(SeqCst) == 1 && self.left[1].load(SeqCst) == 1
    }

    // Looks for the other lane.
    fn look(&self, own: usize, other: usize) {
        if own > 1 || other > 1 {
            return;
        }
        self.here[own].store(1, SeqCst);
        for _ in 0..LOOKS {
            if self.here[other].load(SeqCst) == 1 {
                self.met[own].store(1, SeqCst);
                return;
            }
            thread::yield_now();
        }
    }
}

impl Gate for Meeting {
    fn between(&self, lane: u32, turn: u64) {
        if turn != 1 {
            return;
        }
        if lane == 1 {
            self.look(0, 1);
            self.left[0].store(1, SeqCst);
        }
        if lane == 2 {
            self.look(1, 0);
            for _ in 0..STAYS {
                thread::yield_now();
            }
            self.left[1].store(1, SeqCst);
        }
    }
}
