//! Apartments: the home of each lane, how often it is initialised, and which apartments have ended.
//!
//! Apartments are numbered. 0 is the neutral apartment, 1 the multithreaded one and 2 the host's; the
//! single-threaded apartments of threads are numbered from 3 in the order of making, and no number is
//! used again. Lanes are numbered too: from 1 those of the threads, then the host's, then the pool's.
#![tactic(auto)]

ghost use Rattle.std.specs.Prelude.{◌≡◌, ◌+◌, ◌<◌, ◌≤◌, ◌^◌, [], length};
ghost use Rattle.std.specs.Prelude.{replicate, IfOk, OnOk, OnErr, List, ℕ, vec_len};
ghost use Rattle.com_apts.specs.Lanes.{Step, IsBalanced, IsThread, after_init, after_uninit, count_of};
ghost use Rattle.com_apts.specs.Lanes.{ended_by_uninit, ended_first, free_seat, home_of, init_answer};
ghost use Rattle.com_apts.specs.Lanes.{is_ended, is_in_mode, main_sta_of, sta_of, home_in, ended_in};

use com_base::{FIRST_STA, HOST_STA, HResult, MTA, Mode};
use std::alloc::Global;
use std::marker::Model;

/// Want of memory.
pub use com_base::Memory;

// What a thread's lane has: its home, and how often it is initialised.
#[derive(Debug, Clone, Copy)]
struct Seat {
    home: Option<u32>,
    count: u32,
}

impl Seat {
    // A lane that is not initialised.
    const FREE: Seat = Seat {
        home: None,
        count: 0,
    };
}

/// The lanes and their apartments, seen as the home and count of each thread's lane, the number of
/// the pool's lanes, and which apartments of threads have ended.
#[derive(Debug, Drop)]
pub struct Apartments {
    seats: Vec<Seat>,
    pool: u32,
    ended: Vec<bool>,
    // The index in `ended` of the oldest apartment that has not ended, or the length.
    oldest: usize,
}

impl Model for Apartments {
    ghost use Rattle.com_apts.specs.Lanes.{Lanes};
    ghost use Rattle.com_apts.specs.Kept.{IsKept};

    ghost Value = { Lanes };

    ghost view = { λ a. record { seats = a.seats.items; pool = a.pool; ended = a.ended.items } };

    ghost invariant = { λ a. IsKept a.seats.items a.ended.items a.oldest };
}

impl Apartments {
    /// The lanes of so many threads, the host's and so many of the pool. No thread's lane is
    /// initialised.
    ///
    /// From here on, whatever is called, every success of `init` is balanced by one `uninit`
    /// (CoInitializeEx and CoUninitialize of the documentation).
    pub fn new(alloc: Global, threads: u32, pool: u32) -> Result<Self, Memory>
        ensures seats { IfOk result (λ made. made.seats ≡ replicate threads free_seat) }
        ensures pool { IfOk result (λ made. made.pool ≡ pool) }
        ensures ended { IfOk result (λ made. made.ended ≡ []) }
        ensures balanced { IfOk result (λ made. (steps : List Step) (lane : ℕ) → IsThread made lane
            → IsBalanced made steps lane) }
    {
        let mut seats = Vec::new(alloc);
        seats.resize(threads as usize, Seat::FREE)?;
        Ok(Apartments {
            seats,
            pool,
            ended: Vec::new(alloc),
            oldest: 0,
        })
    }

    /// Initialises a thread's lane: S_OK where it had no home, S_FALSE where its home has the mode
    /// already, and RPC_E_CHANGED_MODE, with nothing changed, where it has the other.
    pub fn init(&mut self, lane: u32, mode: Mode) -> Result<HResult, Memory>
        requires thread { IsThread self.old lane }
        requires count { count_of self.old lane + 1 < 2 ^ 32 }
        requires number { length self.old.ended + 4 ≤ 2 ^ 32 }
        ensures answer { IfOk result (λ answer. answer ≡ init_answer (home_of self.old lane) mode) }
        ensures lanes { OnOk result (self.new ≡ after_init self.old lane mode) }
        ensures err { OnErr result (self.new ≡ self.old) }
    {
        let index = lane as usize - 1;
        let seat = self.seats[index];
        let Some(home) = seat.home else {
            let home = new_home(&mut self.ended, mode)?;
            self.seats[index] = Seat {
                home: Some(home),
                count: seat.count + 1,
            };
            return Ok(HResult::S_OK);
        };
        if !is_home_of(mode, home) {
            return Ok(HResult::RPC_E_CHANGED_MODE);
        }
        self.seats[index] = Seat {
            home: seat.home,
            count: seat.count + 1,
        };
        Ok(HResult::S_FALSE)
    }

    /// Undoes one initialisation of a thread's lane; nothing where there is none. With the last the
    /// lane loses its home. If that was a single-threaded apartment, it ends, and is the answer.
    pub fn uninit(&mut self, lane: u32) -> Option<u32>
        requires thread { IsThread self.old lane }
        ensures sta { result ≡ ended_by_uninit self.old lane }
        ensures lanes { self.new ≡ after_uninit self.old lane }
    {
        let index = lane as usize - 1;
        let seat = self.seats[index];
        if seat.count == 0 {
            return None;
        }
        if seat.count > 1 {
            self.seats[index] = Seat {
                home: seat.home,
                count: seat.count - 1,
            };
            return None;
        }
        self.seats[index] = Seat::FREE;
        let sta = made_by_thread(seat.home)?;
        self.ended[(sta - FIRST_STA) as usize] = true;
        self.oldest = oldest_from(&self.ended, self.oldest);
        Some(sta)
    }

    /// The apartment that a lane lives in. `None` exactly where it has none: a thread's lane that is
    /// not initialised, and a number that is no lane.
    pub fn home(&self, lane: u32) -> Option<u32>
        ensures { result ≡ home_of self.now lane }
    {
        let lane = lane as usize;
        let threads = self.seats.len();
        if lane == 0 {
            return None;
        }
        if lane <= threads {
            return self.seats[lane - 1].home;
        }
        match lane - threads {
            1 => Some(HOST_STA),
            n if n - 1 <= self.pool as usize => Some(MTA),
            _ => None,
        }
    }

    /// How often a thread's lane is initialised, and 0 for each other number.
    pub fn count(&self, lane: u32) -> u32
        ensures { result ≡ count_of self.now lane }
    {
        let lane = lane as usize;
        if lane == 0 || lane > self.seats.len() {
            return 0;
        }
        self.seats[lane - 1].count
    }

    /// The main single-threaded apartment: the oldest that a thread made and that has not ended, and
    /// the host's where there is none.
    pub fn main_sta(&self) -> u32
        ensures { result ≡ main_sta_of self.now }
    {
        if self.oldest < self.ended.len() {
            FIRST_STA + self.oldest as u32
        } else {
            HOST_STA
        }
    }

    /// Whether this is a single-threaded apartment that a thread made and that has ended.
    pub fn ended(&self, apartment: u32) -> bool
        ensures { result ≡ is_ended self.now apartment }
    {
        if apartment < FIRST_STA {
            return false;
        }
        let index = (apartment - FIRST_STA) as usize;
        index < self.ended.len() && self.ended[index]
    }
}

// Whether an apartment is one of this mode.
fn is_home_of(mode: Mode, home: u32) -> bool
    ensures { result ≡ is_in_mode mode home }
{
    match mode {
        Mode::Mta => home == MTA,
        Mode::Sta => home != MTA,
    }
}

// The home of a lane that is initialised in this mode: the multithreaded apartment, or one more of
// its own.
fn new_home(ended: &mut Vec<bool>, mode: Mode) -> Result<u32, Memory>
    requires { vec_len ended.old + 4 ≤ 2 ^ 32 }
    ensures home { IfOk result (λ home. home ≡ home_in mode ended.old.items) }
    ensures ended { OnOk result (ended.new.items ≡ ended_in mode ended.old.items) }
    ensures err { OnErr result (ended.new.items ≡ ended.old.items) }
{
    match mode {
        Mode::Mta => Ok(MTA),
        Mode::Sta => {
            let home = FIRST_STA + ended.len() as u32;
            ended.push(false)?;
            Ok(home)
        }
    }
}

// The home, where it is a single-threaded apartment that a thread made.
fn made_by_thread(home: Option<u32>) -> Option<u32>
    ensures { result ≡ sta_of home }
{
    match home {
        Some(home) if home >= FIRST_STA => Some(home),
        _ => None,
    }
}

// The first index from this one on that holds `false`, or the length. All before it hold `true`.
#[tactic(auto, using(crate::proofs::LaneLemmas::ended_first_le, crate::proofs::LaneLemmas::ended_first_more, crate::proofs::LaneLemmas::ended_first_here))]
fn oldest_from(ended: &[bool], from: usize) -> usize
    requires { from ≤ ended_first ended.now }
    ensures { result ≡ ended_first ended.now }
{
    let mut index = from;
    while index < ended.len() && ended[index] {
        index += 1;
    }
    index
}
