//! The lock, its passes, and the guard of the pass that has entered.
ghost use Rattle.std.specs.Prelude.{◌≡◌, ℕ, ◌+◌, ◌<◌, ◌≤◌, length, true, false, IfOk, Some};
ghost use Rattle.std.specs.Prelude.{vec_len, slice_get};
ghost use mathlib.Core.List.{IsPrefix};
ghost use Rattle.com_turnstile.specs.Steps.{with_ticket, Entered};

use crate::grows::Grows;
use crate::view::{Advance, Deal, Draw, Publish, Serve, Turns, View};
use atomic_table::{Seat, Table};
use std::alloc::{AllocError, Global};
use std::snapshot::Snapshot;
use std::sync::Wait;
use std::sync::atomic::AtomicU64;
use std::sync::atomic::Ordering::SeqCst;
use std::{array, hint, thread};

// The word that counts the tickets drawn.
const TICKETS: usize = 0;

// The word that has the ticket that is served.
const SERVING: usize = 1;

// The word that counts the entries published.
const ENTRIES: usize = 2;

// The slot of the value.
const VALUE: usize = 0;

// How often a pass that waits looks for its turn before it lets other threads run.
const LOOKS: u32 = 50;

// How often it lets them run, and looks again, before it sleeps.
const YIELDS: u32 = 20;

// No more tickets than this are out at a time, since a turnstile has at most 64 passes.
const TICKETS_OUT: usize = 64;

// What a bell's word has while nobody sleeps by it.
const SILENT: u64 = 0;

// What a bell's word has while a pass sleeps by it, or is about to.
const SET: u64 = 1;

/// A lock round a value that grows. It serves its passes in the order of their tickets.
///
/// The value is with the pass that has entered, and else in the lock. A turnstile may be shared among
/// threads, and its passes and guards may move to other threads, where the value may.
#[derive(Drop)]
pub struct Turnstile<T: Grows> {
    // The three words, and the slot, which has None while the value is taken out.
    table: Table<Option<T>, View<T::Entry>, Snapshot<T>, Turns<T>, Global>,
    // Where the passes that wait sleep.
    bells: Bells,
    ghost sized: { (table.shared.table_id.words ≡ 3) × (table.shared.table_id.slots ≡ 1) },
}

/// The right of one lane to enter a turnstile, which knows what the lane has seen.
///
/// A pass that is dropped while it is outside enters no more, and the others go on.
#[derive(Drop)]
pub struct Pass<T: Grows> {
    seat: Seat<Option<T>, View<T::Entry>>,
    // The length of the list that the pass has seen.
    count: u64,
}

/// The value of a turnstile, with the pass that has entered.
///
/// While a guard has not left, no other pass enters. A guard that never leaves, as that of a caller who takes
/// the value for good, keeps the others out forever.
#[derive(Drop)]
pub struct Guard<T: Grows> {
    /// The value, to which entries may be added.
    pub value: T,
    /// The pass that has entered.
    pub pass: Pass<T>,
}

impl<T: Grows> Turnstile<T> {
    ghost use Rattle.com_turnstile.specs.Passes.{turnstile_id, IsIdle, IsNewSeat, IsPassOf, IsGuardOf};
    ghost use Rattle.com_turnstile.specs.Passes.{IsSamePass, IsNewPass, HasOwn, MayLeave, HasMade};
    ghost use Rattle.com_turnstile.specs.Passes.{seen_by, own_of};

    /// A turnstile round the value, and its passes, of which there may be 1 to 64.
    ///
    /// The i-th pass, counted from 1, is the pass of lane i. Each pass has seen the list that the value has
    /// now. Where memory runs out nothing comes back, and the value is dropped.
    pub fn new(
        alloc: Global,
        value: T,
        passes: u32,
    ) -> Result<(Turnstile<T>, Vec<Pass<T>>), AllocError>
        requires { (0 < passes) × (passes ≤ 64) }
        ensures count { IfOk result (λ r. vec_len r.1 ≡ passes) }
        ensures passes { IfOk result (λ r. (i : ℕ) (p : _) → slice_get r.1.items i ≡ Some p
            → IsNewPass r.0 (T.list value) (i + 1) p) }
    {
        let count = value.length();
        let key = Snapshot::of(&value);
        let mut slots = Vec::new(alloc);
        slots.push(Some(value))?;
        let Ok((table, seat)) = Table::new(alloc, &[0, 0, count], slots, &key) else {
            return Err(AllocError);
        };
        let turnstile = Turnstile {
            table,
            bells: Bells::new(),
        };
        let list = turnstile.deal(alloc, seat, count, passes)?;
        Ok((turnstile, list))
    }

    // Splits the first seat into those of all passes.
    fn deal(
        &self,
        alloc: Global,
        seat: Seat<Option<T>, View<T::Entry>>,
        count: u64,
        passes: u32,
    ) -> Result<Vec<Pass<T>>, AllocError>
        requires some { 0 < passes }
        requires count { count ≡ length seat.me.0.opening }
        requires seat { IsNewSeat (turnstile_id self.now) seat.me.0.opening 1 seat }
        requires splits { seat.me.0.splits ≡ true }
        ensures count { IfOk result (λ r. vec_len r ≡ passes) }
        ensures passes { IfOk result (λ r. (i : ℕ) (p : _) → slice_get r.items i ≡ Some p
            → IsNewPass self.now seat.me.0.opening (i + 1) p) }
    {
        let mut list = Vec::with_capacity(alloc, passes as usize)?;
        let mut seat = seat;
        for _ in 1..passes {
            let next = self.table.shared.split_seat::<Deal>(&mut seat);
            list.push(Pass { seat, count })?;
            seat = next;
        }
        list.push(Pass { seat, count })?;
        Ok(list)
    }

    // Draws the next ticket. When all are drawn it waits forever.
    fn draw<R: Wait>(&self, rt: &R, seat: &mut Seat<Option<T>, View<T::Entry>>) -> u64
        requires { IsIdle (turnstile_id self.now) seat.old }
        ensures same { (seat.new.table_id ≡ seat.old.table_id) × (seat.new.id ≡ seat.old.id) }
        ensures drawn { seat.new.me ≡ (with_ticket seat.old.me.0 result, seat.old.me.1) }
    {
        let shared = &self.table.shared;
        for _ in rt.forever() {
            let ticket = shared.peek(TICKETS);
            if ticket == u64::MAX {
                shared.park(rt, TICKETS, u32::MAX);
                continue;
            }
            let found = shared.compare_exchange::<Draw>(seat, TICKETS, ticket, ticket + 1);
            if found == ticket {
                return ticket;
            }
        }
        unreachable!()
    }

    // Waits until the ticket is served. The seat then holds the slot.
    fn await_turn<R: Wait>(&self, rt: &R, seat: &mut Seat<Option<T>, View<T::Entry>>, ticket: u64)
        requires table { seat.old.table_id ≡ turnstile_id self.now }
        requires drawn { seat.old.me.0.ticket ≡ Some ticket }
        requires outside { seat.old.me.0.turn ≡ false }
        ensures same { (seat.new.table_id ≡ seat.old.table_id) × (seat.new.id ≡ seat.old.id) }
        ensures entered { Entered T.list T.lane seat.old.me seat.new.me }
    {
        for _ in rt.forever() {
            if self.table.shared.load::<Serve>(seat, SERVING) == ticket {
                return;
            }
            self.pause(rt, ticket);
        }
        unreachable!()
    }

    // Waits for a while in which the ticket may come to be served: it looks a few times, and then lets other
    // threads run between two looks, since the pass inside may need this very processor. Then it sleeps until
    // the pass before it leaves.
    fn pause<R: Wait>(&self, rt: &R, ticket: u64) {
        for look in 0..LOOKS + YIELDS {
            if self.table.shared.peek(SERVING) == ticket {
                return;
            }
            if look < LOOKS {
                hint::spin_loop();
            } else {
                thread::yield_now();
            }
        }
        self.bells.set(ticket);
        if self.table.shared.peek(SERVING) != ticket {
            self.bells.sleep(rt, ticket);
        }
    }

    /// Waits for the pass's turn, and hands out the value.
    ///
    /// The value's list begins with all that the pass has seen. After the list that the turnstile was made
    /// with, the entries of the pass's lane in it are those that the pass made, each once and in their order.
    pub fn enter<R: Wait>(&self, rt: &R, pass: Pass<T>) -> Guard<T>
        requires { IsPassOf self.now pass }
        ensures inside { IsGuardOf self.now result }
        ensures pass { IsSamePass pass result.pass }

        ensures begins { IsPrefix (seen_by pass) (T.list result.value) }
        ensures own { HasOwn T.lane pass (T.list result.value) }

        ensures seen { seen_by result.pass ≡ T.list result.value }
        ensures made { own_of result.pass ≡ own_of pass }
    {
        let Pass { mut seat, count: _ } = pass;
        let ticket = self.draw(rt, &mut seat);
        self.await_turn(rt, &mut seat, ticket);
        let value = self.table.shared.exchange(&mut seat, VALUE, None).unwrap();
        let count = value.length();
        Guard {
            value,
            pass: Pass { seat, count },
        }
    }

    /// Gives the value back with what was added to it, and serves the next ticket.
    ///
    /// The pass has now seen the value's list.
    pub fn leave(&self, guard: Guard<T>) -> Pass<T>
        requires inside { IsGuardOf self.now guard }
        requires grown { MayLeave T.lane guard.pass (T.list guard.value) }
        ensures outside { IsPassOf self.now result }
        ensures pass { IsSamePass guard.pass result }
        ensures seen { seen_by result ≡ T.list guard.value }
        ensures made { HasMade T.lane guard.pass (T.list guard.value) result }
    {
        let Guard { value, pass } = guard;
        let Pass { mut seat, count } = pass;
        let longer = value.length();
        let shared = &self.table.shared;
        let None = shared.exchange(&mut seat, VALUE, Some(value)) else {
            unreachable!()
        };
        shared.fetch_add::<Publish>(&mut seat, ENTRIES, longer - count);
        let served = shared.fetch_add::<Advance>(&mut seat, SERVING, 1);
        self.bells.ring(served.wrapping_add(1));
        // The pass after the next one wakes while the next one is inside, and so is awake when its own turn
        // comes.
        self.bells.ring(served.wrapping_add(2));
        Pass {
            seat,
            count: longer,
        }
    }
}

// Where the passes that wait sleep: a word for each ticket that is out, so that the pass that leaves wakes
// the next pass, and the one after it a turn early, and no other. No clause rests on a bell: it says only how
// long a pass sleeps before it looks again.
#[derive(Drop)]
struct Bells {
    words: [AtomicU64; TICKETS_OUT],
}

impl Bells {
    // One bell for each ticket that may be out; none is set.
    fn new() -> Bells {
        Bells {
            words: array::from_fn(|_| AtomicU64::new(SILENT)),
        }
    }

    // The bell of a ticket. Tickets that are 64 apart have one bell between them.
    fn of(&self, ticket: u64) -> &AtomicU64 {
        &self.words[(ticket % TICKETS_OUT as u64) as usize]
    }

    // Sets the ticket's bell. Whoever then finds the ticket not served yet may sleep.
    fn set(&self, ticket: u64) {
        self.of(ticket).store(SET, SeqCst);
    }

    // Sleeps until the bell rings, unless it has rung since it was set. It may also return for no reason.
    fn sleep<R: Wait>(&self, rt: &R, ticket: u64) {
        self.of(ticket).park(rt, SET as u32);
    }

    // Wakes the pass with the ticket, if it sleeps, and it looks again. The ticket that is served has to be
    // advanced before the bell of the next one rings.
    fn ring(&self, ticket: u64) {
        let bell = self.of(ticket);
        if bell.load(SeqCst) == SET {
            bell.store(SILENT, SeqCst);
            bell.wake_all();
        }
    }
}
