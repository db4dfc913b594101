//! Two threads take turns at one lock.
ghost use Rattle.std.specs.Prelude.{◌≡◌, IfOk};
ghost use Rattle.com_turnstile.specs.Passes.{IsPassOf, lane_of};

use com_turnstile::{Grows, Memory, Pass, Turnstile};
use std::alloc::Global;
use std::sync::Wait;
use std::test::*;
use std::thread;

// Entries of a lane and a number.
#[derive(Drop)]
struct Log {
    entries: Vec<(u32, u64)>,
}

impl Grows for Log {
    type Entry = (u32, u64);

    ghost list = { λ l. l.entries.items };

    ghost lane = { λ e. e.0 };

    fn length(&self) -> u64 {
        self.entries.len() as u64
    }
}

// A turnstile round an empty log, and the passes of the lanes 1 and 2.
fn two_passes(alloc: Global) -> Result<(Turnstile<Log>, Pass<Log>, Pass<Log>), Memory>
    ensures first { IfOk result (λ r. IsPassOf r.0 r.1 × (lane_of r.1 ≡ 1)) }
    ensures second { IfOk result (λ r. IsPassOf r.0 r.2 × (lane_of r.2 ≡ 2)) }
{
    let log = Log {
        entries: Vec::new(alloc),
    };
    let (turnstile, mut passes) = Turnstile::new(alloc, log, 2)?;
    let (Some(second), Some(first)) = (passes.pop(), passes.pop()) else {
        unreachable!()
    };
    Ok((turnstile, first, second))
}

// Enters, adds an entry of the lane, and leaves.
fn add<R: Wait>(
    rt: &R,
    turnstile: &Turnstile<Log>,
    pass: Pass<Log>,
    lane: u32,
    number: u64,
) -> Result<Pass<Log>, Memory>
    requires { IsPassOf turnstile.now pass × (lane_of pass ≡ lane) }
    ensures { IfOk result (λ p. IsPassOf turnstile.now p × (lane_of p ≡ lane)) }
{
    let mut guard = turnstile.enter(rt, pass);
    guard.value.entries.push((lane, number))?;
    Ok(turnstile.leave(guard))
}

// Adds the entries of the lane with the numbers below `count`.
fn add_many<R: Wait>(
    rt: &R,
    turnstile: &Turnstile<Log>,
    pass: Pass<Log>,
    lane: u32,
    count: u64,
) -> Result<Pass<Log>, Memory>
    requires { IsPassOf turnstile.now pass × (lane_of pass ≡ lane) }
    ensures { IfOk result (λ p. IsPassOf turnstile.now p × (lane_of p ≡ lane)) }
{
    let mut pass = pass;
    for number in 0..count {
        pass = add(rt, turnstile, pass, lane, number)?;
    }
    Ok(pass)
}

// The numbers of one lane's entries.
fn numbers_of(alloc: Global, entries: &[(u32, u64)], lane: u32) -> Result<Vec<u64>, Memory> {
    let mut numbers = Vec::new(alloc);
    for (of, number) in entries {
        if *of == lane {
            numbers.push(*number)?;
        }
    }
    Ok(numbers)
}

#[test]
fn two_threads_keep_the_order_of_each_lane(rt: HostRuntime) -> Result<(), Fail> {
    let (turnstile, first, second) = two_passes(rt.alloc())?;
    let host = &rt;
    let lock = &turnstile;
    let (first, second) = thread::join(
        host,
        move || -> Result<Pass<Log>, Memory>
            requires { IsPassOf lock.now first × (lane_of first ≡ 1) }
            ensures { IfOk result (λ p. IsPassOf lock.entry.now p) }
        { add_many(host, lock, first, 1, 100) },
        move || -> Result<Pass<Log>, Memory>
            requires { IsPassOf lock.now second × (lane_of second ≡ 2) }
        { add_many(host, lock, second, 2, 100) },
    );
    second?;
    let guard = turnstile.enter(&rt, first?);
    let entries = guard.value.entries.as_slice();
    assert_eq!(rt; entries.len(), 200);
    let all = (0..100u64).collect::<Vec<u64>>(rt.alloc())?;
    for lane in 1..=2u32 {
        let numbers = numbers_of(rt.alloc(), entries, lane)?;
        assert_eq!(rt; numbers.as_slice(), all.as_slice());
    }
    Ok(())
}
