//! Whose turn it is: the picks first, then the lanes in their order.
ghost use Rattle.std.specs.Prelude.{◌≡◌, ◌+◌, ◌≤◌, true, Some, None, IfSome, IsTrue, drop};
ghost use Rattle.com_refs_books.specs.Counting.{numbers_from};
ghost use Rattle.com_model.specs.Lists.{first_that};
ghost use Rattle.com_model.specs.Tables.{lanes};
ghost use Rattle.com_model.specs.Ends.{picked, lanes_after};
ghost use Rattle.com_runtime.specs.Standings.{can_step_in, can_pick_in, none_can_in, standing_of, ended_now};
ghost use Rattle.com_runtime.specs.Standings.{budget_of, CanGo, HasTurn, Reached};

use crate::runtime::{Runtime, Standing};
use com_model::{Ended, Scenario};

/// The lane whose turn it is, and how many of the picks were tried.
#[derive(Debug, Clone, Copy)]
pub struct Chosen {
    /// The lane.
    pub lane: u32,
    /// How many of the picks were tried, those that were passed over with the one that was taken.
    pub tried: usize,
}

// Whether a number of the picks is that of a lane that can step.
#[tactic(auto, using(crate::proofs::Choices::too_low, crate::proofs::Choices::too_high, crate::proofs::Choices::is_pick))]
fn can_pick<C: Runtime>(runtime: &C, lane: u32) -> bool
    requires { Reached (C.scenario runtime.now) (C.state runtime.now) }
    ensures pick { result ≡ can_pick_in (C.scenario runtime.now) (C.state runtime.now) lane }
    ensures goes { IsTrue result → CanGo (C.scenario runtime.now) (C.state runtime.now) lane }
{
    if lane < 1 {
        return false;
    }
    if runtime.lanes() < lane {
        return false;
    }
    runtime.can_step(lane)
}

// The first pick that can step, from the one at `from` on. Each is tried once.
#[tactic(auto, using(crate::proofs::Choices::pick_on, crate::proofs::Choices::pick_here, crate::proofs::Choices::pick_none))]
fn pick<C: Runtime>(runtime: &C, picks: &[u32], from: usize) -> Option<Chosen>
    requires { Reached (C.scenario runtime.now) (C.state runtime.now) }
    ensures none { result ≡ None
        → picked (can_pick_in (C.scenario runtime.now) (C.state runtime.now)) (drop from picks.now) ≡ None }
    ensures some { IfSome result (λ chosen. picked (can_pick_in (C.scenario runtime.now)
        (C.state runtime.now)) (drop from picks.now)
        ≡ Some (record { lane = chosen.lane; picks = drop chosen.tried picks.now })) }
    ensures goes { IfSome result (λ chosen. CanGo (C.scenario runtime.now)
        (C.state runtime.now) chosen.lane) }
{
    let mut next = from;
    'picks: while next < picks.len() {
        let lane = picks[next];
        if can_pick(runtime, lane) {
            return Some(Chosen {
                lane,
                tried: next + 1,
            });
        }
        next += 1;
    }
    None
}

// The first lane that can step, of as many as `count` behind the lane `last`.
#[tactic(auto, using(crate::proofs::Choices::scan_start, crate::proofs::Choices::scan_on, crate::proofs::Choices::scan_here, crate::proofs::Choices::scan_none))]
fn scan<C: Runtime>(runtime: &C, last: u32, count: u32, most: u32) -> Option<u32>
    requires most { most ≡ lanes (C.scenario runtime.now) }
    requires within { last + count ≤ most }
    requires reached { Reached (C.scenario runtime.now) (C.state runtime.now) }
    ensures first { result ≡ first_that (can_step_in (C.scenario runtime.now) (C.state runtime.now))
        (numbers_from (last + 1) count) }
    ensures goes { IfSome result (λ lane. CanGo (C.scenario runtime.now) (C.state runtime.now) lane) }
{
    for step in 0..count {
        let lane = last + 1 + step;
        if runtime.can_step(lane) {
            return Some(lane);
        }
    }
    None
}

// The first lane that can step, from the one behind the lane `last` on, and then from 1 on.
#[tactic(auto, using(crate::proofs::Choices::round_some, crate::proofs::Choices::round_rest))]
fn in_round<C: Runtime>(runtime: &C, last: u32) -> Option<u32>
    requires reached { Reached (C.scenario runtime.now) (C.state runtime.now) }
    requires last { last ≤ lanes (C.scenario runtime.now) }
    ensures first { result ≡ first_that (can_step_in (C.scenario runtime.now) (C.state runtime.now))
        (lanes_after (C.scenario runtime.now) last) }
    ensures goes { IfSome result (λ lane. CanGo (C.scenario runtime.now) (C.state runtime.now) lane) }
{
    let most = runtime.lanes();
    if let Some(lane) = scan(runtime, last, most - last, most) {
        return Some(lane);
    }
    scan(runtime, 0, last, most)
}

/// The lane whose turn it is, where one can step: `tried` of the picks were tried before, and `last` is the
/// last lane.
#[tactic(auto, using(crate::proofs::Choices::has_picked, crate::proofs::Choices::has_round, crate::proofs::Choices::none_can))]
pub fn choose<C: Runtime>(runtime: &C, picks: &[u32], tried: usize, last: u32) -> Option<Chosen>
    requires reached { Reached (C.scenario runtime.now) (C.state runtime.now) }
    requires last { last ≤ lanes (C.scenario runtime.now) }
    ensures turn { IfSome result (λ chosen. HasTurn (C.scenario runtime.now) (C.state runtime.now)
        (drop tried picks.now) last
        chosen.lane (drop chosen.tried picks.now)) }
    ensures goes { IfSome result (λ chosen. CanGo (C.scenario runtime.now)
        (C.state runtime.now) chosen.lane) }
    ensures none { result ≡ None → none_can_in (C.scenario runtime.now) (C.state runtime.now) ≡ true }
{
    if let Some(chosen) = pick(runtime, picks, tried) {
        return Some(chosen);
    }
    match in_round(runtime, last) {
        Some(lane) => Some(Chosen {
            lane,
            tried: picks.len(),
        }),
        None => None,
    }
}

/// How a runtime stands, whose lanes were tried: it runs where one of them can step.
#[tactic(auto, using(crate::proofs::Resting::runs_reached))]
pub fn stand<C: Runtime>(runtime: &C, chosen: Option<Chosen>) -> Standing
    requires goes { IfSome chosen (λ chosen. CanGo (C.scenario runtime.now)
        (C.state runtime.now) chosen.lane) }
    requires reached { Reached (C.scenario runtime.now) (C.state runtime.now) }
    ensures { result ≡ standing_of (C.scenario runtime.now) (C.state runtime.now) }
{
    match chosen {
        Some(_) => Standing::Runs,
        None => runtime.standing(),
    }
}

// The end of a history that is neither finished nor stuck, if it has ended.
fn budget<C: Runtime>(scenario: &Scenario, runtime: &C) -> Option<Ended>
    requires { C.scenario runtime.now ≡ scenario.now }
    ensures { result ≡ budget_of scenario.now (C.state runtime.now) }
{
    if runtime.entries() == u64::from(scenario.limit()) {
        Some(Ended::Budget)
    } else {
        None
    }
}

/// How the history has ended, if it has, for a runtime that stands so.
#[tactic(auto, using(crate::proofs::Choices::ended_finished, crate::proofs::Choices::ended_stuck, crate::proofs::Choices::ended_ticks, crate::proofs::Choices::ended_runs))]
pub fn end_of<C: Runtime>(scenario: &Scenario, runtime: &C, standing: Standing) -> Option<Ended>
    requires scenario { C.scenario runtime.now ≡ scenario.now }
    requires standing { standing ≡ standing_of scenario.now (C.state runtime.now) }
    ensures { result ≡ ended_now scenario.now (C.state runtime.now) }
{
    match standing {
        Standing::Finished => Some(Ended::Ok),
        Standing::Stuck => Some(Ended::Stuck),
        Standing::Ticks => budget(scenario, runtime),
        Standing::Runs => budget(scenario, runtime),
    }
}
