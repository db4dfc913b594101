//! One turn of the schedule: the picks first, then the lanes in their order.
ghost use Rattle.std.specs.Prelude.{◌≡◌, ◌+◌, ◌<◌, ◌≤◌, IfOk, map};
ghost use Rattle.com_model.specs.Ends.{lanes_after, limit};
ghost use Rattle.com_model.specs.Tables.{lanes};
ghost use Rattle.com_refs_books.specs.Counting.{numbers_from};
ghost use Rattle.com_runtime.specs.Standings.{can_pick_in, can_step_in, Reached};
ghost use Rattle.com_schedule.specs.Tried.{LaneTried, PickTried, Tried, TurnTried};
ghost use Rattle.com_servant.specs.Rows.{row};

use crate::tries::Tries;
use com_base::Memory;
use com_runtime::Chosen;
use com_servant::Servant;
use std::alloc::Global;

// Makes the next entry of a lane, where it can step. Most lanes wait most of the time, and a lane that waits costs
// no more than the look at it: no part of an entry is made.
#[inline(always)]
#[tactic(auto, using(crate::proofs::Trying::nothing_yet))]
fn step_if_ready<C: Tries>(
    alloc: Global,
    runtime: &mut C,
    lane: u32,
    servants: &mut Vec<Box<dyn Servant + Send>>,
) -> Result<bool, Memory>
    requires above { 1 ≤ lane }
    requires below { lane ≤ lanes (C.scenario runtime.old) }
    requires reached { Reached (C.scenario runtime.old) (C.state runtime.old) }
    requires room { (C.state runtime.old).entries < limit (C.scenario runtime.old) }
    requires row { map kind_of servants.old.items ≡ row }
    ensures scenario { C.scenario runtime.new ≡ C.scenario runtime.old }
    ensures can { IfOk result (λ made. made ≡ can_step_in (C.scenario runtime.old) (C.state runtime.old)
        lane) }
    ensures tried { IfOk result (λ can. Tried (C.scenario runtime.old) (C.state runtime.old) lane can
        (C.made runtime.new) (C.state runtime.new) (map stepped servants.old.items)
        (map stepped servants.new.items)) }
    ensures row { map kind_of servants.new.items ≡ row }
{
    if !runtime.can_step(lane) {
        return Ok(false);
    }
    runtime.try_lane(alloc, lane, servants)
}

// Tries a number of the picks, where it is that of a lane.
#[inline(never)]
#[tactic(auto, using(com_runtime::proofs::Choices::too_low, com_runtime::proofs::Choices::too_high, com_runtime::proofs::Choices::is_pick, crate::proofs::Trying::nothing_yet))]
fn try_pick<C: Tries>(
    alloc: Global,
    runtime: &mut C,
    lane: u32,
    servants: &mut Vec<Box<dyn Servant + Send>>,
) -> Result<bool, Memory>
    requires reached { Reached (C.scenario runtime.old) (C.state runtime.old) }
    requires room { (C.state runtime.old).entries < limit (C.scenario runtime.old) }
    requires row { map kind_of servants.old.items ≡ row }
    ensures scenario { C.scenario runtime.new ≡ C.scenario runtime.old }
    ensures can { IfOk result (λ made. made ≡ can_pick_in (C.scenario runtime.old) (C.state runtime.old)
        lane) }
    ensures tried { IfOk result (λ can. Tried (C.scenario runtime.old) (C.state runtime.old) lane can
        (C.made runtime.new) (C.state runtime.new) (map stepped servants.old.items)
        (map stepped servants.new.items)) }
    ensures row { map kind_of servants.new.items ≡ row }
{
    if lane < 1 {
        return Ok(false);
    }
    if runtime.lanes() < lane {
        return Ok(false);
    }
    step_if_ready(alloc, runtime, lane, servants)
}

// Tries the picks from the one at `from` on, each once, until one makes its entry.
#[inline(always)]
fn pick<C: Tries>(
    alloc: Global,
    runtime: &mut C,
    picks: &[u32],
    from: usize,
    servants: &mut Vec<Box<dyn Servant + Send>>,
) -> Result<Option<Chosen>, Memory>
    requires reached { Reached (C.scenario runtime.old) (C.state runtime.old) }
    requires room { (C.state runtime.old).entries < limit (C.scenario runtime.old) }
    requires row { map kind_of servants.old.items ≡ row }
    ensures scenario { C.scenario runtime.new ≡ C.scenario runtime.old }
    ensures tried { IfOk result (λ chosen. PickTried (C.scenario runtime.old) (C.state runtime.old)
        picks.now from chosen (C.made runtime.new) (C.state runtime.new) (map stepped servants.old.items)
        (map stepped servants.new.items)) }
    ensures row { map kind_of servants.new.items ≡ row }
{
    let mut next = from;
    'picks: while next < picks.len() {
        let lane = picks[next];
        let made = try_pick(alloc, runtime, lane, servants)?;
        if made {
            return Ok(Some(Chosen {
                lane,
                tried: next + 1,
            }));
        }
        next += 1;
    }
    Ok(None)
}

// Tries as many lanes as `count` behind the lane `last`, until one makes its entry. There are `most` lanes.
#[inline(always)]
fn scan<C: Tries>(
    alloc: Global,
    runtime: &mut C,
    last: u32,
    count: u32,
    most: u32,
    servants: &mut Vec<Box<dyn Servant + Send>>,
) -> Result<Option<u32>, Memory>
    requires most { most ≡ lanes (C.scenario runtime.old) }
    requires within { last + count ≤ most }
    requires reached { Reached (C.scenario runtime.old) (C.state runtime.old) }
    requires room { (C.state runtime.old).entries < limit (C.scenario runtime.old) }
    requires row { map kind_of servants.old.items ≡ row }
    ensures scenario { C.scenario runtime.new ≡ C.scenario runtime.old }
    ensures tried { IfOk result (λ lane. LaneTried (C.scenario runtime.old) (C.state runtime.old)
        (numbers_from (last + 1) count) lane (C.made runtime.new) (C.state runtime.new)
        (map stepped servants.old.items) (map stepped servants.new.items)) }
    ensures row { map kind_of servants.new.items ≡ row }
{
    let mut step = 0;
    'lanes: while step < count {
        let lane = last + 1 + step;
        let made = step_if_ready(alloc, runtime, lane, servants)?;
        if made {
            return Ok(Some(lane));
        }
        step += 1;
    }
    Ok(None)
}

// Tries the lanes from the one behind the lane `last` on, and then from 1 on, until one makes its entry.
#[inline(always)]
fn in_round<C: Tries>(
    alloc: Global,
    runtime: &mut C,
    last: u32,
    servants: &mut Vec<Box<dyn Servant + Send>>,
) -> Result<Option<u32>, Memory>
    requires last { last ≤ lanes (C.scenario runtime.old) }
    requires reached { Reached (C.scenario runtime.old) (C.state runtime.old) }
    requires room { (C.state runtime.old).entries < limit (C.scenario runtime.old) }
    requires row { map kind_of servants.old.items ≡ row }
    ensures scenario { C.scenario runtime.new ≡ C.scenario runtime.old }
    ensures tried { IfOk result (λ lane. LaneTried (C.scenario runtime.old) (C.state runtime.old)
        (lanes_after (C.scenario runtime.old) last) lane (C.made runtime.new) (C.state runtime.new)
        (map stepped servants.old.items) (map stepped servants.new.items)) }
    ensures row { map kind_of servants.new.items ≡ row }
{
    let most = runtime.lanes();
    if let Some(lane) = scan(alloc, runtime, last, most - last, most, servants)? {
        return Ok(Some(lane));
    }
    let lane = scan(alloc, runtime, 0, last, most, servants)?;
    Ok(lane)
}

/// Takes the turn of the schedule, where a lane can step: the lane whose turn it is makes its entry, which the
/// runtime lends then. `tried` of the picks were tried before, and `last` is the last lane; the answer is the
/// lane, and how many of the picks were tried. None is for where no lane can step, and then nothing has
/// changed.
///
/// The history is shorter than it may be. The row has one servant of each kind, in the
/// order of the kinds. The only error is want of memory.
#[inline(always)]
pub fn take_turn<C: Tries>(
    alloc: Global,
    runtime: &mut C,
    picks: &[u32],
    tried: usize,
    last: u32,
    servants: &mut Vec<Box<dyn Servant + Send>>,
) -> Result<Option<Chosen>, Memory>
    requires last { last ≤ lanes (C.scenario runtime.old) }
    requires reached { Reached (C.scenario runtime.old) (C.state runtime.old) }
    requires room { (C.state runtime.old).entries < limit (C.scenario runtime.old) }
    requires row { map kind_of servants.old.items ≡ row }
    ensures scenario { C.scenario runtime.new ≡ C.scenario runtime.old }
    ensures turn { IfOk result (λ chosen. TurnTried (C.scenario runtime.old) (C.state runtime.old)
        picks.now tried last chosen (C.made runtime.new) (C.state runtime.new)
        (map stepped servants.old.items) (map stepped servants.new.items)) }
    ensures row { map kind_of servants.new.items ≡ row }
{
    if let Some(chosen) = pick(alloc, runtime, picks, tried, servants)? {
        return Ok(Some(chosen));
    }
    let Some(lane) = in_round(alloc, runtime, last, servants)? else {
        return Ok(None);
    };
    Ok(Some(Chosen {
        lane,
        tried: picks.len(),
    }))
}
