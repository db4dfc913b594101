//! The cycle in which lanes wait for each other.
ghost use Rattle.std.specs.Prelude.{◌≡◌, ◌++◌, ◌+◌, [], IfOk, OnOk, length};
ghost use Rattle.com_model.specs.Lists.{is_member, least, lesser};
ghost use Rattle.com_waits.specs.Chains.{before_lane, cycle_of, entered, explained, first_in};
ghost use Rattle.com_waits.specs.Chains.{from_lane, from_least, lane_named, is_message, next_in};

use crate::reasons::{Wait, Waits, Why};
use com_base::{Memory, Rows};
use std::alloc::Global;

// The lane that a reason names.
fn lane_named(why: Why) -> Option<u32>
    ensures { result ≡ lane_named why }
{
    match why {
        Why::Message => None,
        Why::Body { lane, .. } => Some(lane),
        Why::Pool { lane, .. } => Some(lane),
    }
}

// Whether a lane that waits so waits for a message, and for no other lane.
fn is_message(why: Why) -> bool
    ensures { result ≡ is_message why }
{
    match why {
        Why::Message => true,
        Why::Body { .. } => false,
        Why::Pool { .. } => false,
    }
}

// The lane for which a lane waits.
fn next_in(waits: &[Wait], lane: u32) -> Option<u32>
    ensures { result ≡ next_in waits.now lane }
{
    let mut rest = waits;
    'rows: while let Some((wait, others)) = rest.split_first() {
        if wait.lane == lane {
            return lane_named(wait.why);
        }
        rest = others;
    }
    None
}

// The least lane that does not wait for a message.
fn first_in(waits: &[Wait]) -> Option<u32>
    ensures { result ≡ first_in waits.now }
{
    let mut rest = waits;
    'rows: while let Some((wait, others)) = rest.split_first() {
        if !is_message(wait.why) {
            return Some(wait.lane);
        }
        rest = others;
    }
    None
}

// Whether a lane stands in a list.
fn has(lanes: &[u32], lane: u32) -> bool
    ensures { result ≡ is_member lane lanes.now }
{
    let mut rest = lanes;
    'lanes: while let Some((first, others)) = rest.split_first() {
        if lane == *first {
            return true;
        }
        rest = others;
    }
    false
}

// What a list has from a lane on. The only error is want of memory.
fn from_lane(alloc: Global, lanes: &[u32], lane: u32) -> Result<Vec<u32>, Memory>
    ensures { IfOk result (λ rest. rest.items ≡ from_lane lane lanes.now) }
{
    let mut rest = lanes;
    'lanes: while let Some((first, others)) = rest.split_first() {
        if *first == lane {
            return copy_of(alloc, rest);
        }
        rest = others;
    }
    Ok(Vec::new(alloc))
}

// A copy of the lanes. The only error is want of memory.
fn copy_of(alloc: Global, lanes: &[u32]) -> Result<Vec<u32>, Memory>
    ensures { IfOk result (λ copy. copy.items ≡ lanes.now) }
{
    let mut copy = Vec::new(alloc);
    copy.extend_from_slice(lanes)?;
    Ok(copy)
}

// Puts what a list has before a lane behind another list. The only error is want of memory.
fn push_before(out: &mut Vec<u32>, lanes: &[u32], lane: u32) -> Result<(), Memory>
    ensures { OnOk result (out.new.items ≡ out.old.items ++ before_lane lane lanes.now) }
{
    let mut rest = lanes;
    'lanes: while let Some((first, others)) = rest.split_first() {
        if *first == lane {
            return Ok(());
        }
        out.push(*first)?;
        rest = others;
    }
    Ok(())
}

// The cycle that the chain of a lane enters. The only error is want of memory.
#[tactic(auto, using(crate::proofs::Chained::goes_in, crate::proofs::Chained::goes_nowhere, crate::proofs::Chained::goes_on, crate::proofs::Chained::goes_out))]
fn cycle_from(alloc: Global, waits: &[Wait], lane: u32) -> Result<Vec<u32>, Memory>
    ensures { IfOk result (λ cycle. cycle.items
        ≡ entered (next_in waits.now) (length waits.now + 1) [] lane) }
{
    let mut chain = Vec::new(alloc);
    let mut lane = lane;
    'steps: while chain.len() <= waits.len() {
        if has(chain.as_slice(), lane) {
            return from_lane(alloc, chain.as_slice(), lane);
        }
        let Some(next) = next_in(waits, lane) else {
            return Ok(Vec::new(alloc));
        };
        chain.push(lane)?;
        lane = next;
    }
    Ok(Vec::new(alloc))
}

// The lesser of a lane and another, if there is another.
fn lesser(lane: u32, least: Option<u32>) -> Option<u32>
    ensures { result ≡ lesser lane least }
{
    match least {
        None => Some(lane),
        Some(other) => Some(lane.min(other)),
    }
}

// The least lane of a list.
#[tactic(auto, using(crate::proofs::Chained::onto_last, crate::proofs::Chained::onto_none))]
fn least_of(lanes: &[u32]) -> Option<u32>
    ensures { result ≡ least lanes.now }
{
    let mut least = None;
    let mut rest = lanes;
    'lanes: while let Some((lane, others)) = rest.split_last() {
        least = lesser(*lane, least);
        rest = others;
    }
    least
}

// The cycle turned so that it begins at its least lane. The only error is want of memory.
fn from_least(alloc: Global, cycle: &[u32]) -> Result<Vec<u32>, Memory>
    ensures { IfOk result (λ turned. turned.items ≡ from_least cycle.now) }
{
    let Some(least) = least_of(cycle) else {
        return Ok(Vec::new(alloc));
    };
    let mut turned = from_lane(alloc, cycle, least)?;
    push_before(&mut turned, cycle, least)?;
    Ok(turned)
}

// The cycle of lanes that wait so. The only error is want of memory.
fn cycle_of(alloc: Global, waits: &[Wait]) -> Result<Vec<u32>, Memory>
    ensures { IfOk result (λ cycle. cycle.items ≡ cycle_of waits.now) }
{
    let Some(lane) = first_in(waits) else {
        return Ok(Vec::new(alloc));
    };
    let cycle = cycle_from(alloc, waits, lane)?;
    from_least(alloc, cycle.as_slice())
}

/// The explanation whose lanes wait so: with the cycle that they make. The only error is want of memory.
pub fn explain(alloc: Global, waits: Vec<Wait>) -> Result<Waits, Memory>
    ensures { IfOk result (λ whole. whole ≡ explained waits.items) }
{
    let cycle = cycle_of(alloc, waits.as_slice())?;
    Ok(Waits {
        waits: Rows::from_vec(waits),
        cycle: Rows::from_vec(cycle),
    })
}
