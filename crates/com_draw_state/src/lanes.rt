//! The lanes of a picture: the home of each, what stands open in it, and how wide it has to be.
ghost use Rattle.std.specs.Prelude.{◌≡◌, ◌+◌, ◌<◌, ◌≤◌, ◌^◌, MatchOption, OnOk, length};
ghost use Rattle.com_draw_state.specs.declared.board.TheConstants.{MOST_LANES};
ghost use Rattle.com_draw_state.specs.Lanes.{acted, depth_of, homed, lane_at, new_lane, waiter_at};
ghost use Rattle.com_draw_state.specs.Lanes.{waiter_by, waiter_in, widened, with_lane, with_opening};
ghost use Rattle.com_draw_state.specs.Lanes.{without_innermost};

use crate::stacks::{Opened, Opening, Openings, Start};
use com_base::Memory;
use std::alloc::Global;

/// A lane's home, and where it was entered.
#[derive(Debug, Clone, Copy, PartialEq, Eq)]
pub struct Home {
    /// The apartment.
    pub apartment: u32,
    /// Where it was entered.
    pub start: Start,
}

/// A lane of the picture.
#[derive(Debug, Drop)]
pub struct Lane {
    /// Its home, where it has one.
    pub home: Option<Home>,
    /// What stands open in it, the outermost first.
    pub openings: Openings,
    /// Whether it made an entry.
    pub has_acted: bool,
    /// How wide its labels are, with what stands before them.
    pub width: u16,
}

/// Who waits for a call: the lane, the depth at which the call stands open in it, and the method that it
/// names.
#[derive(Debug, Clone, Copy, PartialEq, Eq)]
pub struct Waiter {
    /// The lane, from 1.
    pub lane: u32,
    /// Which of the lane's openings the call is, from 1.
    pub depth: u32,
    /// The interface that the call names.
    pub iface: u16,
    /// The method of the interface.
    pub method: u16,
}

impl Lane {
    /// A lane with this home that made no entry. It takes no memory.
    pub fn new(alloc: Global, home: Option<Home>) -> Lane
        ensures { result ≡ new_lane home }
    {
        Lane {
            home,
            openings: Openings::new(alloc),
            has_acted: false,
            width: 0,
        }
    }
}

// The lane with this number, from 1. `None` where there is none.
pub(crate) fn lane_at(lanes: &[Lane], lane: u32) -> Option<&Lane>
    ensures { MatchOption result (lane_at lanes.now lane ≡ None)
        (λ row. lane_at lanes.now lane ≡ Some row.now) }
{
    if lane == 0 {
        return None;
    }
    lanes.get(lane as usize - 1)
}

// How much stands open in a lane.
pub(crate) fn depth(lanes: &[Lane], lane: u32) -> u32
    ensures value { result ≡ depth_of (lane_at lanes.now lane) }
    ensures few { result < 2 ^ 31 }
{
    match lane_at(lanes, lane) {
        None => 0,
        Some(row) => row.openings.depth(),
    }
}

// The lane made an entry.
pub(crate) fn act(lanes: &mut [Lane], lane: u32)
    ensures { lanes.new ≡ with_lane acted lane lanes.old }
{
    if lane == 0 || lane as usize > lanes.len() {
        return;
    }
    lanes[lane as usize - 1].has_acted = true;
}

// The lane has to be so wide.
pub(crate) fn widen(lanes: &mut [Lane], lane: u32, width: u16)
    ensures { lanes.new ≡ with_lane (widened width) lane lanes.old }
{
    if lane == 0 || lane as usize > lanes.len() {
        return;
    }
    let row = &mut lanes[lane as usize - 1];
    row.width = row.width.max(width);
}

// The lane has this home from now on, or none.
pub(crate) fn settle(lanes: &mut [Lane], lane: u32, home: Option<Home>)
    ensures { lanes.new ≡ with_lane (homed home) lane lanes.old }
{
    if lane == 0 || lane as usize > lanes.len() {
        return;
    }
    lanes[lane as usize - 1].home = home;
}

// Something more stands open in the lane, which makes less than 2^31 there.
pub(crate) fn open(lanes: &mut [Lane], lane: u32, opening: Opening) -> Result<(), Memory>
    requires { depth_of (lane_at lanes.old lane) + 1 < 2 ^ 31 }
    ensures { OnOk result (lanes.new ≡ with_lane (with_opening opening) lane lanes.old) }
{
    if lane == 0 || lane as usize > lanes.len() {
        return Ok(());
    }
    lanes[lane as usize - 1].openings.push(opening)
}

// What is innermost in the lane is closed.
pub(crate) fn close(lanes: &mut [Lane], lane: u32)
    ensures { lanes.new ≡ with_lane without_innermost lane lanes.old }
{
    if lane == 0 || lane as usize > lanes.len() {
        return;
    }
    lanes[lane as usize - 1].openings.pop();
}

// Who waits for a call, where that is what stands open at a depth of a lane.
fn waiter_by(what: &Opened, lane: u32, depth: u32, call: u32) -> Option<Waiter>
    ensures { result ≡ waiter_by lane depth what.now call }
{
    match what {
        Opened::Waits {
            call: own,
            iface,
            method,
            ..
        } => {
            if *own != call {
                return None;
            }
            Some(Waiter {
                lane,
                depth,
                iface: *iface,
                method: *method,
            })
        }
        _ => None,
    }
}

// Who waits for a call among what stands open in a lane.
fn waiter_at(openings: &[Opening], lane: u32, call: u32) -> Option<Waiter>
    requires { length openings.now < 2 ^ 31 }
    ensures { result ≡ waiter_at lane 1 openings.now call }
{
    let mut rest = openings;
    let mut depth = 1u32;
    'openings: while let Some((opening, others)) = rest.split_first() {
        let found = waiter_by(&opening.what, lane, depth, call);
        if found.is_some() {
            return found;
        }
        depth += 1;
        rest = others;
    }
    None
}

// Who waits for a call, where somebody does.
pub(crate) fn waiter_among(lanes: &[Lane], call: u32) -> Option<Waiter>
    requires { length lanes.now ≤ MOST_LANES }
    ensures { result ≡ waiter_in 1 lanes.now call }
{
    let mut rest = lanes;
    let mut lane = 1u32;
    'lanes: while let Some((row, others)) = rest.split_first() {
        let found = waiter_at(row.openings.as_slice(), lane, call);
        if found.is_some() {
            return found;
        }
        lane += 1;
        rest = others;
    }
    None
}
