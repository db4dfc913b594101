//! The arrow of an entry, and the mark of the object that it touches.
ghost use Rattle.std.specs.Prelude.{◌≡◌, ◌<◌, ◌^◌, ◌++◌, IfSome, OnOk};
ghost use Rattle.com_draw_state.specs.declared.tracks.TheConstants.{TRACKS};
ghost use Rattle.com_draw_shapes.specs.Arrows.{called_arrow, pointing_text, touched_text, touch_on};

use crate::boxes::objects_lane;
use crate::effects::Points;
use com_base::{ByteList, Memory};
use com_draw_state::{Board, Waiter};
use com_draw_words::{Arrow, ArrowKind, push_arrow, push_touch};

// Appends the arrow between a lane, at this level, and who waits for its call, where somebody does.
fn push_called(
    out: &mut ByteList,
    kind: ArrowKind,
    lane: u32,
    level: u32,
    waiter: Option<Waiter>,
) -> Result<(), Memory>
    ensures { OnOk result (out.new ≡ out.old ++ called_arrow kind lane level waiter) }
{
    match waiter {
        None => Ok(()),
        Some(waiter) => push_arrow(
            out,
            Arrow {
                kind,
                other: waiter.lane,
                other_level: waiter.depth,
                lane,
                level,
            },
        ),
    }
}

/// Appends the arrow of an entry in a lane of this depth, as the board was before. `waiter` is who waits for
/// the entry's call. The only error is want of memory.
#[tactic(auto, unfolding(crate::specs::Arrows::pointing_text))]
pub fn push_pointing(
    out: &mut ByteList,
    points: Points,
    lane: u32,
    depth: u32,
    waiter: Option<Waiter>,
    board: &Board,
) -> Result<(), Memory>
    requires { depth < 2 ^ 31 }
    ensures { OnOk result (out.new ≡ out.old ++ pointing_text points lane depth waiter board.now) }
{
    match points {
        Points::Nowhere => Ok(()),
        Points::Word { lane: other } => push_arrow(
            out,
            Arrow {
                kind: ArrowKind::Word,
                other,
                other_level: board.depth(other),
                lane,
                level: depth,
            },
        ),
        Points::Refusal => push_called(out, ArrowKind::Refusal, lane, depth, waiter),
        Points::Go => push_called(out, ArrowKind::Go, lane, depth + 1, waiter),
        Points::Answer => push_called(out, ArrowKind::Answer, lane, depth, waiter),
    }
}

// Appends the mark on the track of this number, in the lane of the objects, where there is one.
fn push_touch_on(out: &mut ByteList, lane: u32, number: Option<u32>) -> Result<(), Memory>
    requires { IfSome number (λ k. k < TRACKS) }
    ensures { OnOk result (out.new ≡ out.old ++ touch_on lane number) }
{
    match number {
        None => Ok(()),
        Some(number) => push_touch(out, lane, 2 * number),
    }
}

/// Appends the mark of the object that an entry touches, where it has a track. The only error is want of
/// memory.
#[tactic(auto, unfolding(crate::specs::Arrows::touched_text))]
pub fn push_touched(out: &mut ByteList, touched: Option<u32>, board: &Board) -> Result<(), Memory>
    ensures { OnOk result (out.new ≡ out.old ++ touched_text touched board.now) }
{
    match touched {
        None => Ok(()),
        Some(object) => push_touch_on(out, objects_lane(board), board.tracks().track_of(object)),
    }
}
