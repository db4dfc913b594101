//! The widths of lanes, which are known at the end.
ghost use Rattle.std.specs.Prelude.{◌≡◌, ◌+◌, ◌<◌, ◌≤◌, ◌*◌, ◌^◌, ◌++◌, IfOk, OnOk, length};
ghost use Rattle.com_draw_state.specs.declared.board.TheConstants.{MOST_LANES};
ghost use Rattle.com_draw_state.specs.declared.tracks.TheConstants.{TRACKS};
ghost use Rattle.com_draw_words.specs.declared.limits.TheConstants.{BESIDE, TRACK_WIDTH};
ghost use Rattle.com_draw.specs.Widths.{lane_rule, lane_rules, objects_rules, objects_width, total_width, width_of};
ghost use Rattle.com_draw.specs.Widths.{widths_text};

use com_base::{ByteList, Memory};
use com_draw_shapes::objects_lane;
use com_draw_state::{Board, Lane};
use com_draw_words::{
    BESIDE, IDLE, LEAST, STORY_WIDTH, TRACK_WIDTH, push_lane_widths, push_main_width,
    push_page_size,
};

// How wide a lane is: one that made an entry as its labels ask for.
fn width_of(lane: &Lane) -> u32
    ensures value { result ≡ width_of lane.now }
    ensures few { result < 2 ^ 16 }
{
    if !lane.has_acted {
        return IDLE;
    }
    (lane.width as u32).max(LEAST)
}

// Appends the width of a lane, which has this number and begins at this pixel.
#[tactic(auto, unfolding(crate::specs::Widths::lane_rule))]
fn push_rule(out: &mut ByteList, number: u32, from: u32, lane: &Lane) -> Result<(), Memory>
    ensures { OnOk result (out.new ≡ out.old ++ lane_rule number from lane.now) }
{
    push_lane_widths(out, number, from, width_of(lane))
}

// Appends the widths of lanes, and says how wide they are together.
fn push_rules(out: &mut ByteList, lanes: &[Lane]) -> Result<u32, Memory>
    requires { length lanes.now ≤ MOST_LANES }
    ensures text { OnOk result (out.new ≡ out.old ++ lane_rules 1 0 lanes.now) }
    ensures total { IfOk result (λ total. total ≡ total_width lanes.now) }
    ensures few { IfOk result (λ total. total < MOST_LANES * 2 ^ 16) }
{
    let mut rest = lanes;
    let mut number = 1u32;
    let mut from = 0u32;
    'lanes: while let Some((lane, others)) = rest.split_first() {
        push_rule(out, number, from, lane)?;
        from += width_of(lane);
        number += 1;
        rest = others;
    }
    Ok(from)
}

// Appends the width of the objects' lane, which begins at this pixel, and the widths of the whole
// drawing and of the printed page.
#[tactic(auto, unfolding(crate::specs::Widths::objects_rules))]
fn push_objects_rules(out: &mut ByteList, lane: u32, from: u32, width: u32) -> Result<(), Memory>
    requires from { from < MOST_LANES * 2 ^ 16 }
    requires width { width ≤ TRACKS * TRACK_WIDTH + BESIDE }
    ensures { OnOk result (out.new ≡ out.old ++ objects_rules lane from width) }
{
    push_lane_widths(out, lane, from, width)?;
    push_main_width(out, from + width)?;
    push_page_size(out, from + width + STORY_WIDTH)
}

// How wide the objects' lane is.
fn objects_width(board: &Board) -> u32
    ensures value { result ≡ objects_width board.now }
    ensures few { result ≤ TRACKS * TRACK_WIDTH + BESIDE }
{
    board.tracks().as_slice().len() as u32 * TRACK_WIDTH + BESIDE
}

// Appends the second widths, the width of the whole, and that of the printed page.
#[tactic(auto, unfolding(crate::specs::Widths::widths_text))]
pub(crate) fn push_widths(out: &mut ByteList, board: &Board) -> Result<(), Memory>
    ensures { OnOk result (out.new ≡ out.old ++ widths_text board.now) }
{
    let total = push_rules(out, board.lanes())?;
    push_objects_rules(out, objects_lane(board), total, objects_width(board))
}
