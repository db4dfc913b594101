//! The fronts and the ends of sections.
ghost use Rattle.std.specs.Prelude.{◌≡◌, ◌<◌, ◌≤◌, ◌^◌, ◌++◌, [], OnOk, length};
ghost use Rattle.com_model.specs.Lists.{is_member};
ghost use Rattle.com_draw_state.specs.declared.board.TheConstants.{MOST_LANES};
ghost use Rattle.com_draw_words.specs.declared.limits.TheConstants.{ROWS};
ghost use Rattle.com_draw_shapes.specs.Sections.{back_of_section, boxes_below, columns, foot_in};
ghost use Rattle.com_draw_shapes.specs.Sections.{front_of_section, lane_boxes, lanes_boxes, row_begins};
ghost use Rattle.com_draw_shapes.specs.Sections.{row_before};

use crate::boxes::{Chosen, objects_lane, push_home, push_openings, push_tracks};
use crate::places::{opens_section, row_at};
use com_base::{ByteList, Memory};
use com_draw_state::{Board, Lane, Start};
use com_draw_words::{
    Foot, push_column, push_columns_end, push_section_back, push_section_end, push_section_front,
};

// Appends the columns of lanes.
#[tactic(auto, using(crate::proofs::Joined::next_column, crate::proofs::Joined::no_column))]
fn push_columns(out: &mut ByteList, count: u32) -> Result<(), Memory>
    requires { count < 2 ^ 31 }
    ensures { OnOk result (out.new ≡ out.old ++ columns 1 count) }
{
    let mut left = count;
    let mut lane = 1u32;
    'columns: while left > 0 {
        push_column(out, lane)?;
        lane += 1;
        left -= 1;
    }
    Ok(())
}

/// Appends the front of a section: a column for each lane and for the objects. The only error is want of
/// memory.
#[tactic(auto, unfolding(crate::specs::Sections::front_of_section))]
pub fn open_section(out: &mut ByteList, board: &Board) -> Result<(), Memory>
    ensures { OnOk result (out.new ≡ out.old ++ front_of_section board.now) }
{
    push_section_front(out)?;
    push_columns(out, objects_lane(board))?;
    push_columns_end(out)
}

/// Whether a lane is in the cycle.
pub fn is_in_cycle(cycle: &[u32], lane: u32) -> bool
    ensures { result ≡ is_member lane cycle.now }
{
    let mut rest = cycle;
    'lanes: while let Some((other, others)) = rest.split_first() {
        if lane == *other {
            return true;
        }
        rest = others;
    }
    false
}

// How the boxes of a lane end with the section.
fn foot_in(cycle: &[u32], lane: u32) -> Foot
    ensures { result ≡ foot_in cycle.now lane }
{
    if is_in_cycle(cycle, lane) {
        Foot::Ring
    } else {
        Foot::Down
    }
}

// Appends the boxes of a lane that go on below the section.
#[tactic(auto, unfolding(crate::specs::Sections::lane_boxes))]
fn push_lane(
    out: &mut ByteList,
    here: Start,
    cycle: &[u32],
    number: u32,
    lane: &Lane,
) -> Result<(), Memory>
    requires { here.row < ROWS }
    ensures { OnOk result (out.new ≡ out.old ++ lane_boxes here cycle.now number lane.now) }
{
    push_home(out, here, number, Foot::Down, lane.home)?;
    push_openings(
        out,
        here,
        number,
        foot_in(cycle, number),
        lane.openings.as_slice(),
    )
}

// Appends the boxes of all lanes.
fn push_lanes(out: &mut ByteList, here: Start, cycle: &[u32], lanes: &[Lane]) -> Result<(), Memory>
    requires here { here.row < ROWS }
    requires few { length lanes.now ≤ MOST_LANES }
    ensures { OnOk result (out.new ≡ out.old ++ lanes_boxes here cycle.now 1 lanes.now) }
{
    let mut rest = lanes;
    let mut number = 1u32;
    'lanes: while let Some((lane, others)) = rest.split_first() {
        push_lane(out, here, cycle, number, lane)?;
        number += 1;
        rest = others;
    }
    Ok(())
}

/// Appends the end of a section, whose last row is here. Where it is the last section, the boxes of the lanes
/// of the cycle are marked. The only error is want of memory.
#[tactic(auto, unfolding(crate::specs::Sections::back_of_section))]
pub fn close_section(
    out: &mut ByteList,
    here: Start,
    cycle: &[u32],
    board: &Board,
) -> Result<(), Memory>
    requires { here.row < ROWS }
    ensures { OnOk result (out.new ≡ out.old ++ back_of_section here cycle.now board.now) }
{
    push_section_back(out)?;
    push_below(out, here, cycle, board)?;
    push_section_end(out)
}

// Appends the boxes of all that goes on below the section: those of lanes, and those of objects.
#[tactic(auto, unfolding(crate::specs::Sections::boxes_below))]
fn push_below(out: &mut ByteList, here: Start, cycle: &[u32], board: &Board) -> Result<(), Memory>
    requires { here.row < ROWS }
    ensures { OnOk result (out.new ≡ out.old ++ boxes_below here cycle.now board.now) }
{
    push_lanes(out, here, cycle, board.lanes())?;
    let lane = objects_lane(board);
    push_tracks(
        out,
        here,
        lane,
        Foot::Down,
        Chosen::All,
        board.tracks().as_slice(),
    )
}

// Appends the end of the section above a row of the page that begins a section; nothing above the first.
fn close_before(out: &mut ByteList, row: u64, board: &Board) -> Result<(), Memory>
    requires { 1 ≤ row }
    ensures { OnOk result (out.new ≡ out.old ++ row_before row board.now) }
{
    if row == 1 {
        return Ok(());
    }
    close_section(out, row_at(row - 1), &[], board)
}

/// Appends what stands before a row of the page, by its number from 1: where a section begins with it, the
/// end of the section above, and the front of this one. The only error is want of memory.
#[tactic(auto, unfolding(crate::specs::Sections::row_begins))]
pub fn begin_row(out: &mut ByteList, row: u64, board: &Board) -> Result<(), Memory>
    requires { 1 ≤ row }
    ensures { OnOk result (out.new ≡ out.old ++ row_begins row board.now) }
{
    if !opens_section(row) {
        return Ok(());
    }
    close_before(out, row, board)?;
    open_section(out, board)
}
