//! What stands before the first row of a page.
ghost use Rattle.std.specs.Prelude.{◌≡◌, ◌+◌, ◌<◌, ◌≤◌, ◌++◌, OnOk};
ghost use Rattle.com_draw_state.specs.declared.board.TheConstants.{MOST_LANES};
ghost use Rattle.com_draw.specs.Fronts.{first_widths, front_names, front_styles, front_widths, lane_names, names_of};

use com_base::{ByteList, Memory};
use com_draw_words::{
    FULL, LaneKind, push_body, push_head, push_lane_name, push_lane_widths, push_main_width,
    push_objects_name,
};

// Appends the first widths of so many lanes.
#[tactic(auto, using(crate::proofs::Counted::next_width, crate::proofs::Counted::no_width))]
fn push_first_widths(out: &mut ByteList, count: u32) -> Result<(), Memory>
    requires { count ≤ MOST_LANES + 2 }
    ensures { OnOk result (out.new ≡ out.old ++ first_widths 1 count) }
{
    let mut left = count;
    let mut lane = 1u32;
    'widths: while left > 0 {
        push_lane_widths(out, lane, (lane - 1) * FULL, FULL)?;
        lane += 1;
        left -= 1;
    }
    Ok(())
}

// Appends the names of so many lanes of a kind, of which the first has this number.
#[tactic(auto, using(crate::proofs::Counted::next_name, crate::proofs::Counted::no_name))]
fn push_names(out: &mut ByteList, kind: LaneKind, first: u32, count: u32) -> Result<(), Memory>
    requires first { first ≤ MOST_LANES + 2 }
    requires count { count ≤ MOST_LANES + 2 }
    ensures { OnOk result (out.new ≡ out.old ++ names_of kind first count) }
{
    let mut left = count;
    let mut lane = first;
    'names: while left > 0 {
        push_lane_name(out, lane, kind)?;
        lane += 1;
        left -= 1;
    }
    Ok(())
}

// Appends the first widths of so many columns, and the width of all of them.
#[tactic(auto, unfolding(crate::specs::Fronts::front_widths))]
fn push_front_widths(out: &mut ByteList, count: u32) -> Result<(), Memory>
    requires { count ≤ MOST_LANES + 2 }
    ensures { OnOk result (out.new ≡ out.old ++ front_widths count) }
{
    push_first_widths(out, count)?;
    push_main_width(out, count * FULL)
}

// Appends the styles of a page with the first widths of so many lanes, up to the names of these.
#[tactic(auto, unfolding(crate::specs::Fronts::front_styles))]
pub(crate) fn push_front_styles(out: &mut ByteList, count: u32) -> Result<(), Memory>
    requires { count ≤ MOST_LANES + 2 }
    ensures { OnOk result (out.new ≡ out.old ++ front_styles count) }
{
    push_head(out)?;
    push_front_widths(out, count)?;
    push_body(out)
}

// Appends the names of the threads' lanes, of the host's, and of the pool's.
#[tactic(auto, unfolding(crate::specs::Fronts::lane_names))]
fn push_lane_names(out: &mut ByteList, threads: u32, pool: u32) -> Result<(), Memory>
    requires { threads + pool < MOST_LANES }
    ensures { OnOk result (out.new ≡ out.old ++ lane_names threads pool) }
{
    push_names(out, LaneKind::Thread, 1, threads)?;
    push_lane_name(out, threads + 1, LaneKind::Host)?;
    push_names(out, LaneKind::Pool, threads + 2, pool)
}

// Appends the names of the lanes of so many threads, of the host's, of the pool's, and of the objects.
#[tactic(auto, unfolding(crate::specs::Fronts::front_names))]
pub(crate) fn push_front_names(out: &mut ByteList, threads: u32, pool: u32) -> Result<(), Memory>
    requires { threads + pool < MOST_LANES }
    ensures { OnOk result (out.new ≡ out.old ++ front_names threads pool) }
{
    push_lane_names(out, threads, pool)?;
    push_objects_name(out, threads + 1 + pool + 1)
}
