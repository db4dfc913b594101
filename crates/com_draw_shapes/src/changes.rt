//! What an entry changes of a picture's board.
ghost use Rattle.std.specs.Prelude.{◌≡◌, ◌+◌, ◌<◌, ◌^◌, OnOk};
ghost use Rattle.com_draw_words.specs.declared.limits.TheConstants.{ROWS};
ghost use Rattle.com_draw_shapes.specs.Changes.{changed, closed_on, cut_on, left_on, opened_on, own_home};
ghost use Rattle.com_draw_state.specs.Lanes.{depth_of, lane_at};

use crate::effects::{Closing, Opens, closed_by, opened_by};
use crate::places::below;
use com_base::{FIRST_STA, Memory};
use com_draw_state::{Board, Home, Start, Track};
use com_model::Entry;

// What opens in a lane, which makes less than 2^31 there.
fn open(board: &mut Board, here: Start, lane: u32, opens: Opens) -> Result<(), Memory>
    requires { depth_of (lane_at board.old.lanes lane) + 1 < 2 ^ 31 }
    ensures { OnOk result (board.new ≡ opened_on here lane opens board.old) }
{
    match opens {
        Opens::Nothing => Ok(()),
        Opens::Home { apartment } => {
            board.settle(
                lane,
                Some(Home {
                    apartment,
                    start: here,
                }),
            );
            Ok(())
        }
        Opens::Life { object, apartment } => board.take(Track {
            object,
            apartment,
            is_live: true,
            start: here,
        }),
        Opens::Level(what) => board.open(lane, what, here),
    }
}

// A lane leaves its home, and with an STA that a thread made the objects of that are cut off.
fn leave(board: &mut Board, here: Start, lane: u32, apartment: u32)
    requires { here.row < ROWS }
    ensures { board.new ≡ left_on here lane apartment board.old }
{
    board.settle(lane, None);
    if apartment < FIRST_STA {
        return;
    }
    board.cut_apartment(apartment, below(here));
}

// An object is cut off.
fn cut(board: &mut Board, here: Start, object: u32)
    requires { here.row < ROWS }
    ensures { board.new ≡ cut_on here object board.old }
{
    board.cut_object(object, below(here));
}

// What closes in a lane.
fn close(board: &mut Board, here: Start, lane: u32, closing: Closing)
    requires { here.row < ROWS }
    ensures { board.new ≡ closed_on here lane closing board.old }
{
    match closing {
        Closing::Nothing => {}
        Closing::Home { apartment } => leave(board, here, lane, apartment),
        Closing::Innermost => board.close(lane),
        Closing::Cut { object } => cut(board, here, object),
        Closing::Life { object } => board.free(object),
    }
}

/// Whether a lane has a home.
pub fn has_home(board: &Board, lane: u32) -> bool
    ensures { result ≡ own_home (lane_at board.now.lanes lane) }
{
    match board.lane(lane) {
        None => false,
        Some(row) => row.home.is_some(),
    }
}

/// What an entry changes of the board: its lane acted, and what it opens and closes. With one more, less than
/// 2^31 stands open in its lane. The only error is want of memory.
#[tactic(auto, unfolding(crate::specs::Changes::changed))]
pub fn change(board: &mut Board, here: Start, entry: &Entry) -> Result<(), Memory>
    requires row { here.row < ROWS }
    requires depth { depth_of (lane_at board.old.lanes entry.now.lane) + 1 < 2 ^ 31 }
    ensures { OnOk result (board.new ≡ changed here entry.now board.old) }
{
    let has_home = has_home(board, entry.lane);
    board.act(entry.lane);
    open(board, here, entry.lane, opened_by(&entry.deed, has_home))?;
    close(board, here, entry.lane, closed_by(&entry.deed));
    Ok(())
}
