//! The boxes of homes, of what is open, and of the lives of objects.
ghost use Rattle.std.specs.Prelude.{◌≡◌, ◌+◌, ◌<◌, ◌≤◌, ◌^◌, ◌++◌, OnOk, length};
ghost use Rattle.com_draw_state.specs.declared.board.TheConstants.{MOST_LANES};
ghost use Rattle.com_draw_state.specs.Lanes.{lane_at};
ghost use Rattle.com_draw_state.specs.Stacks.{innermost};
ghost use Rattle.com_draw_state.specs.declared.tracks.TheConstants.{TRACKS};
ghost use Rattle.com_draw_words.specs.declared.limits.TheConstants.{ROWS};
ghost use Rattle.com_draw_shapes.specs.Boxes.{chosen_track, closing_boxes, cut_boxes, home_box, home_boxes};
ghost use Rattle.com_draw_shapes.specs.Boxes.{home_in, hue_in, inner_of, innermost_box, innermost_boxes};
ghost use Rattle.com_draw_shapes.specs.Boxes.{is_chosen, kind_of, life_boxes, life_of, objects_lane};
ghost use Rattle.com_draw_shapes.specs.Boxes.{opening_box, opening_boxes, opening_text, track_box};
ghost use Rattle.com_draw_shapes.specs.Boxes.{track_boxes};

use crate::effects::Closing;
use crate::places::{is_up, top_in};
use com_base::{ByteList, FIRST_STA, Memory};
use com_draw_state::{
    Board, Home, Manner, Opened, Opening, Openings, Start, Track, is_live_in, is_live_of, is_of,
};
use com_draw_words::{BoxKind, BoxText, DrawnBox, Foot, NO_HUE, hue_of, push_box};

/// Which tracks are chosen.
#[derive(Debug, Clone, Copy, PartialEq, Eq)]
pub enum Chosen {
    /// All of objects.
    All,
    /// Those of objects of an apartment that were not cut off.
    LiveIn(u32),
    /// That of an object that was not cut off.
    LiveOf(u32),
    /// That of an object.
    Of(u32),
}

// The box of a lane's home.
fn home_box(here: Start, lane: u32, foot: Foot, home: Home) -> DrawnBox
    ensures { result ≡ home_box here lane foot home }
{
    DrawnBox {
        kind: BoxKind::Home,
        hue: hue_of(home.apartment),
        lane,
        level: 0,
        top: top_in(here, home.start),
        row: here.row,
        is_up: is_up(here, home.start),
        foot,
        text: BoxText::Nothing,
    }
}

// Appends the box of a lane's home, where it has one.
#[tactic(auto, unfolding(crate::specs::Boxes::home_boxes))]
pub(crate) fn push_home(
    out: &mut ByteList,
    here: Start,
    lane: u32,
    foot: Foot,
    home: Option<Home>,
) -> Result<(), Memory>
    requires { here.row < ROWS }
    ensures { OnOk result (out.new ≡ out.old ++ home_boxes here lane foot home) }
{
    match home {
        None => Ok(()),
        Some(home) => push_box(out, home_box(here, lane, foot, home)),
    }
}

// The kind of its box: a pump's, a body's, or a call's by how that is waited for.
fn kind_of(what: &Opened) -> BoxKind
    ensures { result ≡ kind_of what.now }
{
    match what {
        Opened::Pumps => BoxKind::Pump,
        Opened::Waits {
            manner: Manner::Refused,
            ..
        } => BoxKind::Refused,
        Opened::Waits {
            manner: Manner::Across,
            ..
        } => BoxKind::Wait,
        Opened::Waits {
            manner: Manner::Within,
            ..
        } => BoxKind::Call,
        Opened::Runs { .. } => BoxKind::Body,
    }
}

// The hue of what is open: a body's is that of its apartment.
fn hue_in(what: &Opened) -> u8
    ensures { result ≡ hue_in what.now }
{
    match what {
        Opened::Runs { apartment, .. } => hue_of(*apartment),
        _ => NO_HUE,
    }
}

// The text in the box: the number of the call; none for a pump.
fn inner_of(what: &Opened) -> BoxText
    ensures { result ≡ inner_of what.now }
{
    match what {
        Opened::Pumps => BoxText::Nothing,
        Opened::Waits { call, .. } => BoxText::Call(*call),
        Opened::Runs { call, .. } => BoxText::Call(*call),
    }
}

// The box of what is open at a depth of a lane.
fn opening_box(here: Start, lane: u32, foot: Foot, depth: u32, opening: &Opening) -> DrawnBox
    ensures { result ≡ opening_box here lane foot depth opening.now }
{
    DrawnBox {
        kind: kind_of(&opening.what),
        hue: hue_in(&opening.what),
        lane,
        level: depth,
        top: top_in(here, opening.start),
        row: here.row,
        is_up: is_up(here, opening.start),
        foot,
        text: inner_of(&opening.what),
    }
}

// Appends the box of what is open at a depth of a lane.
#[tactic(auto, unfolding(crate::specs::Boxes::opening_text))]
fn push_opening(
    out: &mut ByteList,
    here: Start,
    lane: u32,
    foot: Foot,
    depth: u32,
    opening: &Opening,
) -> Result<(), Memory>
    requires { here.row < ROWS }
    ensures { OnOk result (out.new ≡ out.old ++ opening_text here lane foot depth opening.now) }
{
    push_box(out, opening_box(here, lane, foot, depth, opening))
}

// Appends the boxes of all that is open in a lane, the outermost first.
pub(crate) fn push_openings(
    out: &mut ByteList,
    here: Start,
    lane: u32,
    foot: Foot,
    openings: &[Opening],
) -> Result<(), Memory>
    requires here { here.row < ROWS }
    requires few { length openings.now < 2 ^ 31 }
    ensures { OnOk result (out.new ≡ out.old ++ opening_boxes here lane foot 1 openings.now) }
{
    let mut rest = openings;
    let mut depth = 1u32;
    'openings: while let Some((opening, others)) = rest.split_first() {
        push_opening(out, here, lane, foot, depth, opening)?;
        depth += 1;
        rest = others;
    }
    Ok(())
}

// The kind of an object's bar: alive, or cut off from other apartments.
fn life_of(is_live: bool) -> BoxKind
    ensures { result ≡ life_of is_live }
{
    if is_live { BoxKind::Live } else { BoxKind::Cut }
}

// The box of an object's life on a track.
fn track_box(here: Start, lane: u32, foot: Foot, number: u32, track: Track) -> DrawnBox
    requires { number < 2 ^ 31 }
    ensures { result ≡ track_box here lane foot number track }
{
    DrawnBox {
        kind: life_of(track.is_live),
        hue: hue_of(track.apartment),
        lane,
        level: 2 * number,
        top: top_in(here, track.start),
        row: here.row,
        is_up: is_up(here, track.start),
        foot,
        text: BoxText::Object(track.object),
    }
}

// Whether a track is chosen.
fn is_chosen(chosen: Chosen, track: &Option<Track>) -> bool
    ensures { result ≡ is_chosen chosen track.now }
{
    match chosen {
        Chosen::All => true,
        Chosen::LiveIn(apartment) => is_live_in(track, apartment),
        Chosen::LiveOf(object) => is_live_of(track, object),
        Chosen::Of(object) => is_of(track, object),
    }
}

// What is drawn of a track: its life, where the track is chosen.
fn chosen_track(chosen: Chosen, track: &Option<Track>) -> Option<Track>
    ensures { result ≡ chosen_track chosen track.now }
{
    if is_chosen(chosen, track) {
        return *track;
    }
    None
}

// Appends the box of an object's life on a track, where there is one.
#[tactic(auto, unfolding(crate::specs::Boxes::life_boxes))]
fn push_life(
    out: &mut ByteList,
    here: Start,
    lane: u32,
    foot: Foot,
    number: u32,
    life: Option<Track>,
) -> Result<(), Memory>
    requires here { here.row < ROWS }
    requires number { number < 2 ^ 31 }
    ensures { OnOk result (out.new ≡ out.old ++ life_boxes here lane foot number life) }
{
    match life {
        None => Ok(()),
        Some(track) => push_box(out, track_box(here, lane, foot, number, track)),
    }
}

// Appends the boxes of the chosen tracks.
pub(crate) fn push_tracks(
    out: &mut ByteList,
    here: Start,
    lane: u32,
    foot: Foot,
    chosen: Chosen,
    tracks: &[Option<Track>],
) -> Result<(), Memory>
    requires here { here.row < ROWS }
    requires few { length tracks.now ≤ TRACKS }
    ensures { OnOk result (out.new ≡ out.old ++ track_boxes here lane foot chosen 0 tracks.now) }
{
    let mut rest = tracks;
    let mut number = 0u32;
    'tracks: while let Some((track, others)) = rest.split_first() {
        let life = chosen_track(chosen, track);
        push_life(out, here, lane, foot, number, life)?;
        number += 1;
        rest = others;
    }
    Ok(())
}

/// The number of the lane of the objects, which stands behind all others.
pub fn objects_lane(board: &Board) -> u32
    ensures value { result ≡ objects_lane board.now }
    ensures few { result ≤ MOST_LANES + 1 }
{
    board.lanes().len() as u32 + 1
}

// Appends the boxes of chosen tracks, which end here.
fn push_lives(out: &mut ByteList, here: Start, chosen: Chosen, board: &Board) -> Result<(), Memory>
    requires { here.row < ROWS }
    ensures { OnOk result (out.new ≡ out.old
        ++ track_boxes here (objects_lane board.now) Foot.Inner chosen 0 board.now.tracks) }
{
    let lane = objects_lane(board);
    push_tracks(
        out,
        here,
        lane,
        Foot::Inner,
        chosen,
        board.tracks().as_slice(),
    )
}

// Appends the boxes of the objects that are cut off with an apartment.
fn push_cut(out: &mut ByteList, here: Start, apartment: u32, board: &Board) -> Result<(), Memory>
    requires { here.row < ROWS }
    ensures { OnOk result (out.new ≡ out.old ++ cut_boxes here apartment board.now) }
{
    if apartment < FIRST_STA {
        return Ok(());
    }
    push_lives(out, here, Chosen::LiveIn(apartment), board)
}

// The home of a lane.
fn home_of(board: &Board, lane: u32) -> Option<Home>
    ensures { result ≡ home_in (lane_at board.now.lanes lane) }
{
    match board.lane(lane) {
        None => None,
        Some(row) => row.home,
    }
}

// Appends the box of a lane's home, which it leaves, and those of the objects that are cut off with it.
fn push_left(
    out: &mut ByteList,
    here: Start,
    lane: u32,
    apartment: u32,
    board: &Board,
) -> Result<(), Memory>
    requires { here.row < ROWS }
    ensures { OnOk result (out.new ≡ out.old
        ++ home_boxes here lane Foot.Inner (home_in (lane_at board.now.lanes lane))
        ++ cut_boxes here apartment board.now) }
{
    push_home(out, here, lane, Foot::Inner, home_of(board, lane))?;
    push_cut(out, here, apartment, board)
}

// Appends the box of what is innermost in a lane.
fn push_innermost(out: &mut ByteList, here: Start, lane: u32, board: &Board) -> Result<(), Memory>
    requires { here.row < ROWS }
    ensures { OnOk result (out.new ≡ out.old ++ innermost_boxes here lane (lane_at board.now.lanes lane)) }
{
    match board.lane(lane) {
        None => Ok(()),
        Some(row) => push_last(out, here, lane, &row.openings),
    }
}

// Appends the box of the last of these openings, which are all of a lane.
fn push_last(out: &mut ByteList, here: Start, lane: u32, openings: &Openings) -> Result<(), Memory>
    requires { here.row < ROWS }
    ensures { OnOk result (out.new ≡ out.old
        ++ innermost_box here lane (length openings.now) (innermost openings.now)) }
{
    match openings.innermost() {
        None => Ok(()),
        Some(opening) => push_opening(out, here, lane, Foot::Inner, openings.depth(), &opening),
    }
}

/// Appends the boxes of what an entry in a lane closes, as the board was before. The only error is want of
/// memory.
#[tactic(auto, unfolding(crate::specs::Boxes::closing_boxes))]
pub fn push_closing(
    out: &mut ByteList,
    here: Start,
    lane: u32,
    closing: Closing,
    board: &Board,
) -> Result<(), Memory>
    requires { here.row < ROWS }
    ensures { OnOk result (out.new ≡ out.old ++ closing_boxes here lane closing board.now) }
{
    match closing {
        Closing::Nothing => Ok(()),
        Closing::Home { apartment } => push_left(out, here, lane, apartment, board),
        Closing::Innermost => push_innermost(out, here, lane, board),
        Closing::Cut { object } => push_lives(out, here, Chosen::LiveOf(object), board),
        Closing::Life { object } => push_lives(out, here, Chosen::Of(object), board),
    }
}
