//! The lanes and the tracks of a picture together.
ghost use Rattle.std.specs.Prelude.{◌≡◌, ◌+◌, ◌<◌, ◌≤◌, ◌^◌, ◌++◌, ◌∷◌, [], IfOk, MatchOption, OnOk, length};
ghost use Rattle.std.specs.Prelude.{map};
ghost use Rattle.com_draw_state.specs.declared.board.TheConstants.{MOST_LANES};
ghost use Rattle.com_draw_state.specs.Board.{copies, first_board, home_from_above, with_lanes, with_tracks};
ghost use Rattle.com_draw_state.specs.Lanes.{acted, depth_of, homed, lane_at, new_lane, waiter_in};
ghost use Rattle.com_draw_state.specs.Lanes.{widened, with_lane, with_opening, without_innermost};
ghost use Rattle.com_draw_state.specs.Tracks.{cut_of_apartment, cut_of_object, freed, taken};

use crate::lanes::{
    Home, Lane, Waiter, act, close, depth, lane_at, open, settle, waiter_among, widen,
};
use crate::stacks::{Opened, Opening, Start};
use crate::tracks::{Track, Tracks};
use com_base::{HOST_STA, MTA, Memory};
use std::alloc::Global;
use std::marker::Model;

/// The most lanes of a picture.
pub const MOST_LANES: usize = 64;

/// The lanes of a picture, which are numbered from 1, and its tracks, which are numbered from 0.
#[derive(Drop)]
pub struct Board {
    lanes: Vec<Lane>,
    tracks: Tracks,
}

impl Model for Board {
    ghost use Rattle.std.specs.Prelude.{◌≤◌, length};
    ghost use Rattle.com_draw_state.specs.Board.{State};
    ghost use Rattle.com_draw_state.specs.declared.board.TheConstants.{MOST_LANES};

    ghost Value = { State };

    ghost view = { λ b. record { lanes = b.lanes.items; tracks = b.tracks } };

    ghost invariant = { λ b. length b.lanes.items ≤ MOST_LANES };
}

impl Board {
    /// The board before the first entry: so many threads without home, the host's lane, and so many lanes of
    /// the pool. No track was used. The only error is want of memory.
    pub fn begin(alloc: Global, threads: u32, pool: u32) -> Result<Board, Memory>
        requires { threads + pool < MOST_LANES }
        ensures { IfOk result (λ board. board ≡ first_board threads pool) }
    {
        let mut lanes = Vec::new(alloc);
        add_lanes(alloc, &mut lanes, threads, None)?;
        add_lanes(alloc, &mut lanes, 1, Some(home_from_above(HOST_STA)))?;
        add_lanes(alloc, &mut lanes, pool, Some(home_from_above(MTA)))?;
        Ok(Board {
            lanes,
            tracks: Tracks::new(alloc),
        })
    }

    /// The lanes, from lane 1 on.
    pub fn lanes(&self) -> &[Lane]
        ensures value { result.now ≡ self.now.lanes }
        ensures few { length result.now ≤ MOST_LANES }
    {
        self.lanes.as_slice()
    }

    /// The tracks that were used so far.
    pub fn tracks(&self) -> &Tracks
        ensures { result.now ≡ self.now.tracks }
    {
        &self.tracks
    }

    /// The lane with this number, from 1. `None` where there is none.
    pub fn lane(&self, lane: u32) -> Option<&Lane>
        ensures { MatchOption result (lane_at self.now.lanes lane ≡ None)
            (λ row. lane_at self.now.lanes lane ≡ Some row.now) }
    {
        lane_at(self.lanes.as_slice(), lane)
    }

    /// How much stands open in a lane.
    pub fn depth(&self, lane: u32) -> u32
        ensures value { result ≡ depth_of (lane_at self.now.lanes lane) }
        ensures few { result < 2 ^ 31 }
    {
        depth(self.lanes.as_slice(), lane)
    }

    /// Who waits for a call, where somebody does.
    pub fn waiter_of(&self, call: u32) -> Option<Waiter>
        ensures { result ≡ waiter_in 1 self.now.lanes call }
    {
        waiter_among(self.lanes.as_slice(), call)
    }

    /// The lane made an entry.
    pub fn act(&mut self, lane: u32)
        ensures { self.new ≡ with_lanes (with_lane acted lane self.old.lanes) self.old }
    {
        act(self.lanes.as_mut_slice(), lane);
    }

    /// The lane has to be so wide.
    pub fn widen(&mut self, lane: u32, width: u16)
        ensures { self.new ≡ with_lanes (with_lane (widened width) lane self.old.lanes) self.old }
    {
        widen(self.lanes.as_mut_slice(), lane, width);
    }

    /// The lane has this home from now on, or none.
    pub fn settle(&mut self, lane: u32, home: Option<Home>)
        ensures { self.new ≡ with_lanes (with_lane (homed home) lane self.old.lanes) self.old }
    {
        settle(self.lanes.as_mut_slice(), lane, home);
    }

    /// Something more stands open in the lane, which makes less than 2^31 there. The only error is want of
    /// memory.
    pub fn open(&mut self, lane: u32, what: Opened, start: Start) -> Result<(), Memory>
        requires { depth_of (lane_at self.old.lanes lane) + 1 < 2 ^ 31 }
        ensures { OnOk result (self.new ≡ with_lanes
            (with_lane (with_opening (record { what = what; start = start })) lane self.old.lanes) self.old) }
    {
        open(self.lanes.as_mut_slice(), lane, Opening { what, start })
    }

    /// What is innermost in the lane is closed.
    pub fn close(&mut self, lane: u32)
        ensures { self.new ≡ with_lanes (with_lane without_innermost lane self.old.lanes) self.old }
    {
        close(self.lanes.as_mut_slice(), lane);
    }

    /// An object is made: it takes a track, where one is left. The only error is want of memory.
    pub fn take(&mut self, track: Track) -> Result<(), Memory>
        ensures { OnOk result (self.new ≡ with_tracks (taken track self.old.tracks) self.old) }
    {
        self.tracks.take(track)
    }

    /// An object is cut off.
    pub fn cut_object(&mut self, object: u32, start: Start)
        ensures { self.new ≡ with_tracks (map (cut_of_object object start) self.old.tracks) self.old }
    {
        self.tracks.cut_object(object, start);
    }

    /// All objects of an apartment are cut off.
    pub fn cut_apartment(&mut self, apartment: u32, start: Start)
        ensures { self.new ≡ with_tracks (map (cut_of_apartment apartment start) self.old.tracks) self.old }
    {
        self.tracks.cut_apartment(apartment, start);
    }

    /// An object is no more: its track is free.
    pub fn free(&mut self, object: u32)
        ensures { self.new ≡ with_tracks (map (freed object) self.old.tracks) self.old }
    {
        self.tracks.free(object);
    }
}

// A home that was entered above the first section.
fn home_from_above(apartment: u32) -> Home
    ensures { result ≡ home_from_above apartment }
{
    Home {
        apartment,
        start: Start { section: 0, row: 0 },
    }
}

// Appends so many lanes with a home. The only error is want of memory.
#[tactic(auto, using(crate::proofs::Mapped::copies_more, crate::proofs::Mapped::copies_none))]
fn add_lanes(
    alloc: Global,
    lanes: &mut Vec<Lane>,
    count: u32,
    home: Option<Home>,
) -> Result<(), Memory>
    ensures { OnOk result (lanes.new.items ≡ lanes.old.items ++ copies count (new_lane home)) }
{
    let mut left = count;
    'lanes: while left > 0 {
        add_lane(alloc, lanes, home)?;
        left -= 1;
    }
    Ok(())
}

// Appends a lane with this home that made no entry. The only error is want of memory.
fn add_lane(alloc: Global, lanes: &mut Vec<Lane>, home: Option<Home>) -> Result<(), Memory>
    ensures { OnOk result (lanes.new.items ≡ lanes.old.items ++ new_lane home ∷ []) }
{
    lanes.push(Lane::new(alloc, home))?;
    Ok(())
}
