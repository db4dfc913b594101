//! The tracks beside the lanes, in which the lives of objects are drawn.
ghost use Rattle.std.specs.Prelude.{◌≡◌, ◌<◌, ◌≤◌, [], IfSome, OnOk, length, map, slice_set};
ghost use Rattle.com_draw_state.specs.declared.tracks.TheConstants.{TRACKS};
ghost use Rattle.com_draw_state.specs.Tracks.{cut, cut_of_apartment, cut_of_object, free_in, freed};
ghost use Rattle.com_draw_state.specs.Tracks.{is_live_in, is_live_of, is_of, taken, taken_at, track_of};

use crate::stacks::Start;
use com_base::Memory;
use std::alloc::Global;
use std::marker::Model;

/// How many tracks a picture has at most.
pub const TRACKS: usize = 16;

/// The life of an object.
#[derive(Debug, Clone, Copy, PartialEq, Eq)]
pub struct Track {
    /// The object, from 1.
    pub object: u32,
    /// The apartment in which it lives.
    pub apartment: u32,
    /// Whether it was not cut off yet.
    pub is_live: bool,
    /// Where it was made or cut off.
    pub start: Start,
}

/// The tracks that were used so far, at most `TRACKS`, each with the life of an object or free.
#[derive(Drop)]
pub struct Tracks {
    tracks: Vec<Option<Track>>,
}

impl Model for Tracks {
    ghost use Rattle.std.specs.Prelude.{List, Option, ◌≤◌, length};
    ghost use Rattle.com_draw_state.specs.declared.tracks.TheConstants.{TRACKS};
    ghost use Rattle.com_draw_state.specs.declared.tracks.Track.{Track};

    ghost Value = { List (Option Track) };

    ghost view = { λ t. t.tracks.items };

    ghost invariant = { λ t. length t.tracks.items ≤ TRACKS };
}

impl Tracks {
    /// No track was used. It takes no memory.
    pub fn new(alloc: Global) -> Tracks
        ensures { result ≡ [] }
    {
        Tracks {
            tracks: Vec::new(alloc),
        }
    }

    /// The tracks that were used so far.
    pub fn as_slice(&self) -> &[Option<Track>]
        ensures value { result.now ≡ self.now }
        ensures few { length result.now ≤ TRACKS }
    {
        self.tracks.as_slice()
    }

    /// The number of the track of an object, from 0.
    pub fn track_of(&self, object: u32) -> Option<u32>
        ensures value { result ≡ track_of 0 object self.now }
        ensures few { IfSome result (λ number. number < TRACKS) }
    {
        find(self.tracks.as_slice(), object)
    }

    /// An object is made: it takes the first free track, where one is. The only error is want of memory.
    pub fn take(&mut self, track: Track) -> Result<(), Memory>
        ensures { OnOk result (self.new ≡ taken track self.old) }
    {
        match first_free(self.tracks.as_slice()) {
            Some(number) => {
                put(self.tracks.as_mut_slice(), number, track);
                Ok(())
            }
            None => self.add(track),
        }
    }

    // Takes a track that was not used yet, where one is. The only error is want of memory.
    fn add(&mut self, track: Track) -> Result<(), Memory>
        ensures { OnOk result (self.new ≡ taken_at track self.old None) }
    {
        if self.tracks.len() >= TRACKS {
            return Ok(());
        }
        self.tracks.push(Some(track))?;
        Ok(())
    }

    /// An object is cut off.
    pub fn cut_object(&mut self, object: u32, start: Start)
        ensures { self.new ≡ map (cut_of_object object start) self.old }
    {
        cut_object(self.tracks.as_mut_slice(), object, start);
    }

    /// All objects of an apartment are cut off.
    pub fn cut_apartment(&mut self, apartment: u32, start: Start)
        ensures { self.new ≡ map (cut_of_apartment apartment start) self.old }
    {
        cut_apartment(self.tracks.as_mut_slice(), apartment, start);
    }

    /// An object is no more: its track is free.
    pub fn free(&mut self, object: u32)
        ensures { self.new ≡ map (freed object) self.old }
    {
        free(self.tracks.as_mut_slice(), object);
    }
}

impl Track {
    // The track of an object that was cut off here.
    fn cut(self, start: Start) -> Track
        ensures { result ≡ cut start self }
    {
        Track {
            object: self.object,
            apartment: self.apartment,
            is_live: false,
            start,
        }
    }
}

/// Whether a track is that of an object.
pub fn is_of(track: &Option<Track>, object: u32) -> bool
    ensures { result ≡ is_of object track.now }
{
    match track {
        None => false,
        Some(track) => track.object == object,
    }
}

/// Whether a track is that of an object that was not cut off.
pub fn is_live_of(track: &Option<Track>, object: u32) -> bool
    ensures { result ≡ is_live_of object track.now }
{
    match track {
        None => false,
        Some(track) => track.is_live && track.object == object,
    }
}

/// Whether a track is that of an object of an apartment that was not cut off.
pub fn is_live_in(track: &Option<Track>, apartment: u32) -> bool
    ensures { result ≡ is_live_in apartment track.now }
{
    match track {
        None => false,
        Some(track) => track.is_live && track.apartment == apartment,
    }
}

// The number of the track of an object among these, which are counted from 0.
fn find(tracks: &[Option<Track>], object: u32) -> Option<u32>
    requires { length tracks.now ≤ TRACKS }
    ensures value { result ≡ track_of 0 object tracks.now }
    ensures few { IfSome result (λ number. number < TRACKS) }
{
    let mut rest = tracks;
    let mut number = 0u32;
    'tracks: while let Some((track, others)) = rest.split_first() {
        if is_of(track, object) {
            return Some(number);
        }
        number += 1;
        rest = others;
    }
    None
}

// The number of the first free track among these, which are counted from 0.
fn first_free(tracks: &[Option<Track>]) -> Option<usize>
    ensures value { result ≡ free_in 0 tracks.now }
    ensures bound { IfSome result (λ number. number < length tracks.now) }
{
    let mut rest = tracks;
    let mut number = 0usize;
    'tracks: while let Some((track, others)) = rest.split_first() {
        if track.is_none() {
            return Some(number);
        }
        number += 1;
        rest = others;
    }
    None
}

// Puts a track in a place.
fn put(tracks: &mut [Option<Track>], number: usize, track: Track)
    requires { number < length tracks.old }
    ensures { tracks.new ≡ slice_set tracks.old number (Some track) }
{
    tracks[number] = Some(track);
}

// A track, cut off here if it is that of an object and was not.
fn cut_of_object(track: Option<Track>, object: u32, start: Start) -> Option<Track>
    ensures { result ≡ cut_of_object object start track }
{
    match track {
        None => None,
        Some(own) => {
            if own.is_live && own.object == object {
                return Some(own.cut(start));
            }
            Some(own)
        }
    }
}

// A track, cut off here if it is that of an object of an apartment and was not.
fn cut_of_apartment(track: Option<Track>, apartment: u32, start: Start) -> Option<Track>
    ensures { result ≡ cut_of_apartment apartment start track }
{
    match track {
        None => None,
        Some(own) => {
            if own.is_live && own.apartment == apartment {
                return Some(own.cut(start));
            }
            Some(own)
        }
    }
}

// A track, free if it was that of an object.
fn freed(track: Option<Track>, object: u32) -> Option<Track>
    ensures { result ≡ freed object track }
{
    match track {
        None => None,
        Some(own) => {
            if own.object == object {
                return None;
            }
            Some(own)
        }
    }
}

// Cuts off the track of an object, where it has one that was not cut off yet.
#[tactic(auto, using(crate::proofs::Mapped::mapped_none))]
fn cut_object(tracks: &mut [Option<Track>], object: u32, start: Start)
    ensures { tracks.new ≡ map (cut_of_object object start) tracks.old }
{
    let mut number = 0;
    'tracks: while number < tracks.len() {
        tracks[number] = cut_of_object(tracks[number], object, start);
        number += 1;
    }
}

// Cuts off the tracks of all objects of an apartment that were not cut off yet.
#[tactic(auto, using(crate::proofs::Mapped::mapped_none))]
fn cut_apartment(tracks: &mut [Option<Track>], apartment: u32, start: Start)
    ensures { tracks.new ≡ map (cut_of_apartment apartment start) tracks.old }
{
    let mut number = 0;
    'tracks: while number < tracks.len() {
        tracks[number] = cut_of_apartment(tracks[number], apartment, start);
        number += 1;
    }
}

// Frees the track of an object, where it has one.
#[tactic(auto, using(crate::proofs::Mapped::mapped_none))]
fn free(tracks: &mut [Option<Track>], object: u32)
    ensures { tracks.new ≡ map (freed object) tracks.old }
{
    let mut number = 0;
    'tracks: while number < tracks.len() {
        tracks[number] = freed(tracks[number], object);
        number += 1;
    }
}
