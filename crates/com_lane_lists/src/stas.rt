//! The single-threaded apartments that threads make.
ghost use Rattle.std.specs.Prelude.{◌≡◌, ◌+◌, ◌<◌, ◌≤◌, ◌^◌, [], ◌∷◌, ◌++◌, not, filter, length, OnOk};
ghost use Rattle.std.specs.Prelude.{IfOk, slice_index_or, slice_set};
ghost use Rattle.com_base.specs.declared.apartments.TheConstants.{FIRST_STA};
ghost use Rattle.com_model.specs.Apartments.{or_host};
ghost use Rattle.com_model.specs.Lists.{first, is_member, tabulated};
ghost use Rattle.com_lane_lists.specs.Rooms.{HasRow, no_number, numbers_in};
ghost use Rattle.com_lane_lists.specs.StasKept.{gone_first};

use crate::numbers::Numbers;
use com_base::{FIRST_STA, HOST_STA, Memory};
use std::alloc::Global;
use std::marker::Model;

// An apartment that a thread made: the thread's lane, and whether the apartment has ended.
#[derive(Debug, Clone, Copy)]
struct Sta {
    maker: u32,
    is_gone: bool,
}

/// The single-threaded apartments that threads made, numbered from `FIRST_STA` on in the order of making. Seen as those
/// of each lane, as all of them, and as those that ended, with how many of each there is room for.
#[derive(Debug, Drop)]
pub struct Stas {
    made: Vec<Numbers>,
    rows: Vec<Sta>,
    ended: Vec<u32>,
    // The index in `rows` of the oldest that has not ended, or the length.
    oldest: usize,
}

impl Model for Stas {
    ghost use Rattle.std.specs.Prelude.{vec_capacity};
    ghost use Rattle.com_lane_lists.specs.Rooms.{StaRows, numbers_in};
    ghost use Rattle.com_lane_lists.specs.StasKept.{StasKept, stas_of};

    ghost Value = { StaRows };

    ghost view = { λ a. record {
      tables = stas_of a.made.items a.rows.items a.ended.items;
      makers = a.made.items;
      made = vec_capacity a.rows;
      over = vec_capacity a.ended;
    } };

    ghost invariant = { λ a. StasKept (numbers_in a.made.items) a.rows.items a.ended.items a.oldest };
}

impl Stas {
    /// None yet, with so many lanes, and a lane 0 that is no thread's. The only error is want of memory.
    pub fn new(alloc: Global, lanes: u32) -> Result<Stas, Memory>
        ensures made { IfOk result (λ stas. stas.tables.made ≡ tabulated (lanes + 1) (λ l. [])) }
        ensures stas { IfOk result (λ stas. stas.tables.stas ≡ []) }
        ensures ended { IfOk result (λ stas. stas.tables.ended ≡ []) }
    {
        let made = no_numbers(alloc, lanes as usize + 1)?;
        Ok(Stas {
            made,
            rows: Vec::new(alloc),
            ended: Vec::new(alloc),
            oldest: 0,
        })
    }

    /// Makes room for one more, of a lane. The only error is want of memory.
    pub fn reserve_made(&mut self, lane: u32) -> Result<(), Memory>
        ensures tables { self.new.tables ≡ self.old.tables }
        ensures room { OnOk result (length self.new.tables.stas < self.new.made) }
        ensures maker { OnOk result (HasRow (slice_index_or self.new.makers lane no_number)) }
    {
        self.rows.reserve(1)?;
        reserve_at(&mut self.made, lane)?;
        Ok(())
    }

    /// Makes room for the end of one. The only error is want of memory.
    pub fn reserve_end(&mut self) -> Result<(), Memory>
        ensures tables { self.new.tables ≡ self.old.tables }
        ensures room { OnOk result (length self.new.tables.ended < self.new.over) }
    {
        self.ended.reserve(1)
    }

    /// A lane makes the next one.
    pub fn make(&mut self, lane: u32)
        requires number { length self.old.tables.stas + 4 ≤ 2 ^ 32 }
        requires room { length self.old.tables.stas < self.old.made }
        requires maker { HasRow (slice_index_or self.old.makers lane no_number) }
        ensures { self.new.tables ≡ record {
          made =
              slice_set self.old.tables.made lane
              (slice_index_or self.old.tables.made lane [] ++ (length self.old.tables.stas + FIRST_STA) ∷ []);
          stas = self.old.tables.stas ++ (length self.old.tables.stas + FIRST_STA) ∷ [];
          ended = self.old.tables.ended;
        } }
    {
        let sta = FIRST_STA + self.rows.len() as u32;
        push_at(&mut self.made, lane, sta);
        self.rows.push_reserved(Sta {
            maker: lane,
            is_gone: false,
        });
    }

    /// One ends, the host's or one that was made.
    pub fn end(&mut self, apartment: u32)
        requires number { apartment < length self.old.tables.stas + FIRST_STA }
        requires room { length self.old.tables.ended < self.old.over }
        ensures { self.new.tables
            ≡ record self.old.tables { ended = self.old.tables.ended ++ apartment ∷ [] } }
    {
        self.ended.push_reserved(apartment);
        if apartment < FIRST_STA {
            return;
        }
        self.rows[(apartment - FIRST_STA) as usize].is_gone = true;
        self.oldest = oldest_from(&self.rows, self.oldest);
    }

    /// The number of the next one.
    pub fn next(&self) -> u32
        requires { length self.now.tables.stas + 4 ≤ 2 ^ 32 }
        ensures { result ≡ length self.now.tables.stas + FIRST_STA }
    {
        FIRST_STA + self.rows.len() as u32
    }

    /// The main one: the oldest that has not ended, and the host's where there is none.
    pub fn main(&self) -> u32
        ensures { result ≡ or_host (first
            (filter (λ a. not (is_member a self.now.tables.ended)) self.now.tables.stas)) }
    {
        if self.oldest < self.rows.len() {
            FIRST_STA + self.oldest as u32
        } else {
            HOST_STA
        }
    }

    /// Whether a lane made this one.
    pub fn made_by(&self, lane: u32, apartment: u32) -> bool
        ensures { result ≡ is_member apartment (slice_index_or self.now.tables.made lane []) }
    {
        if lane as usize >= self.made.len() || apartment < FIRST_STA {
            return false;
        }
        match self.rows.get((apartment - FIRST_STA) as usize) {
            Some(sta) => sta.maker == lane,
            None => false,
        }
    }
}

// So many empty lists. The only error is want of memory.
#[tactic(auto, using(crate::proofs::Rows::numbers_more))]
fn no_numbers(alloc: Global, count: usize) -> Result<Vec<Numbers>, Memory>
    ensures { IfOk result (λ lists. numbers_in lists.items ≡ tabulated count (λ l. [])) }
{
    let mut lists = Vec::new(alloc);
    for i in 0..count {
        lists.push(Numbers::new(alloc))?;
    }
    Ok(lists)
}

// Makes room for one more in the list of a lane. The only error is want of memory.
#[tactic(auto, using(crate::proofs::Rows::numbers_same))]
fn reserve_at(lists: &mut Vec<Numbers>, lane: u32) -> Result<(), Memory>
    ensures numbers { numbers_in lists.new.items ≡ numbers_in lists.old.items }
    ensures room { OnOk result (HasRow (slice_index_or lists.new.items lane no_number)) }
{
    match lists.get_mut(lane as usize) {
        Some(list) => list.reserve(),
        None => Ok(()),
    }
}

// Appends to the list of a lane; nothing where there is no such lane.
#[tactic(auto, using(crate::proofs::Rows::numbers_set, crate::proofs::Rows::numbers_at))]
fn push_at(lists: &mut Vec<Numbers>, lane: u32, number: u32)
    requires room { HasRow (slice_index_or lists.old.items lane no_number) }
    ensures { numbers_in lists.new.items ≡ slice_set (numbers_in lists.old.items) lane
        (slice_index_or (numbers_in lists.old.items) lane [] ++ number ∷ []) }
{
    if let Some(list) = lists.get_mut(lane as usize) {
        list.push(number);
    }
}

// The first index from this one on whose apartment has not ended, or the length. All before it have ended.
#[tactic(auto, using(crate::proofs::StasKept::gone_first_le, crate::proofs::StasKept::gone_first_more, crate::proofs::StasKept::gone_first_here))]
fn oldest_from(rows: &[Sta], from: usize) -> usize
    requires { from ≤ gone_first rows.now }
    ensures { result ≡ gone_first rows.now }
{
    let mut index = from;
    while index < rows.len() && rows[index].is_gone {
        index += 1;
    }
    index
}
