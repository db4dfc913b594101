//! The lanes of a core and what is read of them.
ghost use Rattle.std.specs.Prelude.{◌≡◌, ◌+◌, ◌<◌, ◌≤◌, ◌^◌, [], false, not, filter, length, reverse};
ghost use Rattle.std.specs.Prelude.{IfOk, None, slice_get, slice_index_or};
ghost use Rattle.com_base.specs.declared.apartments.TheConstants.{FIRST_STA};
ghost use Rattle.com_model.specs.Apartments.{or_host};
ghost use Rattle.com_model.specs.Lists.{first, is_member, tabulated};
ghost use Rattle.com_model.specs.Openers.{running_call, running_object, entered_apartment, open_calls};
ghost use Rattle.com_model.specs.Waiting.{no_mail, mark_of, not_asked, bound_reached};
ghost use Rattle.com_state.specs.Parts.{openers_at, served_at};
ghost use Rattle.com_lane_lists.specs.Rooms.{mail_in, openers_in};
ghost use Rattle.com_lanes.specs.First.{first_lanes};

use com_base::Memory;
use com_lane_lists::{Mail, Openers, Stas};
use com_model::{Opener, Word};
use std::alloc::Global;
use std::marker::Model;

/// What a core keeps of each lane, by the lane's number from 0, and of the single-threaded apartments that
/// threads made. Lane 0 is the clock's. Seen as the tables of lanes, beside the lists that grow with the room
/// that they have.
#[derive(Debug, Drop)]
pub struct Lanes {
    pub(crate) openers: Vec<Openers>,
    pub(crate) served: Vec<u64>,
    pub(crate) homes: Vec<Option<u32>>,
    pub(crate) counts: Vec<u32>,
    pub(crate) over: Vec<bool>,
    pub(crate) filters: Vec<Option<u32>>,
    pub(crate) mail: Vec<Mail>,
    pub(crate) quits: Vec<bool>,
    pub(crate) stas: Stas,
}

impl Model for Lanes {
    ghost use Rattle.com_lanes.specs.Rooms.{LaneRows};
    ghost use Rattle.com_lanes.specs.Tables.{tables_of};

    ghost Value = { LaneRows };

    ghost view = { λ a. record {
      tables = tables_of a.openers.items a.served.items a.homes.items a.counts.items a.over.items
          a.filters.items a.mail.items a.quits.items a.stas.tables;
      openers = a.openers.items;
      mail = a.mail.items;
      stas = a.stas;
    } };
}

impl Lanes {
    /// The lanes before the first entry: nothing is open, and no lane has a home. The only error is want of
    /// memory.
    pub fn new(alloc: Global, lanes: u32) -> Result<Lanes, Memory>
        ensures { IfOk result (λ new. new.tables ≡ first_lanes lanes) }
    {
        let rows = lanes as usize + 1;
        Ok(Lanes {
            openers: no_openers(alloc, rows)?,
            served: new_table(alloc, rows, 0)?,
            homes: new_table(alloc, rows, None)?,
            counts: new_table(alloc, rows, 0)?,
            over: new_table(alloc, rows, false)?,
            filters: new_table(alloc, rows, None)?,
            mail: no_mails(alloc, rows)?,
            quits: new_table(alloc, rows, false)?,
            stas: Stas::new(alloc, lanes)?,
        })
    }

    /// The innermost opener of a lane.
    #[tactic(auto, using(crate::proofs::Rows::openers_some, crate::proofs::Rows::openers_none))]
    pub fn top(&self, lane: u32) -> Option<Opener>
        ensures { result ≡ first (openers_at self.now.tables lane) }
    {
        match self.openers.get(lane as usize) {
            Some(openers) => openers.top(),
            None => None,
        }
    }

    /// How many openers a lane has.
    #[tactic(auto, using(crate::proofs::Rows::openers_some, crate::proofs::Rows::openers_none))]
    pub fn depth(&self, lane: u32) -> usize
        ensures { result ≡ length (openers_at self.now.tables lane) }
    {
        match self.openers.get(lane as usize) {
            Some(openers) => openers.len(),
            None => 0,
        }
    }

    /// The opener of a lane at a place, counted from the outermost.
    #[tactic(auto, using(crate::proofs::Rows::openers_some, crate::proofs::Rows::openers_none))]
    pub fn at(&self, lane: u32, place: u32) -> Option<Opener>
        ensures { result ≡ slice_get (reverse (openers_at self.now.tables lane)) place }
    {
        match self.openers.get(lane as usize) {
            Some(openers) => openers.at(place),
            None => None,
        }
    }

    /// The object of the innermost body of a lane.
    #[tactic(auto, using(crate::proofs::Rows::openers_some, crate::proofs::Rows::openers_none))]
    pub fn running(&self, lane: u32) -> Option<u32>
        ensures { result ≡ running_object (openers_at self.now.tables lane) }
    {
        match self.openers.get(lane as usize) {
            Some(openers) => openers.running_object(),
            None => None,
        }
    }

    /// The call of the innermost body of a lane.
    #[tactic(auto, using(crate::proofs::Rows::openers_some, crate::proofs::Rows::openers_none))]
    pub fn running_call(&self, lane: u32) -> Option<u32>
        ensures { result ≡ running_call (openers_at self.now.tables lane) }
    {
        match self.openers.get(lane as usize) {
            Some(openers) => openers.running_call(),
            None => None,
        }
    }

    /// The apartment that the innermost body of a lane was entered in.
    #[tactic(auto, using(crate::proofs::Rows::openers_some, crate::proofs::Rows::openers_none))]
    pub fn running_apartment(&self, lane: u32) -> Option<u32>
        ensures { result ≡ entered_apartment (openers_at self.now.tables lane) }
    {
        match self.openers.get(lane as usize) {
            Some(openers) => openers.entered_apartment(),
            None => None,
        }
    }

    /// The calls that a lane waits for, the outermost first.
    #[tactic(auto, using(crate::proofs::Rows::openers_some, crate::proofs::Rows::openers_none))]
    pub fn open_calls(&self, lane: u32) -> &[u32]
        ensures { result.now ≡ reverse (open_calls (openers_at self.now.tables lane)) }
    {
        match self.openers.get(lane as usize) {
            Some(openers) => openers.open_calls(),
            None => &[],
        }
    }

    /// How many bodies have left that the pump of a lane admitted.
    pub fn served_count(&self, lane: u32) -> u64
        ensures { result ≡ served_at self.now.tables lane }
    {
        match self.served.get(lane as usize) {
            Some(served) => *served,
            None => 0,
        }
    }

    /// Whether the pump of a lane has a bound and has reached it.
    #[tactic(auto, using(crate::proofs::Bounds::bound_of_first))]
    pub fn bound_is_reached(&self, lane: u32) -> bool
        ensures { result ≡ bound_reached (openers_at self.now.tables lane) (served_at self.now.tables lane) }
    {
        match self.top(lane) {
            Some(Opener::Pumps { bound: 0 }) => false,
            Some(Opener::Pumps { bound }) => bound as u64 <= self.served_count(lane),
            _ => false,
        }
    }

    /// The home of a lane that was initialised.
    pub fn home(&self, lane: u32) -> Option<u32>
        ensures { result ≡ slice_index_or self.now.tables.homes lane None }
    {
        match self.homes.get(lane as usize) {
            Some(home) => *home,
            None => None,
        }
    }

    /// How many of a lane's initialisations are open.
    pub fn count(&self, lane: u32) -> u32
        ensures { result ≡ slice_index_or self.now.tables.counts lane 0 }
    {
        match self.counts.get(lane as usize) {
            Some(count) => *count,
            None => 0,
        }
    }

    /// Whether a lane has ended.
    pub fn is_over(&self, lane: u32) -> bool
        ensures { result ≡ slice_index_or self.now.tables.over lane false }
    {
        match self.over.get(lane as usize) {
            Some(over) => *over,
            None => false,
        }
    }

    /// The message filter that a lane named last.
    pub fn filter(&self, lane: u32) -> Option<u32>
        ensures { result ≡ slice_index_or self.now.tables.filters lane None }
    {
        match self.filters.get(lane as usize) {
            Some(filter) => *filter,
            None => None,
        }
    }

    /// Whether a quit stands for a lane.
    pub fn quit_stands(&self, lane: u32) -> bool
        ensures { result ≡ slice_index_or self.now.tables.quits lane false }
    {
        match self.quits.get(lane as usize) {
            Some(quit) => *quit,
            None => false,
        }
    }

    /// The first word of a lane.
    #[tactic(auto, using(crate::proofs::Rows::mail_some, crate::proofs::Rows::mail_none))]
    pub fn first_word(&self, lane: u32) -> Option<Word>
        ensures { result ≡ first (slice_index_or self.now.tables.mail lane no_mail).words }
    {
        match self.mail.get(lane as usize) {
            Some(mail) => mail.first(),
            None => None,
        }
    }

    /// The first word of a lane that its call was not asked about yet.
    #[tactic(auto, using(crate::proofs::Rows::mail_some, crate::proofs::Rows::mail_none))]
    pub fn word_not_asked(&self, lane: u32, call: u32) -> Option<Word>
        ensures { result ≡ not_asked (mark_of (slice_index_or self.now.tables.mail lane no_mail).marks call)
            (slice_index_or self.now.tables.mail lane no_mail).words }
    {
        match self.mail.get(lane as usize) {
            Some(mail) => mail.not_asked(call),
            None => None,
        }
    }

    /// The number of the next single-threaded apartment that a thread makes.
    pub fn next_sta(&self) -> u32
        requires { length self.now.tables.stas + 4 ≤ 2 ^ 32 }
        ensures { result ≡ length self.now.tables.stas + FIRST_STA }
    {
        self.stas.next()
    }

    /// The main single-threaded apartment: the oldest that a thread made and that has not ended, else the
    /// host's. Source: the documentation of apartments, "main apartment".
    pub fn main_sta(&self) -> u32
        ensures { result ≡ or_host (first
            (filter (λ a. not (is_member a self.now.tables.ended)) self.now.tables.stas)) }
    {
        self.stas.main()
    }

    /// Whether a lane made this apartment, and so serves it.
    pub fn serves(&self, lane: u32, apartment: u32) -> bool
        ensures { result ≡ is_member apartment (slice_index_or self.now.tables.made lane []) }
    {
        self.stas.made_by(lane, apartment)
    }
}

// A table of so many equal rows. The only error is want of memory.
fn new_table<T: Copy>(alloc: Global, rows: usize, row: T) -> Result<Vec<T>, Memory>
    ensures { IfOk result (λ table. table.items ≡ tabulated rows (λ l. row)) }
{
    let mut table = Vec::new(alloc);
    for i in 0..rows {
        table.push(row)?;
    }
    Ok(table)
}

// So many lanes with nothing open. The only error is want of memory.
#[tactic(auto, using(crate::proofs::Rows::openers_more))]
fn no_openers(alloc: Global, rows: usize) -> Result<Vec<Openers>, Memory>
    ensures { IfOk result (λ table. openers_in table.items ≡ tabulated rows (λ l. [])) }
{
    let mut table = Vec::new(alloc);
    for i in 0..rows {
        table.push(Openers::new(alloc))?;
    }
    Ok(table)
}

// So many lanes with no word. The only error is want of memory.
#[tactic(auto, using(crate::proofs::Rows::mail_more))]
fn no_mails(alloc: Global, rows: usize) -> Result<Vec<Mail>, Memory>
    ensures { IfOk result (λ table. mail_in table.items ≡ tabulated rows (λ l. no_mail)) }
{
    let mut table = Vec::new(alloc);
    for i in 0..rows {
        table.push(Mail::new(alloc))?;
    }
    Ok(table)
}
