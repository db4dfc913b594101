//! A picture that is drawn entry by entry.
ghost use Rattle.std.specs.Prelude.{◌≡◌, ◌+◌, ◌<◌, ◌≤◌, ◌^◌, ◌++◌, [], IfOk, OnOk, length};
ghost use Rattle.com_model.specs.Formed.{Formed};
ghost use Rattle.com_draw_state.specs.declared.board.TheConstants.{MOST_LANES};
ghost use Rattle.com_draw_labels.specs.Labels.{label};
ghost use Rattle.com_draw.specs.Ends.{end_text};
ghost use Rattle.com_draw.specs.Entries.{after, drawn, entry_text, labelled};
ghost use Rattle.com_draw.specs.Fronts.{front, front_names, front_styles};
ghost use Rattle.com_draw.specs.Pages.{written};
ghost use Rattle.com_draw.specs.Pictures.{depth_in};
ghost use Rattle.com_draw_shapes.specs.Changes.{changed};
ghost use Rattle.com_draw_shapes.specs.Places.{start_of};

use crate::beside::Beside;
use crate::ends::{cycle_in, push_footer, push_last_rows, waits_in};
use crate::entries::{Told, push_entry_at, see};
use crate::fronts::{push_front_names, push_front_styles};
use crate::reasons::widen_all;
use com_base::{ByteList, Memory};
use com_draw_labels::{has_label, push_label_words};
use com_draw_names::Context;
use com_draw_shapes::{change, start_of};
use com_draw_state::Board;
use com_draw_words::label_width;
use com_model::{Entry, Scenario};
use std::alloc::Global;
use std::marker::Model;

/// A picture that is drawn entry by entry, with memory for its lanes, for what is open in them and for its
/// tracks, and none for entries.
#[derive(Drop)]
pub struct Drawing {
    board: Board,
    entries: u64,
}

impl Model for Drawing {
    ghost use Rattle.com_draw.specs.Pictures.{Picture};

    ghost Value = { Picture };

    ghost view = { λ d. record { board = d.board; entries = d.entries } };
}

// Appends what stands before the first row, with so many threads and lanes of the pool.
fn push_front(out: &mut ByteList, threads: u32, pool: u32) -> Result<(), Memory>
    requires { threads + pool < MOST_LANES }
    ensures { OnOk result (out.new ≡ out.old
        ++ front_styles (threads + 1 + pool + 1) ++ front_names threads pool) }
{
    push_front_styles(out, threads + 1 + pool + 1)?;
    push_front_names(out, threads, pool)
}

// The words of an entry's label. The only error is want of memory.
fn words_of(
    alloc: Global,
    scenario: &Scenario,
    context: Context,
    entry: &Entry,
) -> Result<ByteList, Memory>
    ensures { IfOk result (λ words. words ≡ label scenario.now context entry.now) }
{
    let mut words = ByteList::new(alloc);
    push_label_words(&mut words, scenario, context, entry)?;
    Ok(words)
}

// The entry's lane has to be wide enough for its label.
fn widen(board: &mut Board, level: u32, words: &[u8], entry: &Entry)
    ensures { board.new ≡ labelled level (length words.now) entry.now board.old }
{
    if !has_label(&entry.deed) {
        return;
    }
    let width = label_width(level, words);
    board.widen(entry.lane, width as u16);
}

impl Drawing {
    /// Begins a page: appends what stands before the first row. The only error is want of memory.
    #[tactic(auto, unfolding(crate::specs::Fronts::front))]
    pub fn begin(alloc: Global, scenario: &Scenario, out: &mut ByteList) -> Result<Drawing, Memory>
        requires { Formed scenario.now }
        ensures first { IfOk result (λ drawing. drawing ≡ drawn scenario.now []) }
        ensures text { OnOk result (out.new ≡ out.old ++ written scenario.now []) }
    {
        let threads = scenario.threads.len() as u32;
        let pool = scenario.pool;
        push_front(out, threads, pool)?;
        Ok(Drawing {
            board: Board::begin(alloc, threads, pool)?,
            entries: 0,
        })
    }

    /// Appends what stands of the next entry of a history in the page, and draws it. The entry's number fits, and
    /// with one more less than 2^31 stands open in its lane. The only error is want of memory; then the text has
    /// a part of it.
    #[tactic(auto, unfolding(crate::specs::Entries::after, crate::specs::Entries::entry_text))]
    pub fn push_entry(
        &mut self,
        alloc: Global,
        scenario: &Scenario,
        entry: &Entry,
        out: &mut ByteList,
    ) -> Result<(), Memory>
        requires room { self.old.entries < 2 ^ 63 }
        requires depth { depth_in self.old entry.now.lane + 1 < 2 ^ 31 }
        ensures after { OnOk result (self.new ≡ after scenario.now self.old entry.now) }
        ensures text { OnOk result (out.new ≡ out.old ++ entry_text scenario.now self.old entry.now) }
    {
        let place = self.entries + 1;
        let seen = see(&self.board, entry);
        let words = words_of(alloc, scenario, seen.context, entry)?;
        let told = Told {
            scenario,
            place,
            entry,
            words: words.as_slice(),
        };
        push_entry_at(alloc, &told, &self.board, &seen, out)?;
        change(&mut self.board, start_of(place), entry)?;
        widen(&mut self.board, seen.level, words.as_slice(), entry);
        self.entries = place;
        Ok(())
    }

    /// Appends what stands behind the entries of a history that has ended, and ends the page. The only error is
    /// want of memory.
    #[tactic(auto, unfolding(crate::specs::Ends::end_text))]
    pub fn push_end(
        &mut self,
        alloc: Global,
        beside: &Beside,
        out: &mut ByteList,
    ) -> Result<(), Memory>
        ensures { OnOk result (out.new ≡ out.old ++ end_text self.old beside.now) }
    {
        let waits = waits_in(&beside.waits);
        push_last_rows(
            alloc,
            out,
            self.entries,
            cycle_in(&beside.waits),
            waits,
            &self.board,
        )?;
        widen_all(alloc, &mut self.board, waits)?;
        push_footer(alloc, out, self.entries, &self.board, beside)
    }
}
