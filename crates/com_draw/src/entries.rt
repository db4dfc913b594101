//! The row of an entry.
ghost use Rattle.std.specs.Prelude.{◌≡◌, ◌+◌, ◌<◌, ◌≤◌, ◌^◌, ◌++◌, IfOk, OnOk};
ghost use Rattle.com_draw_labels.specs.Labels.{label};
ghost use Rattle.com_draw.specs.Entries.{caller_of, entry_at, entry_drawing, entry_front, entry_label, entry_lead};
ghost use Rattle.com_draw.specs.Entries.{entry_marks, entry_row, rise, seen, title_of, waiter_of};

use com_base::{ByteList, Memory};
use com_draw_labels::{call_of, has_label, look, mark_of};
use com_draw_names::{Caller, Context};
use com_draw_shapes::{
    Opens, begin_row, close_section, closed_by, has_home, opened_by, points_of, push_closing,
    push_pointing, push_touched, row_at, start_of, touched_by,
};
use com_draw_state::{Board, Waiter};
use com_draw_stories::push_story;
use com_draw_words::{LIMIT, push_entry_front, push_label, push_row_end, push_row_middle};
use com_model::{Entry, Scenario};
use com_report::line;
use std::alloc::Global;

/// What is seen of the board before an entry.
#[derive(Debug, Clone, Copy)]
pub struct Seen {
    /// What its words rest on.
    pub context: Context,
    /// Who waits for its call, where it has one.
    pub waiter: Option<Waiter>,
    /// How much stands open in its lane.
    pub depth: u32,
    /// The level of its label.
    pub level: u32,
}

// Who waits for the entry's call, where it has one.
fn waiter_of(board: &Board, call: Option<u32>) -> Option<Waiter>
    ensures { result ≡ waiter_of board.now call }
{
    match call {
        None => None,
        Some(call) => board.waiter_of(call),
    }
}

// The lane that waits, and the method that its call names.
fn caller_of(waiter: Option<Waiter>) -> Option<Caller>
    ensures { result ≡ caller_of waiter }
{
    match waiter {
        None => None,
        Some(waiter) => Some(Caller {
            lane: waiter.lane,
            iface: waiter.iface,
            method: waiter.method,
        }),
    }
}

// By how much an entry makes its lane deeper.
fn rise(opens: Opens) -> u32
    ensures value { result ≡ rise opens }
    ensures few { result ≤ 1 }
{
    match opens {
        Opens::Level(_) => 1,
        _ => 0,
    }
}

// What is seen of the board before an entry.
#[tactic(auto, unfolding(crate::specs::Entries::seen))]
pub(crate) fn see(board: &Board, entry: &Entry) -> Seen
    ensures value { result ≡ seen board.now entry.now }
    ensures few { result.depth < 2 ^ 31 }
{
    let has_home = has_home(board, entry.lane);
    let waiter = waiter_of(board, call_of(&entry.deed));
    let depth = board.depth(entry.lane);
    let level = depth + rise(opened_by(&entry.deed, has_home));
    Seen {
        context: Context {
            has_home,
            caller: caller_of(waiter),
        },
        waiter,
        depth,
        level,
    }
}

// The entry's line, without its line end.
#[tactic(auto, using(crate::proofs::Counted::line_is_long, crate::proofs::Counted::without_end))]
fn title_of(alloc: Global, version: u8, place: u64, entry: &Entry) -> Result<ByteList, Memory>
    ensures { IfOk result (λ title. title ≡ title_of version place entry.now) }
{
    let mut title = ByteList::new(alloc);
    line(alloc, version, place, entry, &mut title)?;
    let end = title.len() - 1;
    title.truncate(end);
    Ok(title)
}

// Appends the front of its row, by its line.
#[tactic(auto, unfolding(crate::specs::Entries::entry_front))]
fn push_front_by(
    out: &mut ByteList,
    version: u8,
    place: u64,
    entry: &Entry,
    title: &[u8],
) -> Result<(), Memory>
    requires { title.now ≡ title_of version place entry.now }
    ensures { OnOk result (out.new ≡ out.old ++ entry_front version place entry.now) }
{
    push_entry_front(
        out,
        place,
        call_of(&entry.deed),
        mark_of(&entry.deed),
        title,
    )
}

// Appends the front of its row.
fn push_front(
    alloc: Global,
    version: u8,
    place: u64,
    entry: &Entry,
    out: &mut ByteList,
) -> Result<(), Memory>
    ensures { OnOk result (out.new ≡ out.old ++ entry_front version place entry.now) }
{
    let title = title_of(alloc, version, place, entry)?;
    push_front_by(out, version, place, entry, title.as_slice())?;
    Ok(())
}

// Appends the entry in words.
#[tactic(auto, unfolding(crate::specs::Entries::entry_lead))]
fn push_lead(
    alloc: Global,
    scenario: &Scenario,
    place: u64,
    context: Context,
    entry: &Entry,
    out: &mut ByteList,
) -> Result<(), Memory>
    ensures { OnOk result (out.new ≡ out.old ++ entry_lead scenario.now place context entry.now) }
{
    push_front(alloc, scenario.version, place, entry, out)?;
    push_story(alloc, out, scenario, context, entry)?;
    push_row_middle(out)
}

// Appends its label, where it has one.
#[tactic(auto, unfolding(crate::specs::Entries::entry_label))]
fn push_entry_label(
    out: &mut ByteList,
    level: u32,
    words: &[u8],
    entry: &Entry,
) -> Result<(), Memory>
    ensures { OnOk result (out.new ≡ out.old ++ entry_label level words.now entry.now) }
{
    if !has_label(&entry.deed) {
        return Ok(());
    }
    push_label(out, entry.lane, level, look(&entry.deed), words)
}

// Appends its arrow, the mark of the object that it touches, and the boxes of what it closes.
#[tactic(auto, unfolding(crate::specs::Entries::entry_marks))]
fn push_marks(
    out: &mut ByteList,
    place: u64,
    board: &Board,
    seen: &Seen,
    entry: &Entry,
) -> Result<(), Memory>
    requires place { 1 ≤ place }
    requires depth { seen.now.depth < 2 ^ 31 }
    ensures { OnOk result (out.new ≡ out.old ++ entry_marks place board.now seen.now entry.now) }
{
    push_pointing(
        out,
        points_of(&entry.deed),
        entry.lane,
        seen.depth,
        seen.waiter,
        board,
    )?;
    push_touched(out, touched_by(&entry.deed), board)?;
    push_closing(
        out,
        start_of(place),
        entry.lane,
        closed_by(&entry.deed),
        board,
    )
}

// An entry of a history of a scenario, with its place and the words of its label.
#[derive(Drop)]
pub(crate) struct Told<'a> {
    /// The scenario.
    pub scenario: &'a Scenario,
    /// The place of the entry, from 1.
    pub place: u64,
    /// The entry.
    pub entry: &'a Entry,
    /// The words of its label.
    pub words: &'a [u8],
}

// Appends all that is drawn of an entry.
#[tactic(auto, unfolding(crate::specs::Entries::entry_drawing))]
fn push_drawing(
    told: &Told<'_>,
    board: &Board,
    seen: &Seen,
    out: &mut ByteList,
) -> Result<(), Memory>
    requires place { 1 ≤ told.now.place }
    requires depth { seen.now.depth < 2 ^ 31 }
    requires words { told.now.words.now ≡ label told.now.scenario.now seen.now.context told.now.entry.now }
    ensures { OnOk result (out.new ≡ out.old
        ++ entry_drawing told.now.scenario.now told.now.place board.now seen.now told.now.entry.now) }
{
    push_entry_label(out, seen.level, told.words, told.entry)?;
    push_marks(out, told.place, board, seen, told.entry)?;
    push_row_end(out)
}

// Appends the row of an entry, before which a section may end and another begin.
#[tactic(auto, unfolding(crate::specs::Entries::entry_row))]
fn push_row(
    alloc: Global,
    told: &Told<'_>,
    board: &Board,
    seen: &Seen,
    out: &mut ByteList,
) -> Result<(), Memory>
    requires place { 1 ≤ told.now.place }
    requires depth { seen.now.depth < 2 ^ 31 }
    requires words { told.now.words.now ≡ label told.now.scenario.now seen.now.context told.now.entry.now }
    ensures { OnOk result (out.new ≡ out.old
        ++ entry_row told.now.scenario.now told.now.place board.now seen.now told.now.entry.now) }
{
    begin_row(out, told.place, board)?;
    push_lead(
        alloc,
        told.scenario,
        told.place,
        seen.context,
        told.entry,
        out,
    )?;
    push_drawing(told, board, seen, out)
}

// Appends what stands of an entry in the page: a row for each up to the limit, and before the first one behind
// it the section's end.
pub(crate) fn push_entry_at(
    alloc: Global,
    told: &Told<'_>,
    board: &Board,
    seen: &Seen,
    out: &mut ByteList,
) -> Result<(), Memory>
    requires place { 1 ≤ told.now.place }
    requires depth { seen.now.depth < 2 ^ 31 }
    requires words { told.now.words.now ≡ label told.now.scenario.now seen.now.context told.now.entry.now }
    ensures { OnOk result (out.new ≡ out.old
        ++ entry_at told.now.scenario.now told.now.place board.now seen.now told.now.entry.now) }
{
    if told.place <= LIMIT {
        return push_row(alloc, told, board, seen, out);
    }
    if told.place == LIMIT + 1 {
        return close_section(out, row_at(LIMIT), &[], board);
    }
    Ok(())
}
