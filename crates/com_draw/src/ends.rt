//! What stands behind the entries of a page.
ghost use Rattle.std.specs.Prelude.{◌≡◌, ◌+◌, ◌<◌, ◌≤◌, ◌^◌, ◌++◌, OnOk, length};
ghost use Rattle.com_draw_words.specs.declared.limits.TheConstants.{LIMIT};
ghost use Rattle.com_draw.specs.Ends.{all_items, event_item, event_items, event_styles, footer_text, gap_row};
ghost use Rattle.com_draw.specs.Ends.{items_text, last_back, last_rows, last_styles, list_text, reason_item};
ghost use Rattle.com_draw.specs.Ends.{reason_items, report_part, ring_item, rows_of, said_text, styles_text, told_text};
ghost use Rattle.com_draw.specs.Reasons.{cycle_in, waits_in};

use crate::beside::Beside;
use crate::reasons::{push_rows, push_story_of};
use crate::widths::push_widths;
use com_base::{ByteList, Memory};
use com_deliveries::Delivery;
use com_draw_shapes::{close_section, open_section, row_at};
use com_draw_state::Board;
use com_draw_stories::{push_event, push_ring, push_summary};
use com_draw_words::{
    LIMIT, push_drawing_end, push_event_style, push_gap, push_item_end, push_item_front,
    push_list_end, push_list_front, push_report_end, push_report_front, push_styles_end, push_tail,
};
use com_model::{Counts, Ended};
use com_report::report;
use com_waits::{Wait, Waits};
use std::alloc::Global;

// How many rows there are behind so many entries.
fn rows_of(entries: u64) -> u64
    ensures value { result ≡ rows_of entries }
    ensures few { result ≤ LIMIT + 1 }
{
    if entries <= LIMIT { entries } else { LIMIT + 1 }
}

// Appends the row in which the entries are counted that have none.
#[tactic(auto, unfolding(crate::specs::Ends::gap_row))]
fn push_gap_row(out: &mut ByteList, entries: u64, board: &Board) -> Result<(), Memory>
    ensures { OnOk result (out.new ≡ out.old ++ gap_row entries board.now) }
{
    if entries <= LIMIT {
        return Ok(());
    }
    open_section(out, board)?;
    push_gap(out, entries - LIMIT)
}

// Appends the end of the last section, behind so many rows.
#[tactic(auto, unfolding(crate::specs::Ends::last_back))]
fn push_last_back(out: &mut ByteList, rows: u64, cycle: &[u32], board: &Board) -> Result<(), Memory>
    ensures { OnOk result (out.new ≡ out.old ++ last_back rows cycle.now board.now) }
{
    if rows == 0 {
        return Ok(());
    }
    close_section(out, row_at(rows), cycle, board)
}

// The lanes that wait.
pub(crate) fn waits_in(waits: &Option<Waits>) -> &[Wait]
    ensures { result.now ≡ waits_in waits.now }
{
    match waits {
        None => &[],
        Some(waits) => waits.waits.as_slice(),
    }
}

// The cycle in which lanes wait for each other.
pub(crate) fn cycle_in(waits: &Option<Waits>) -> &[u32]
    ensures { result.now ≡ cycle_in waits.now }
{
    match waits {
        None => &[],
        Some(waits) => waits.cycle.as_slice(),
    }
}

// Appends the gap, the rows of lanes that wait, and the last section's end.
#[tactic(auto, unfolding(crate::specs::Ends::last_rows))]
pub(crate) fn push_last_rows(
    alloc: Global,
    out: &mut ByteList,
    entries: u64,
    cycle: &[u32],
    waits: &[Wait],
    board: &Board,
) -> Result<(), Memory>
    ensures { OnOk result (out.new ≡ out.old ++ last_rows entries cycle.now waits.now board.now) }
{
    let rows = rows_of(entries);
    push_gap_row(out, entries, board)?;
    push_rows(alloc, out, rows + 1, cycle, board, waits)?;
    push_last_back(out, rows + waits.len() as u64, cycle, board)
}

// Appends the rules that mark the labels of events.
fn push_event_styles(out: &mut ByteList, events: &[Delivery]) -> Result<(), Memory>
    ensures { OnOk result (out.new ≡ out.old ++ event_styles events.now) }
{
    let mut rest = events;
    'events: while let Some((event, others)) = rest.split_first() {
        push_event_style(out, event.call)?;
        rest = others;
    }
    Ok(())
}

// Appends an item of the list: why a lane waits.
#[tactic(auto, unfolding(crate::specs::Ends::reason_item))]
fn push_reason_item(out: &mut ByteList, wait: Wait) -> Result<(), Memory>
    ensures { OnOk result (out.new ≡ out.old ++ reason_item wait) }
{
    push_item_front(out)?;
    push_story_of(out, wait.lane, wait.why)?;
    push_item_end(out)
}

// Appends an item for each lane that waits.
fn push_reason_items(out: &mut ByteList, waits: &[Wait]) -> Result<(), Memory>
    ensures { OnOk result (out.new ≡ out.old ++ reason_items waits.now) }
{
    let mut rest = waits;
    'waits: while let Some((wait, others)) = rest.split_first() {
        push_reason_item(out, *wait)?;
        rest = others;
    }
    Ok(())
}

// Appends the item that names the lanes of the cycle, where there is one.
#[tactic(auto, unfolding(crate::specs::Ends::ring_item))]
fn push_ring_item(out: &mut ByteList, cycle: &[u32]) -> Result<(), Memory>
    ensures { OnOk result (out.new ≡ out.old ++ ring_item cycle.now) }
{
    if cycle.is_empty() {
        return Ok(());
    }
    push_item_front(out)?;
    push_ring(out, cycle)?;
    push_item_end(out)
}

// Appends an item of the list: the call of an event, and the sinks that got it.
#[tactic(auto, unfolding(crate::specs::Ends::event_item))]
fn push_event_item(out: &mut ByteList, event: &Delivery) -> Result<(), Memory>
    ensures { OnOk result (out.new ≡ out.old ++ event_item event.now) }
{
    push_item_front(out)?;
    push_event(out, event.call, event.cookies.as_slice())?;
    push_item_end(out)
}

// Appends an item for each event.
fn push_event_items(out: &mut ByteList, events: &[Delivery]) -> Result<(), Memory>
    ensures { OnOk result (out.new ≡ out.old ++ event_items events.now) }
{
    let mut rest = events;
    'events: while let Some((event, others)) = rest.split_first() {
        push_event_item(out, event)?;
        rest = others;
    }
    Ok(())
}

// Appends why each lane waits, then the cycle, then each event.
#[tactic(auto, unfolding(crate::specs::Ends::all_items))]
fn push_all_items(
    out: &mut ByteList,
    waits: &[Wait],
    cycle: &[u32],
    events: &[Delivery],
) -> Result<(), Memory>
    ensures { OnOk result (out.new ≡ out.old ++ all_items waits.now cycle.now events.now) }
{
    push_reason_items(out, waits)?;
    push_ring_item(out, cycle)?;
    push_event_items(out, events)
}

// Appends the list of these items, from its beginning to its end.
#[tactic(auto, unfolding(crate::specs::Ends::items_text))]
fn push_items(
    out: &mut ByteList,
    waits: &[Wait],
    cycle: &[u32],
    events: &[Delivery],
) -> Result<(), Memory>
    ensures { OnOk result (out.new ≡ out.old ++ items_text waits.now cycle.now events.now) }
{
    push_list_front(out)?;
    push_all_items(out, waits, cycle, events)?;
    push_list_end(out)
}

// Appends the reasons and the events, where there are some.
#[tactic(auto, unfolding(crate::specs::Ends::list_text))]
fn push_list(
    out: &mut ByteList,
    waits: &[Wait],
    cycle: &[u32],
    events: &[Delivery],
) -> Result<(), Memory>
    ensures { OnOk result (out.new ≡ out.old ++ list_text waits.now cycle.now events.now) }
{
    if waits.is_empty() && events.is_empty() {
        return Ok(());
    }
    push_items(out, waits, cycle, events)
}

// Appends the rules that are known only at the end: the second widths, and the marks of events.
#[tactic(auto, unfolding(crate::specs::Ends::last_styles))]
fn push_last_styles(out: &mut ByteList, board: &Board, events: &[Delivery]) -> Result<(), Memory>
    ensures { OnOk result (out.new ≡ out.old ++ last_styles board.now events.now) }
{
    push_widths(out, board)?;
    push_event_styles(out, events)
}

// Appends the end of the drawing, with the rules that are known only then behind it.
#[tactic(auto, unfolding(crate::specs::Ends::styles_text))]
fn push_styles(out: &mut ByteList, board: &Board, events: &[Delivery]) -> Result<(), Memory>
    ensures { OnOk result (out.new ≡ out.old ++ styles_text board.now events.now) }
{
    push_drawing_end(out)?;
    push_last_styles(out, board, events)?;
    push_styles_end(out)
}

// Appends the report, folded up under the word `Report`.
#[tactic(auto, unfolding(crate::specs::Ends::report_part))]
fn push_report_part(
    alloc: Global,
    out: &mut ByteList,
    counts: &[Counts],
    entries: u64,
    clock: u64,
    ended: Ended,
) -> Result<(), Memory>
    ensures { OnOk result (out.new ≡ out.old ++ report_part counts.now entries clock ended) }
{
    push_report_front(out)?;
    report(alloc, counts, entries, clock, ended, out)?;
    push_report_end(out)
}

// Appends how the history ended, why it is stuck, and the events.
#[tactic(auto, unfolding(crate::specs::Ends::told_text))]
fn push_told(out: &mut ByteList, entries: u64, beside: &Beside) -> Result<(), Memory>
    ensures { OnOk result (out.new ≡ out.old ++ told_text entries beside.now) }
{
    push_summary(out, beside.ended, entries, beside.clock)?;
    push_list(
        out,
        waits_in(&beside.waits),
        cycle_in(&beside.waits),
        beside.events.as_slice(),
    )
}

// Appends what is said of the whole, and the report behind it.
#[tactic(auto, unfolding(crate::specs::Ends::said_text))]
fn push_said(alloc: Global, out: &mut ByteList, entries: u64, beside: &Beside) -> Result<(), Memory>
    ensures { OnOk result (out.new ≡ out.old ++ said_text entries beside.now) }
{
    push_told(out, entries, beside)?;
    push_report_part(
        alloc,
        out,
        beside.counts.as_slice(),
        entries,
        beside.clock,
        beside.ended,
    )
}

// Appends what stands behind the drawing: the second widths, how the history ended, why it is stuck, the events
// and the report.
#[tactic(auto, unfolding(crate::specs::Ends::footer_text))]
pub(crate) fn push_footer(
    alloc: Global,
    out: &mut ByteList,
    entries: u64,
    board: &Board,
    beside: &Beside,
) -> Result<(), Memory>
    ensures { OnOk result (out.new ≡ out.old ++ footer_text entries board.now beside.now) }
{
    push_styles(out, board, beside.events.as_slice())?;
    push_said(alloc, out, entries, beside)?;
    push_tail(out)
}
