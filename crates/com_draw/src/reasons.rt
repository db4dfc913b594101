//! Why a history is stuck: a row for each lane that waits.
ghost use Rattle.std.specs.Prelude.{◌≡◌, ◌+◌, ◌<◌, ◌≤◌, ◌^◌, ◌++◌, IfOk, OnOk, length};
ghost use Rattle.com_draw_words.specs.declared.limits.TheConstants.{LIMIT};
ghost use Rattle.com_draw.specs.Reasons.{all_labelled, arrow_to, reason_arrow, reason_drawing, reason_label};
ghost use Rattle.com_draw.specs.Reasons.{reason_labelled, reason_lead, reason_row, reason_rows};
ghost use Rattle.com_draw.specs.Reasons.{reason_story, reason_words, ring_kind};

use com_base::{ByteList, Memory};
use com_draw_labels::{push_body_label, push_message_label, push_pool_label};
use com_draw_shapes::{begin_row, is_in_cycle};
use com_draw_state::Board;
use com_draw_stories::{push_body_story, push_message_story, push_pool_story};
use com_draw_words::{
    Arrow, ArrowKind, LabelClass, Look, label_width, push_arrow, push_label, push_reason_front,
    push_row_end, push_row_middle,
};
use com_waits::{Wait, Why};
use std::alloc::Global;

// Appends why a lane waits.
#[tactic(auto, unfolding(crate::specs::Reasons::reason_story))]
pub(crate) fn push_story_of(out: &mut ByteList, lane: u32, why: Why) -> Result<(), Memory>
    ensures { OnOk result (out.new ≡ out.old ++ reason_story lane why) }
{
    match why {
        Why::Message => push_message_story(out, lane),
        Why::Body { call, lane: to } => push_body_story(out, lane, to, call),
        Why::Pool { call, .. } => push_pool_story(out, lane, call),
    }
}

// Appends why a lane waits, in the few words of its label.
#[tactic(auto, unfolding(crate::specs::Reasons::reason_words))]
fn push_words(out: &mut ByteList, why: Why) -> Result<(), Memory>
    ensures { OnOk result (out.new ≡ out.old ++ reason_words why) }
{
    match why {
        Why::Message => push_message_label(out),
        Why::Body { lane: to, .. } => push_body_label(out, to),
        Why::Pool { .. } => push_pool_label(out),
    }
}

// The words of the label of a lane that waits.
fn words_of(alloc: Global, why: Why) -> Result<ByteList, Memory>
    ensures { IfOk result (λ words. words ≡ reason_words why) }
{
    let mut words = ByteList::new(alloc);
    push_words(&mut words, why)?;
    Ok(words)
}

// The kind of the arrow of a lane that waits: a part of the ring, or like that of a word.
fn ring_kind(is_ring: bool) -> ArrowKind
    ensures { result ≡ ring_kind is_ring }
{
    if is_ring {
        ArrowKind::Ring
    } else {
        ArrowKind::Word
    }
}

// Appends the arrow to the lane for which one waits.
fn push_arrow_to(
    out: &mut ByteList,
    cycle: &[u32],
    board: &Board,
    lane: u32,
    to: u32,
) -> Result<(), Memory>
    ensures { OnOk result (out.new ≡ out.old ++ arrow_to cycle.now board.now lane to) }
{
    let from_ring = is_in_cycle(cycle, lane);
    let to_ring = is_in_cycle(cycle, to);
    push_arrow(
        out,
        Arrow {
            kind: ring_kind(from_ring && to_ring),
            other: to,
            other_level: board.depth(to),
            lane,
            level: board.depth(lane),
        },
    )
}

// Appends the arrow of a lane that waits for another one; none where it waits for a message.
#[tactic(auto, unfolding(crate::specs::Reasons::reason_arrow))]
fn push_arrow_of(
    out: &mut ByteList,
    cycle: &[u32],
    board: &Board,
    lane: u32,
    why: Why,
) -> Result<(), Memory>
    ensures { OnOk result (out.new ≡ out.old ++ reason_arrow cycle.now board.now lane why) }
{
    match why {
        Why::Message => Ok(()),
        Why::Body { lane: to, .. } => push_arrow_to(out, cycle, board, lane, to),
        Why::Pool { lane: to, .. } => push_arrow_to(out, cycle, board, lane, to),
    }
}

// Appends the front of a reason's row, red where its lane is in the cycle, and the sentence.
#[tactic(auto, unfolding(crate::specs::Reasons::reason_lead))]
fn push_lead(out: &mut ByteList, cycle: &[u32], wait: Wait) -> Result<(), Memory>
    ensures { OnOk result (out.new ≡ out.old ++ reason_lead cycle.now wait) }
{
    push_reason_front(out, is_in_cycle(cycle, wait.lane))?;
    push_story_of(out, wait.lane, wait.why)?;
    push_row_middle(out)
}

// Appends its label, by the words of that.
#[tactic(auto, unfolding(crate::specs::Reasons::reason_label))]
fn push_label_by(
    out: &mut ByteList,
    cycle: &[u32],
    board: &Board,
    wait: Wait,
    words: &[u8],
) -> Result<(), Memory>
    requires { words.now ≡ reason_words wait.why }
    ensures { OnOk result (out.new ≡ out.old ++ reason_label cycle.now board.now wait) }
{
    let is_bad = is_in_cycle(cycle, wait.lane);
    let level = board.depth(wait.lane);
    push_label(
        out,
        wait.lane,
        level,
        Look {
            class: LabelClass::Plain,
            is_bad,
            ident: None,
        },
        words,
    )
}

// Appends its label.
fn push_reason_label(
    alloc: Global,
    out: &mut ByteList,
    cycle: &[u32],
    board: &Board,
    wait: Wait,
) -> Result<(), Memory>
    ensures { OnOk result (out.new ≡ out.old ++ reason_label cycle.now board.now wait) }
{
    let words = words_of(alloc, wait.why)?;
    push_label_by(out, cycle, board, wait, words.as_slice())?;
    Ok(())
}

// Appends all that is drawn of a lane that waits.
#[tactic(auto, unfolding(crate::specs::Reasons::reason_drawing))]
fn push_drawing(
    alloc: Global,
    out: &mut ByteList,
    cycle: &[u32],
    board: &Board,
    wait: Wait,
) -> Result<(), Memory>
    ensures { OnOk result (out.new ≡ out.old ++ reason_drawing cycle.now board.now wait) }
{
    push_reason_label(alloc, out, cycle, board, wait)?;
    push_arrow_of(out, cycle, board, wait.lane, wait.why)?;
    push_row_end(out)
}

// Appends the row of a lane that waits, before which a section may end and another begin.
#[tactic(auto, unfolding(crate::specs::Reasons::reason_row))]
fn push_row(
    alloc: Global,
    out: &mut ByteList,
    row: u64,
    cycle: &[u32],
    board: &Board,
    wait: Wait,
) -> Result<(), Memory>
    requires { 1 ≤ row }
    ensures { OnOk result (out.new ≡ out.old ++ reason_row row cycle.now board.now wait) }
{
    begin_row(out, row, board)?;
    push_lead(out, cycle, wait)?;
    push_drawing(alloc, out, cycle, board, wait)
}

// Appends the rows of lanes that wait, of which the first is this row of the page.
pub(crate) fn push_rows(
    alloc: Global,
    out: &mut ByteList,
    first: u64,
    cycle: &[u32],
    board: &Board,
    waits: &[Wait],
) -> Result<(), Memory>
    requires first { 1 ≤ first }
    requires few { first ≤ LIMIT + 2 }
    ensures { OnOk result (out.new ≡ out.old ++ reason_rows first cycle.now board.now waits.now) }
{
    let mut rest = waits;
    let mut row = first;
    'waits: while let Some((wait, others)) = rest.split_first() {
        push_row(alloc, out, row, cycle, board, *wait)?;
        row += 1;
        rest = others;
    }
    Ok(())
}

// The lane has to be wide enough for the label of this reason.
#[tactic(auto, unfolding(crate::specs::Reasons::reason_labelled))]
fn widen(alloc: Global, board: &mut Board, wait: Wait) -> Result<(), Memory>
    ensures { OnOk result (board.new ≡ reason_labelled wait board.old) }
{
    let words = words_of(alloc, wait.why)?;
    let width = label_width(board.depth(wait.lane), words.as_slice());
    board.widen(wait.lane, width as u16);
    Ok(())
}

// The lanes have to be wide enough for the labels of the rows of these.
pub(crate) fn widen_all(alloc: Global, board: &mut Board, waits: &[Wait]) -> Result<(), Memory>
    ensures { OnOk result (board.new ≡ all_labelled waits.now board.old) }
{
    let mut rest = waits;
    'waits: while let Some((wait, others)) = rest.split_first() {
        widen(alloc, board, *wait)?;
        rest = others;
    }
    Ok(())
}
