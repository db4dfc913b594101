//! What is said of the end of a history.
ghost use Rattle.std.specs.Prelude.{◌≡◌, ◌++◌, OnOk};
ghost use Rattle.com_draw_stories.specs.Ends.{body_story, ended_words, event_text, later_lanes, later_sinks};
ghost use Rattle.com_draw_stories.specs.Ends.{message_story, pool_story, ring_lanes, ring_text, sinks_text};
ghost use Rattle.com_draw_stories.specs.Ends.{summary_front, summary_text};
ghost use Rattle.com_draw_words.specs.Escapes.{word_and_number};
ghost use Rattle.com_model.specs.Text.{ended_text};

use crate::phrases::{push_at, push_does};
use com_base::{ByteList, Memory};
use com_draw_words::{push_link, push_number, push_word_and_number};
use com_model::Ended;

/// Appends that a lane waits for a message. The only error is want of memory.
pub fn push_message_story(out: &mut ByteList, lane: u32) -> Result<(), Memory>
    ensures { OnOk result (out.new ≡ out.old ++ message_story lane) }
{
    push_does(out, lane, b" waits for a message")
}

/// Appends that a lane waits for a body in another lane. The only error is want of memory.
pub fn push_body_story(out: &mut ByteList, lane: u32, to: u32, call: u32) -> Result<(), Memory>
    ensures { OnOk result (out.new ≡ out.old ++ body_story lane to call) }
{
    push_at(out, lane, b" waits for L", to)?;
    out.push_all(b", which runs ")?;
    push_link(out, call)
}

/// Appends that a lane waits for a thread of the pool. The only error is want of memory.
pub fn push_pool_story(out: &mut ByteList, lane: u32, call: u32) -> Result<(), Memory>
    ensures { OnOk result (out.new ≡ out.old ++ pool_story lane call) }
{
    push_does(out, lane, b" waits for a free thread of the pool, for ")?;
    push_link(out, call)
}

// Appends the lanes of a ring behind its first one, each behind a comma.
fn push_later_lanes(out: &mut ByteList, lanes: &[u32]) -> Result<(), Memory>
    ensures { OnOk result (out.new ≡ out.old ++ later_lanes lanes.now) }
{
    let mut rest = lanes;
    'lanes: while let Some((lane, others)) = rest.split_first() {
        push_word_and_number(out, b", L", *lane)?;
        rest = others;
    }
    Ok(())
}

// Appends the lanes of a ring in its order, with commas between them.
fn push_ring_lanes(out: &mut ByteList, lanes: &[u32]) -> Result<(), Memory>
    ensures { OnOk result (out.new ≡ out.old ++ ring_lanes lanes.now) }
{
    match lanes.split_first() {
        None => Ok(()),
        Some((first, rest)) => {
            push_word_and_number(out, b"L", *first)?;
            push_later_lanes(out, rest)
        }
    }
}

/// Appends which lanes wait in a ring. The only error is want of memory.
pub fn push_ring(out: &mut ByteList, lanes: &[u32]) -> Result<(), Memory>
    ensures { OnOk result (out.new ≡ out.old ++ ring_text lanes.now) }
{
    out.push_all(b"<strong>They wait in a ring: ")?;
    push_ring_lanes(out, lanes)?;
    out.push_all(b"</strong>")
}

// Appends words, and the cookie of a sink behind them.
fn push_sink(out: &mut ByteList, words: &[u8], cookie: u64) -> Result<(), Memory>
    ensures { OnOk result (out.new ≡ out.old ++ word_and_number words.now cookie) }
{
    out.push_all(words)?;
    push_number(out, cookie)
}

// Appends the cookies of an event's sinks behind the first one, each behind a comma.
fn push_later_sinks(out: &mut ByteList, sinks: &[u64]) -> Result<(), Memory>
    ensures { OnOk result (out.new ≡ out.old ++ later_sinks sinks.now) }
{
    let mut rest = sinks;
    'sinks: while let Some((sink, others)) = rest.split_first() {
        push_sink(out, b", ", *sink)?;
        rest = others;
    }
    Ok(())
}

// Appends the sinks to which an event went, by their cookies, or that there is none.
fn push_sinks(out: &mut ByteList, sinks: &[u64]) -> Result<(), Memory>
    ensures { OnOk result (out.new ≡ out.old ++ sinks_text sinks.now) }
{
    match sinks.split_first() {
        None => out.push_all(b"no sink"),
        Some((first, rest)) => {
            push_sink(out, b"sinks ", *first)?;
            push_later_sinks(out, rest)
        }
    }
}

/// Appends to which sinks the Outs of an event went, by their cookies. The only error is want of memory.
pub fn push_event(out: &mut ByteList, call: u32, sinks: &[u64]) -> Result<(), Memory>
    ensures { OnOk result (out.new ≡ out.old ++ event_text call sinks.now) }
{
    out.push_all(b"The event of ")?;
    push_link(out, call)?;
    out.push_all(b" went to ")?;
    push_sinks(out, sinks)
}

// Appends how a history ended, behind the time of its clock: with all done, stuck, or with as many
// entries as it may have.
fn push_ended(out: &mut ByteList, ended: Ended) -> Result<(), Memory>
    ensures { OnOk result (out.new ≡ out.old ++ ended_words ended) }
{
    match ended {
        Ended::Ok => out.push_all(b" ms. <strong>Every thread came to its end.</strong></p>\n"),
        Ended::Stuck => out.push_all(b" ms. <strong>It is stuck: nobody can go on.</strong></p>\n"),
        Ended::Budget => {
            out.push_all(b" ms. <strong>It was broken off at its greatest length.</strong></p>\n")
        }
    }
}

// Appends how a history ended, in the report's word for it.
fn push_end(out: &mut ByteList, ended: Ended) -> Result<(), Memory>
    ensures { OnOk result (out.new ≡ out.old ++ ended_text ended) }
{
    match ended {
        Ended::Ok => out.push_all(b"ok"),
        Ended::Stuck => out.push_all(b"stuck"),
        Ended::Budget => out.push_all(b"budget"),
    }
}

// Appends what opens the summary: a paragraph whose class tells how the history ended.
fn push_summary_front(out: &mut ByteList, ended: Ended) -> Result<(), Memory>
    ensures { OnOk result (out.new ≡ out.old ++ summary_front ended) }
{
    out.push_all(b"<p class=\"")?;
    push_end(out, ended)?;
    out.push_all(b"\">")
}

/// Appends how many entries a history has, where its clock stands, and how it ended. The only error is want
/// of memory.
pub fn push_summary(
    out: &mut ByteList,
    ended: Ended,
    entries: u64,
    clock: u64,
) -> Result<(), Memory>
    ensures { OnOk result (out.new ≡ out.old ++ summary_text ended entries clock) }
{
    push_summary_front(out, ended)?;
    push_number(out, entries)?;
    out.push_all(b" entries, clock ")?;
    push_number(out, clock)?;
    push_ended(out, ended)
}
