//! What is printed of an explanation.
ghost use Rattle.std.specs.Prelude.{◌≡◌, ◌++◌, IfOk, OnOk, decimal};
ghost use Rattle.com_waits.specs.Texts.{at_call, cycle_line, lane_words, text_of, wait_line, wait_lines};
ghost use Rattle.com_waits.specs.Texts.{waits_text, why_text};

use crate::reasons::{Wait, Waits, Why};
use com_base::{ByteList, Memory};
use itoa::Buffer;
use std::alloc::Global;

// Appends a number in decimal digits.
fn push_number(out: &mut ByteList, number: u32) -> Result<(), Memory>
    ensures { OnOk result (out.new ≡ out.old ++ decimal number) }
{
    let mut digits = Buffer::new();
    out.push_all(digits.format(number as u64).as_bytes())
}

// Appends a word, a call and a lane.
fn push_at_call(out: &mut ByteList, word: &[u8], call: u32, lane: u32) -> Result<(), Memory>
    ensures { OnOk result (out.new ≡ out.old ++ at_call word.now call lane) }
{
    out.push_all(word)?;
    push_number(out, call)?;
    out.push_all(b" L")?;
    push_number(out, lane)
}

// Appends a reason: a message; or a body or the pool, with the call and the lane.
fn push_why(out: &mut ByteList, why: Why) -> Result<(), Memory>
    ensures { OnOk result (out.new ≡ out.old ++ why_text why) }
{
    match why {
        Why::Message => out.push_all(b" message"),
        Why::Body { call, lane } => push_at_call(out, b" body c", call, lane),
        Why::Pool { call, lane } => push_at_call(out, b" pool c", call, lane),
    }
}

// Appends the line of a lane that waits.
fn push_wait(out: &mut ByteList, wait: Wait) -> Result<(), Memory>
    ensures { OnOk result (out.new ≡ out.old ++ wait_line wait) }
{
    out.push_all(b"L")?;
    push_number(out, wait.lane)?;
    push_why(out, wait.why)?;
    out.push_all(b"\n")
}

// Appends a line for each lane that waits.
fn push_waits(out: &mut ByteList, waits: &[Wait]) -> Result<(), Memory>
    ensures { OnOk result (out.new ≡ out.old ++ wait_lines waits.now) }
{
    let mut rest = waits;
    'waits: while let Some((wait, others)) = rest.split_first() {
        push_wait(out, *wait)?;
        rest = others;
    }
    Ok(())
}

// Appends the lanes of a cycle, with a space before each.
fn push_lanes(out: &mut ByteList, lanes: &[u32]) -> Result<(), Memory>
    ensures { OnOk result (out.new ≡ out.old ++ lane_words lanes.now) }
{
    let mut rest = lanes;
    'lanes: while let Some((lane, others)) = rest.split_first() {
        out.push_all(b" L")?;
        push_number(out, *lane)?;
        rest = others;
    }
    Ok(())
}

// Appends the line of the cycle. It has `-` where there is no cycle.
fn push_cycle(out: &mut ByteList, cycle: &[u32]) -> Result<(), Memory>
    ensures { OnOk result (out.new ≡ out.old ++ cycle_line cycle.now) }
{
    if cycle.is_empty() {
        return out.push_all(b"cycle -\n");
    }
    out.push_all(b"cycle")?;
    push_lanes(out, cycle)?;
    out.push_all(b"\n")
}

// Appends the lines of the lanes that wait, and the line of the cycle.
fn push_all(out: &mut ByteList, waits: &Waits) -> Result<(), Memory>
    ensures { OnOk result (out.new ≡ out.old ++ waits_text waits.now) }
{
    push_waits(out, waits.waits.as_slice())?;
    push_cycle(out, waits.cycle.as_slice())
}

// Appends what is printed of an explanation, or that there is none.
fn push_text(out: &mut ByteList, waits: &Option<Waits>) -> Result<(), Memory>
    ensures { OnOk result (out.new ≡ out.old ++ text_of waits.now) }
{
    match waits {
        Some(waits) => push_all(out, waits),
        None => out.push_all(b"not stuck\n"),
    }
}

/// The text of an explanation: a line for each lane that waits, and a line with the cycle; or a line that
/// says that the history is not stuck. The only error is want of memory.
pub fn text_of(alloc: Global, waits: &Option<Waits>) -> Result<ByteList, Memory>
    ensures { IfOk result (λ text. text ≡ text_of waits.now) }
{
    let mut out = ByteList::new(alloc);
    push_text(&mut out, waits)?;
    Ok(out)
}
