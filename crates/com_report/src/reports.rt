//! The report behind a history.
ghost use Rattle.std.specs.Prelude.{◌≡◌, ◌++◌, [], OnOk, OnErr};
ghost use Rattle.com_model.specs.Text.{report_text, object_line, object_lines, object_state_text, ended_text};

use crate::words::Text;
use com_base::{ByteList, Memory};
use com_model::{Counts, Ended, ObjectState};
use std::alloc::Global;
use std::mem;

/// Appends the report: a line for each object in order of making, whose counts these are, and then how
/// many entries the history has, where its clock stands, and how it ended.
///
/// The only error is want of memory, and then `out` is as before.
pub fn report(
    alloc: Global,
    counts: &[Counts],
    entries: u64,
    clock: u64,
    ended: Ended,
    out: &mut ByteList,
) -> Result<(), Memory>
    ensures ok { OnOk result (out.new ≡ out.old ++ report_text counts.now entries clock ended) }
    ensures err { OnErr result (out.new ≡ out.old) }
{
    let mut text = Text::behind(mem::replace(out, ByteList::new(alloc)));
    match whole_report(&mut text, counts, entries, clock, ended) {
        Ok(()) => {
            *out = text.into_list();
            Ok(())
        }
        Err(error) => {
            *out = text.taken_back();
            Err(error)
        }
    }
}

// Writes a report.
fn whole_report(
    text: &mut Text,
    counts: &[Counts],
    entries: u64,
    clock: u64,
    ended: Ended,
) -> Result<(), Memory>
    requires { text.old.text ≡ [] }
    ensures front { text.new.front ≡ text.old.front }
    ensures ok { OnOk result (text.new.text ≡ report_text counts.now entries clock ended) }
{
    objects(text, counts)?;
    text.word_and_number(b"entries ", entries)?;
    text.word_and_number(b" clock ", clock)?;
    text.push(b"\nend ")?;
    push_ended(text, ended)?;
    text.push(b"\n")
}

// Appends the lines of objects, which are numbered from 1.
#[tactic(auto, using(crate::proofs::Parts::objects_in_two))]
fn objects(text: &mut Text, counts: &[Counts]) -> Result<(), Memory>
    ensures front { text.new.front ≡ text.old.front }
    ensures ok { OnOk result (text.new.text ≡ text.old.text ++ object_lines 1 counts.now) }
{
    let mut rest = counts;
    let mut number = 1u64;
    'objects: while let Some((next, others)) = rest.split_first() {
        object(text, number, next)?;
        number += 1;
        rest = others;
    }
    Ok(())
}

// Appends the line of an object.
fn object(text: &mut Text, number: u64, counts: &Counts) -> Result<(), Memory>
    ensures front { text.new.front ≡ text.old.front }
    ensures ok { OnOk result (text.new.text ≡ text.old.text ++ object_line number counts.now) }
{
    text.word_and_number(b"o", number)?;
    text.word_and_number(b" C", counts.class as u64)?;
    text.word_and_number(b" a", counts.owner as u64)?;
    text.push(b" ")?;
    push_state(text, counts.state)?;
    text.word_and_number(b" direct ", counts.direct)?;
    text.word_and_number(b" proxies ", counts.proxies)?;
    text.word_and_number(b" packets ", counts.packets)?;
    text.word_and_number(b" tables ", counts.tables)?;
    text.word_and_number(b" stub ", counts.stub)?;
    text.push(b"\n")
}

// Appends whether an object is connected, is disconnected and did not end yet, or ended.
fn push_state(text: &mut Text, state: ObjectState) -> Result<(), Memory>
    ensures front { text.new.front ≡ text.old.front }
    ensures ok { OnOk result (text.new.text ≡ text.old.text ++ object_state_text state) }
{
    match state {
        ObjectState::Live => text.push(b"live"),
        ObjectState::Disconnected => text.push(b"disconnected"),
        ObjectState::Released => text.push(b"released"),
    }
}

// Appends how a history ended: with all done, stuck, or with as many entries as it may have.
fn push_ended(text: &mut Text, ended: Ended) -> Result<(), Memory>
    ensures front { text.new.front ≡ text.old.front }
    ensures ok { OnOk result (text.new.text ≡ text.old.text ++ ended_text ended) }
{
    match ended {
        Ended::Ok => text.push(b"ok"),
        Ended::Stuck => text.push(b"stuck"),
        Ended::Budget => text.push(b"budget"),
    }
}
