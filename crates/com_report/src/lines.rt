//! The line of an entry.
ghost use Rattle.std.specs.Prelude.{◌≡◌, ◌++◌, ◌+◌, ◌≤◌, drop, length, OnOk, OnErr};
ghost use Rattle.com_model.specs.Text.{line_text};
ghost use Rattle.com_report.specs.Width.{deed_width};

use crate::deeds::deed;
use crate::pieces::{number, word, word_and_number};
use crate::width::line_room;
use com_base::{ByteList, Memory};
use com_model::Entry;
use std::alloc::Global;

/// Appends the line of the entry that stands at `place` of a history, counted from 1: the place, the
/// lane behind an `L`, and what was done. It ends with a line end.
///
/// In version 2 each HRESULT is eight upper-case hexadecimal digits; otherwise it is its name, or these
/// digits where it has none. The only error is want of memory, and then `out` is as before.
pub fn line(
    alloc: Global,
    version: u8,
    place: u64,
    entry: &Entry,
    out: &mut ByteList,
) -> Result<(), Memory>
    ensures ok { OnOk result (out.new ≡ out.old ++ line_text version place entry.now) }
    ensures err { OnErr result (out.new ≡ out.old) }
{
    let Some(size) = line_room(&entry.deed) else {
        return Err(Memory);
    };
    if size > ROOM {
        return wide_line(alloc, size, version, place, entry, out);
    }
    let mut room = [0u8; ROOM];
    let start = entry_line(&mut room, version, place, entry);
    push_from(out, &room, start)
}

// Appends a line that is made in a list of its own.
#[inline(never)]
fn wide_line(
    alloc: Global,
    size: usize,
    version: u8,
    place: u64,
    entry: &Entry,
    out: &mut ByteList,
) -> Result<(), Memory>
    requires { deed_width entry.now.deed + 208 ≤ size }
    ensures ok { OnOk result (out.new ≡ out.old ++ line_text version place entry.now) }
    ensures err { OnErr result (out.new ≡ out.old) }
{
    let mut room = vec![in alloc; 0u8; size]?;
    let start = entry_line(room.as_mut_slice(), version, place, entry);
    push_from(out, room.as_slice(), start)
}

// Appends what stands in the room from there on.
fn push_from(out: &mut ByteList, room: &[u8], start: usize) -> Result<(), Memory>
    requires { start ≤ length room.now }
    ensures ok { OnOk result (out.new ≡ out.old ++ drop start room.now) }
    ensures err { OnErr result (out.new ≡ out.old) }
{
    out.push_all(&room[start..])
}

/// Writes an entry's line at the end of the room, and says where it begins.
#[inline(always)]
pub(crate) fn entry_line(room: &mut [u8], version: u8, place: u64, entry: &Entry) -> usize
    requires { deed_width entry.now.deed + 208 ≤ length room.old }
    ensures start { result ≤ length room.new }
    ensures written { drop result room.new ≡ line_text version place entry.now }
{
    let end = room.len();
    let at = word(room, end, b"\n");
    let at = deed(room, at, version, &entry.deed);
    let at = word_and_number(room, at, b" L", entry.lane as u64);
    number(room, at, place)
}

/// The room that is enough for most lines.
pub(crate) const ROOM: usize = 256;
