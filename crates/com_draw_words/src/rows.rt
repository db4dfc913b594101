//! The rows of entries, of the gap, and of reasons.
ghost use Rattle.std.specs.Prelude.{◌≡◌, ◌++◌, OnOk};
ghost use Rattle.com_draw_words.specs.Rows.{entry_call, entry_front_text, entry_ident, entry_number};
ghost use Rattle.com_draw_words.specs.Rows.{entry_title, gap_text, mark_text, reason_front_text};
ghost use Rattle.com_draw_words.specs.Rows.{row_end_text, row_middle_text};

use crate::texts::{push_around, push_escaped, push_number};
use com_base::{ByteList, Memory};

/// What an entry's line is marked by.
#[derive(Debug, Clone, Copy, PartialEq, Eq)]
pub enum Mark {
    /// Nothing.
    Plain,
    /// What it says is bad.
    Bad,
    /// The clock moves.
    Tick,
}

// Appends by what an entry is found: its place.
fn push_ident(out: &mut ByteList, place: u64) -> Result<(), Memory>
    ensures { OnOk result (out.new ≡ out.old ++ entry_ident place) }
{
    out.push_all(b"<p id=\"e")?;
    push_number(out, place)?;
    out.push_all(b"\" data-entry=\"")?;
    push_number(out, place)?;
    out.push_all(b"\"")
}

// Appends the call of an entry, where it has one.
fn push_call(out: &mut ByteList, call: Option<u32>) -> Result<(), Memory>
    ensures { OnOk result (out.new ≡ out.old ++ entry_call call) }
{
    match call {
        None => Ok(()),
        Some(call) => push_around(out, b" data-call=\"c", call, b"\""),
    }
}

// Appends the class of a row where its entry says something bad or the clock moves; else none.
fn push_mark(out: &mut ByteList, mark: Mark) -> Result<(), Memory>
    ensures { OnOk result (out.new ≡ out.old ++ mark_text mark) }
{
    match mark {
        Mark::Plain => Ok(()),
        Mark::Bad => out.push_all(b" class=\"bad\""),
        Mark::Tick => out.push_all(b" class=\"tick\""),
    }
}

// Appends the entry's line as the title of its row, escaped.
fn push_title(out: &mut ByteList, title: &[u8]) -> Result<(), Memory>
    ensures { OnOk result (out.new ≡ out.old ++ entry_title title.now) }
{
    out.push_all(b" title=\"")?;
    push_escaped(out, title)?;
    out.push_all(b"\">")
}

// Appends the entry's place as it is shown, up to where the story begins.
fn push_place(out: &mut ByteList, place: u64) -> Result<(), Memory>
    ensures { OnOk result (out.new ≡ out.old ++ entry_number place) }
{
    out.push_all(b"<b>")?;
    push_number(out, place)?;
    out.push_all(b"</b><span>")
}

/// Appends the front of the row of an entry, up to where its story begins: its place in the history, its call
/// where it has one, its mark, and its line as the title, which is escaped. The only error is want of memory.
pub fn push_entry_front(
    out: &mut ByteList,
    place: u64,
    call: Option<u32>,
    mark: Mark,
    title: &[u8],
) -> Result<(), Memory>
    ensures { OnOk result (out.new ≡ out.old ++ entry_front_text place call mark title.now) }
{
    push_ident(out, place)?;
    push_call(out, call)?;
    push_mark(out, mark)?;
    push_title(out, title)?;
    push_place(out, place)
}

/// Appends what stands between the story of a row and its drawing. The only error is want of memory.
pub fn push_row_middle(out: &mut ByteList) -> Result<(), Memory>
    ensures { OnOk result (out.new ≡ out.old ++ row_middle_text) }
{
    out.push_all(b"</span><i aria-hidden=\"true\">")
}

/// Appends the end of a row. The only error is want of memory.
pub fn push_row_end(out: &mut ByteList) -> Result<(), Memory>
    ensures { OnOk result (out.new ≡ out.old ++ row_end_text) }
{
    out.push_all(b"</i></p>\n")
}

/// Appends the row that says how many entries are not drawn. The only error is want of memory.
pub fn push_gap(out: &mut ByteList, entries: u64) -> Result<(), Memory>
    ensures { OnOk result (out.new ≡ out.old ++ gap_text entries) }
{
    out.push_all(b"<p class=\"gap\"><b></b><span>")?;
    push_number(out, entries)?;
    out.push_all(b" more entries are not drawn; below is how they end</span></p>\n")
}

/// Appends the front of the row of a reason, up to where its story begins; it is bad where its lane is in the
/// ring. The only error is want of memory.
pub fn push_reason_front(out: &mut ByteList, is_bad: bool) -> Result<(), Memory>
    ensures { OnOk result (out.new ≡ out.old ++ reason_front_text is_bad) }
{
    if is_bad {
        return out.push_all(b"<p class=\"bad\"><b></b><span>");
    }
    out.push_all(b"<p><b></b><span>")
}
