//! Arrows between lanes.
ghost use Rattle.std.specs.Prelude.{◌≡◌, ◌++◌, OnOk};
ghost use Rattle.com_draw_words.specs.Arrows.{arrow_ends, arrow_element, arrow_text, kind_text, way_text};

use crate::labels::drawn_level;
use crate::texts::push_word_and_number;
use com_base::{ByteList, Memory};

/// What an arrow stands for.
#[derive(Debug, Clone, Copy, PartialEq, Eq)]
pub enum ArrowKind {
    /// A call.
    Go,
    /// The answer to a call.
    Answer,
    /// A call was refused or put off.
    Refusal,
    /// A word, a quit, or what a lane waits for.
    Word,
    /// What a lane of the ring waits for.
    Ring,
}

/// An arrow in the row of a lane, between a level of it and a level of another lane.
#[derive(Debug, Clone, Copy, PartialEq, Eq)]
pub struct Arrow {
    /// What it stands for.
    pub kind: ArrowKind,
    /// The other lane.
    pub other: u32,
    /// The level in the other lane.
    pub other_level: u32,
    /// The lane of the row.
    pub lane: u32,
    /// The level in the lane of the row.
    pub level: u32,
}

// Appends the class of an arrow by what it stands for.
fn push_kind(out: &mut ByteList, kind: ArrowKind) -> Result<(), Memory>
    ensures { OnOk result (out.new ≡ out.old ++ kind_text kind) }
{
    match kind {
        ArrowKind::Go => out.push_all(b"go"),
        ArrowKind::Answer => out.push_all(b"re"),
        ArrowKind::Refusal => out.push_all(b"no"),
        ArrowKind::Word => out.push_all(b"to"),
        ArrowKind::Ring => out.push_all(b"in"),
    }
}

// Appends on which side the other lane is.
fn push_way(out: &mut ByteList, other: u32, lane: u32) -> Result<(), Memory>
    ensures { OnOk result (out.new ≡ out.old ++ way_text other lane) }
{
    if other < lane {
        return out.push_all(b" r");
    }
    out.push_all(b" l")
}

// Appends the two ends of an arrow, in the other lane and in its own, each at its drawn level.
fn push_ends(out: &mut ByteList, arrow: Arrow) -> Result<(), Memory>
    ensures { OnOk result (out.new ≡ out.old ++ arrow_ends arrow) }
{
    push_word_and_number(out, b" l", arrow.other)?;
    push_word_and_number(out, b" m", arrow.lane)?;
    push_word_and_number(out, b"\" style=\"--i:", drawn_level(arrow.other_level))?;
    push_word_and_number(out, b";--j:", drawn_level(arrow.level))
}

// Appends the element of an arrow, whose lanes are two.
fn push_element(out: &mut ByteList, arrow: Arrow) -> Result<(), Memory>
    ensures { OnOk result (out.new ≡ out.old ++ arrow_element arrow) }
{
    out.push_all(b"<s class=\"")?;
    push_kind(out, arrow.kind)?;
    push_way(out, arrow.other, arrow.lane)?;
    push_ends(out, arrow)?;
    out.push_all(b"\"></s>")
}

/// Appends an arrow where it leads to another lane. The only error is want of memory.
pub fn push_arrow(out: &mut ByteList, arrow: Arrow) -> Result<(), Memory>
    ensures { OnOk result (out.new ≡ out.old ++ arrow_text arrow) }
{
    if arrow.other == arrow.lane {
        return Ok(());
    }
    push_element(out, arrow)
}
