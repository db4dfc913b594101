//! Boxes, and the marks of objects that are touched.
ghost use Rattle.std.specs.Prelude.{◌≡◌, ◌++◌, ◌<◌, ◌≤◌, ◌^◌, OnOk};
ghost use Rattle.com_draw_words.specs.Boxes.{box_class, box_element, box_inner, box_size, box_text};
ghost use Rattle.com_draw_words.specs.Boxes.{foot_text, hue_of, is_drawn, is_of_object, kind_text};
ghost use Rattle.com_draw_words.specs.Boxes.{touch_text, up_text};

use crate::limits::LEVELS;
use crate::texts::{push_number, push_word_and_number};
use com_base::{ByteList, FIRST_STA, Memory};

/// What a box stands for.
#[derive(Debug, Clone, Copy, PartialEq, Eq)]
pub enum BoxKind {
    /// A lane is in an apartment.
    Home,
    /// A method runs.
    Body,
    /// A call waits for another lane.
    Wait,
    /// A call goes on in its own lane.
    Call,
    /// A call was refused at its issue.
    Refused,
    /// A lane pumps.
    Pump,
    /// An object lives.
    Live,
    /// An object is cut off.
    Cut,
}

/// How a box ends in its section.
#[derive(Debug, Clone, Copy, PartialEq, Eq)]
pub enum Foot {
    /// Within the section.
    Inner,
    /// It goes on below the section.
    Down,
    /// It goes on below the section, and its lane waits in the ring.
    Ring,
}

/// The text in a box.
#[derive(Debug, Clone, Copy, PartialEq, Eq)]
pub enum BoxText {
    /// None.
    Nothing,
    /// A call.
    Call(u32),
    /// An object.
    Object(u32),
}

/// A box of a lane at a level, from its first row in a section to its last one.
#[derive(Debug, Clone, Copy, PartialEq, Eq)]
pub struct DrawnBox {
    /// What it stands for.
    pub kind: BoxKind,
    /// The number of its hue.
    pub hue: u8,
    /// Its lane, or that of the objects.
    pub lane: u32,
    /// Its level in the lane.
    pub level: u32,
    /// Its first row in the section.
    pub top: u32,
    /// Its last row in the section.
    pub row: u32,
    /// Whether it began above the section.
    pub is_up: bool,
    /// How it ends.
    pub foot: Foot,
    /// The text in it.
    pub text: BoxText,
}

// How many hues the single-threaded apartments of threads have, in turn.
const THREAD_HUES: u32 = 6;

/// The hue of what stands in no apartment.
pub const NO_HUE: u8 = 9;

/// The number of an apartment's hue: 0 to 2 for the first three, and for the others 3 to 8 in turn.
pub fn hue_of(apartment: u32) -> u8
    ensures { result ≡ hue_of apartment }
{
    if apartment < FIRST_STA {
        return apartment as u8;
    }
    (FIRST_STA + (apartment - FIRST_STA) % THREAD_HUES) as u8
}

// Appends the class of a box by what it stands for.
fn push_kind(out: &mut ByteList, kind: BoxKind) -> Result<(), Memory>
    ensures { OnOk result (out.new ≡ out.old ++ kind_text kind) }
{
    match kind {
        BoxKind::Home => out.push_all(b"home"),
        BoxKind::Body => out.push_all(b"body"),
        BoxKind::Wait => out.push_all(b"wait"),
        BoxKind::Call => out.push_all(b"call"),
        BoxKind::Refused => out.push_all(b"none"),
        BoxKind::Pump => out.push_all(b"pump"),
        BoxKind::Live => out.push_all(b"live"),
        BoxKind::Cut => out.push_all(b"cut"),
    }
}

// Appends the class of a box that began above its section, and nothing for one that begins in it.
fn push_up(out: &mut ByteList, is_up: bool) -> Result<(), Memory>
    ensures { OnOk result (out.new ≡ out.old ++ up_text is_up) }
{
    if is_up {
        return out.push_all(b" up");
    }
    Ok(())
}

// Appends the classes of a box that goes on below its section, and nothing for one that ends in it.
fn push_foot(out: &mut ByteList, foot: Foot) -> Result<(), Memory>
    ensures { OnOk result (out.new ≡ out.old ++ foot_text foot) }
{
    match foot {
        Foot::Inner => Ok(()),
        Foot::Down => out.push_all(b" dn"),
        Foot::Ring => out.push_all(b" dn ring"),
    }
}

// Appends the element's name and its classes, up to the end of the latter.
fn push_class(out: &mut ByteList, shape: DrawnBox) -> Result<(), Memory>
    ensures { OnOk result (out.new ≡ out.old ++ box_class shape) }
{
    out.push_all(b"<i class=\"")?;
    push_kind(out, shape.kind)?;
    push_word_and_number(out, b" k", shape.hue as u32)?;
    push_word_and_number(out, b" l", shape.lane)?;
    push_up(out, shape.is_up)?;
    push_foot(out, shape.foot)
}

// Appends its level and its number of rows.
fn push_size(out: &mut ByteList, level: u32, rows: u32) -> Result<(), Memory>
    ensures { OnOk result (out.new ≡ out.old ++ box_size level rows) }
{
    push_word_and_number(out, b"\" style=\"--d:", level)?;
    push_word_and_number(out, b";--h:", rows)?;
    out.push_all(b"\">")
}

// Appends the text in a box: `c` and the number of a call, `o` and that of an object, or nothing.
fn push_inner(out: &mut ByteList, text: BoxText) -> Result<(), Memory>
    ensures { OnOk result (out.new ≡ out.old ++ box_inner text) }
{
    match text {
        BoxText::Nothing => Ok(()),
        BoxText::Call(call) => push_word_and_number(out, b"c", call),
        BoxText::Object(object) => push_word_and_number(out, b"o", object),
    }
}

// Whether a box is that of an object, alive or cut off, which is drawn at every level.
fn is_of_object(kind: BoxKind) -> bool
    ensures { result ≡ is_of_object kind }
{
    match kind {
        BoxKind::Live | BoxKind::Cut => true,
        _ => false,
    }
}

// Whether the box has a row, and stands at a level that is drawn.
fn is_drawn(shape: DrawnBox) -> bool
    ensures { result ≡ is_drawn shape }
{
    (shape.level <= LEVELS || is_of_object(shape.kind)) && shape.top <= shape.row
}

// Appends the element of a box that has a row.
fn push_element(out: &mut ByteList, shape: DrawnBox) -> Result<(), Memory>
    requires top { shape.top ≤ shape.row }
    requires row { shape.row < 2 ^ 31 }
    ensures { OnOk result (out.new ≡ out.old ++ box_element shape) }
{
    push_class(out, shape)?;
    push_size(out, shape.level, shape.row - shape.top + 1)?;
    push_inner(out, shape.text)?;
    out.push_all(b"</i>")
}

/// Appends a box where it is drawn: it has a row in its section, and its level is at most 24 or it is an
/// object's. Rows are below 2^31. The only error is want of memory.
pub fn push_box(out: &mut ByteList, shape: DrawnBox) -> Result<(), Memory>
    requires { shape.row < 2 ^ 31 }
    ensures { OnOk result (out.new ≡ out.old ++ box_text shape) }
{
    if !is_drawn(shape) {
        return Ok(());
    }
    push_element(out, shape)
}

/// Appends the mark that an object is touched, at its level in the lane of the objects. The only error is
/// want of memory.
pub fn push_touch(out: &mut ByteList, lane: u32, level: u32) -> Result<(), Memory>
    ensures { OnOk result (out.new ≡ out.old ++ touch_text lane level) }
{
    push_word_and_number(out, b"<b class=\"l", lane)?;
    push_word_and_number(out, b"\" style=\"--d:", level)?;
    out.push_all(b"\"></b>")
}
