//! Labels: a few words at the lane and the level of an entry.
ghost use Rattle.std.specs.Prelude.{◌≡◌, ◌++◌, ◌<◌, ◌^◌, OnOk, length};
ghost use Rattle.com_draw_words.specs.Labels.{bad_text, class_text, drawn_level, ident_text, label_classes};
ghost use Rattle.com_draw_words.specs.Labels.{label_front, label_length, label_text, label_width};
ghost use Rattle.com_draw_words.specs.Labels.{label_words};

use crate::limits::{CHAR, EDGE, LABEL_MOST, LEVELS, STEP};
use crate::texts::{push_escaped, push_word_and_number};
use com_base::{ByteList, Memory};
use itoa::Buffer;

/// What a label is about, beside that it is bad.
#[derive(Debug, Clone, Copy, PartialEq, Eq)]
pub enum LabelClass {
    /// Nothing of these.
    Plain,
    /// An object was made, in an apartment of this hue.
    New(u8),
    /// A lane is over.
    Over,
}

/// How a label looks, and what it can be found by.
#[derive(Debug, Clone, Copy, PartialEq, Eq)]
pub struct Look {
    /// What it is about.
    pub class: LabelClass,
    /// Whether what it says is bad.
    pub is_bad: bool,
    /// The call by which it is found, where it has one.
    pub ident: Option<u32>,
}

// The level at which a label or an end of an arrow is drawn.
pub(crate) fn drawn_level(level: u32) -> u32
    ensures { result ≡ drawn_level level }
{
    level.min(LEVELS)
}

// How many bytes a label has with the word before it that a level beyond those that are drawn has.
fn label_length(level: u32, words: usize) -> usize
    requires { words < 2 ^ 63 }
    ensures { result ≡ label_length level words }
{
    if level <= LEVELS {
        return words;
    }
    let mut digits = Buffer::new();
    let beyond = (level - LEVELS) as u64;
    digits.format(beyond).len() + 3 + words
}

/// How many pixels wide a lane has to be for a label.
pub fn label_width(level: u32, words: &[u8]) -> u32
    ensures { result ≡ label_width level (length words.now) }
{
    let length = label_length(level, words.len());
    let most = (LABEL_MOST / CHAR) as usize + 1;
    let few = length.min(most) as u32;
    drawn_level(level) * STEP + (CHAR * few).min(LABEL_MOST) + EDGE
}

// Appends by what a label is found: its call, where it has one.
fn push_ident(out: &mut ByteList, ident: Option<u32>) -> Result<(), Memory>
    ensures { OnOk result (out.new ≡ out.old ++ ident_text ident) }
{
    match ident {
        None => Ok(()),
        Some(call) => {
            push_word_and_number(out, b" id=\"c", call)?;
            out.push_all(b"\"")
        }
    }
}

// Appends the class of an object that was made, in its apartment's hue, or of a lane that is over.
fn push_class(out: &mut ByteList, class: LabelClass) -> Result<(), Memory>
    ensures { OnOk result (out.new ≡ out.old ++ class_text class) }
{
    match class {
        LabelClass::Plain => Ok(()),
        LabelClass::New(hue) => push_word_and_number(out, b" new k", hue as u32),
        LabelClass::Over => out.push_all(b" end"),
    }
}

// Appends the class of a label that says something bad, and nothing for another.
fn push_bad(out: &mut ByteList, is_bad: bool) -> Result<(), Memory>
    ensures { OnOk result (out.new ≡ out.old ++ bad_text is_bad) }
{
    if is_bad {
        return out.push_all(b" bad");
    }
    Ok(())
}

// Appends the classes of a label: its lane, what it is about, and whether that is bad.
fn push_classes(out: &mut ByteList, lane: u32, look: Look) -> Result<(), Memory>
    ensures { OnOk result (out.new ≡ out.old ++ label_classes lane look) }
{
    push_word_and_number(out, b" class=\"l", lane)?;
    push_class(out, look.class)?;
    push_bad(out, look.is_bad)
}

// Appends the front of a label, up to where its words begin.
fn push_front(out: &mut ByteList, lane: u32, level: u32, look: Look) -> Result<(), Memory>
    ensures { OnOk result (out.new ≡ out.old ++ label_front lane level look) }
{
    out.push_all(b"<u")?;
    push_ident(out, look.ident)?;
    push_classes(out, lane, look)?;
    push_word_and_number(out, b"\" style=\"--d:", drawn_level(level))?;
    out.push_all(b"\">")
}

// Appends a label's words, escaped; how far a level is beyond those drawn stands before them.
fn push_words(out: &mut ByteList, level: u32, words: &[u8]) -> Result<(), Memory>
    ensures { OnOk result (out.new ≡ out.old ++ label_words level words.now) }
{
    if level <= LEVELS {
        return push_escaped(out, words);
    }
    push_word_and_number(out, b"+", level - LEVELS)?;
    out.push_all(b": ")?;
    push_escaped(out, words)
}

/// Appends a label: these words, which are escaped, at a lane and a level. Where the level is beyond those
/// that are drawn, how far it is stands before the words. The only error is want of memory.
pub fn push_label(
    out: &mut ByteList,
    lane: u32,
    level: u32,
    look: Look,
    words: &[u8],
) -> Result<(), Memory>
    ensures { OnOk result (out.new ≡ out.old ++ label_text lane level look words.now) }
{
    push_front(out, lane, level, look)?;
    push_words(out, level, words)?;
    out.push_all(b"</u>")
}
