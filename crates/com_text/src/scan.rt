//! Cutting a text into its lines of words, byte by byte.

ghost use Rattle.std.specs.Prelude.{◌≡◌, ◌≢◌, ◌<◌, ◌≤◌, ◌+◌, ◌-◌, ◌^◌, ◌++◌, ◌∷◌, [], false};
ghost use Rattle.std.specs.Prelude.{OnOk, IfOk, length, slice_index, drop};
ghost use Rattle.com_text.specs.declared.scan.Class.TheVariants.{LineEnd as EndsLine};
ghost use Rattle.com_text.specs.Kept.{IsKept, kind_of, word_to};
ghost use Rattle.com_text.specs.Scanning.{class_of, seen, closing, gave, after, turn};
ghost use Rattle.com_text.specs.Scanning.{strayed};
ghost use Rattle.com_text.specs.Runs.{IsFresh};
ghost use Rattle.com_text.specs.declared.scan.Within.TheVariants.{Nothing};

use crate::word::{Kind, Word};
use std::alloc::AllocError;

/// What a byte is to the scanner.
#[derive(Clone, Copy, Debug, PartialEq, Eq)]
pub enum Class {
    /// Byte 10.
    LineEnd,
    /// A space, byte 9, or a byte 13 directly before a line end.
    Blank,
    /// A quotation mark.
    Quote,
    /// `;`.
    Semicolon,
    /// A byte outside the characters.
    Bad,
    /// Every other character.
    Other,
}

/// What the scanner stands in.
#[derive(Clone, Copy, Debug, PartialEq, Eq)]
pub enum Within {
    /// Between words.
    Nothing,
    /// A word that is no literal, or not yet one.
    Plain,
    /// A text literal.
    Text,
    /// A bytes literal.
    Bytes,
    /// A comment.
    Remark,
}

/// A byte's class by the byte and the one behind it, 0 at the end.
pub fn class_of(byte: u8, next: u8) -> Class
    ensures { result ≡ class_of byte next }
{
    if byte == 10 {
        Class::LineEnd
    } else if byte == 32 || byte == 9 || (byte == 13 && next == 10) {
        Class::Blank
    } else if byte < 32 || byte > 126 {
        Class::Bad
    } else if byte == b'"' {
        Class::Quote
    } else if byte == b';' {
        Class::Semicolon
    } else {
        Class::Other
    }
}

/// Where the scanner stands in a line.
#[derive(Clone, Copy, Debug)]
pub struct Scanner {
    /// The line's number.
    pub line: u32,
    /// The column of the next byte.
    pub column: u32,
    /// The column at which the word began.
    pub first: u32,
    /// The index in the text at which the word began.
    pub from: usize,
    /// What it stands in.
    pub within: Within,
    /// The column of the word's first byte outside the characters.
    pub stray: Option<u32>,
}

/// Where a line ends.
#[derive(Clone, Copy, Debug, PartialEq, Eq)]
pub struct LineEnd {
    /// The column behind its last byte.
    pub column: u32,
    /// The index of its line end, or the text's length.
    pub at: usize,
    /// Whether the text ends there.
    pub last: bool,
}

// What the scanner stands in behind a byte that ends no line.
fn turn(within: Within, class: Class, bytes: &[u8]) -> Within
    ensures { result ≡ turn within class bytes.now }
{
    match within {
        Within::Nothing => match class {
            Class::Blank => Within::Nothing,
            Class::Quote => Within::Text,
            Class::Semicolon => Within::Remark,
            _ => Within::Plain,
        },
        Within::Plain => match class {
            Class::Blank => Within::Nothing,
            Class::Quote => {
                if bytes == b"x".as_slice() {
                    Within::Bytes
                } else {
                    Within::Plain
                }
            }
            _ => Within::Plain,
        },
        Within::Text => match class {
            Class::Quote => Within::Nothing,
            _ => Within::Text,
        },
        Within::Bytes => match class {
            Class::Quote => Within::Nothing,
            _ => Within::Bytes,
        },
        Within::Remark => Within::Remark,
    }
}

// The column of the first byte outside the characters, as far as this byte.
fn stray_after(stray: Option<u32>, class: Class, column: u32) -> Option<u32>
    ensures { result ≡ strayed stray class column }
{
    match stray {
        Some(column) => Some(column),
        None => match class {
            Class::Bad => Some(column),
            _ => None,
        },
    }
}

// The scanner behind a byte that ends no line.
pub(crate) fn after(s: &Scanner, text: &[u8], at: usize, class: Class) -> Scanner
    requires at { at < length text.now }
    requires column { s.now.column < 2 ^ 32 - 1 }
    requires kept { IsKept text.now at s.now }
    requires class { class ≡ class_of (slice_index text.now at) (slice_index text.now (at + 1)) }
    requires inner { class ≢ EndsLine }
    ensures seen { seen text.now (at + 1) result
        ≡ after (seen text.now at s.now) (slice_index text.now at) class }
    ensures kept { IsKept text.now (at + 1) result }
    ensures line { result.line ≡ s.now.line }
    ensures column { result.column ≡ s.now.column + 1 }
    ensures fresh { result.within ≡ Nothing → IsFresh (at + 1) result }
{
    match turn(s.within, class, &text[s.from..at]) {
        Within::Nothing => Scanner {
            line: s.line,
            column: s.column + 1,
            first: s.column + 1,
            from: at + 1,
            within: Within::Nothing,
            stray: None,
        },
        within => Scanner {
            line: s.line,
            column: s.column + 1,
            first: s.first,
            from: s.from,
            within,
            stray: stray_after(s.stray, class, s.column),
        },
    }
}

// A word's kind, by whether it has a byte outside the characters.
fn kind_of(stray: Option<u32>, kind: Kind) -> Kind
    ensures { result ≡ kind_of stray kind }
{
    match stray {
        None => kind,
        Some(_) => Kind::Stray,
    }
}

// The word of a kind from where the scanner's began up to an index.
fn word_to<'a>(text: &'a [u8], s: &Scanner, end: usize, kind: Kind) -> Word<'a>
    requires size { length text.now < 2 ^ 32 - 2 }
    requires from { s.now.from ≤ end }
    requires end { end ≤ length text.now }
    requires column { s.now.first + (end - s.now.from) < 2 ^ 32 }
    ensures { result ≡ word_to text.now s.now end kind }
{
    Word {
        line: s.line,
        column: s.first,
        start: s.from as u32,
        kind,
        bytes: &text[s.from..end],
    }
}

// The word that ends at a line's end or at the text's.
pub(crate) fn close<'a>(
    s: &Scanner,
    text: &'a [u8],
    at: usize,
    out: &mut Vec<Word<'a>>,
) -> Result<(), AllocError>
    requires size { length text.now < 2 ^ 32 - 2 }
    requires at { at ≤ length text.now }
    requires column { s.now.column < 2 ^ 32 }
    requires kept { IsKept text.now at s.now }
    ensures { OnOk result (out.new.items ≡ out.old.items ++ closing (seen text.now at s.now)) }
{
    let kind = match s.within {
        Within::Nothing => return Ok(()),
        Within::Plain => kind_of(s.stray, Kind::Plain),
        Within::Text | Within::Bytes => Kind::Unclosed,
        Within::Remark => match s.stray {
            None => return Ok(()),
            Some(_) => Kind::Remark,
        },
    };
    out.push(word_to(text, s, at, kind))?;
    Ok(())
}

// The words that end at a byte that ends no line.
pub(crate) fn give<'a>(
    s: &Scanner,
    text: &'a [u8],
    at: usize,
    class: Class,
    out: &mut Vec<Word<'a>>,
) -> Result<(), AllocError>
    requires size { length text.now < 2 ^ 32 - 2 }
    requires at { at < length text.now }
    requires column { s.now.column < 2 ^ 32 - 1 }
    requires kept { IsKept text.now at s.now }
    requires class { class ≡ class_of (slice_index text.now at) (slice_index text.now (at + 1)) }
    requires inner { class ≢ EndsLine }
    ensures { OnOk result (out.new.items
        ≡ out.old.items ++ gave (seen text.now at s.now) (slice_index text.now at) class) }
{
    match class {
        Class::Blank => {
            if s.within == Within::Plain {
                close(s, text, at, out)?;
            }
        }
        Class::Quote => match s.within {
            Within::Text => out.push(word_to(text, s, at + 1, kind_of(s.stray, Kind::Text)))?,
            Within::Bytes => out.push(word_to(text, s, at + 1, kind_of(s.stray, Kind::Bytes)))?,
            _ => {}
        },
        _ => {}
    }
    Ok(())
}
