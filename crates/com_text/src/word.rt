//! A word and its position.

ghost use Rattle.std.specs.Prelude.{◌≡◌};
ghost use Rattle.com_text.specs.Words.{is_over, is_remark};

use crate::stray::stray_column;
use std::marker::Model;

/// What a word is.
#[derive(Clone, Copy, Debug, PartialEq, Eq)]
pub enum Sort {
    /// A word that is no literal.
    Plain,
    /// A text literal, with its marks.
    Text,
    /// A bytes literal, with its marks.
    Bytes,
    /// A literal that is not closed on its line.
    Unclosed,
    /// A word with a byte outside the characters, and the column of the first such byte.
    Stray(u32),
    /// A comment with such a byte. A comment without one is no word.
    Remark(u32),
}

/// What a word keeps of its sort. The column of its first byte outside the characters is told from its bytes.
#[derive(Clone, Copy, Debug, PartialEq, Eq)]
pub enum Kind {
    /// A word that is no literal.
    Plain,
    /// A text literal, with its marks.
    Text,
    /// A bytes literal, with its marks.
    Bytes,
    /// A literal that is not closed on its line.
    Unclosed,
    /// A word with a byte outside the characters.
    Stray,
    /// A comment with such a byte.
    Remark,
}

/// A word of a text, and where it stands. Lines and columns count from 1, a column counts bytes. It has 32
/// bytes, since a text may be one line of millions of words.
#[derive(Debug, Drop)]
pub struct Word<'a> {
    /// The line that it stands in.
    pub line: u32,
    /// The column of its first byte.
    pub column: u32,
    /// The index of its first byte in the text.
    pub start: u32,
    /// What it is.
    pub kind: Kind,
    /// Its bytes, a literal's marks among them.
    pub bytes: &'a [u8],
}

impl<'a> Model for Word<'a> {
    ghost use Rattle.std.specs.Prelude.{◌+◌, ◌<◌, ◌^◌, length};
    ghost use Rattle.com_text.specs.Words.{WordAt};
    ghost use Rattle.com_text.specs.Sorts.{sort_of};

    ghost Value = { WordAt };

    ghost view = { λ w. record {
      line = w.line;
      column = w.column;
      after = w.column + length w.bytes.now;
      start = w.start;
      end = w.start + length w.bytes.now;
      sort = sort_of w.kind w.column w.bytes.now;
      bytes = w.bytes.now;
    } };

    ghost invariant = { λ w. w.column + length w.bytes.now < 2 ^ 32 };
}

impl<'a> Word<'a> {
    /// The column behind its last byte.
    pub fn after(&self) -> u32
        ensures { result ≡ self.now.after }
    {
        self.column + self.bytes.len() as u32
    }

    /// What it is, with the column of its first byte outside the characters where it has one.
    pub fn sort(&self) -> Sort
        ensures { result ≡ self.now.sort }
    {
        match self.kind {
            Kind::Plain => Sort::Plain,
            Kind::Text => Sort::Text,
            Kind::Bytes => Sort::Bytes,
            Kind::Unclosed => Sort::Unclosed,
            Kind::Stray => Sort::Stray(stray_column(self.column, self.bytes)),
            Kind::Remark => Sort::Remark(stray_column(self.column, self.bytes)),
        }
    }

    /// Whether it is a comment, which is no word and ends its line.
    pub fn is_remark(&self) -> bool
        ensures { result ≡ is_remark self.now.sort }
    {
        matches!(self.kind, Kind::Remark)
    }
}

/// Whether no word is left in what is left of a line. A comment is no word.
pub fn is_over(line: &[Word<'_>]) -> bool
    ensures { result ≡ is_over line.now }
{
    match line {
        [] => true,
        [word, ..] => word.is_remark(),
    }
}
