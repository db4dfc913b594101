//! The words of a line, piece by piece.

ghost use Rattle.std.specs.Prelude.{◌≡◌, ◌<◌, ◌≤◌, ◌+◌, ◌-◌, ◌^◌, ◌∷◌, [], false, true};
ghost use Rattle.std.specs.Prelude.{IfOk, length, slice_index, drop};
ghost use Rattle.com_text.specs.Scanning.{lines_from, at_line, more_lines, line_of};
ghost use Rattle.com_text.specs.Runs.{is_character, StaysIn};
ghost use Rattle.com_text.specs.Runs.{is_graphic, begins_plain, is_end, Skips, GoesOn, Takes, Goes};
ghost use Rattle.com_text.specs.Runs.{IsFresh, plain_word};
ghost use Rattle.com_text.specs.declared.scan.Within.TheVariants.{Nothing};

use crate::scan::{Class, LineEnd, Scanner, Within, after, class_of, close, give};
use crate::stray::byte_at;
use crate::word::{Kind, Word};
use std::alloc::AllocError;

/// What a piece of a line says of what follows.
#[derive(Clone, Copy, Debug, PartialEq, Eq)]
pub enum Piece {
    /// The line goes on at this index, between words.
    Next(usize),
    /// The line ends.
    End(LineEnd),
}

// Whether a byte is a character that is no space.
fn is_graphic(byte: u8) -> bool
    ensures { result ≡ is_graphic byte }
{
    byte > 32 && byte < 127
}

// Whether a byte begins a word that cannot become a literal.
fn begins_plain(byte: u8) -> bool
    ensures { result ≡ begins_plain byte }
{
    is_graphic(byte) && byte != b'"' && byte != b';' && byte != b'x'
}

// Whether a word that is no literal ends at an index.
fn is_end(text: &[u8], at: usize) -> bool
    ensures { result ≡ is_end text.now at }
{
    if at >= text.len() || text[at] == b' ' {
        return true;
    }
    matches!(
        class_of(text[at], byte_at(text, at + 1)),
        Class::LineEnd | Class::Blank
    )
}

// The index behind the spaces from an index on.
#[tactic(auto, using(crate::proofs::Runs::skip_none, crate::proofs::Runs::skip_more))]
fn spaces_end(text: &[u8], from: usize) -> usize
    requires { from ≤ length text.now }
    ensures low { from ≤ result }
    ensures high { result ≤ length text.now }
    ensures skips { Skips text.now from result }
{
    for i in from..text.len() {
        if text[i] != b' ' {
            return i;
        }
    }
    text.len()
}

// The index behind the characters but spaces from an index on.
#[tactic(auto, using(crate::proofs::Runs::goes_none, crate::proofs::Runs::goes_more))]
fn graphic_end(text: &[u8], from: usize) -> usize
    requires { from ≤ length text.now }
    ensures low { from ≤ result }
    ensures high { result ≤ length text.now }
    ensures goes { GoesOn text.now from result }
{
    for i in from..text.len() {
        if !is_graphic(text[i]) {
            return i;
        }
    }
    text.len()
}

// The index behind the word at an index, where that is no literal and has no byte outside the characters, and
// else the same index.
#[tactic(auto, using(crate::proofs::Runs::taken))]
fn plain_end(text: &[u8], from: usize) -> usize
    requires { from ≤ length text.now }
    ensures low { from ≤ result }
    ensures high { result ≤ length text.now }
    ensures takes { from < result → Takes text.now from result }
{
    if from >= text.len() || !begins_plain(text[from]) {
        return from;
    }
    let end = graphic_end(text, from + 1);
    if is_end(text, end) { end } else { from }
}

// Whether a byte is a character of a line.
fn is_character(byte: u8) -> bool
    ensures { result ≡ is_character byte }
{
    (byte > 31 && byte < 127) || byte == b'\t'
}

// The index behind the characters from an index on.
#[tactic(auto, using(crate::proofs::Remarks::stays_none, crate::proofs::Remarks::stays_more))]
fn characters_end(text: &[u8], from: usize) -> usize
    requires { from ≤ length text.now }
    ensures low { from ≤ result }
    ensures high { result ≤ length text.now }
    ensures stays { StaysIn text.now from result }
{
    for i in from..text.len() {
        if !is_character(text[i]) {
            return i;
        }
    }
    text.len()
}

// The index behind the comment at an index, where one stands there and the line ends behind its characters, and
// else the same index.
#[tactic(auto, using(crate::proofs::Runs::skip_none, crate::proofs::Remarks::passed_line, crate::proofs::Remarks::passed_last))]
fn remark_end(text: &[u8], from: usize) -> usize
    requires { from ≤ length text.now }
    ensures low { from ≤ result }
    ensures high { result ≤ length text.now }
    ensures skips { Skips text.now from result }
{
    if from >= text.len() || text[from] != b';' {
        return from;
    }
    let end = characters_end(text, from + 1);
    if end >= text.len() || text[end] == b'\n' {
        end
    } else {
        from
    }
}

// The word from an index up to another, in a line that begins at `at`.
fn plain_word<'a>(text: &'a [u8], line: u32, at: usize, from: usize, to: usize) -> Word<'a>
    requires size { length text.now < 2 ^ 32 - 2 }
    requires at { at ≤ from }
    requires from { from ≤ to }
    requires to { to ≤ length text.now }
    ensures { result ≡ plain_word text.now line ((from + 1) - at) from to }
{
    Word {
        line,
        column: (from - at) as u32 + 1,
        start: from as u32,
        kind: Kind::Plain,
        bytes: &text[from..to],
    }
}

// The scanner between words.
fn between(line: u32, at: usize, from: usize) -> Scanner
    requires at { at ≤ from }
    requires from { from < 2 ^ 32 - 2 }
    ensures line { result.line ≡ line }
    ensures column { result.column ≡ (from + 1) - at }
    ensures within { result.within ≡ Nothing }
    ensures fresh { IsFresh from result }
{
    let column = (from - at) as u32 + 1;
    Scanner {
        line,
        column,
        first: column,
        from,
        within: Within::Nothing,
        stray: None,
    }
}

// A piece that may be a literal, a comment, a byte outside the characters or the line's end, byte by byte.
#[tactic(auto, using(crate::proofs::Pieces::kept_between, crate::proofs::Pieces::seen_between, crate::proofs::Pieces::odd_next))]
fn take_odd<'a>(
    text: &'a [u8],
    line: u32,
    at: usize,
    from: usize,
    words: &mut Vec<Word<'a>>,
) -> Result<Piece, AllocError>
    requires size { length text.now < 2 ^ 32 - 2 }
    requires at { at ≤ from }
    requires from { from ≤ length text.now }
    ensures { IfOk result (λ p. Goes text.now line at from words.old.items words.new.items p) }
{
    let mut s = between(line, at, from);
    for i in from..text.len() {
        let class = class_of(text[i], byte_at(text, i + 1));
        if class == Class::LineEnd {
            close(&s, text, i, words)?;
            return Ok(Piece::End(LineEnd {
                column: s.column,
                at: i,
                last: false,
            }));
        }
        give(&s, text, i, class, words)?;
        s = after(&s, text, i, class);
        if s.within == Within::Nothing {
            return Ok(Piece::Next(i + 1));
        }
    }
    close(&s, text, text.len(), words)?;
    Ok(Piece::End(LineEnd {
        column: s.column,
        at: text.len(),
        last: true,
    }))
}

// The piece at an index between words, and the spaces before it. A word that is no literal is taken at one time,
// and so is a comment.
#[tactic(auto, using(crate::proofs::Pieces::goes_word, crate::proofs::Pieces::goes_behind))]
fn take_piece<'a>(
    text: &'a [u8],
    line: u32,
    at: usize,
    from: usize,
    words: &mut Vec<Word<'a>>,
) -> Result<Piece, AllocError>
    requires size { length text.now < 2 ^ 32 - 2 }
    requires at { at ≤ from }
    requires from { from ≤ length text.now }
    ensures { IfOk result (λ p. Goes text.now line at from words.old.items words.new.items p) }
{
    let begin = spaces_end(text, from);
    let end = plain_end(text, begin);
    if end > begin {
        words.push(plain_word(text, line, at, begin, end))?;
        return Ok(Piece::Next(end));
    }
    take_odd(text, line, at, remark_end(text, begin), words)
}

/// The words of the line that begins at an index, in place of those that `words` held, and where it
/// ends. Memory comes where no word more can be kept; `words` then holds a front of the line's.
pub fn line_at<'a>(
    text: &'a [u8],
    line: u32,
    at: usize,
    words: &mut Vec<Word<'a>>,
) -> Result<LineEnd, AllocError>
    requires size { length text.now < 2 ^ 32 - 2 }
    requires from { at ≤ length text.now }
    ensures words { IfOk result (λ end. lines_from (at_line line at) [] (drop at text.now)
        ≡ line_of words.new.items line end ∷ more_lines text.now line end) }
    ensures within { IfOk result (λ end. end.at ≤ length text.now) }
    ensures further { IfOk result (λ end. at ≤ end.at) }
    ensures ended { IfOk result (λ end. end.last ≡ false → end.at < length text.now) }
{
    words.clear();
    let mut from = at;
    'pieces: loop {
        match take_piece(text, line, at, from, words)? {
            Piece::Next(next) => from = next,
            Piece::End(end) => return Ok(end),
        }
    }
}
