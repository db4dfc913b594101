//! The written text.

ghost use Rattle.std.specs.Prelude.{◌≡◌, ◌++◌, ◌≤◌, ◌-◌, IfOk, OnOk, length, take, drop};
ghost use Rattle.com_points.specs.Heads.{cut_of as cut_in};
ghost use Rattle.com_points.specs.Writing.{words_text, class_text, source_text, interface_text};
ghost use Rattle.com_points.specs.Writing.{declared_text, line_text, written};

use crate::source_text::bodies::{point, rest};
use crate::source_text::heads::{Seen, cut_of, is_source_line};
use com_base::{ByteList, Memory};
use com_text::{LineEnd, TEXT_LIMIT, Word, line_at};
use std::alloc::{AllocError, Global};

// Words as they stand, each behind a space.
fn words_text(alloc: Global, words: &[Word]) -> Result<ByteList, Memory>
    ensures { IfOk result (λ text. text ≡ words_text words.now) }
{
    let mut text = ByteList::new(alloc);
    for word in words {
        text.push(b' ')?;
        text.push_all(word.bytes)?;
    }
    Ok(text)
}

// The first words of a source line, as those of a class.
fn class_text(alloc: Global, count: usize, line: &[Word]) -> Result<ByteList, Memory>
    requires { 1 ≤ count }
    ensures { IfOk result (λ text. text ≡ class_text count line.now) }
{
    let mut text = ByteList::new(alloc);
    text.push_all(b"class")?;
    let words = words_text(alloc, front(line, count))?;
    text.push_all(words.as_slice())?;
    Ok(text)
}

// So many words of a line, without its first one.
fn front<'l, 'a>(line: &'l [Word<'a>], count: usize) -> &'l [Word<'a>]
    requires { 1 ≤ count }
    ensures { result.now ≡ take (count - 1) (drop 1 line.now) }
{
    let from = line.len().min(1);
    let to = line.len().min(count);
    &line[from..to]
}

// What a source line stands for.
#[tactic(auto, unfolding(crate::specs::Writing::source_text))]
pub(crate) fn source_text(alloc: Global, seen: Seen, line: &[Word]) -> Result<ByteList, Memory>
    ensures { IfOk result (λ text. text ≡ source_text seen line.now) }
{
    if seen.is_taken() {
        let mut text = class_text(alloc, 1, line)?;
        text.push_all(b"\n")?;
        return Ok(text);
    }
    let mut text = interface_text(alloc, seen)?;
    let declared = declared_text(alloc, line)?;
    text.push_all(declared.as_slice())?;
    Ok(text)
}

// The lines that declare `IPoint` for the first source line, and nothing for a later one.
fn interface_text(alloc: Global, seen: Seen) -> Result<ByteList, Memory>
    ensures { IfOk result (λ text. text ≡ interface_text seen) }
{
    if seen.source {
        return Ok(ByteList::new(alloc));
    }
    point(alloc)
}

// The class of a source, as far as its line is sound.
fn declared_text(alloc: Global, line: &[Word]) -> Result<ByteList, Memory>
    ensures { IfOk result (λ text. text ≡ declared_text line.now (cut_in line.now)) }
{
    match cut_of(line)? {
        Some(cut) => {
            let mut text = class_text(alloc, cut.words, line)?;
            text.push_all(b"\n")?;
            Ok(text)
        }
        None => {
            let mut text = class_text(alloc, 4, line)?;
            let rest = rest(alloc)?;
            text.push_all(rest.as_slice())?;
            Ok(text)
        }
    }
}

// Appends what a line stands for.
#[tactic(auto, unfolding(crate::specs::Writing::line_text))]
fn write_line(
    alloc: Global,
    out: &mut ByteList,
    seen: Seen,
    text: &[u8],
    from: usize,
    line: &[Word],
    end: LineEnd,
) -> Result<(), Memory>
    requires from { from ≤ end.at }
    requires to { end.at ≤ length text.now }
    ensures { OnOk result (out.new ≡ out.old ++ line_text seen text.now from end.at end.last line.now) }
{
    if is_source_line(line) {
        let written = source_text(alloc, seen, line)?;
        return out.push_all(written.as_slice());
    }
    out.push_all(&text[from..end.at])?;
    if end.last {
        return Ok(());
    }
    out.push(b'\n')
}

/// The text in which each `source` line is written out in lines of the language. Memory comes where memory is
/// short, and for a text of nearly 2^32 bytes or more.
#[tactic(auto, unfolding(crate::specs::Writing::written, com_text::specs::Scanning::lines_of))]
pub fn write_out(alloc: Global, text: &[u8]) -> Result<ByteList, Memory>
    ensures { IfOk result (λ out. out ≡ written text.now) }
{
    if text.len() >= TEXT_LIMIT {
        return Err(AllocError);
    }
    let mut out = ByteList::new(alloc);
    let mut words = Vec::new(alloc);
    let mut seen = Seen::nothing();
    let mut line = 1;
    let mut at = 0;
    'lines: loop {
        let end = line_at(text, line, at, &mut words)?;
        write_line(alloc, &mut out, seen, text, at, &words, end)?;
        if end.last {
            return Ok(out);
        }
        seen = seen.behind(&words);
        line += 1;
        at = end.at + 1;
    }
}
