//! Where a fault of the written text stands in the text itself.

ghost use Rattle.std.specs.Prelude.{◌≡◌, IfOk};
ghost use Rattle.com_points.specs.Placing.{lines_in, fault_in, word_under, is_opening, position_in};
ghost use Rattle.com_points.specs.Placing.{own_fault, first_of};
ghost use Rattle.com_points.specs.Placing.{source_fault, within, found_in, placed};
ghost use Rattle.std.specs.Prelude.{slice_get};

use crate::source_text::heads::{Seen, cut_of, is_source_line};
use crate::source_text::writing::source_text;
use com_base::Memory;
use com_read_operands::Fault;
use com_text::{TEXT_LIMIT, Word, line_at};
use std::alloc::{AllocError, Global};

/// Where a fault is found, line by line.
#[derive(Clone, Copy, Debug, PartialEq, Eq)]
pub enum Found {
    /// In this line, with its position in the text.
    Here(Fault),
    /// In a later one, with its line counted from the next one on.
    Later(Fault),
}

// How many lines a text has.
fn lines_in(text: &[u8]) -> usize
    ensures { result ≡ lines_in text.now }
{
    text.iter().filter(|b| **b == 10).count()
}

// A fault at the word at an index.
fn fault_in(number: u8, line: &[Word], index: usize) -> Fault
    ensures { result ≡ fault_in number (slice_get line.now index) }
{
    match line.get(index) {
        None => Fault {
            number,
            line: 1,
            column: 1,
        },
        Some(word) => Fault {
            number,
            line: word.line,
            column: word.column,
        },
    }
}

// The word of a class that stands at a column.
fn word_under(column: u32) -> usize
    ensures { result ≡ word_under column }
{
    if column < 7 {
        0
    } else if column == 7 {
        1
    } else {
        2
    }
}

// Whether a line is one of the interface's.
fn is_opening(seen: Seen, line: u32) -> bool
    ensures { result ≡ is_opening seen line }
{
    !seen.is_taken() && !seen.source && line <= 4
}

// A fault of what a source line stands for, at a word of the line.
fn position_in(seen: Seen, line: &[Word], fault: Fault) -> Fault
    ensures { result ≡ position_in seen line.now fault }
{
    let index = if is_opening(seen, fault.line) {
        0
    } else {
        word_under(fault.column)
    };
    fault_in(fault.number, line, index)
}

// The fault of a source line itself.
fn own_fault(seen: Seen, line: &[Word]) -> Result<Option<Fault>, Memory>
    ensures { IfOk result (λ fault. fault ≡ own_fault seen line.now) }
{
    if seen.is_taken() {
        return Ok(Some(fault_in(Fault::REPEATED, line, 0)));
    }
    match cut_of(line)? {
        None => Ok(None),
        Some(cut) => Ok(Some(cut.fault)),
    }
}

// The first of a line's own fault and a fault of what it stands for.
fn first_of(own: Option<Fault>, fault: Fault) -> Fault
    ensures { result ≡ first_of own fault }
{
    match own {
        None => fault,
        Some(own) => {
            if fault.number == Fault::MISSING {
                own
            } else if own.line == fault.line
                && own.column == fault.column
                && own.number < fault.number
            {
                own
            } else {
                fault
            }
        }
    }
}

// A fault of what a source line stands for, where it stands in the line.
fn source_fault(seen: Seen, line: &[Word], fault: Fault) -> Result<Fault, Memory>
    ensures { IfOk result (λ f. f ≡ source_fault seen line.now fault) }
{
    let own = own_fault(seen, line)?;
    Ok(first_of(own, position_in(seen, line, fault)))
}

// A fault in a line of so many written ones, or in a later one.
fn within(size: usize, here: Fault, fault: Fault) -> Found
    ensures { result ≡ within size here fault }
{
    if fault.line as usize <= size {
        return Found::Here(here);
    }
    Found::Later(Fault {
        number: fault.number,
        line: fault.line - size as u32,
        column: fault.column,
    })
}

// A fault in what a line stands for, or in a later line.
#[tactic(auto, unfolding(crate::specs::Placing::found_in))]
fn found_in(
    alloc: Global,
    seen: Seen,
    words: &[Word],
    line: u32,
    fault: Fault,
) -> Result<Found, Memory>
    ensures { IfOk result (λ found. found ≡ found_in seen words.now line fault) }
{
    if is_source_line(words) {
        let text = source_text(alloc, seen, words)?;
        let here = source_fault(seen, words, fault)?;
        return Ok(within(lines_in(text.as_slice()), here, fault));
    }
    let here = Fault {
        number: fault.number,
        line,
        column: fault.column,
    };
    Ok(within(1, here, fault))
}

/// Where a fault of the written text stands in the text itself: the first by position, and of two at one
/// position the one with the lower number. Memory comes where memory is short, and for a text of nearly 2^32
/// bytes or more.
#[tactic(auto, unfolding(crate::specs::Placing::placed, com_text::specs::Scanning::lines_of))]
pub fn place_fault(alloc: Global, text: &[u8], fault: Fault) -> Result<Fault, Memory>
    ensures { IfOk result (λ f. f ≡ placed text.now fault) }
{
    if text.len() >= TEXT_LIMIT {
        return Err(AllocError);
    }
    let mut fault = fault;
    let mut words = Vec::new(alloc);
    let mut seen = Seen::nothing();
    let mut line = 1;
    let mut at = 0;
    'lines: loop {
        let end = line_at(text, line, at, &mut words)?;
        match found_in(alloc, seen, &words, line, fault)? {
            Found::Here(found) => return Ok(found),
            Found::Later(later) => {
                if end.last {
                    return Ok(later);
                }
                fault = later;
            }
        }
        seen = seen.behind(&words);
        line += 1;
        at = end.at + 1;
    }
}
