//! The words of a line by index.

ghost use Rattle.std.specs.Prelude.{◌≡◌, ◌-◌, ◌≤◌, slice_get, IfOk};
ghost use Rattle.com_read_operands.specs.Reading.{Gives, error_of, fault_at, character_at, missing_at};
ghost use Rattle.com_read_operands.specs.Reading.{word_at, end_at, first_at, number_at, stands_at};

use crate::faults::{Fault, ScenarioError};
use crate::numbers::number_of;
use com_text::{Sort, Word};

/// A fault at a word.
pub fn fault(number: u8, word: &Word) -> ScenarioError
    ensures { result ≡ error_of (fault_at number word.now) }
{
    ScenarioError::Fault {
        number,
        line: word.line,
        column: word.column,
    }
}

// A byte outside the characters.
fn character(word: &Word, column: u32) -> ScenarioError
    ensures { result ≡ error_of (character_at word.now column) }
{
    ScenarioError::Fault {
        number: Fault::CHARACTER,
        line: word.line,
        column,
    }
}

// The line ends where a word is needed: behind the word before.
fn missing(line: &[Word], index: usize) -> ScenarioError
    ensures { result ≡ error_of (missing_at (slice_get line.now (index - 1))) }
{
    match line.get(index.saturating_sub(1)) {
        None => ScenarioError::Fault {
            number: Fault::MISSING,
            line: 1,
            column: 1,
        },
        Some(word) => ScenarioError::Fault {
            number: Fault::MISSING,
            line: word.line,
            column: word.after(),
        },
    }
}

/// The word at an index of the line. A word with a byte outside the characters is fault `CHARACTER` at that
/// byte, and a literal that is not closed is fault `UNEXPECTED`; neither is judged otherwise. Where the line
/// ends, fault `MISSING` stands behind its last word.
#[tactic(auto, unfolding(crate::specs::Reading::word_at))]
pub fn word<'l, 'a>(line: &'l [Word<'a>], index: usize) -> Result<&'l Word<'a>, ScenarioError>
    ensures { Gives (λ w. w.now) result (word_at line.now index) }
{
    match line.get(index) {
        None => Err(missing(line, index)),
        Some(word) => match word.sort() {
            Sort::Stray(column) => Err(character(word, column)),
            Sort::Remark(_) => Err(missing(line, index)),
            Sort::Unclosed => Err(fault(Fault::UNEXPECTED, word)),
            _ => Ok(word),
        },
    }
}

/// Whether a word stands at an index. A comment is none.
#[tactic(auto, unfolding(crate::specs::Reading::stands_at))]
pub fn stands(line: &[Word], index: usize) -> Result<bool, ScenarioError>
    ensures { Gives (λ b. b) result (stands_at line.now index) }
{
    match line.get(index) {
        None => Ok(false),
        Some(word) => match word.sort() {
            Sort::Remark(column) => Err(character(word, column)),
            _ => Ok(true),
        },
    }
}

/// No word stands from this index on: one that does is fault `EXTRA`.
#[tactic(auto, unfolding(crate::specs::Reading::end_at))]
pub fn end(line: &[Word], index: usize) -> Result<(), ScenarioError>
    ensures { Gives (λ u. u) result (end_at line.now index) }
{
    match line.get(index) {
        None => Ok(()),
        Some(word) => match word.sort() {
            Sort::Stray(column) | Sort::Remark(column) => Err(character(word, column)),
            Sort::Unclosed => Err(fault(Fault::UNEXPECTED, word)),
            _ => Err(fault(Fault::EXTRA, word)),
        },
    }
}

/// The first word of a line that has one.
#[tactic(auto, unfolding(crate::specs::Reading::first_at))]
pub fn first<'l, 'a>(line: &'l [Word<'a>]) -> Result<&'l Word<'a>, ScenarioError>
    ensures { Gives (λ w. w.now) result (first_at line.now) }
{
    match line.get(0) {
        None => Err(missing(line, 0)),
        Some(word) => match word.sort() {
            Sort::Stray(column) | Sort::Remark(column) => Err(character(word, column)),
            Sort::Unclosed => Err(fault(Fault::UNEXPECTED, word)),
            _ => Ok(word),
        },
    }
}

/// A number in a range. Every other word is fault `NUMBER`.
#[tactic(auto, unfolding(crate::specs::Reading::number_at))]
pub fn number(line: &[Word], index: usize, low: u64, high: u64) -> Result<u64, ScenarioError>
    ensures value { Gives (λ n. n) result (number_at low high line.now index) }
    ensures within { IfOk result (λ n. n ≤ high) }
    ensures above { IfOk result (λ n. low ≤ n) }
{
    let word = word(line, index)?;
    match number_of(word.bytes) {
        Some(number) if low <= number && number <= high => Ok(number),
        _ => Err(fault(Fault::NUMBER, word)),
    }
}
