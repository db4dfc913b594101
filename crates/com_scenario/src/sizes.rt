//! How long a text may be.

ghost use Rattle.std.specs.Prelude.{◌≡◌, ◌<◌, ◌-◌, ◌^◌, IfOk, length};
ghost use Rattle.com_text.specs.Scanning.{lines_of};
ghost use Rattle.com_scenario.specs.Sizes.{says_version_2, begins_version_2};
ghost use Rattle.com_scenario.specs.Sizes.{second_version, second_word};
ghost use Rattle.com_scenario.specs.Sizes.{is_too_long};

use com_base::{Memory, TEXT_1_LIMIT, TEXT_2_LIMIT};
use com_text::{Word, is_over, line_at};
use std::alloc::Global;

/// Whether a text is longer than its version allows: than 16,777,216 bytes where the words of its first line
/// with words are `scenario 2`, and else than 1,048,576 bytes. The only error is want of memory.
#[tactic(auto, unfolding(crate::specs::Sizes::is_too_long))]
pub fn is_too_long(alloc: Global, text: &[u8]) -> Result<bool, Memory>
    ensures { IfOk result (λ long. long ≡ is_too_long text.now) }
{
    if text.len() <= TEXT_1_LIMIT {
        return Ok(false);
    }
    if text.len() > TEXT_2_LIMIT {
        return Ok(true);
    }
    Ok(!begins_version_2(alloc, text)?)
}

/// The header of version 2, where a text's first line with words begins so.
#[derive(Debug, Clone, Copy, PartialEq, Eq)]
pub struct SecondVersion {
    /// The line of the word `2`.
    pub line: u32,
    /// The column of its byte.
    pub column: u32,
    /// Whether it is the last word of its line. A comment is none.
    pub ends: bool,
}

// Whether the first line with words is `scenario 2`.
fn begins_version_2(alloc: Global, text: &[u8]) -> Result<bool, Memory>
    requires { length text.now < 2 ^ 32 - 2 }
    ensures { IfOk result (λ answer. answer ≡ begins_version_2 (lines_of text.now)) }
{
    match second_version(alloc, text)? {
        Some(header) => Ok(header.ends),
        None => Ok(false),
    }
}

/// Where the first line with words begins with `scenario` and `2`, as they stand; nothing where it begins
/// otherwise, or where no line has a word. The only error is want of memory.
#[tactic(auto, unfolding(com_text::specs::Scanning::lines_of))]
pub fn second_version(alloc: Global, text: &[u8]) -> Result<Option<SecondVersion>, Memory>
    requires { length text.now < 2 ^ 32 - 2 }
    ensures { IfOk result (λ header. header ≡ second_version (lines_of text.now)) }
{
    let mut words = Vec::new(alloc);
    let mut line = 1;
    let mut at = 0;
    'lines: loop {
        let end = line_at(text, line, at, &mut words)?;
        if let Some(answer) = says_version_2(&words) {
            return Ok(answer);
        }
        if end.last {
            return Ok(None);
        }
        line += 1;
        at = end.at + 1;
    }
}

// Where a line's first words are `scenario` and `2`. None for a line without words.
fn says_version_2(line: &[Word]) -> Option<Option<SecondVersion>>
    ensures { result ≡ says_version_2 line.now }
{
    match line {
        [] => None,
        [word, rest @ ..] => {
            if word.is_remark() {
                return None;
            }
            if word.bytes != b"scenario".as_slice() {
                return Some(None);
            }
            Some(second_word(rest))
        }
    }
}

// Where the first word is `2`.
fn second_word(line: &[Word]) -> Option<SecondVersion>
    ensures { result ≡ second_word line.now }
{
    match line {
        [] => None,
        [word, rest @ ..] => {
            if word.is_remark() || word.bytes != b"2".as_slice() {
                return None;
            }
            Some(SecondVersion {
                line: word.line,
                column: word.column,
                ends: is_over(rest),
            })
        }
    }
}
