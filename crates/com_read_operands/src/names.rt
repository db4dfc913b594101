//! Declared names.

ghost use Rattle.std.specs.Prelude.{◌≡◌, ◌<◌, ◌^◌, IfOk, IfSome, length};
ghost use Rattle.com_read_operands.specs.Reading.{Gives};
ghost use Rattle.com_read_operands.specs.Naming.{is_tail, are_tail, is_name, position_of, number_of_name};
ghost use Rattle.com_read_operands.specs.Naming.{name_at, declared_at, asked_at};

use crate::faults::{Fault, ScenarioError};
use crate::fields::{fault, word};
use crate::literals::guid_of;
use com_base::{ByteList, NAME_LIMIT};
use com_body::Asked;
use com_text::Word;

// A letter, digit or `_`.
fn is_tail(byte: u8) -> bool
    ensures { result ≡ is_tail byte }
{
    byte.is_ascii_alphanumeric() || byte == b'_'
}

// Whether bytes may stand behind a name's first letter. None at all may.
fn are_tail(bytes: &[u8]) -> bool
    ensures { result ≡ are_tail bytes.now }
{
    for byte in bytes {
        if !is_tail(*byte) {
            return false;
        }
    }
    true
}

/// Whether bytes are a letter and letters, digits or `_` behind it, at most `NAME_LIMIT` in all.
pub fn is_name(bytes: &[u8]) -> bool
    ensures { result ≡ is_name bytes.now }
{
    match bytes {
        [] => false,
        [first, rest @ ..] => {
            first.is_ascii_alphabetic() && rest.len() < NAME_LIMIT && are_tail(rest)
        }
    }
}

/// The index of a name among those that were declared. A table of names has at most 64, so the
/// search has a bound.
pub fn position_of(names: &[ByteList], name: &[u8]) -> Option<usize>
    ensures value { result ≡ position_of names.now name.now }
    ensures within { IfSome result (λ n. n < length names.now) }
{
    for (i, declared) in names.iter().enumerate() {
        if declared.as_slice() == name {
            return Some(i);
        }
    }
    None
}

/// The number of a declared name: its index, where that is a number of 16 bits.
#[tactic(auto, unfolding(crate::specs::Naming::number_of_name))]
pub fn number_of_name(names: &[ByteList], name: &[u8]) -> Option<u16>
    ensures value { result ≡ number_of_name names.now name.now }
    ensures within { IfSome result (λ n. n < length names.now) }
{
    match position_of(names, name) {
        Some(index) if index <= usize::from(u16::MAX) => Some(index as u16),
        _ => None,
    }
}

/// A word of a name's form. Every other word is fault `UNEXPECTED`.
#[tactic(auto, unfolding(crate::specs::Naming::name_at))]
pub fn name<'l, 'a>(line: &'l [Word<'a>], index: usize) -> Result<&'l Word<'a>, ScenarioError>
    ensures { Gives (λ w. w.now) result (name_at line.now index) }
{
    let word = word(line, index)?;
    if is_name(word.bytes) {
        Ok(word)
    } else {
        Err(fault(Fault::UNEXPECTED, word))
    }
}

/// A name that was declared above, as its index: fault `UNEXPECTED` for a word that is no name,
/// `UNDECLARED` for a name that was not declared.
#[tactic(auto, unfolding(crate::specs::Naming::declared_at))]
pub fn declared_name(names: &[ByteList], line: &[Word], index: usize) -> Result<u16, ScenarioError>
    ensures value { Gives (λ n. n) result (declared_at names.now line.now index) }
    ensures within { IfOk result (λ n. n < length names.now) }
{
    let word = name(line, index)?;
    match number_of_name(names, word.bytes) {
        Some(number) => Ok(number),
        None => Err(fault(Fault::UNDECLARED, word)),
    }
}

/// A class or interface as it is asked for: a declared name, as its index counted from `first`, or
/// a GUID. A word that begins with `{` and is no GUID is fault `GUID`.
#[tactic(auto, unfolding(crate::specs::Naming::asked_at))]
pub fn asked_name(
    names: &[ByteList],
    first: u32,
    line: &[Word],
    index: usize,
) -> Result<Asked, ScenarioError>
    requires { first < 2 ^ 16 }
    ensures { Gives (λ a. a) result (asked_at names.now first line.now index) }
{
    let found = word(line, index)?;
    if found.bytes.first() == Some(&b'{') {
        return match guid_of(found.bytes) {
            Some(guid) => Ok(Asked::Guid(guid)),
            None => Err(fault(Fault::GUID, found)),
        };
    }
    let number = declared_name(names, line, index)?;
    Ok(Asked::Number(u32::from(number) + first))
}
