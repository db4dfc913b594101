//! GUIDs, and bytes in hexadecimal digits.

ghost use Rattle.std.specs.Prelude.{◌≡◌, IfOk};
ghost use Rattle.std.specs.Option.{option_copied};
ghost use Rattle.std.specs.List.{list_all};
ghost use Rattle.std.specs.Char.{is_ascii, is_ascii_hexdigit};
ghost use Rattle.com_read_operands.specs.Reading.{Gives};
ghost use Rattle.com_read_operands.specs.Literals.{ascii_of, guid_of, guid_at, are_pairs, unhexed};

use crate::faults::{Fault, ScenarioError};
use crate::fields::{fault, word};
use com_base::{ByteList, Guid};
use com_text::Word;
use hex::FromHexError;
use std::alloc::{AllocError, Global};

// Whether each byte is an ASCII character.
fn all_ascii(bytes: &[u8]) -> bool
    ensures { result ≡ list_all is_ascii bytes.now }
{
    bytes.iter().all(|byte| byte.is_ascii())
}

/// The bytes as a text, if all of them are ASCII.
#[tactic(auto, using(crate::proofs::Ascii::ascii_text))]
pub fn text_of(bytes: &[u8]) -> Option<&str>
    ensures { option_copied result ≡ ascii_of bytes.now }
{
    if !all_ascii(bytes) {
        return None;
    }
    match str::from_utf8(bytes) {
        Ok(text) => Some(text),
        Err(_) => None,
    }
}

/// The GUID that a word spells, in braces.
#[tactic(auto, unfolding(crate::specs::Literals::guid_of))]
pub fn guid_of(bytes: &[u8]) -> Option<Guid>
    ensures { result ≡ guid_of bytes.now }
{
    Guid::parse(text_of(bytes)?)
}

/// A GUID. Every other word is fault `GUID`.
#[tactic(auto, unfolding(crate::specs::Literals::guid_at))]
pub fn guid(line: &[Word], index: usize) -> Result<Guid, ScenarioError>
    ensures { Gives (λ g. g) result (guid_at line.now index) }
{
    let word = word(line, index)?;
    match guid_of(word.bytes) {
        Some(guid) => Ok(guid),
        None => Err(fault(Fault::GUID, word)),
    }
}

// Whether each byte is a hexadecimal digit, of either case.
fn all_digits(digits: &[u8]) -> bool
    ensures { result ≡ list_all is_ascii_hexdigit digits.now }
{
    digits.iter().all(|digit| digit.is_ascii_hexdigit())
}

/// Whether bytes are pairs of hexadecimal digits of either case.
pub fn are_pairs(digits: &[u8]) -> bool
    ensures { result ≡ are_pairs digits.now }
{
    digits.len() % 2 == 0 && all_digits(digits)
}

/// The bytes that pairs of digits spell, or none for another text.
pub fn unhex(alloc: Global, digits: &[u8]) -> Result<Option<ByteList>, AllocError>
    ensures { IfOk result (λ bytes. bytes ≡ unhexed digits.now) }
{
    match hex::decode(alloc, digits) {
        Ok(bytes) => Ok(Some(ByteList::from_vec(bytes))),
        Err(FromHexError::OutOfMemory) => Err(AllocError),
        Err(_) => Ok(None),
    }
}
