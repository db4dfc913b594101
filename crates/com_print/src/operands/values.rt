//! Literals, with digits in hexadecimal.

ghost use Rattle.std.specs.Prelude.{◌≡◌, ◌++◌, ◌∷◌, ◌≤◌, [], OnOk, length};
ghost use Rattle.hex.specs.Hex.{encode_lower};
ghost use Rattle.com_base.specs.Guids.{text_of};
ghost use Rattle.com_base.specs.HResults.{eight_digits};
ghost use Rattle.com_print.specs.Spelled.{plain, more_text, text_word, bytes_word};
ghost use Rattle.com_print.specs.Words.{value_word, hresult_bytes};
ghost use Rattle.com_print.specs.Ranges.{AreBytes, FitsValue, IsGuid};

use crate::operands::numbers::{push_signed, push_word};
use com_base::{ByteList, Guid, HResult, Memory, Value};

// Bytes are turned into digits in pieces of this many bytes.
const PIECE: usize = 64;

// A piece takes this many digits, two for each byte.
const DIGITS: usize = 128;

// Appends at most 64 bytes in lower-case hexadecimal digits, with no space before them.
fn push_piece(out: &mut ByteList, piece: &[u8]) -> Result<(), Memory>
    requires { length piece.now ≤ 64 }
    ensures { OnOk result (out.new ≡ out.old ++ encode_lower piece.now) }
{
    let mut digits = [0u8; DIGITS];
    let written = &mut digits[..2 * piece.len()];
    match hex::encode_to_slice(piece, written) {
        Ok(()) => out.push_all(written),
        Err(_) => unreachable!(),
    }
}

// Appends bytes in lower-case hexadecimal digits, with no space before them, piece by piece.
#[tactic(auto, using(crate::proofs::Pieces::digits_in_two, crate::proofs::Pieces::digits_of_none))]
fn push_digits(out: &mut ByteList, bytes: &[u8]) -> Result<(), Memory>
    ensures { OnOk result (out.new ≡ out.old ++ encode_lower bytes.now) }
{
    let mut rest = bytes;
    'pieces: while !rest.is_empty() {
        let (piece, back) = rest.split_at(rest.len().min(PIECE));
        push_piece(out, piece)?;
        rest = back;
    }
    Ok(())
}

/// Appends bytes as one word of lower-case hexadecimal digits.
pub fn push_hex(out: &mut ByteList, bytes: &[u8]) -> Result<(), Memory>
    ensures ok { OnOk result (out.new ≡ out.old ++ more_text (plain (encode_lower bytes.now) ∷ [])) }
    ensures fits { AreBytes bytes.now }
{
    out.push(b' ')?;
    push_digits(out, bytes)
}

// Appends a text literal behind a space: its bytes in quotation marks.
fn push_text(out: &mut ByteList, text: &[u8]) -> Result<(), Memory>
    ensures { OnOk result (out.new ≡ out.old ++ more_text (text_word text.now ∷ [])) }
{
    out.push_all(b" \"")?;
    out.push_all(text)?;
    out.push(b'"')
}

// Appends a bytes literal behind a space: an `x`, and its digits in quotation marks.
fn push_bytes(out: &mut ByteList, bytes: &[u8]) -> Result<(), Memory>
    ensures ok { OnOk result (out.new ≡ out.old ++ more_text (bytes_word (encode_lower bytes.now) ∷ [])) }
    ensures fits { AreBytes bytes.now }
{
    out.push_all(b" x\"")?;
    push_digits(out, bytes)?;
    out.push(b'"')
}

/// Appends a GUID in braces and upper case.
pub fn push_guid(out: &mut ByteList, guid: Guid) -> Result<(), Memory>
    ensures ok { OnOk result (out.new ≡ out.old ++ more_text (plain (text_of guid) ∷ [])) }
    ensures fits { IsGuid guid }
{
    push_word(out, &guid.text())
}

// Appends an HRESULT in digits: `0x` and eight of them, in upper case.
fn push_hresult_digits(out: &mut ByteList, answer: HResult) -> Result<(), Memory>
    ensures { OnOk result (out.new ≡ out.old
        ++ more_text (plain (48 ∷ 120 ∷ eight_digits answer.0) ∷ [])) }
{
    let [a, b, c, d, e, f, g, h] = answer.digits();
    push_word(out, &[b'0', b'x', a, b, c, d, e, f, g, h])
}

/// Appends an HRESULT: its name, or `0x` and eight upper-case hexadecimal digits where the table has none
/// for it.
#[tactic(auto, unfolding(crate::specs::Words::hresult_bytes))]
pub fn push_hresult(out: &mut ByteList, answer: HResult) -> Result<(), Memory>
    ensures { OnOk result (out.new ≡ out.old ++ more_text (plain (hresult_bytes answer.0) ∷ [])) }
{
    match answer.name() {
        Some(name) => push_word(out, name.as_bytes()),
        None => push_hresult_digits(out, answer),
    }
}

/// Appends a literal: a number, `true` or `false`, a text or bytes in quotation marks, or a GUID. No literal
/// is a reference: one is written as `null`.
pub fn push_value(out: &mut ByteList, value: &Value) -> Result<(), Memory>
    ensures ok { OnOk result (out.new ≡ out.old ++ more_text (value_word value.now ∷ [])) }
    ensures fits { FitsValue value.now }
{
    match value {
        Value::Int(number) => push_signed(out, *number),
        Value::Bool(true) => push_word(out, b"true"),
        Value::Bool(false) => push_word(out, b"false"),
        Value::Text(text) => push_text(out, text.as_slice()),
        Value::Bytes(bytes) => push_bytes(out, bytes.as_slice()),
        Value::Guid(guid) => push_guid(out, *guid),
        Value::Ref(_) => push_word(out, b"null"),
    }
}
