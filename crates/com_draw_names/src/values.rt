//! Values: what a method gets, and what a call gives back.
ghost use Rattle.std.specs.Prelude.{◌≡◌, ◌++◌, ◌≤◌, OnOk, length};
ghost use Rattle.std.specs.List.{flat_map};
ghost use Rattle.hex.specs.Hex.{encode_lower};
ghost use Rattle.com_model.specs.Text.{later_value_text, value_text, values_text};
ghost use Rattle.com_draw_names.specs.declared.values.TheConstants.{PIECE};
ghost use Rattle.com_draw_names.specs.Values.{given_text, passed_text, shown_given, shown_value, value_words};

use crate::names::push_signed;
use com_base::{ByteList, Memory, Value};
use com_draw_words::{push_escaped, push_word_and_number};
use std::alloc::Global;

// How many bytes are turned into digits at a time.
const PIECE: usize = 64;

// How many digits they have.
const DIGITS: usize = 2 * PIECE;

// Appends at most `PIECE` bytes in lower-case hexadecimal digits.
fn push_digits(out: &mut ByteList, piece: &[u8]) -> Result<(), Memory>
    requires { length piece.now ≤ PIECE }
    ensures { OnOk result (out.new ≡ out.old ++ encode_lower piece.now) }
{
    let mut digits = [0u8; DIGITS];
    let written = &mut digits[..2 * piece.len()];
    match hex::encode_to_slice(piece, written) {
        Ok(()) => out.push_all(written),
        Err(_) => unreachable!(),
    }
}

// Appends bytes in lower-case hexadecimal digits.
#[tactic(auto, using(crate::proofs::Pieces::digits_in_two, crate::proofs::Pieces::digits_of_none))]
fn push_hexadecimal(out: &mut ByteList, bytes: &[u8]) -> Result<(), Memory>
    ensures { OnOk result (out.new ≡ out.old ++ encode_lower bytes.now) }
{
    let mut rest = bytes;
    'pieces: while !rest.is_empty() {
        let (piece, back) = rest.split_at(rest.len().min(PIECE));
        push_digits(out, piece)?;
        rest = back;
    }
    Ok(())
}

// Appends a value.
fn push_value(out: &mut ByteList, value: &Value) -> Result<(), Memory>
    ensures { OnOk result (out.new ≡ out.old ++ value_text value.now) }
{
    match value {
        Value::Int(number) => push_signed(out, *number),
        Value::Bool(true) => out.push_all(b"true"),
        Value::Bool(false) => out.push_all(b"false"),
        Value::Text(words) => {
            out.push_all(b"\"")?;
            out.push_all(words.as_slice())?;
            out.push_all(b"\"")
        }
        Value::Bytes(bytes) => {
            out.push_all(b"x\"")?;
            push_hexadecimal(out, bytes.as_slice())?;
            out.push_all(b"\"")
        }
        Value::Guid(guid) => out.push_all(&guid.text()),
        Value::Ref(None) => out.push_all(b"null"),
        Value::Ref(Some(held)) => {
            push_word_and_number(out, b"o", held.object)?;
            push_word_and_number(out, b":I", held.iface as u32)
        }
    }
}

// Appends values with a comma before each.
#[tactic(auto, using(crate::proofs::Pieces::values_in_two))]
fn push_later_values(out: &mut ByteList, values: &[Value]) -> Result<(), Memory>
    ensures { OnOk result (out.new ≡ out.old ++ flat_map later_value_text values.now) }
{
    let mut rest = values;
    'values: while let Some((next, others)) = rest.split_first() {
        out.push_all(b",")?;
        push_value(out, next)?;
        rest = others;
    }
    Ok(())
}

// Appends values with commas between.
fn push_values(out: &mut ByteList, values: &[Value]) -> Result<(), Memory>
    ensures { OnOk result (out.new ≡ out.old ++ values_text values.now) }
{
    match values.split_first() {
        None => Ok(()),
        Some((first, rest)) => {
            push_value(out, first)?;
            push_later_values(out, rest)
        }
    }
}

/// Appends the values that a method gets, in their parentheses behind a space. The only error is want of
/// memory.
pub fn push_passed(out: &mut ByteList, values: &[Value]) -> Result<(), Memory>
    ensures { OnOk result (out.new ≡ out.old ++ passed_text values.now) }
{
    out.push_all(b" (")?;
    push_values(out, values)?;
    out.push_all(b")")
}

// Appends a value in its parentheses, behind a space.
fn push_value_words(out: &mut ByteList, value: &Value) -> Result<(), Memory>
    ensures { OnOk result (out.new ≡ out.old ++ value_words value.now) }
{
    out.push_all(b" (")?;
    push_value(out, value)?;
    out.push_all(b")")
}

/// Appends a value in its parentheses, behind a space; nothing where there is none. The only error is want of
/// memory.
pub fn push_given(out: &mut ByteList, given: &Option<Value>) -> Result<(), Memory>
    ensures { OnOk result (out.new ≡ out.old ++ given_text given.now) }
{
    match given {
        None => Ok(()),
        Some(value) => push_value_words(out, value),
    }
}

// Appends a value as a story has it: escaped, and behind a colon.
fn push_shown_value(alloc: Global, out: &mut ByteList, value: &Value) -> Result<(), Memory>
    ensures { OnOk result (out.new ≡ out.old ++ shown_value value.now) }
{
    let mut words = ByteList::new(alloc);
    push_value_words(&mut words, value)?;
    out.push_all(b":")?;
    push_escaped(out, words.as_slice())
}

/// Appends a value in its parentheses as a story has it, escaped and behind a colon; nothing where there is
/// none. The only error is want of memory.
pub fn push_shown_given(
    alloc: Global,
    out: &mut ByteList,
    given: &Option<Value>,
) -> Result<(), Memory>
    ensures { OnOk result (out.new ≡ out.old ++ shown_given given.now) }
{
    match given {
        None => Ok(()),
        Some(value) => push_shown_value(alloc, out, value),
    }
}
