//! What an argument becomes for a parameter. The table is this project's own; it is smaller than that of
//! VariantChangeType, and so every cell is exact.

ghost use Rattle.std.specs.Prelude.{◌≡◌, [], IfOk, Some, length};
ghost use Rattle.com_base.specs.declared.value.Value.TheVariants as values;
ghost use Rattle.com_dispatch.specs.Coercing.{as_number, is_not_zero, word_of, truth_of, to_int, to_bool};
ghost use Rattle.com_dispatch.specs.Coercing.{to_text, to_bytes, to_guid, coerced_value, coerced, coerced_on};

use crate::members::DispArg;
use com_base::{ByteList, Guid, Kind, Memory, Rows, Value};
use com_read_operands::{guid_of, signed_of};
use itoa::Buffer;
use std::alloc::Global;

// A truth value as a number: true is 1, and false is 0.
fn as_number(truth: bool) -> i64
    ensures { result ≡ as_number truth }
{
    if truth { 1 } else { 0 }
}

// A number as a truth value: every number but 0 is true.
fn is_not_zero(number: i64) -> bool
    ensures { result ≡ is_not_zero number }
{
    number != 0
}

// A truth value as a text: its word in small letters.
fn word_of(truth: bool) -> &'static [u8]
    ensures { result.now ≡ word_of truth }
{
    if truth { b"true" } else { b"false" }
}

// A text as a truth value. No other text than `true` and `false` in small letters is one.
fn truth_of(text: &[u8]) -> Option<bool>
    ensures { result ≡ truth_of text.now }
{
    if text == b"true".as_slice() {
        Some(true)
    } else if text == b"false".as_slice() {
        Some(false)
    } else {
        None
    }
}

// The number that a value becomes: a number, a truth value, or a text that spells a number of
// 64 bits. Any other becomes none.
fn to_int(value: &Value) -> Option<i64>
    ensures { result ≡ to_int value.now }
{
    match value {
        Value::Int(number) => Some(*number),
        Value::Bool(truth) => Some(as_number(*truth)),
        Value::Text(text) => signed_of(text.as_slice()),
        _ => None,
    }
}

// The truth value that a value becomes: a number, a truth value, or one of the two words. Any other
// becomes none.
fn to_bool(value: &Value) -> Option<bool>
    ensures { result ≡ to_bool value.now }
{
    match value {
        Value::Int(number) => Some(is_not_zero(*number)),
        Value::Bool(truth) => Some(*truth),
        Value::Text(text) => truth_of(text.as_slice()),
        _ => None,
    }
}

// A number in decimal digits, with `-` where it is below 0. The only error is want of memory.
fn decimal_text(alloc: Global, number: i64) -> Result<ByteList, Memory>
    ensures { IfOk result (λ text. to_text (values.Int number) ≡ Some text) }
{
    let mut digits = Buffer::new();
    ByteList::from_slice(alloc, digits.format(number).as_bytes())
}

// The text that a value becomes: a number, a truth value or a text. Any other becomes none.
// The only error is want of memory.
fn to_text(alloc: Global, value: &Value) -> Result<Option<ByteList>, Memory>
    ensures { IfOk result (λ text. text ≡ to_text value.now) }
{
    match value {
        Value::Int(number) => Ok(Some(decimal_text(alloc, *number)?)),
        Value::Bool(truth) => Ok(Some(ByteList::from_slice(alloc, word_of(*truth))?)),
        Value::Text(text) => Ok(Some(text.copy()?)),
        _ => Ok(None),
    }
}

// The bytes that a value becomes: bytes alone do. The only error is want of memory.
fn to_bytes(value: &Value) -> Result<Option<ByteList>, Memory>
    ensures { IfOk result (λ bytes. bytes ≡ to_bytes value.now) }
{
    match value {
        Value::Bytes(bytes) => Ok(Some(bytes.copy()?)),
        _ => Ok(None),
    }
}

// The GUID that a value becomes: a GUID, or a text that spells one in braces. Any other becomes
// none.
fn to_guid(value: &Value) -> Option<Guid>
    ensures { result ≡ to_guid value.now }
{
    match value {
        Value::Guid(guid) => Some(*guid),
        Value::Text(text) => guid_of(text.as_slice()),
        _ => None,
    }
}

// A value for a parameter of a kind, or none where the table has no cell for it. The only error is want of
// memory.
fn coerce_value(alloc: Global, kind: Kind, value: &Value) -> Result<Option<Value>, Memory>
    ensures { IfOk result (λ coerced. coerced ≡ coerced_value kind value.now) }
{
    match kind {
        Kind::Int => Ok(to_int(value).map(Value::Int)),
        Kind::Bool => Ok(to_bool(value).map(Value::Bool)),
        Kind::Text => Ok(to_text(alloc, value)?.map(Value::Text)),
        Kind::Bytes => Ok(to_bytes(value)?.map(Value::Bytes)),
        Kind::Guid => Ok(to_guid(value).map(Value::Guid)),
        Kind::Ref(_) => Ok(None),
    }
}

// An argument for a parameter of a kind, or none where the table has no cell for it. The only error is
// want of memory.
fn coerce(alloc: Global, kind: Kind, arg: &DispArg) -> Result<Option<DispArg>, Memory>
    ensures { IfOk result (λ passed. passed ≡ coerced kind arg.now) }
{
    match arg {
        DispArg::Literal(value) => Ok(coerce_value(alloc, kind, value)?.map(DispArg::Literal)),
        DispArg::Slot(slot) => match kind {
            Kind::Ref(_) => Ok(Some(DispArg::Slot(*slot))),
            _ => Ok(None),
        },
        DispArg::Null => match kind {
            Kind::Ref(_) => Ok(Some(DispArg::Null)),
            _ => Ok(None),
        },
    }
}

// The arguments for as many parameters, each coerced to its parameter's kind, or none where one is not.
// The only error is want of memory.
pub(crate) fn coerce_all(
    alloc: Global,
    params: &[Kind],
    args: &[DispArg],
) -> Result<Option<Rows<DispArg>>, Memory>
    requires { length args.now ≡ length params.now }
    ensures { IfOk result (λ passed. passed ≡ coerced_on [] params.now args.now) }
{
    let mut passed = Vec::new(alloc);
    for (i, kind) in params.iter().enumerate() {
        match coerce(alloc, *kind, &args[i])? {
            Some(arg) => passed.push(arg)?,
            None => return Ok(None),
        }
    }
    Ok(Some(Rows::from_vec(passed)))
}
