//! Whether two values are the same.

ghost use Rattle.std.specs.Prelude.{◌≡◌, ◌↔◌, IsTrue};
ghost use Rattle.com_base.specs.declared.value.Value.TheVariants as value;
ghost use Rattle.com_body.specs.Frames.{no_number};

use com_base::{ByteList, Guid, RefValue, Value};

// Whether a value is this number.
fn is_int(left: &Value, number: i64) -> bool
    ensures { IsTrue result ↔ (left.now ≡ value.Int number) }
{
    match left {
        Value::Int(other) => *other == number,
        _ => false,
    }
}

// Whether a value is this truth value.
fn is_bool(left: &Value, truth: bool) -> bool
    ensures { IsTrue result ↔ (left.now ≡ value.Bool truth) }
{
    match left {
        Value::Bool(other) => *other == truth,
        _ => false,
    }
}

// Whether a value is this text.
fn is_text(left: &Value, text: &ByteList) -> bool
    ensures { IsTrue result ↔ (left.now ≡ value.Text text.now) }
{
    match left {
        Value::Text(other) => other.same(text),
        _ => false,
    }
}

// Whether a value is these bytes.
fn is_bytes(left: &Value, bytes: &ByteList) -> bool
    ensures { IsTrue result ↔ (left.now ≡ value.Bytes bytes.now) }
{
    match left {
        Value::Bytes(other) => other.same(bytes),
        _ => false,
    }
}

// Whether a value is this GUID.
fn is_guid(left: &Value, guid: Guid) -> bool
    ensures { IsTrue result ↔ (left.now ≡ value.Guid guid) }
{
    match left {
        Value::Guid(other) => *other == guid,
        _ => false,
    }
}

// Whether a value is this reference.
fn is_reference(left: &Value, held: Option<RefValue>) -> bool
    ensures { IsTrue result ↔ (left.now ≡ value.Ref held) }
{
    match left {
        Value::Ref(other) => *other == held,
        _ => false,
    }
}

/// Whether two values are the same.
pub fn same_value(left: &Value, right: &Value) -> bool
    ensures { IsTrue result ↔ (left.now ≡ right.now) }
{
    match right {
        Value::Int(number) => is_int(left, *number),
        Value::Bool(truth) => is_bool(left, *truth),
        Value::Text(text) => is_text(left, text),
        Value::Bytes(bytes) => is_bytes(left, bytes),
        Value::Guid(guid) => is_guid(left, *guid),
        Value::Ref(held) => is_reference(left, *held),
    }
}

/// Whether a value is the Int 0.
pub fn is_zero(left: &Value) -> bool
    ensures { IsTrue result ↔ (left.now ≡ no_number) }
{
    is_int(left, 0)
}
