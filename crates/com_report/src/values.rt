//! Values in a line.
ghost use Rattle.std.specs.Prelude.{◌≡◌, ◌++◌, ◌+◌, ◌≤◌, length, drop, codes};
ghost use Rattle.com_model.specs.Text.{value_text, one_value_text, values_text, later_value_text};
ghost use Rattle.com_report.specs.Width.{own_width, one_value_width, values_width};
ghost use Rattle.std.specs.List.{flat_map};

use crate::pieces::{hexadecimal, signed_number, word, word_and_number};
use com_base::Value;

/// Writes a space and values in parentheses, with commas between.
pub fn values(room: &mut [u8], end: usize, values: &[Value]) -> usize
    requires { (values_width values.now + 3 ≤ end) × (end ≤ length room.old) }
    ensures taken { (result ≤ end) × (end ≤ result + (values_width values.now + 3)) }
    ensures written { drop result room.new ≡ codes " (" ++ values_text values.now ++ codes ")" ++ drop end room.old }
{
    let Some((first, rest)) = values.split_first() else {
        return word(room, end, b" ()");
    };
    let at = word(room, end, b")");
    let at = later_values(room, at, rest);
    let at = value(room, at, first);
    word(room, at, b" (")
}

// Writes values with a comma before each.
fn later_values(room: &mut [u8], end: usize, values: &[Value]) -> usize
    requires { (values_width values.now ≤ end) × (end ≤ length room.old) }
    ensures taken { (result ≤ end) × (end ≤ result + values_width values.now) }
    ensures written { drop result room.new ≡ flat_map later_value_text values.now ++ drop end room.old }
{
    let mut rest = values;
    let mut at = end;
    'values: while let Some((last, others)) = rest.split_last() {
        let digits = value(room, at, last);
        at = word(room, digits, b",");
        rest = others;
    }
    at
}

/// Writes a space and a value, or nothing, in parentheses.
pub fn one_value(room: &mut [u8], end: usize, given: &Option<Value>) -> usize
    requires { (one_value_width given.now + 3 ≤ end) × (end ≤ length room.old) }
    ensures taken { (result ≤ end) × (end ≤ result + (one_value_width given.now + 3)) }
    ensures written { drop result room.new ≡ codes " (" ++ one_value_text given.now ++ codes ")" ++ drop end room.old }
{
    let Some(given) = given else {
        return word(room, end, b" ()");
    };
    let at = word(room, end, b")");
    let at = value(room, at, given);
    word(room, at, b" (")
}

// Writes a value.
fn value(room: &mut [u8], end: usize, value: &Value) -> usize
    requires { (own_width value.now + 47 ≤ end) × (end ≤ length room.old) }
    ensures taken { (result ≤ end) × (end ≤ result + (own_width value.now + 47)) }
    ensures written { drop result room.new ≡ value_text value.now ++ drop end room.old }
{
    match value {
        Value::Int(number) => signed_number(room, end, *number),
        Value::Bool(true) => word(room, end, b"true"),
        Value::Bool(false) => word(room, end, b"false"),
        Value::Text(words) => {
            let at = word(room, end, b"\"");
            let at = word(room, at, words.as_slice());
            word(room, at, b"\"")
        }
        Value::Bytes(bytes) => {
            let at = word(room, end, b"\"");
            let at = hexadecimal(room, at, bytes.as_slice());
            word(room, at, b"x\"")
        }
        Value::Guid(guid) => word(room, end, &guid.text()),
        Value::Ref(None) => word(room, end, b"null"),
        Value::Ref(Some(held)) => {
            let at = word_and_number(room, end, b":I", held.iface as u64);
            word_and_number(room, at, b"o", held.object as u64)
        }
    }
}
