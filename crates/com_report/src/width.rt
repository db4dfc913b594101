//! How much room a line takes, before it is written.
ghost use Rattle.std.specs.Prelude.{◌≡◌, ◌+◌, IfSome};
ghost use Rattle.com_report.specs.Width.{bytes_width, own_width, one_value_width, values_width, deed_width};

use com_base::{ByteList, Value};
use com_model::Deed;

/// Room that is enough for a deed's line. None where that is more than the machine can number.
#[inline(always)]
pub fn line_room(deed: &Deed) -> Option<usize>
    ensures { IfSome result (λ room. room ≡ deed_width deed.now + 208) }
{
    deed_width(deed)?.checked_add(BOUNDED)
}

// What a deed's line takes beside its words and numbers.
#[inline(always)]
fn deed_width(deed: &Deed) -> Option<usize>
    ensures { IfSome result (λ width. width ≡ deed_width deed.now) }
{
    match deed {
        Deed::Marshal { bytes, .. } | Deed::Out { bytes, .. } => bytes_width(bytes),
        Deed::Enter { values, .. } => values_width(values.as_slice()),
        Deed::Leave { value, bytes, .. } => {
            one_value_width(value)?.checked_add(bytes_width(bytes)?)
        }
        Deed::Back { value, .. } => one_value_width(value),
        _ => Some(0),
    }
}

// The digits of bytes.
fn bytes_width(bytes: &Option<ByteList>) -> Option<usize>
    ensures { IfSome result (λ width. width ≡ bytes_width bytes.now) }
{
    match bytes {
        None => Some(0),
        Some(list) => list.len().checked_mul(2),
    }
}

// A value, or nothing.
fn one_value_width(value: &Option<Value>) -> Option<usize>
    ensures { IfSome result (λ width. width ≡ one_value_width value.now) }
{
    match value {
        None => Some(0),
        Some(value) => own_width(value)?.checked_add(ONE_VALUE),
    }
}

// Values.
fn values_width(values: &[Value]) -> Option<usize>
    ensures { IfSome result (λ width. width ≡ values_width values.now) }
{
    let mut rest = values;
    let mut width = 0usize;
    'values: while let Some((next, others)) = rest.split_first() {
        width = width.checked_add(own_width(next)?)?.checked_add(ONE_VALUE)?;
        rest = others;
    }
    Some(width)
}

// A text's bytes, or the digits of bytes, beside what any value takes.
fn own_width(value: &Value) -> Option<usize>
    ensures { IfSome result (λ width. width ≡ own_width value.now) }
{
    match value {
        Value::Text(text) => Some(text.len()),
        Value::Bytes(bytes) => bytes.len().checked_mul(2),
        _ => Some(0),
    }
}

// What the words and numbers of a line take at most.
const BOUNDED: usize = 208;

// What any value takes, and a comma before it.
const ONE_VALUE: usize = 48;
