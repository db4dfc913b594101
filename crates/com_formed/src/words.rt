//! Names, and the values that statements spell.

ghost use Rattle.std.specs.Prelude.{◌≡◌, ◌≤◌, ◌↔◌, IsTrue, All, length, true};
ghost use Rattle.com_model.specs.Formed.{is_letter, is_name_byte, is_text_byte, IsName, IsLiteral, IsOperand};

use com_base::{LITERAL_LIMIT, NAME_LIMIT, Value};
use com_body::Op;

// Whether a byte is a letter of ASCII.
fn is_letter(byte: u8) -> bool
    ensures { result ≡ is_letter byte }
{
    matches!(byte, b'A'..=b'Z' | b'a'..=b'z')
}

// Whether a byte may stand in a name behind its first.
fn is_name_byte(byte: u8) -> bool
    ensures { result ≡ is_name_byte byte }
{
    is_letter(byte) || matches!(byte, b'0'..=b'9' | b'_')
}

// Whether bytes are a name: a letter, and letters, digits and low lines behind it, `NAME_LIMIT` bytes at most.
pub(crate) fn is_name(name: &[u8]) -> bool
    ensures { IsTrue result ↔ IsName name.now }
{
    match name {
        [first, rest @ ..] => {
            is_letter(*first)
                && rest.iter().all(|byte| is_name_byte(*byte))
                && rest.len() < NAME_LIMIT
        }
        [] => false,
    }
}

// Whether a byte may stand between the marks of a text literal.
fn is_text_byte(byte: u8) -> bool
    ensures { result ≡ is_text_byte byte }
{
    byte == b'\t' || (matches!(byte, b' '..=b'~') && byte != b'"')
}

// Whether bytes may stand between the marks of a text literal, as the language limits them.
fn is_text(bytes: &[u8]) -> bool
    ensures { IsTrue result ↔ (All (λ c. is_text_byte c ≡ true) bytes.now × (length bytes.now ≤ LITERAL_LIMIT)) }
{
    bytes.iter().all(|byte| is_text_byte(*byte)) && bytes.len() <= LITERAL_LIMIT
}

// Whether a text can spell a value as a literal. A reference has no literal.
pub(crate) fn is_literal(value: &Value) -> bool
    ensures { IsTrue result ↔ IsLiteral value.now }
{
    match value {
        Value::Text(text) => is_text(text.as_slice()),
        Value::Bytes(bytes) => bytes.len() <= LITERAL_LIMIT,
        Value::Ref(_) => false,
        _ => true,
    }
}

// Whether a text can spell an operand.
pub(crate) fn is_operand(operand: &Op) -> bool
    ensures { IsTrue result ↔ IsOperand operand.now }
{
    match operand {
        Op::Register(_) => true,
        Op::Literal(value) => is_literal(value),
    }
}
