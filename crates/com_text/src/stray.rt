//! The first byte of a text, or of a word, that is outside the characters.

ghost use Rattle.std.specs.Prelude.{◌≡◌, ◌<◌, ◌+◌, ◌^◌, IfSome, length, slice_index};
ghost use Rattle.com_text.specs.Tokens.{first_stray};
ghost use Rattle.com_text.specs.Sorts.{stray_column};

use crate::scan::{Class, class_of};

/// The byte at an index, 0 behind the end.
pub fn byte_at(text: &[u8], at: usize) -> u8
    ensures { result ≡ slice_index text.now at }
{
    if at < text.len() { text[at] } else { 0 }
}

/// The index of the first byte outside the characters.
pub fn first_stray(text: &[u8]) -> Option<usize>
    ensures first { result ≡ first_stray text.now }
    ensures within { IfSome result (λ at. at < length text.now) }
{
    for i in 0..text.len() {
        if class_of(text[i], byte_at(text, i + 1)) == Class::Bad {
            return Some(i);
        }
    }
    None
}

/// The column of the first byte outside the characters, of a word that begins at a column.
pub fn stray_column(column: u32, bytes: &[u8]) -> u32
    requires { column + length bytes.now < 2 ^ 32 }
    ensures { result ≡ stray_column column bytes.now }
{
    match first_stray(bytes) {
        Some(at) => column + at as u32,
        None => column,
    }
}
