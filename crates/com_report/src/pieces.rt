//! What an entry's line is written with. It is written from its end: each piece goes in front of what is
//! there, since the digits of a number are found from the last to the first. Each of these is given the room
//! and where the end stands in it, and says where what it wrote begins.
ghost use Rattle.std.specs.Prelude.{◌≡◌, ◌++◌, ◌+◌, ◌*◌, ◌<◌, ◌≤◌, length, drop, decimal, codes, [], ◌∷◌};
ghost use Rattle.std.specs.Fmt.{signed_decimal};
ghost use Rattle.hex.specs.Hex.{encode_lower};
ghost use Rattle.com_model.specs.Text.{hresult_text, named, held_text, asked_text, bytes_text};
ghost use Rattle.com_report.specs.Width.{bytes_width};

use com_base::{ByteList, HResult, RefValue};
use com_body::Asked;
use itoa::write_digits;

/// Writes a word.
#[inline(always)]
pub fn word(room: &mut [u8], end: usize, word: &[u8]) -> usize
    requires { (length word.now ≤ end) × (end ≤ length room.old) }
    ensures taken { result + length word.now ≡ end }
    ensures written { drop result room.new ≡ word.now ++ drop end room.old }
{
    let start = end - word.len();
    room[start..end].copy_from_slice(word);
    start
}

// Writes a digit.
#[inline(always)]
#[tactic(auto, using(crate::proofs::Parts::digit_in_front))]
fn digit(room: &mut [u8], end: usize, digit: u64) -> usize
    requires { (digit < 10) × (1 ≤ end) × (end ≤ length room.old) }
    ensures taken { result + 1 ≡ end }
    ensures written { drop result room.new ≡ decimal digit ++ drop end room.old }
{
    room[end - 1] = b'0' + digit as u8;
    end - 1
}

/// Writes a number in decimal digits. Most numbers are below 10.
#[inline(always)]
#[tactic(auto, using(crate::proofs::Parts::digits_of_64))]
pub fn number(room: &mut [u8], end: usize, number: u64) -> usize
    requires { (20 ≤ end) × (end ≤ length room.old) }
    ensures taken { (result ≤ end) × (end ≤ result + 20) }
    ensures written { drop result room.new ≡ decimal number ++ drop end room.old }
{
    if number < 10 {
        return digit(room, end, number);
    }
    write_digits(number, room, end)
}

/// Writes a signed number in decimal digits.
pub fn signed_number(room: &mut [u8], end: usize, value: i64) -> usize
    requires { (21 ≤ end) × (end ≤ length room.old) }
    ensures taken { (result ≤ end) × (end ≤ result + 21) }
    ensures written { drop result room.new ≡ signed_decimal value ++ drop end room.old }
{
    let start = number(room, end, value.unsigned_abs());
    if value >= 0 {
        return start;
    }
    room[start - 1] = b'-';
    start - 1
}

/// Writes a word and a number in decimal digits behind it.
#[inline(always)]
pub fn word_and_number(room: &mut [u8], end: usize, before: &[u8], value: u64) -> usize
    requires { (length before.now + 20 ≤ end) × (end ≤ length room.old) }
    ensures taken { (result ≤ end) × (end ≤ result + (length before.now + 20)) }
    ensures written { drop result room.new ≡ before.now ++ decimal value ++ drop end room.old }
{
    let at = number(room, end, value);
    word(room, at, before)
}

/// Writes a word and a signed number in decimal digits behind it.
#[inline(always)]
pub fn signed_after(room: &mut [u8], end: usize, before: &[u8], value: i64) -> usize
    requires { (length before.now + 21 ≤ end) × (end ≤ length room.old) }
    ensures taken { (result ≤ end) × (end ≤ result + (length before.now + 21)) }
    ensures written { drop result room.new ≡ before.now ++ signed_decimal value ++ drop end room.old }
{
    let at = signed_number(room, end, value);
    word(room, at, before)
}

/// Writes bytes in lower-case hexadecimal digits.
pub fn hexadecimal(room: &mut [u8], end: usize, bytes: &[u8]) -> usize
    requires { (2 * length bytes.now ≤ end) × (end ≤ length room.old) }
    ensures taken { result + 2 * length bytes.now ≡ end }
    ensures written { drop result room.new ≡ encode_lower bytes.now ++ drop end room.old }
{
    let start = end - 2 * bytes.len();
    let Ok(()) = hex::encode_to_slice(bytes, &mut room[start..end]) else {
        unreachable!()
    };
    start
}

/// Writes an HRESULT behind a space: in version 2 its digits, otherwise its name, or its digits where it has
/// none.
pub fn hresult(room: &mut [u8], end: usize, version: u8, hr: HResult) -> usize
    requires { (32 ≤ end) × (end ≤ length room.old) }
    ensures taken { (result ≤ end) × (end ≤ result + 32) }
    ensures written { drop result room.new ≡ codes " " ++ hresult_text version hr ++ drop end room.old }
{
    if version == 2 {
        let at = word(room, end, &hr.digits());
        return word(room, at, b" ");
    }
    if hr == HResult::S_OK {
        return word(room, end, b" S_OK");
    }
    let Some(name) = hr.name() else {
        let at = word(room, end, &hr.digits());
        return word(room, at, b" ");
    };
    let at = word(room, end, name.as_bytes());
    word(room, at, b" ")
}

/// Writes a space and a number behind its letter, or a dash where there is none.
#[inline(always)]
pub fn letter_and_number(room: &mut [u8], end: usize, letter: &[u8], value: Option<u32>) -> usize
    requires { (length letter.now + 21 ≤ end) × (end ≤ length room.old) }
    ensures taken { (result ≤ end) × (end ≤ result + (length letter.now + 21)) }
    ensures written { drop result room.new ≡ codes " " ++ named letter.now value ++ drop end room.old }
{
    let Some(value) = value else {
        return word(room, end, b" -");
    };
    let at = word_and_number(room, end, letter, value as u64);
    word(room, at, b" ")
}

/// Writes a space, and an object and an interface, or two dashes for null.
pub fn reference(room: &mut [u8], end: usize, held: Option<RefValue>) -> usize
    requires { (48 ≤ end) × (end ≤ length room.old) }
    ensures taken { (result ≤ end) × (end ≤ result + 48) }
    ensures written { drop result room.new ≡ codes " " ++ held_text held ++ drop end room.old }
{
    let Some(held) = held else {
        return word(room, end, b" - -");
    };
    let at = word_and_number(room, end, b" I", held.iface as u64);
    word_and_number(room, at, b" o", held.object as u64)
}

/// Writes a space and a class or an interface: its number behind its letter, or the GUID of one that is not
/// declared.
pub fn class_or_interface(room: &mut [u8], end: usize, letter: u8, asked: &Asked) -> usize
    requires { (39 ≤ end) × (end ≤ length room.old) }
    ensures taken { (result ≤ end) × (end ≤ result + 39) }
    ensures written { drop result room.new ≡ codes " " ++ asked_text (letter ∷ []) asked.now ++ drop end room.old }
{
    match asked {
        Asked::Number(number) => word_and_number(room, end, &[b' ', letter], *number as u64),
        Asked::Guid(guid) => {
            let at = word(room, end, &guid.text());
            word(room, at, b" ")
        }
    }
}

/// Writes a space and bytes in lower-case hexadecimal digits, or a dash where there are none.
pub fn bytes(room: &mut [u8], end: usize, bytes: &Option<ByteList>) -> usize
    requires { (bytes_width bytes.now + 2 ≤ end) × (end ≤ length room.old) }
    ensures taken { (result ≤ end) × (end ≤ result + (bytes_width bytes.now + 2)) }
    ensures written { drop result room.new ≡ codes " " ++ bytes_text bytes.now ++ drop end room.old }
{
    let Some(list) = bytes else {
        return word(room, end, b" -");
    };
    let at = hexadecimal(room, end, list.as_slice());
    word(room, at, b" ")
}
