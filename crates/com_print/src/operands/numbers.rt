//! Numbers, and the operands that are a letter and a number.

ghost use Rattle.std.specs.Prelude.{◌≡◌, ◌++◌, ◌∷◌, [], OnOk, decimal};
ghost use Rattle.std.specs.Fmt.{signed_decimal};
ghost use Rattle.com_print.specs.Spelled.{plain, more_text};
ghost use Rattle.com_print.specs.Words.{register_word, slot_word, cell_word, link_word, buffer_word};

use com_base::{ByteList, Memory};
use itoa::Buffer;

/// Appends a word behind another one of its line. The only error is want of memory.
pub fn push_word(out: &mut ByteList, word: &[u8]) -> Result<(), Memory>
    ensures { OnOk result (out.new ≡ out.old ++ more_text (plain word.now ∷ [])) }
{
    crate::words::push_word(out, word)
}

/// Appends a number in decimal digits.
pub fn push_decimal(out: &mut ByteList, number: u64) -> Result<(), Memory>
    ensures { OnOk result (out.new ≡ out.old ++ more_text (plain (decimal number) ∷ [])) }
{
    let mut digits = Buffer::new();
    push_word(out, digits.format(number).as_bytes())
}

/// Appends a number in decimal digits, behind a `-` where it is below 0.
pub fn push_signed(out: &mut ByteList, number: i64) -> Result<(), Memory>
    ensures { OnOk result (out.new ≡ out.old ++ more_text (plain (signed_decimal number) ∷ [])) }
{
    let mut digits = Buffer::new();
    push_word(out, digits.format(number).as_bytes())
}

// Appends a letter and a number in decimal digits, behind a space.
fn push_lettered(out: &mut ByteList, letter: u8, number: u8) -> Result<(), Memory>
    ensures { OnOk result (out.new ≡ out.old ++ more_text (plain (letter ∷ decimal number) ∷ [])) }
{
    let mut digits = Buffer::new();
    out.push(b' ')?;
    out.push(letter)?;
    out.push_all(digits.format(number).as_bytes())
}

/// Appends a register: `r` and its number.
pub fn push_register(out: &mut ByteList, number: u8) -> Result<(), Memory>
    ensures { OnOk result (out.new ≡ out.old ++ more_text (register_word number ∷ [])) }
{
    push_lettered(out, b'r', number)
}

/// Appends a slot: `s` and its number.
pub fn push_slot(out: &mut ByteList, number: u8) -> Result<(), Memory>
    ensures { OnOk result (out.new ≡ out.old ++ more_text (slot_word number ∷ [])) }
{
    push_lettered(out, b's', number)
}

/// Appends a cell: `c` and its number.
pub fn push_cell(out: &mut ByteList, number: u8) -> Result<(), Memory>
    ensures { OnOk result (out.new ≡ out.old ++ more_text (cell_word number ∷ [])) }
{
    push_lettered(out, b'c', number)
}

/// Appends a link: `k` and its number.
pub fn push_link(out: &mut ByteList, number: u8) -> Result<(), Memory>
    ensures { OnOk result (out.new ≡ out.old ++ more_text (link_word number ∷ [])) }
{
    push_lettered(out, b'k', number)
}

/// Appends a packet buffer: `p` and its number.
pub fn push_buffer(out: &mut ByteList, number: u8) -> Result<(), Memory>
    ensures { OnOk result (out.new ≡ out.old ++ more_text (buffer_word number ∷ [])) }
{
    push_lettered(out, b'p', number)
}
