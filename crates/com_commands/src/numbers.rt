//! A number in a text.
ghost use Rattle.std.specs.Prelude.{◌≡◌, ◌++◌, OnOk, decimal};

use com_base::{ByteList, Memory};
use itoa::Buffer;

/// Appends a number in decimal digits. The only error is want of memory.
pub fn push_number(text: &mut ByteList, number: u64) -> Result<(), Memory>
    ensures { OnOk result (text.new ≡ text.old ++ decimal number) }
{
    let mut digits = Buffer::new();
    text.push_all(digits.format(number).as_bytes())
}
