//! Appending words and line ends to a text.

ghost use Rattle.std.specs.Prelude.{◌≡◌, ◌++◌, ◌∷◌, [], OnOk};
ghost use Rattle.com_print.specs.Spelled.{plain, more_text};

use com_base::{ByteList, Memory};

/// Appends a word behind another one of its line: a space, and the word's bytes.
pub fn push_word(out: &mut ByteList, word: &[u8]) -> Result<(), Memory>
    ensures { OnOk result (out.new ≡ out.old ++ more_text (plain word.now ∷ [])) }
{
    out.push(b' ')?;
    out.push_all(word)
}

/// Ends a line.
pub fn push_end(out: &mut ByteList) -> Result<(), Memory>
    ensures { OnOk result (out.new ≡ out.old ++ 10 ∷ []) }
{
    out.push(b'\n')
}
