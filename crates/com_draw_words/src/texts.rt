//! Numbers, escaped texts, and links to calls.
ghost use Rattle.std.specs.Prelude.{◌≡◌, ◌++◌, ◌↔◌, All, IsTrue, OnOk, decimal};
ghost use Rattle.com_draw_words.specs.Escapes.{escaped, escaped_byte, is_plain, are_plain, link_text};
ghost use Rattle.com_draw_words.specs.Escapes.{word_and_number, words_around};

use com_base::{ByteList, Memory};
use itoa::Buffer;

/// Appends a number in decimal digits. The only error is want of memory.
pub fn push_number(out: &mut ByteList, number: u64) -> Result<(), Memory>
    ensures { OnOk result (out.new ≡ out.old ++ decimal number) }
{
    let mut digits = Buffer::new();
    out.push_all(digits.format(number).as_bytes())
}

/// Appends a word and a number in decimal digits. The only error is want of memory.
pub fn push_word_and_number(out: &mut ByteList, word: &[u8], number: u32) -> Result<(), Memory>
    ensures { OnOk result (out.new ≡ out.old ++ word_and_number word.now number) }
{
    out.push_all(word)?;
    push_number(out, number as u64)
}

/// Appends a word, a number in decimal digits, and a word. The only error is want of memory.
pub fn push_around(
    out: &mut ByteList,
    before: &[u8],
    number: u32,
    behind: &[u8],
) -> Result<(), Memory>
    ensures { OnOk result (out.new ≡ out.old ++ words_around before.now number behind.now) }
{
    push_word_and_number(out, before, number)?;
    out.push_all(behind)
}

// Whether a byte stands for itself.
fn is_plain(byte: u8) -> bool
    ensures { result ≡ is_plain byte }
{
    32 <= byte && byte <= 126 && byte != b'&' && byte != b'<' && byte != b'>' && byte != b'"'
}

// Whether each byte stands for itself.
fn are_plain(text: &[u8]) -> bool
    ensures { result ≡ are_plain text.now }
{
    let mut rest = text;
    'bytes: while let Some((byte, others)) = rest.split_first() {
        if !is_plain(*byte) {
            return false;
        }
        rest = others;
    }
    true
}

// Appends one byte of a text: five of them by their escapes, and a question mark for one that is not printed.
fn push_escaped_byte(out: &mut ByteList, byte: u8) -> Result<(), Memory>
    ensures { OnOk result (out.new ≡ out.old ++ escaped_byte byte) }
{
    match byte {
        b'&' => out.push_all(b"&amp;"),
        b'<' => out.push_all(b"&lt;"),
        b'>' => out.push_all(b"&gt;"),
        b'"' => out.push_all(b"&quot;"),
        b'\t' => out.push_all(b"&#9;"),
        32..=126 => out.push(byte),
        _ => out.push_all(b"?"),
    }
}

// Appends a text of which some bytes may be escaped.
fn push_each_escaped(out: &mut ByteList, text: &[u8]) -> Result<(), Memory>
    ensures { OnOk result (out.new ≡ out.old ++ escaped text.now) }
{
    let mut rest = text;
    'bytes: while let Some((byte, others)) = rest.split_first() {
        push_escaped_byte(out, *byte)?;
        rest = others;
    }
    Ok(())
}

/// Appends a text as it may stand in the page: `&`, `<`, `>`, `"` and the tab by their escapes, and a
/// question mark for each other byte outside 32 to 126. The only error is want of memory.
#[tactic(auto, using(crate::proofs::Plain::plain_stays))]
pub fn push_escaped(out: &mut ByteList, text: &[u8]) -> Result<(), Memory>
    ensures { OnOk result (out.new ≡ out.old ++ escaped text.now) }
{
    if are_plain(text) {
        return out.push_all(text);
    }
    push_each_escaped(out, text)
}

/// Appends a link to a call. The only error is want of memory.
pub fn push_link(out: &mut ByteList, call: u32) -> Result<(), Memory>
    ensures { OnOk result (out.new ≡ out.old ++ link_text call) }
{
    push_word_and_number(out, b"<a href=\"#c", call)?;
    push_word_and_number(out, b"\">c", call)?;
    out.push_all(b"</a>")
}
