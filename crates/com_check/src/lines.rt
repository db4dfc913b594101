//! The lines of a trace.
ghost use Rattle.std.specs.Prelude.{◌≡◌, ℕ, ◌<◌, ◌≤◌, ◌≢◌, ◌∷◌, length, slice_index};
ghost use Rattle.com_check.specs.Lines.{lines_of};

use memchr::memchr;

// How many bytes stand before the first line end, or all where there is none.
fn line_length(text: &[u8]) -> usize
    ensures within { result ≤ length text.now }
    ensures before { (k : ℕ) → k < result → slice_index text.now k ≢ 10 }
    ensures end { result < length text.now → slice_index text.now result ≡ 10 }
{
    match memchr(10, text) {
        Some(count) => count,
        None => text.len(),
    }
}

/// The first line of a text, without its end, and what stands behind that end.
#[inline(always)]
pub fn split_line<'a>(text: &'a [u8]) -> (&'a [u8], &'a [u8])
    requires { 0 < length text.now }
    ensures lines { lines_of text.now ≡ result.0.now ∷ lines_of result.1.now }
    ensures shorter { length result.1.now < length text.now }
{
    let count = line_length(text);
    if count < text.len() {
        (&text[..count], &text[count + 1..])
    } else {
        (text, &text[count..])
    }
}
