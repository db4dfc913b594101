//! Words and what stands behind them, as many labels have it.
ghost use Rattle.std.specs.Prelude.{◌≡◌, ◌++◌, OnOk};
ghost use Rattle.com_draw_labels.specs.Words.{failed_label, words_named, words_place, words_signed};

use com_base::{ByteList, HResult, Memory};
use com_draw_names::{push_hresult_behind, push_named, push_place, push_signed};

// Appends words and a number behind its letters, or a dash where there is none.
pub(crate) fn push_words_named(
    out: &mut ByteList,
    words: &[u8],
    letters: &[u8],
    number: Option<u32>,
) -> Result<(), Memory>
    ensures { OnOk result (out.new ≡ out.old ++ words_named words.now letters.now number) }
{
    out.push_all(words)?;
    push_named(out, letters, number)
}

// Appends words and a signed number.
pub(crate) fn push_words_signed(out: &mut ByteList, words: &[u8], number: i64) -> Result<(), Memory>
    ensures { OnOk result (out.new ≡ out.old ++ words_signed words.now number) }
{
    out.push_all(words)?;
    push_signed(out, number)
}

// Appends words and an apartment.
pub(crate) fn push_words_place(
    out: &mut ByteList,
    words: &[u8],
    apartment: u32,
) -> Result<(), Memory>
    ensures { OnOk result (out.new ≡ out.old ++ words_place words.now apartment) }
{
    out.push_all(words)?;
    push_place(out, apartment)
}

// Appends what failed, and the HRESULT.
pub(crate) fn push_failed(
    out: &mut ByteList,
    words: &[u8],
    version: u8,
    hr: HResult,
) -> Result<(), Memory>
    ensures { OnOk result (out.new ≡ out.old ++ failed_label words.now version hr) }
{
    out.push_all(words)?;
    push_hresult_behind(out, version, hr)
}
