//! A lane and what it does, as many stories begin.
ghost use Rattle.std.specs.Prelude.{◌≡◌, ◌++◌, OnOk};
ghost use Rattle.com_draw_stories.specs.Phrases.{lane_at, lane_does, lane_fails, lane_link, lane_named};
ghost use Rattle.com_draw_stories.specs.Phrases.{lane_place, lane_signed, object_fails, signed_fails};

use crate::speakers::Speaker;
use com_base::{ByteList, HResult, Memory};
use com_draw_names::{push_failure, push_named, push_object, push_place, push_signed};
use com_draw_words::{push_link, push_number, push_word_and_number};

// Appends a lane and what it does.
pub(crate) fn push_does(out: &mut ByteList, lane: u32, words: &[u8]) -> Result<(), Memory>
    ensures { OnOk result (out.new ≡ out.old ++ lane_does lane words.now) }
{
    push_word_and_number(out, b"L", lane)?;
    out.push_all(words)
}

// Appends a lane, what it does, and a number.
pub(crate) fn push_at(
    out: &mut ByteList,
    lane: u32,
    words: &[u8],
    number: u32,
) -> Result<(), Memory>
    ensures { OnOk result (out.new ≡ out.old ++ lane_at lane words.now number) }
{
    push_does(out, lane, words)?;
    push_number(out, number as u64)
}

// Appends a lane, what it does, and a signed number.
pub(crate) fn push_does_signed(
    out: &mut ByteList,
    lane: u32,
    words: &[u8],
    number: i64,
) -> Result<(), Memory>
    ensures { OnOk result (out.new ≡ out.old ++ lane_signed lane words.now number) }
{
    push_does(out, lane, words)?;
    push_signed(out, number)
}

// Appends a lane, what it does, and a number behind its letters, or a dash where there is none.
pub(crate) fn push_does_named(
    out: &mut ByteList,
    lane: u32,
    words: &[u8],
    letters: &[u8],
    number: Option<u32>,
) -> Result<(), Memory>
    ensures { OnOk result (out.new ≡ out.old ++ lane_named lane words.now letters.now number) }
{
    push_does(out, lane, words)?;
    push_named(out, letters, number)
}

// Appends a lane, what it does, an apartment, and words.
pub(crate) fn push_does_place(
    out: &mut ByteList,
    lane: u32,
    words: &[u8],
    apartment: u32,
    behind: &[u8],
) -> Result<(), Memory>
    ensures { OnOk result (out.new ≡ out.old ++ lane_place lane words.now apartment behind.now) }
{
    push_does(out, lane, words)?;
    push_place(out, apartment)?;
    out.push_all(behind)
}

// Appends a lane, what it does, a link to a call, and words.
pub(crate) fn push_does_link(
    out: &mut ByteList,
    lane: u32,
    words: &[u8],
    call: u32,
    behind: &[u8],
) -> Result<(), Memory>
    ensures { OnOk result (out.new ≡ out.old ++ lane_link lane words.now call behind.now) }
{
    push_does(out, lane, words)?;
    push_link(out, call)?;
    out.push_all(behind)
}

// Appends a lane, what it cannot do, and why.
pub(crate) fn push_fails(
    out: &mut ByteList,
    speaker: Speaker,
    words: &[u8],
    hr: HResult,
) -> Result<(), Memory>
    ensures { OnOk result (out.new ≡ out.old ++ lane_fails speaker words.now hr) }
{
    push_does(out, speaker.lane, words)?;
    push_failure(out, speaker.version, hr)
}

// Appends a lane, what it cannot do with a number, and why.
pub(crate) fn push_signed_fails(
    out: &mut ByteList,
    speaker: Speaker,
    words: &[u8],
    number: i64,
    hr: HResult,
) -> Result<(), Memory>
    ensures { OnOk result (out.new ≡ out.old ++ signed_fails speaker words.now number hr) }
{
    push_does_signed(out, speaker.lane, words, number)?;
    push_failure(out, speaker.version, hr)
}

// Appends a lane, what it cannot do with an object, and why.
pub(crate) fn push_object_fails(
    out: &mut ByteList,
    speaker: Speaker,
    words: &[u8],
    object: Option<u32>,
    behind: &[u8],
    hr: HResult,
) -> Result<(), Memory>
    ensures { OnOk result (out.new ≡ out.old ++ object_fails speaker words.now object behind.now hr) }
{
    push_does(out, speaker.lane, words)?;
    push_object(out, object)?;
    out.push_all(behind)?;
    push_failure(out, speaker.version, hr)
}
