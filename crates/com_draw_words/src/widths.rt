//! The rules of the style sheets that hold numbers: the widths, and the events.
ghost use Rattle.std.specs.Prelude.{◌≡◌, ◌++◌, OnOk};
ghost use Rattle.com_draw_words.specs.Widths.{edges_text, event_style_text, lane_widths_text};
ghost use Rattle.com_draw_words.specs.Widths.{main_width_text, page_size_text};

use crate::texts::push_word_and_number;
use com_base::{ByteList, Memory};

// Appends two properties: where a lane begins, and how wide it is.
fn push_edges(
    out: &mut ByteList,
    start: &[u8],
    from: u32,
    between: &[u8],
    width: u32,
) -> Result<(), Memory>
    ensures { OnOk result (out.new ≡ out.old ++ edges_text start.now from between.now width) }
{
    push_word_and_number(out, start, from)?;
    push_word_and_number(out, between, width)?;
    out.push_all(b"px}")
}

/// Appends where a lane begins and how wide it is, once for what stands in it and once for the arrows that
/// end in it. The only error is want of memory.
pub fn push_lane_widths(out: &mut ByteList, lane: u32, from: u32, width: u32) -> Result<(), Memory>
    ensures { OnOk result (out.new ≡ out.old ++ lane_widths_text lane from width) }
{
    push_word_and_number(out, b".l", lane)?;
    push_edges(out, b"{--a:", from, b"px;--w:", width)?;
    push_word_and_number(out, b".m", lane)?;
    push_edges(out, b"{--b:", from, b"px;--v:", width)
}

/// Appends the width of all lanes. The only error is want of memory.
pub fn push_main_width(out: &mut ByteList, width: u32) -> Result<(), Memory>
    ensures { OnOk result (out.new ≡ out.old ++ main_width_text width) }
{
    push_word_and_number(out, b"main{--z:", width)?;
    out.push_all(b"px}")
}

/// Appends the size of the printed page by its width. The only error is want of memory.
pub fn push_page_size(out: &mut ByteList, width: u32) -> Result<(), Memory>
    ensures { OnOk result (out.new ≡ out.old ++ page_size_text width) }
{
    push_word_and_number(out, b"@page{size:", width)?;
    out.push_all(b"px 1240px;margin:24px}")
}

/// Appends the rule that marks the label of an event's call. The only error is want of memory.
pub fn push_event_style(out: &mut ByteList, call: u32) -> Result<(), Memory>
    ensures { OnOk result (out.new ≡ out.old ++ event_style_text call) }
{
    push_word_and_number(out, b"#c", call)?;
    out.push_all(b"::before{content:\"event: \"}")
}
