//! What stands behind the drawing, and the constant texts of the page.
ghost use Rattle.std.specs.Prelude.{◌≡◌, ◌++◌, OnOk};
ghost use Rattle.com_draw_words.specs.Ends.{body_text, colours_text, drawing_end_text, head_text};
ghost use Rattle.com_draw_words.specs.Ends.{item_end_text, item_front_text, list_end_text, list_front_text};
ghost use Rattle.com_draw_words.specs.Ends.{report_end_text, report_front_text, shapes_text, styles_end_text};
ghost use Rattle.com_draw_words.specs.Ends.{tail_text};

use crate::constants::{
    ARROW_STYLE, BODY_BACK, BODY_FRONT, BOX_STYLE, COLOURS, ENTRY_STYLE, HEAD_FRONT, KEY_OF_BOXES,
    KEY_OF_COLOURS, KEY_OF_MARKS, PAGE_STYLE, PRINT_STYLE, TAIL,
};
use com_base::{ByteList, Memory};

// Appends the front of the page's head, and the styles of its colours and of the page as a whole.
fn push_colours(out: &mut ByteList) -> Result<(), Memory>
    ensures { OnOk result (out.new ≡ out.old ++ colours_text) }
{
    out.push_all(HEAD_FRONT)?;
    out.push_all(COLOURS)?;
    out.push_all(PAGE_STYLE)
}

// Appends the styles of entries, boxes, arrows and the printed page.
fn push_shapes(out: &mut ByteList) -> Result<(), Memory>
    ensures { OnOk result (out.new ≡ out.old ++ shapes_text) }
{
    out.push_all(ENTRY_STYLE)?;
    out.push_all(BOX_STYLE)?;
    out.push_all(ARROW_STYLE)?;
    out.push_all(PRINT_STYLE)
}

/// Appends the head of the page, up to where the first widths begin. The only error is want of memory.
pub fn push_head(out: &mut ByteList) -> Result<(), Memory>
    ensures { OnOk result (out.new ≡ out.old ++ head_text) }
{
    push_colours(out)?;
    push_shapes(out)
}

/// Appends what stands between the first widths and the names of the lanes: the key, and the start of the
/// drawing. The only error is want of memory.
pub fn push_body(out: &mut ByteList) -> Result<(), Memory>
    ensures { OnOk result (out.new ≡ out.old ++ body_text) }
{
    out.push_all(BODY_FRONT)?;
    out.push_all(KEY_OF_BOXES)?;
    out.push_all(KEY_OF_MARKS)?;
    out.push_all(KEY_OF_COLOURS)?;
    out.push_all(BODY_BACK)
}

/// Appends the tail of the page: its script, and its end. The only error is want of memory.
pub fn push_tail(out: &mut ByteList) -> Result<(), Memory>
    ensures { OnOk result (out.new ≡ out.old ++ tail_text) }
{
    out.push_all(TAIL)
}

/// Appends the end of the drawing, up to where the second widths begin. The only error is want of memory.
pub fn push_drawing_end(out: &mut ByteList) -> Result<(), Memory>
    ensures { OnOk result (out.new ≡ out.old ++ drawing_end_text) }
{
    out.push_all(b"</main>\n<footer>\n<svg aria-hidden=\"true\"><style>")
}

/// Appends the end of the second widths, and the page's heading. The only error is want of memory.
pub fn push_styles_end(out: &mut ByteList) -> Result<(), Memory>
    ensures { OnOk result (out.new ≡ out.old ++ styles_end_text) }
{
    out.push_all(b"</style></svg>\n<h1>A history of COM calls</h1>\n")
}

/// Appends the front of the list of reasons and events. The only error is want of memory.
pub fn push_list_front(out: &mut ByteList) -> Result<(), Memory>
    ensures { OnOk result (out.new ≡ out.old ++ list_front_text) }
{
    out.push_all(b"<ul>\n")
}

/// Appends the front of an item of the list. The only error is want of memory.
pub fn push_item_front(out: &mut ByteList) -> Result<(), Memory>
    ensures { OnOk result (out.new ≡ out.old ++ item_front_text) }
{
    out.push_all(b"<li>")
}

/// Appends the end of an item of the list. The only error is want of memory.
pub fn push_item_end(out: &mut ByteList) -> Result<(), Memory>
    ensures { OnOk result (out.new ≡ out.old ++ item_end_text) }
{
    out.push_all(b"</li>\n")
}

/// Appends the end of the list. The only error is want of memory.
pub fn push_list_end(out: &mut ByteList) -> Result<(), Memory>
    ensures { OnOk result (out.new ≡ out.old ++ list_end_text) }
{
    out.push_all(b"</ul>\n")
}

/// Appends what stands before the report. The only error is want of memory.
pub fn push_report_front(out: &mut ByteList) -> Result<(), Memory>
    ensures { OnOk result (out.new ≡ out.old ++ report_front_text) }
{
    out.push_all(b"<details><summary>Report</summary><pre>\n")
}

/// Appends what stands behind the report. The only error is want of memory.
pub fn push_report_end(out: &mut ByteList) -> Result<(), Memory>
    ensures { OnOk result (out.new ≡ out.old ++ report_end_text) }
{
    out.push_all(b"</pre></details>\n</footer>\n")
}
