//! The names of the lanes, and what stands around the rows of a section.
ghost use Rattle.std.specs.Prelude.{◌≡◌, ◌++◌, OnOk};
ghost use Rattle.com_draw_words.specs.Sections.{column_text, columns_end_text, lane_hue, lane_name_text};
ghost use Rattle.com_draw_words.specs.Sections.{lane_words, objects_name_text, section_back_text};
ghost use Rattle.com_draw_words.specs.Sections.{section_end_text, section_front_text};

use crate::boxes::NO_HUE;
use crate::texts::push_word_and_number;
use com_base::{ByteList, HOST_STA, MTA, Memory};

/// The sorts of lanes that have a name.
#[derive(Debug, Clone, Copy, PartialEq, Eq)]
pub enum LaneKind {
    /// That of a thread.
    Thread,
    /// That of the host.
    Host,
    /// That of a thread of the pool.
    Pool,
}

// The hue of a lane's name: that of the host STA, of the MTA for the pool, of none for a thread.
fn lane_hue(kind: LaneKind) -> u32
    ensures { result ≡ lane_hue kind }
{
    match kind {
        LaneKind::Thread => NO_HUE as u32,
        LaneKind::Host => HOST_STA,
        LaneKind::Pool => MTA,
    }
}

// Appends what a lane is, behind its number.
fn push_words(out: &mut ByteList, kind: LaneKind) -> Result<(), Memory>
    ensures { OnOk result (out.new ≡ out.old ++ lane_words kind) }
{
    match kind {
        LaneKind::Thread => out.push_all(b"</b> thread</u>"),
        LaneKind::Host => out.push_all(b"</b> host STA a2</u>"),
        LaneKind::Pool => out.push_all(b"</b> pool of MTA a1</u>"),
    }
}

/// Appends the name of a lane. The only error is want of memory.
pub fn push_lane_name(out: &mut ByteList, lane: u32, kind: LaneKind) -> Result<(), Memory>
    ensures { OnOk result (out.new ≡ out.old ++ lane_name_text lane kind) }
{
    push_word_and_number(out, b"<u class=\"l", lane)?;
    push_word_and_number(out, b" k", lane_hue(kind))?;
    push_word_and_number(out, b"\"><b>L", lane)?;
    push_words(out, kind)
}

/// Appends the name of the lane of the objects, and the end of the names. The only error is want of memory.
pub fn push_objects_name(out: &mut ByteList, lane: u32) -> Result<(), Memory>
    ensures { OnOk result (out.new ≡ out.old ++ objects_name_text lane) }
{
    push_word_and_number(out, b"<u class=\"l", lane)?;
    out.push_all(b" k9\">objects</u></div>\n")
}

/// Appends the front of a section, up to its columns. The only error is want of memory.
pub fn push_section_front(out: &mut ByteList) -> Result<(), Memory>
    ensures { OnOk result (out.new ≡ out.old ++ section_front_text) }
{
    out.push_all(b"<section>\n<div aria-hidden=\"true\">")
}

/// Appends the column of a lane. The only error is want of memory.
pub fn push_column(out: &mut ByteList, lane: u32) -> Result<(), Memory>
    ensures { OnOk result (out.new ≡ out.old ++ column_text lane) }
{
    push_word_and_number(out, b"<i class=\"col l", lane)?;
    out.push_all(b"\"></i>")
}

/// Appends the end of a section's columns. The only error is want of memory.
pub fn push_columns_end(out: &mut ByteList) -> Result<(), Memory>
    ensures { OnOk result (out.new ≡ out.old ++ columns_end_text) }
{
    out.push_all(b"</div>\n")
}

/// Appends what stands before the boxes at a section's end. The only error is want of memory.
pub fn push_section_back(out: &mut ByteList) -> Result<(), Memory>
    ensures { OnOk result (out.new ≡ out.old ++ section_back_text) }
{
    out.push_all(b"<div class=\"z\" aria-hidden=\"true\">")
}

/// Appends the end of a section. The only error is want of memory.
pub fn push_section_end(out: &mut ByteList) -> Result<(), Memory>
    ensures { OnOk result (out.new ≡ out.old ++ section_end_text) }
{
    out.push_all(b"</div>\n</section>\n")
}
