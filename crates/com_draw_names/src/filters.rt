//! What a message filter does with a call, and when a call is sent again.
ghost use Rattle.std.specs.Prelude.{◌≡◌, ◌++◌, OnOk};
ghost use Rattle.com_draw_names.specs.Filters.{later_words, verdict_verb};

use crate::names::push_signed;
use com_base::{ByteList, Memory};
use com_filter::Verdict;

/// Appends what a message filter does with a call. The only error is want of memory.
pub fn push_verb(out: &mut ByteList, verdict: Verdict) -> Result<(), Memory>
    ensures { OnOk result (out.new ≡ out.old ++ verdict_verb verdict) }
{
    match verdict {
        Verdict::Rejected => out.push_all(b"rejects"),
        Verdict::Later => out.push_all(b"puts off"),
        Verdict::Handled => out.push_all(b"takes"),
    }
}

/// Appends after how many milliseconds a call is sent again. The only error is want of memory.
pub fn push_later(out: &mut ByteList, answer: i64) -> Result<(), Memory>
    ensures { OnOk result (out.new ≡ out.old ++ later_words answer) }
{
    out.push_all(b" again in ")?;
    push_signed(out, answer)?;
    out.push_all(b" ms")
}
