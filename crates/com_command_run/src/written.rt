//! What is written of a run.
ghost use Rattle.std.specs.Prelude.{◌≡◌, ◌++◌, [], IfOk, OnOk, length};
ghost use Rattle.com_model.specs.Text.{history_text, report_text};
ghost use Rattle.com_threads.specs.Histories.{newest_first};
ghost use Rattle.com_threads.specs.Runs.{history_of};

use com_base::{ByteList, Memory};
use com_model::Entry;
use com_report::{line, report};
use com_threads::Ran;
use std::alloc::Global;

// The lines of a history's entries. The only error is want of memory.
#[tactic(auto, using(crate::proofs::Lines::line_more, crate::proofs::Lines::lines_all))]
fn lines(alloc: Global, version: u8, entries: &[Entry], out: &mut ByteList) -> Result<(), Memory>
    requires { out.old ≡ [] }
    ensures { OnOk result (out.new ≡ history_text version (newest_first entries.now)) }
{
    for at in 0..entries.len() {
        line(alloc, version, at as u64 + 1, &entries[at], out)?;
    }
    Ok(())
}

// The lines of a run's history, and its report. The only error is want of memory.
pub(crate) fn write_history(alloc: Global, version: u8, ran: &Ran) -> Result<ByteList, Memory>
    ensures { IfOk result (λ text. text ≡ history_text version (history_of ran.now)
        ++ report_text ran.now.counts (length ran.now.history) ran.now.clock ran.now.ended) }
{
    let mut text = ByteList::new(alloc);
    lines(alloc, version, ran.history.as_slice(), &mut text)?;
    let entries = ran.history.len() as u64;
    report(
        alloc,
        ran.counts.as_slice(),
        entries,
        ran.clock,
        ran.ended,
        &mut text,
    )?;
    Ok(text)
}
