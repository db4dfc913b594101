//! Writing a history's lines and its report.
ghost use Rattle.std.specs.Prelude.{◌≡◌, ◌++◌, OnOk, reverse};
ghost use Rattle.com_model.specs.Text.{history_text};
ghost use Rattle.com_command_migrate.specs.declared.writing.TheConstants.{VERSION};
ghost use Rattle.com_command_migrate.specs.Moving.{trace_text};

use com_base::{ByteList, Memory};
use com_check::Agreed;
use com_model::Entry;
use com_report::{line, report};
use std::alloc::Global;

// The version of the language to which a scenario and its history are moved.
pub(crate) const VERSION: u8 = 2;

/// Puts the lines of a history behind a text, and its report, as version 2 of the language writes them: each
/// HRESULT as eight upper-case hexadecimal digits. The only error is want of memory.
pub fn push_trace(alloc: Global, agreed: &Agreed, out: &mut ByteList) -> Result<(), Memory>
    ensures { OnOk result (out.new ≡ out.old ++ trace_text agreed.now) }
{
    push_lines(alloc, agreed.history.as_slice(), out)?;
    report(
        alloc,
        agreed.counts.as_slice(),
        agreed.history.as_slice().len() as u64,
        agreed.clock,
        agreed.ended,
        out,
    )
}

// Puts the lines of entries, in the order of their making, behind a text.
fn push_lines(alloc: Global, history: &[Entry], out: &mut ByteList) -> Result<(), Memory>
    ensures { OnOk result (out.new ≡ out.old ++ history_text VERSION (reverse history.now)) }
{
    let mut rest = history;
    'entries: while let Some((entry, others)) = rest.split_first() {
        let place = (history.len() - others.len()) as u64;
        line(alloc, VERSION, place, entry, out)?;
        rest = others;
    }
    Ok(())
}
