//! An input of a scenario's text, the line `trace`, and a trace.
ghost use Rattle.std.specs.Prelude.{◌≡◌, ◌<◌, ◌-◌, ◌^◌, IfOk, length};
ghost use Rattle.com_text.specs.Scanning.{lines_of};
ghost use Rattle.com_check.specs.Cuts.{says_trace, cut_of, IsWithin};

use com_base::Memory;
use com_text::{Word, is_over, line_at};
use std::alloc::Global;

/// How an input is cut.
#[derive(Debug, Clone, Copy, PartialEq, Eq)]
pub enum Cut {
    /// The scenario's text ends before the index `until`, where the line `trace` begins, and the trace begins
    /// at `from`.
    At { until: usize, from: usize },
    /// There is no line `trace`: the line and the column of the end of the text.
    Missing { line: u32, column: u32 },
}

/// Cuts an input at its first line whose only word is `trace`. The only error is want of memory.
#[tactic(auto, unfolding(com_text::specs::Scanning::lines_of))]
pub fn cut_text(alloc: Global, text: &[u8]) -> Result<Cut, Memory>
    requires { length text.now < 2 ^ 32 - 2 }
    ensures value { IfOk result (λ cut. cut ≡ cut_of 0 (lines_of text.now)) }
    ensures within { IfOk result (λ cut. IsWithin (length text.now) cut) }
{
    let mut words = Vec::new(alloc);
    let mut line = 1;
    let mut at = 0;
    'lines: loop {
        let end = line_at(text, line, at, &mut words)?;
        if says_trace(&words) {
            return Ok(Cut::At {
                until: at,
                from: if end.last { end.at } else { end.at + 1 },
            });
        }
        if end.last {
            return Ok(Cut::Missing {
                line,
                column: end.column,
            });
        }
        line += 1;
        at = end.at + 1;
    }
}

// Whether the only word of a line is `trace`. A comment may stand behind it.
fn says_trace(line: &[Word]) -> bool
    ensures { result ≡ says_trace line.now }
{
    match line {
        [] => false,
        [word, rest @ ..] => word.bytes == b"trace".as_slice() && is_over(rest),
    }
}
