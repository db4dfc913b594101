//! The lines of a report, beside those that a trace has left.
ghost use Rattle.std.specs.Prelude.{◌<◌, ◌+◌, ◌^◌, IfOk, length};
ghost use Rattle.com_check.specs.Lines.{lines_of};
ghost use Rattle.com_check.specs.Turning.{IsReported};

use crate::judged::{Judged, differs};
use crate::lines::split_line;
use com_base::Memory;
use std::alloc::Global;

/// What is printed where there is no line.
pub const NO_LINE: &[u8] = b"none";

/// Compares the lines that a trace has left, behind so many, with those of a report. The only error is want
/// of memory.
pub fn compare(alloc: Global, before: u64, report: &[u8], trace: &[u8]) -> Result<Judged, Memory>
    requires { before + length report.now + 1 < 2 ^ 64 }
    ensures { IfOk result (λ j. IsReported before (lines_of report.now) (lines_of trace.now) j) }
{
    let mut legal = report;
    let mut found = trace;
    let mut line = before;
    'lines: while !legal.is_empty() {
        let (legal_line, legal_rest) = split_line(legal);
        if found.is_empty() {
            return differs(alloc, line + 1, NO_LINE, legal_line);
        }
        let (found_line, found_rest) = split_line(found);
        if legal_line != found_line {
            return differs(alloc, line + 1, found_line, legal_line);
        }
        legal = legal_rest;
        found = found_rest;
        line += 1;
    }
    if found.is_empty() {
        return Ok(Judged::Agrees);
    }
    differs(alloc, line + 1, split_line(found).0, NO_LINE)
}
