//! Judging a trace: whether it is the text and the report of a legal history, or else which of its lines is
//! the first that differs.
#![tactic(auto)]

ghost use Rattle.std.specs.Arc.{arc_value};
ghost use Rattle.std.specs.Prelude.{IfOk};
ghost use Rattle.com_model.specs.Formed.{Formed};
ghost use Rattle.com_check.specs.Judging.{IsJudged};

mod agreement;
mod cut;
mod fronts;
mod judge;
mod judged;
mod laws;
mod lines;
mod reports;
mod servants;

pub use agreement::{Agreed, Trace, agreed, read_trace};
pub use com_base::Memory;
use com_model::Scenario;
use com_replay::{Core, let_go};
pub use cut::{Cut, cut_text};
pub use fronts::lane_of;
pub use judge::judge_trace;
pub use judged::Judged;
pub use laws::{agrees_with_text, judged_alone};
pub use lines::split_line;
use servants::judge_on;
use std::alloc::Global;
use std::sync::Arc;

// Judges a trace of a formed scenario: a core makes the entries that its lines name.
fn check_shared(alloc: Global, scenario: &Arc<Scenario>, trace: &[u8]) -> Result<Judged, Memory>
    requires { Formed (arc_value scenario.now) }
    ensures { IfOk result (λ j. IsJudged (arc_value scenario.now) trace.now j) }
{
    let mut core = Core::new(alloc, scenario.clone()?)?;
    let judged = judge_on(alloc, &**scenario, &mut core, trace);
    let_go(core);
    judged
}

/// Judges a trace, which is the lines behind the line `trace`: each ends with byte 10, which the last one may
/// lack. The scenario is a formed one, as each that was read from a text is.
///
/// `Agrees` is answered where the trace is, line by line, the text and the report of a legal history that has
/// ended; else the first line that differs, with what stands there and the only line that may stand there.
///
/// Where the entries so far are finished, stuck or as many as the limit, this is the report's line in that
/// place, and behind the report there is none. Else it is that of the next entry of the lane which the found
/// line names; there is none where it names none, or one that has no next entry. A trace that ends early has
/// found `none`, and the only line is then that of the entry which the schedule without picks makes there, or
/// the report's.
///
/// The only error is want of memory.
pub fn check(alloc: Global, scenario: Arc<Scenario>, trace: &[u8]) -> Result<Judged, Memory>
    requires { Formed (arc_value scenario) }
    ensures { IfOk result (λ j. IsJudged (arc_value scenario) trace.now j) }
{
    check_shared(alloc, &scenario, trace)
}
