//! Traces that agree with the rules: the history that such a trace is, with what a report says of it.
ghost use Rattle.std.specs.Arc.{arc_value};
ghost use Rattle.std.specs.Prelude.{◌≡◌, None, IfOk, IfSome};
ghost use Rattle.com_model.specs.Formed.{Formed};
ghost use Rattle.com_check.specs.Judging.{IsJudged};
ghost use Rattle.com_check.specs.declared.judged.Judged.TheVariants as judged;
ghost use Rattle.com_check.specs.Agreeing.{IsAgreed, IsRead, history_in};

mod reading;
mod traces;

use crate::{Judged, check};
use com_base::Memory;
use com_model::Scenario;
use reading::read;
use std::alloc::Global;
use std::sync::Arc;
pub use traces::{Agreed, Trace};

/// Reads a trace, which is the lines behind the line `trace` of an input, as `check` judges it: the history
/// that it is, or the first of its lines that differs. The scenario is a formed one, as each that was read
/// from a text is. The only error is want of memory.
pub fn read_trace(alloc: Global, scenario: &Arc<Scenario>, trace: &[u8]) -> Result<Trace, Memory>
    requires { Formed (arc_value scenario.now) }
    ensures { IfOk result (λ read. IsRead (arc_value scenario.now) trace.now read) }
{
    let judged = check(alloc, scenario.clone()?, trace)?;
    match judged {
        Judged::Agrees => {
            let agreed = read(alloc, scenario, trace)?;
            Ok(Trace::Agrees(agreed))
        }
        Judged::Differs { line, found, legal } => Ok(Trace::Differs(Judged::Differs {
            line,
            found,
            legal,
        })),
    }
}

// The history that a trace is, where it agrees.
fn history_in(read: Trace) -> Option<Agreed>
    ensures { result ≡ history_in read }
{
    match read {
        Trace::Agrees(agreed) => Some(agreed),
        Trace::Differs(_) => None,
    }
}

/// The history that a trace is, with what its report counts of each object, its clock and how it ended;
/// `None` exactly where `check` answers that the trace differs. The scenario is a formed one. The only error
/// is want of memory.
#[tactic(auto, using(crate::proofs::Agreeing::some_agreed))]
pub fn agreed(
    alloc: Global,
    scenario: Arc<Scenario>,
    trace: &[u8],
) -> Result<Option<Agreed>, Memory>
    requires { Formed (arc_value scenario) }
    ensures agrees { IfOk result (λ found. IfSome found (λ agreed. IsAgreed (arc_value scenario)
        trace.now agreed)) }
    ensures differs { IfOk result (λ found. found ≡ None
        → IsJudged (arc_value scenario) trace.now judged.Agrees → ⊥) }
{
    let read = read_trace(alloc, &scenario, trace)?;
    Ok(history_in(read))
}
