//! The end of a page that was begun.
ghost use Rattle.std.specs.Prelude.{◌≡◌, IfOk};
ghost use Rattle.com_model.specs.declared.scenario.Scenario.{Scenario};
ghost use Rattle.com_model.specs.Ends.{scheduled};
ghost use Rattle.com_waits.specs.Chains.{explanation_of};
ghost use Rattle.com_command_draw.specs.Begun.{IsBegun};
ghost use Rattle.com_command_draw.specs.Pages.{page_of};

use crate::beginning::Begun;
use com_base::{ByteList, Memory, Rows};
use com_deliveries::Delivery;
use com_draw::Beside;
use com_waits::Waits;
use std::alloc::Global;

/// The page of the one history of a scenario, by what was begun of it: with what explains how it ended, and
/// with these events marked. The only error is want of memory.
pub fn end_page(
    alloc: Global,
    begun: Begun,
    waits: Option<Waits>,
    events: Rows<Delivery>,
) -> Result<ByteList, Memory>
    ensures { IfOk result (λ page. (s : Scenario) → IsBegun s begun → waits ≡ explanation_of s (scheduled s)
        → page ≡ page_of s (scheduled s) begun.ended events) }
{
    let Begun {
        mut drawing,
        mut text,
        counts,
        clock,
        ended,
    } = begun;
    let beside = Beside {
        counts,
        clock,
        ended,
        waits,
        events,
    };
    drawing.push_end(alloc, &beside, &mut text)?;
    Ok(text)
}
