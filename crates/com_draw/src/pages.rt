//! The page of a history.
ghost use Rattle.std.specs.Prelude.{◌≡◌, ◌<◌, ◌^◌, ◌++◌, OnOk, length, reverse};
ghost use Rattle.com_model.specs.Formed.{Formed};
ghost use Rattle.com_draw.specs.Pages.{page};

use crate::beside::Beside;
use crate::drawing::Drawing;
use com_base::{ByteList, Memory};
use com_model::{Entry, Scenario};
use std::alloc::Global;

/// Appends the page of a history of a formed scenario, which has ended, by its entries in the order of their
/// making, fewer than 2^31. The only error is want of memory; then the text has a part of it.
pub fn push_page(
    alloc: Global,
    scenario: &Scenario,
    entries: &[Entry],
    beside: &Beside,
    out: &mut ByteList,
) -> Result<(), Memory>
    requires formed { Formed scenario.now }
    requires few { length entries.now < 2 ^ 31 }
    ensures { OnOk result (out.new ≡ out.old ++ page scenario.now (reverse entries.now) beside.now) }
{
    let mut drawing = Drawing::begin(alloc, scenario, out)?;
    let mut rest = entries;
    'entries: while let Some((entry, others)) = rest.split_first() {
        drawing.push_entry(alloc, scenario, entry, out)?;
        rest = others;
    }
    drawing.push_end(alloc, beside, out)?;
    Ok(())
}
