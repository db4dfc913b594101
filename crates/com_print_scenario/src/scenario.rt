//! A whole scenario as text.

ghost use Rattle.std.specs.Prelude.{◌≡◌, ◌≤◌, ◌++◌, OnOk, IfOk, drop, length};
ghost use Rattle.com_model.specs.Formed.{Formed};
ghost use Rattle.com_print.specs.Spelled.{line_text};
ghost use Rattle.com_print_scenario.specs.Printed.{header_words, pool_words, printed};
ghost use Rattle.com_print_scenario.specs.Ranges.{FitsTypes};

use crate::classes::push_classes;
use crate::filters::{push_filters, push_picks, push_threads};
use crate::interfaces::push_interfaces;
use crate::names::names_of;
use com_base::{BUILT_IN_COUNT, ByteList, Memory};
use com_classes::Interface;
use com_model::Scenario;
use com_print::operands::push_decimal;
use com_print::words::push_end;
use std::alloc::Global;

// The interfaces beside the built-in ones.
fn own(interfaces: &[Interface]) -> &[Interface]
    requires { BUILT_IN_COUNT ≤ length interfaces.now }
    ensures { result.now ≡ drop BUILT_IN_COUNT interfaces.now }
{
    &interfaces[BUILT_IN_COUNT..]
}

// Appends the first line: `scenario`, and the version of the language.
fn push_header(out: &mut ByteList, version: u8) -> Result<(), Memory>
    ensures { OnOk result (out.new ≡ out.old ++ line_text (header_words version)) }
{
    out.push_all(b"scenario")?;
    push_decimal(out, u64::from(version))?;
    push_end(out)
}

// Appends the line that says how many lanes the pool has.
fn push_pool(out: &mut ByteList, lanes: u32) -> Result<(), Memory>
    ensures { OnOk result (out.new ≡ out.old ++ line_text (pool_words lanes)) }
{
    out.push_all(b"pool")?;
    push_decimal(out, u64::from(lanes))?;
    push_end(out)
}

/// The text of a formed scenario: the header, the pool, the interfaces beside the built-in ones, the
/// classes and natives, the filters under the names `F1`, `F2` and on, the threads, and all picks in
/// one line. The only error is want of memory. Where there is a text, each number in the IIDs of
/// these interfaces, in the CLSIDs, in the bodies and in the scripts is one that its type has.
#[tactic(auto, using(crate::proofs::Text::built_in_there, crate::proofs::Text::whole_text, crate::proofs::Text::whole_fits))]
pub fn scenario_text(alloc: Global, scenario: &Scenario) -> Result<ByteList, Memory>
    requires { Formed scenario.now }
    ensures text { IfOk result (λ text. text ≡ printed scenario.now) }
    ensures fits { OnOk result (FitsTypes scenario.now) }
{
    let names = names_of(alloc, scenario)?;
    let mut out = ByteList::new(alloc);
    push_header(&mut out, scenario.version)?;
    push_pool(&mut out, scenario.pool)?;
    push_interfaces(
        &mut out,
        names.interfaces.as_slice(),
        own(names.tables.as_slice()),
    )?;
    push_classes(&mut out, &names, &scenario.classes)?;
    push_filters(&mut out, scenario.filters.as_slice())?;
    push_threads(&mut out, &names, scenario.threads.as_slice())?;
    push_picks(&mut out, scenario.picks.as_slice())?;
    Ok(out)
}
