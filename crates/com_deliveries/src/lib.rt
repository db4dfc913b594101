//! The events of sources in a history: to which sinks the Outs of each went, by their cookies.
//!
//! A history is read once, from its first entry on, over tables by lane, by call and by object.
#![tactic(auto)]

ghost use Rattle.std.specs.Prelude.{◌≡◌, ◌+◌, ◌<◌, ◌^◌, IfOk, OnOk, length, reverse, vec_len};
ghost use Rattle.com_base.specs.declared.limits.TheConstants.{CLASS_LIMIT};
ghost use Rattle.com_model.specs.declared.scenario.Scenario.{Scenario};
ghost use Rattle.com_deliveries.specs.Book.{empty, goes_on};
ghost use Rattle.com_deliveries.specs.Delivered.{AreDeliveries};
ghost use Rattle.com_deliveries.specs.Tables.{AreSources, Upto};
ghost use Rattle.com_model.specs.Formed.{Formed};
ghost use Rattle.com_model.specs.Rules.{legal};

mod cookies;
mod sources;
mod stacks;
mod tally;

pub use com_base::Memory;
use com_base::{CLASS_LIMIT, Rows};
use com_model::{Entry, Scenario};
use com_points::source_interface;
use std::alloc::Global;
use tally::Tally;

/// One event: a call of `fire` on a source that has its Leave.
#[derive(Debug, Drop)]
pub struct Delivery {
    /// The number of the call.
    pub call: u32,
    /// The number of the source.
    pub object: u32,
    /// The cookies of the sinks to which the call's Outs went, in their order.
    pub cookies: Rows<u64>,
}

/// For each class of a formed scenario, by its number from 1 on, the number of its interface if it is a
/// source. The only error is want of memory.
#[tactic(auto, using(crate::proofs::Listing::all_sources, crate::proofs::Listing::upto_none))]
pub fn source_table(alloc: Global, scenario: &Scenario) -> Result<Vec<Option<u16>>, Memory>
    ensures { IfOk result (λ table. Formed scenario.now → AreSources scenario.now table.items) }
{
    let mut table = Vec::new(alloc);
    'classes: while table.len() < CLASS_LIMIT {
        add_class(&mut table, scenario)?;
    }
    Ok(table)
}

// Takes the next class up.
#[tactic(auto, using(crate::proofs::Listing::upto_next))]
fn add_class(table: &mut Vec<Option<u16>>, scenario: &Scenario) -> Result<(), Memory>
    requires { vec_len table.old < CLASS_LIMIT }
    ensures long { OnOk result (vec_len table.new ≡ vec_len table.old + 1) }
    ensures upto { OnOk result (Upto scenario.now table.old.items → Upto scenario.now table.new.items) }
{
    let class = table.len() as u32 + 1;
    let iface = source_interface(scenario, class);
    table.push(iface)?;
    Ok(())
}

/// The events of a legal history of a formed scenario with fewer than 2^63 entries, one for each call of
/// `fire` on a source that has its Leave, by call number: the call, its object, and the cookies of the sinks
/// to which its Outs went, in their order.
///
/// The entries are in the order of their making. The only error is want of memory.
#[tactic(auto, using(crate::proofs::Listing::delivered_of))]
pub fn deliveries(
    alloc: Global,
    scenario: &Scenario,
    history: &[Entry],
) -> Result<Vec<Delivery>, Memory>
    ensures { IfOk result (λ events. Formed scenario.now → legal scenario.now (reverse history.now)
        → length (reverse history.now) < 2 ^ 63
        → AreDeliveries scenario.now (reverse history.now) events.items) }
{
    let table = source_table(alloc, scenario)?;
    let events = deliveries_by(alloc, table.as_slice(), history)?;
    Ok(events)
}

/// The deliveries of a history by the table of a scenario's sources. The only error is want of memory.
#[tactic(auto, using(crate::proofs::Listing::delivered_by))]
pub fn deliveries_by(
    alloc: Global,
    table: &[Option<u16>],
    history: &[Entry],
) -> Result<Vec<Delivery>, Memory>
    ensures { IfOk result (λ events. (s : Scenario) → AreSources s table.now → Formed s
        → legal s (reverse history.now) → length (reverse history.now) < 2 ^ 63
        → AreDeliveries s (reverse history.now) events.items) }
{
    let tally = tally_of(alloc, table, history)?;
    let events = tally.deliveries(alloc)?;
    Ok(events)
}

// What one pass over the entries keeps.
fn tally_of(alloc: Global, sources: &[Option<u16>], history: &[Entry]) -> Result<Tally, Memory>
    ensures { IfOk result (λ tally. tally ≡ goes_on sources.now history.now empty) }
{
    let mut tally = Tally::new(alloc);
    for entry in history {
        tally.take(alloc, sources, entry)?;
    }
    Ok(tally)
}
