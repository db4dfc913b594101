//! The entries of picks, made on any runtime that keeps the rules.
ghost use Rattle.std.specs.Prelude.{◌≡◌, IfOk, OnOk, map};
ghost use Rattle.com_model.specs.Formed.{Formed};
ghost use Rattle.com_model.specs.State.{first_tables};
ghost use Rattle.com_servant.specs.Rows.{row};
ghost use Rattle.com_runtime.specs.Standings.{Reached};
ghost use Rattle.com_replay.specs.Picked.{IsPicked};
ghost use Rattle.com_replay.specs.Picks.{IsPickOf, makes_in, with_made};

use crate::{fresh_row, has_next, make_next};
use com_base::Memory;
use com_model::{Entry, Scenario};
use com_runtime::Runtime;
use com_servant::Servant;
use std::alloc::Global;

// Whether a pick makes an entry: its lane has a next one, and there is room for it.
#[tactic(auto, using(crate::proofs::Between::no_room, crate::proofs::Between::has_room))]
fn makes<C: Runtime>(scenario: &Scenario, runtime: &C, lane: u32) -> bool
    requires scenario { C.scenario runtime.now ≡ scenario.now }
    requires reached { Reached (C.scenario runtime.now) (C.state runtime.now) }
    ensures { result ≡ makes_in (C.scenario runtime.now) (C.state runtime.now) lane }
{
    if runtime.entries() >= u64::from(scenario.limit()) {
        return false;
    }
    has_next(runtime, lane)
}

// Makes the entry of a pick, where it makes one. The only error is want of memory.
#[tactic(auto, using(crate::proofs::Between::room_of, crate::proofs::Between::next_of_pick))]
fn make<C: Runtime>(
    alloc: Global,
    scenario: &Scenario,
    runtime: &mut C,
    servants: &mut Vec<Box<dyn Servant + Send>>,
    lane: u32,
) -> Result<Option<Entry>, Memory>
    requires scenario { C.scenario runtime.old ≡ scenario.now }
    requires reached { Reached (C.scenario runtime.old) (C.state runtime.old) }
    requires row { map kind_of servants.old.items ≡ row }
    ensures scenario { C.scenario runtime.new ≡ C.scenario runtime.old }
    ensures row { map kind_of servants.new.items ≡ row }
    ensures made { IfOk result (λ made. IsPickOf (C.scenario runtime.old)
        (C.state runtime.old) lane made (C.state runtime.new)) }
{
    if !makes(scenario, runtime, lane) {
        return Ok(None);
    }
    let entry = make_next(alloc, runtime, servants, lane)?;
    Ok(Some(entry))
}

// Puts the entry of a pick behind the others, if it made one. The only error is want of memory.
fn keep(entries: &mut Vec<Entry>, made: Option<Entry>) -> Result<(), Memory>
    ensures { OnOk result (entries.new.items ≡ with_made entries.old.items made) }
{
    let Some(entry) = made else {
        return Ok(());
    };
    entries.push(entry)?;
    Ok(())
}

// Makes the history of a list of picks, on a runtime that has made no entry. The row has one servant of each
// kind, in the order of the kinds. The only error is want of memory.
fn make_all<C: Runtime>(
    alloc: Global,
    scenario: &Scenario,
    runtime: &mut C,
    servants: &mut Vec<Box<dyn Servant + Send>>,
    picks: &[u32],
) -> Result<Vec<Entry>, Memory>
    requires formed { Formed scenario.now }
    requires scenario { C.scenario runtime.old ≡ scenario.now }
    requires first { C.state runtime.old ≡ first_tables scenario.now }
    requires row { map kind_of servants.old.items ≡ row }
    ensures { IfOk result (λ entries. IsPicked scenario.now picks.now entries.items) }
{
    let mut entries = Vec::new(alloc);
    'picks: for lane in picks {
        let made = make(alloc, scenario, runtime, servants, *lane)?;
        keep(&mut entries, made)?;
    }
    Ok(entries)
}

/// Makes the history of a list of picks, on a runtime of a formed scenario that has made no entry, by
/// servants that have made no step. The only error is want of memory.
pub fn picked_on<C: Runtime>(
    alloc: Global,
    scenario: &Scenario,
    runtime: &mut C,
    picks: &[u32],
) -> Result<Vec<Entry>, Memory>
    requires formed { Formed scenario.now }
    requires scenario { C.scenario runtime.old ≡ scenario.now }
    requires first { C.state runtime.old ≡ first_tables scenario.now }
    ensures { IfOk result (λ entries. IsPicked scenario.now picks.now entries.items) }
{
    let mut servants = fresh_row!(alloc);
    make_all(alloc, scenario, runtime, &mut servants, picks)
}
