//! The owners of all objects, for the end of a single-threaded apartment.
ghost use Rattle.std.specs.Prelude.{◌≡◌, ℕ, OnOk, slice_index_or};
ghost use Rattle.com_model.specs.Apartments.{ends_sta};
ghost use Rattle.com_scene.specs.Kept.{NamesOwners};
ghost use Rattle.com_state.specs.Parts.{named_at};

use com_base::Memory;
use com_model::Deed;
use com_objects::Objects;

// Keeps the apartment of each object, from 0, where an entry ends a single-threaded apartment. The only error is
// want of memory.
pub(crate) fn keep_owners(
    objects: &Objects,
    deed: &Deed,
    owners: &mut Vec<u32>,
) -> Result<(), Memory>
    ensures { OnOk result
        (NamesOwners (named_at objects.now.tables) (ends_sta deed.now) owners.new.items) }
{
    match deed {
        Deed::Uninit {
            home: Some(_),
            count: 0,
        } => fill_owners(objects, owners),
        _ => Ok(()),
    }
}

// The apartment of each object by its number, behind a 0 for the number 0, which no object has. The
// only error is want of memory.
#[inline(never)]
#[tactic(auto, using(crate::proofs::Owned::owned_first, crate::proofs::Owned::owned_more, crate::proofs::Owned::owned_all))]
fn fill_owners(objects: &Objects, owners: &mut Vec<u32>) -> Result<(), Memory>
    ensures { OnOk result ((o : ℕ) →
        named_at objects.now.tables o ≡ slice_index_or owners.new.items o 0) }
{
    let count = objects.len();
    owners.clear();
    owners.push(0)?;
    for before in 0..count {
        owners.push(objects.owner(before + 1))?;
    }
    Ok(())
}
