//! The row of a new object.
ghost use Rattle.std.specs.Prelude.{◌≡◌, ◌+◌, ◌<◌, ◌≤◌, ◌++◌, ◌∷◌, [], OnOk, Some, length};
ghost use Rattle.std.specs.Prelude.{OnErr, vec_len, vec_capacity};
ghost use Rattle.com_model.specs.Tables.{has_agile_model};
ghost use Rattle.com_refs_rows.specs.Books.{KeepsHeld, Made, moved_to};
ghost use Rattle.com_refs_rows.specs.Fits.{IsNextMade};
ghost use Rattle.com_refs_rows.specs.Owners.{Grown, OffersMore};

use crate::rows::bring;
use com_base::{Memory, RefValue};
use com_classes::{Class, Classes, is_agile};
use com_reference_moves::Move;
use com_refs::{MOST_ISSUED, NewObject, Refs};

// The interfaces of a class: IUnknown, and those of its list.
fn fill_set(set: &mut Vec<u16>, class: &Class) -> Result<(), Memory>
    ensures { OnOk result (set.new.items ≡ 0 ∷ class.now.interfaces) }
{
    set.clear();
    set.push(0)?;
    set.extend_from_slice(class.interfaces.as_slice())
}

// Whether every apartment owns the objects of the class.
fn are_agile(class: &Class) -> bool
    ensures { result ≡ has_agile_model (Some class.now) }
{
    is_agile(class.model)
}

/// An object that is made.
#[derive(Debug, Clone, Copy)]
pub struct Instance {
    /// The object, by the interface by which it is held first.
    pub held: RefValue,
    /// The apartment that owns it.
    pub owner: u32,
    /// The number of its class.
    pub class: u32,
}

/// The next object is made, and the apartment has a place of it. The only error is want of memory.
pub fn make(
    refs: &mut Refs,
    brought: &mut Vec<Move>,
    set: &mut Vec<u16>,
    classes: &Classes,
    apartment: u32,
    instance: &Instance,
) -> Result<(), Memory>
    requires made { IsNextMade classes.now (length refs.old.objects) instance.now.held.object instance.now.class
        instance.now.held.iface }
    requires few { refs.old.issued + 1 < MOST_ISSUED }
    requires place { vec_len brought.old < vec_capacity brought.old }
    requires room { 0 < refs.old.spare }
    ensures brought { OnOk result (brought.new.items
        ≡ brought.old.items ++ moved_to apartment instance.now.held ∷ []) }
    ensures made { OnOk result (Made apartment instance.now.held refs.old refs.new) }
    ensures grown { OnOk result (Grown classes.now (Some (record {
      object = instance.now.held.object;
      apartment = instance.now.owner;
      class = instance.now.class;
    })) refs.old refs.new) }
    ensures more { OnOk result (KeepsHeld apartment refs.old refs.new) }
    ensures err { OnErr result (refs.new ≡ refs.old) }
    ensures offers { OnOk result (OffersMore classes.now (Some (record {
      object = instance.now.held.object;
      apartment = instance.now.owner;
      class = instance.now.class;
    })) refs.old refs.new) }
    ensures issued { refs.new.issued ≤ refs.old.issued + 2 }
    ensures spare { refs.old.spare ≤ refs.new.spare + 1 }
    ensures len { vec_len brought.new ≤ vec_len brought.old + 1 }
{
    let Instance { held, owner, class } = *instance;
    let Some(class) = classes.class(class) else {
        unreachable!()
    };
    fill_set(set, class)?;
    refs.tells();
    let making = NewObject {
        object: held.object,
        owner,
        agile: are_agile(class),
        apartment,
        iface: held.iface,
    };
    refs.make_object(making, set.as_slice())?;
    refs.tells();
    bring(brought, apartment, held);
    Ok(())
}
