//! The rows of the objects: who owns each, and how many direct places it has.
ghost use Rattle.std.specs.Prelude.{◌≡◌, ◌+◌, ◌<◌, ◌^◌};
ghost use Rattle.com_refs_holders.specs.Tables.{owns_of, object_in, direct_less, direct_more};

use crate::ObjectRow;

// The object's row.
pub(crate) fn object_at(objects: &[ObjectRow], object: u32) -> ObjectRow
    ensures { result ≡ object_in objects.now object }
{
    match object.checked_sub(1) {
        None => NO_OBJECT,
        Some(place) => match objects.get(place as usize) {
            None => NO_OBJECT,
            Some(row) => *row,
        },
    }
}

// Whether the apartment owns the object: it is its owner, or the object is agile.
#[tactic(auto, unfolding(crate::specs::Tables::owns_of))]
pub(crate) fn owns(objects: &[ObjectRow], object: u32, apartment: u32) -> bool
    ensures { result ≡ owns_of objects.now object apartment }
{
    let row = object_at(objects, object);
    row.agile || row.owner == apartment
}

// One direct place less.
pub(crate) fn lose_direct(objects: &mut [ObjectRow], object: u32)
    requires some { 0 < (object_in objects.old object).direct }
    ensures { objects.new ≡ direct_less object objects.old }
{
    let Some(place) = object.checked_sub(1) else {
        return;
    };
    let at = place as usize;
    if at < objects.len() {
        let row = &mut objects[at];
        row.direct -= 1;
    }
}

// One direct place more.
pub(crate) fn gain_direct(objects: &mut [ObjectRow], object: u32)
    requires fits { (object_in objects.old object).direct + 1 < 2 ^ 64 }
    ensures { objects.new ≡ direct_more object objects.old }
{
    let Some(place) = object.checked_sub(1) else {
        return;
    };
    let at = place as usize;
    if at < objects.len() {
        let row = &mut objects[at];
        row.direct += 1;
    }
}

// The row that is read for a number that no object has.
const NO_OBJECT: ObjectRow = ObjectRow {
    owner: 0,
    agile: false,
    direct: 0,
};
