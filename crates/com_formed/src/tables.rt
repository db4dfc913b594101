//! What the tables of interfaces and classes hold, by index.

ghost use Rattle.std.specs.Prelude.{◌≡◌, ◌<◌, ◌≤◌, ◌^◌, ◌↔◌, IsTrue, length, slice_get};
ghost use Rattle.std.specs.Option.{option_copied};
ghost use Rattle.com_classes.specs.Lookups.{same_guid};

use com_base::{CLASS_LIMIT, Guid};
use com_classes::{Class, Classes};

// Whether two GUIDs are the same.
pub(crate) fn same_guid(left: &Guid, right: &Guid) -> bool
    ensures { result ≡ same_guid left.now right.now }
{
    left.data1 == right.data1
        && left.data2 == right.data2
        && left.data3 == right.data3
        && left.data4.as_slice() == right.data4.as_slice()
}

// Whether there is an interface with this number.
pub(crate) fn is_declared(classes: &Classes, iface: u16) -> bool
    ensures { IsTrue result ↔ (iface < length classes.now.interfaces) }
{
    classes.interface(iface).is_some()
}

// The class at an index of the table, from 0.
#[tactic(auto, using(crate::proofs::Walks::class_place))]
pub(crate) fn class_at(classes: &Classes, index: u32) -> Option<&Class>
    requires { index < 2 ^ 16 }
    ensures { option_copied result ≡ slice_get classes.now.classes index }
{
    classes.class(index + 1)
}

// How many classes there are.
#[tactic(auto, using(crate::proofs::Walks::there, crate::proofs::Walks::past))]
pub(crate) fn count_classes(classes: &Classes) -> u32
    requires { length classes.now.classes ≤ CLASS_LIMIT }
    ensures { result ≡ length classes.now.classes }
{
    for index in 0..CLASS_LIMIT as u32 {
        let Some(_) = class_at(classes, index) else {
            return index;
        };
    }
    CLASS_LIMIT as u32
}
