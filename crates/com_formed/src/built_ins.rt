//! The interfaces that each scenario has.

ghost use Rattle.std.specs.Prelude.{◌≡◌, ◌↔◌, IsTrue, take};
ghost use Rattle.com_classes.specs.BuiltIns.{iunknown, icounter, irelay, ilatch, built_in_interfaces};
ghost use Rattle.com_formed.specs.Methods.{method_of};

use crate::tables::same_guid;
use com_base::{BUILT_IN_COUNT, Guid, ICOUNTER, IID_IUNKNOWN, ILATCH, IRELAY, IUNKNOWN, Kind};
use com_classes::{Classes, Interface, Method, built_in_iid};

// Whether an IID is this one.
#[tactic(auto, using(crate::proofs::Same::guids_same))]
fn is_iid(iid: &Guid, wanted: &Guid) -> bool
    ensures { IsTrue result ↔ (iid.now ≡ wanted.now) }
{
    same_guid(iid, wanted)
}

// Whether two kinds are equal; those of references are where they name one interface.
fn same_kind(left: Kind, right: Kind) -> bool
    ensures { IsTrue result ↔ (left ≡ right) }
{
    left == right
}

// Whether the kinds are these.
fn are_kinds(kinds: &[Kind], wanted: &[Kind]) -> bool
    ensures { IsTrue result ↔ (kinds.now ≡ wanted.now) }
{
    match (kinds, wanted) {
        ([], []) => true,
        ([kind, kinds @ ..], [other, others @ ..]) => {
            same_kind(*kind, *other) && are_kinds(kinds, others)
        }
        _ => false,
    }
}

// Whether a method's result is of this kind, or is missing where no kind is wanted.
fn is_result(kind: Option<Kind>, wanted: Option<Kind>) -> bool
    ensures { IsTrue result ↔ (kind ≡ wanted) }
{
    match (kind, wanted) {
        (None, None) => true,
        (Some(kind), Some(wanted)) => same_kind(kind, wanted),
        _ => false,
    }
}

// Whether a method is the one with this name, these parameters and this result.
#[tactic(auto, using(crate::proofs::Same::method_is))]
fn is_method(method: &Method, name: &[u8], params: &[Kind], kind: Option<Kind>) -> bool
    ensures { IsTrue result ↔ (method.now ≡ method_of name.now params.now kind) }
{
    method.name.as_slice() == name
        && are_kinds(method.params.as_slice(), params)
        && is_result(method.result, kind)
}

// Whether an interface has this name and this IID.
fn is_named(interface: &Interface, name: &[u8], iid: &Guid) -> bool
    ensures { IsTrue result ↔ ((interface.now.name ≡ name.now) × (interface.now.iid ≡ iid.now)) }
{
    interface.name.as_slice() == name && is_iid(&interface.iid, iid)
}

// Whether an interface is IUnknown: its name, its IID, and no methods.
fn is_iunknown(interface: &Interface) -> bool
    ensures { IsTrue result ↔ (interface.now ≡ iunknown) }
{
    is_named(interface, b"IUnknown", &IID_IUNKNOWN) && interface.methods.len() == 0
}

// Whether an interface is ICounter: `add` takes and gives a number, `get` only gives one.
fn is_icounter(interface: &Interface) -> bool
    ensures { IsTrue result ↔ (interface.now ≡ icounter) }
{
    let [add, get] = interface.methods.as_slice() else {
        return false;
    };
    is_named(interface, b"ICounter", &built_in_iid(0x5C0B_0001))
        && is_method(add, b"add", &[Kind::Int], Some(Kind::Int))
        && is_method(get, b"get", &[], Some(Kind::Int))
}

// Whether an interface is IRelay: `set` takes an ICounter, `forward` takes and gives a number.
fn is_irelay(interface: &Interface) -> bool
    ensures { IsTrue result ↔ (interface.now ≡ irelay) }
{
    let [set, forward] = interface.methods.as_slice() else {
        return false;
    };
    is_named(interface, b"IRelay", &built_in_iid(0x5C0B_0002))
        && is_method(set, b"set", &[Kind::Ref(ICOUNTER)], None)
        && is_method(forward, b"forward", &[Kind::Int], Some(Kind::Int))
}

// Whether an interface is ILatch: `set` takes and gives nothing, `test` only gives a Boolean.
fn is_ilatch(interface: &Interface) -> bool
    ensures { IsTrue result ↔ (interface.now ≡ ilatch) }
{
    let [set, test] = interface.methods.as_slice() else {
        return false;
    };
    is_named(interface, b"ILatch", &built_in_iid(0x5C0B_0003))
        && is_method(set, b"set", &[], None)
        && is_method(test, b"test", &[], Some(Kind::Bool))
}

// Whether the interfaces begin with IUnknown, ICounter, IRelay and ILatch.
#[tactic(auto, using(crate::proofs::Same::four_at, crate::proofs::Same::four_there))]
pub(crate) fn begins_built_in(classes: &Classes) -> bool
    ensures { IsTrue result ↔ (take BUILT_IN_COUNT classes.now.interfaces ≡ built_in_interfaces) }
{
    let Some(unknown) = classes.interface(IUNKNOWN) else {
        return false;
    };
    let Some(counter) = classes.interface(ICOUNTER) else {
        return false;
    };
    let Some(relay) = classes.interface(IRELAY) else {
        return false;
    };
    let Some(latch) = classes.interface(ILATCH) else {
        return false;
    };
    is_iunknown(unknown) && is_icounter(counter) && is_irelay(relay) && is_ilatch(latch)
}
