//! Interfaces and their methods.

ghost use Rattle.std.specs.Prelude.{◌≡◌, ◌≤◌, ◌↔◌, IsTrue, All, false, length, drop};
ghost use Rattle.com_model.specs.Formed.{IsKindBy, IsResultBy, IsMethod, same_method, IsInterface};
ghost use Rattle.com_model.specs.Formed.{same_interface, is_reserved, is_type_word, IsAllowed, EachFrom};
ghost use Rattle.com_model.specs.Formed.{Distinct, FormedInterfaces};

use crate::built_ins::begins_built_in;
use crate::tables::same_guid;
use crate::words::is_name;
use com_base::{
    Guid, IID_ICLASS_FACTORY, IID_IGLOBAL_INTERFACE_TABLE, IID_IMESSAGE_FILTER, INTERFACE_LIMIT,
    Kind, METHOD_LIMIT, PARAMETER_LIMIT,
};
use com_classes::{Classes, Interface, Method};

// Whether a kind names no interface behind the one with this number.
fn is_kind_by(number: u16, kind: Kind) -> bool
    ensures { IsTrue result ↔ IsKindBy number kind }
{
    match kind {
        Kind::Ref(iface) => iface <= number,
        _ => true,
    }
}

// Whether a method without result, or with one of this kind, names no later interface.
fn is_result_by(number: u16, kind: Option<Kind>) -> bool
    ensures { IsTrue result ↔ IsResultBy number kind }
{
    match kind {
        Some(kind) => is_kind_by(number, kind),
        None => true,
    }
}

// Whether a method of the interface with this number keeps the form and the limits.
fn is_method(number: u16, method: &Method) -> bool
    ensures { IsTrue result ↔ IsMethod number method.now }
{
    is_name(method.name.as_slice())
        && method
            .params
            .as_slice()
            .iter()
            .all(|kind| is_kind_by(number, *kind))
        && method.params.len() <= PARAMETER_LIMIT
        && is_result_by(number, method.result)
}

// Whether two methods have one name, whatever their parameters and results.
fn same_method(left: &Method, right: &Method) -> bool
    ensures { result ≡ same_method left.now right.now }
{
    left.name.as_slice() == right.name.as_slice()
}

// Whether none of the other methods has the name of this one.
fn is_method_new(method: &Method, others: &[Method]) -> bool
    ensures { IsTrue result ↔ All (λ other. same_method method.now other ≡ false) others.now }
{
    others.iter().all(|other| !same_method(method, other))
}

// Whether no two methods have one name.
fn are_methods_distinct(methods: &[Method]) -> bool
    ensures { IsTrue result ↔ Distinct same_method methods.now }
{
    match methods {
        [] => true,
        [first, rest @ ..] => is_method_new(first, rest) && are_methods_distinct(rest),
    }
}

// Whether the interface with this number keeps the form and the limits.
fn is_interface(number: u16, interface: &Interface) -> bool
    ensures { IsTrue result ↔ IsInterface number interface.now }
{
    let methods = interface.methods.as_slice();
    is_name(interface.name.as_slice())
        && methods.iter().all(|method| is_method(number, method))
        && methods.len() <= METHOD_LIMIT
        && are_methods_distinct(methods)
}

// Whether the interfaces from a number on keep the form and the limits.
#[tactic(auto, using(crate::proofs::Walks::there, crate::proofs::Walks::each_past))]
fn are_interfaces(classes: &Classes, number: u16) -> bool
    requires few { length classes.now.interfaces ≤ INTERFACE_LIMIT }
    requires inside { number ≤ INTERFACE_LIMIT }
    ensures { IsTrue result ↔ EachFrom IsInterface number (drop number classes.now.interfaces) }
{
    let Some(interface) = classes.interface(number) else {
        return true;
    };
    is_interface(number, interface) && are_interfaces(classes, number + 1)
}

// Whether an IID is one that the documentation gives to an interface of its own.
fn is_reserved(iid: &Guid) -> bool
    ensures { result ≡ is_reserved iid.now }
{
    same_guid(iid, &IID_ICLASS_FACTORY)
        || same_guid(iid, &IID_IMESSAGE_FILTER)
        || same_guid(iid, &IID_IGLOBAL_INTERFACE_TABLE)
}

// Whether a name is the word of a type.
fn is_type_word(name: &[u8]) -> bool
    ensures { result ≡ is_type_word name.now }
{
    name == b"int".as_slice()
        || name == b"bool".as_slice()
        || name == b"text".as_slice()
        || name == b"bytes".as_slice()
        || name == b"guid".as_slice()
}

// Whether a scenario may declare an interface with this IID and this name.
fn is_allowed(interface: &Interface) -> bool
    ensures { IsTrue result ↔ IsAllowed interface.now }
{
    !is_reserved(&interface.iid) && !is_type_word(interface.name.as_slice())
}

// Whether a scenario may declare the interfaces from a number on.
#[tactic(auto, using(crate::proofs::Walks::there, crate::proofs::Walks::all_past))]
fn are_allowed(classes: &Classes, number: u16) -> bool
    requires few { length classes.now.interfaces ≤ INTERFACE_LIMIT }
    requires inside { number ≤ INTERFACE_LIMIT }
    ensures { IsTrue result ↔ All IsAllowed (drop number classes.now.interfaces) }
{
    let Some(interface) = classes.interface(number) else {
        return true;
    };
    is_allowed(interface) && are_allowed(classes, number + 1)
}

// Whether two interfaces have one name or one IID.
fn same_interface(left: &Interface, right: &Interface) -> bool
    ensures { result ≡ same_interface left.now right.now }
{
    left.name.as_slice() == right.name.as_slice() || same_guid(&left.iid, &right.iid)
}

// Whether two interfaces have neither one name nor one IID.
fn are_apart(left: &Interface, right: &Interface) -> bool
    ensures { IsTrue result ↔ (same_interface left.now right.now ≡ false) }
{
    !same_interface(left, right)
}

// Whether no interface from a number on has the name or the IID of this one.
#[tactic(auto, using(crate::proofs::Walks::there, crate::proofs::Walks::all_past))]
fn is_interface_new(interface: &Interface, classes: &Classes, number: u16) -> bool
    requires few { length classes.now.interfaces ≤ INTERFACE_LIMIT }
    requires inside { number ≤ INTERFACE_LIMIT }
    ensures { IsTrue result
        ↔ All (λ other. same_interface interface.now other ≡ false) (drop number classes.now.interfaces) }
{
    let Some(other) = classes.interface(number) else {
        return true;
    };
    are_apart(interface, other) && is_interface_new(interface, classes, number + 1)
}

// Whether no two interfaces from a number on have one name or one IID.
#[tactic(auto, using(crate::proofs::Walks::there, crate::proofs::Walks::distinct_past))]
fn are_interfaces_distinct(classes: &Classes, number: u16) -> bool
    requires few { length classes.now.interfaces ≤ INTERFACE_LIMIT }
    requires inside { number ≤ INTERFACE_LIMIT }
    ensures { IsTrue result ↔ Distinct same_interface (drop number classes.now.interfaces) }
{
    let Some(interface) = classes.interface(number) else {
        return true;
    };
    is_interface_new(interface, classes, number + 1) && are_interfaces_distinct(classes, number + 1)
}

// Whether there are at most `INTERFACE_LIMIT` interfaces.
#[tactic(auto, using(crate::proofs::Walks::there, crate::proofs::Walks::past))]
fn are_interfaces_few(classes: &Classes) -> bool
    ensures { IsTrue result ↔ (length classes.now.interfaces ≤ INTERFACE_LIMIT) }
{
    classes.interface(INTERFACE_LIMIT as u16).is_none()
}

// Whether the interfaces begin with the built-in ones, are at most `INTERFACE_LIMIT`, keep their forms, and
// repeat no name or IID.
#[tactic(auto, using(crate::proofs::Whole::formed_interfaces))]
pub(crate) fn are_interfaces_formed(classes: &Classes) -> bool
    ensures { IsTrue result ↔ FormedInterfaces classes.now.interfaces }
{
    are_interfaces_few(classes)
        && begins_built_in(classes)
        && are_interfaces(classes, 0)
        && are_allowed(classes, 0)
        && are_interfaces_distinct(classes, 0)
}
