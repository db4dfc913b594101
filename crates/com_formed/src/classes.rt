//! Classes and their bodies.

ghost use Rattle.std.specs.Prelude.{◌≡◌, ◌∷◌, [], ◌+◌, ◌≤◌, ◌<◌, ◌↔◌, IsTrue, All, false, length, drop};
ghost use Rattle.com_classes.specs.Activation.{is_agile};
ghost use Rattle.com_classes.specs.Lookups.{interface_at};
ghost use Rattle.com_model.specs.Formed.{in_class, methods_of, IsBody, same_body, IsNative, IsClass};
ghost use Rattle.com_model.specs.Formed.{same_class, EachFrom, Distinct, FormedClasses};

use crate::statements::{Standing, is_body};
use crate::tables::{class_at, is_declared, same_guid};
use crate::words::is_name;
use com_base::{BODY_LIMIT, CLASS_LIMIT, ICOUNTER, ILATCH, INTERFACE_LIMIT, IRELAY, LISTED_LIMIT};
use com_body::Native;
use com_classes::{Class, Classes, MethodBody, ThreadingModel};
use com_model::Scenario;

// Whether every apartment owns the objects of a class.
fn is_agile(model: ThreadingModel) -> bool
    ensures { result ≡ is_agile model }
{
    matches!(model, ThreadingModel::Agile)
}

// Where the statements of a class's bodies stand.
fn in_class(number: u32, class: &Class) -> Standing
    ensures { result ≡ in_class number class.now }
{
    Standing {
        body: true,
        links: !is_agile(class.model),
        classes: number,
    }
}

// Whether an interface has a method with this number.
fn has_method(classes: &Classes, iface: u16, method: u16) -> bool
    ensures { IsTrue result ↔ (method < length (methods_of (interface_at classes.now iface))) }
{
    match classes.interface(iface) {
        None => false,
        Some(interface) => (method as usize) < interface.methods.len(),
    }
}

// Whether a method's body may stand here.
fn is_method_body(scenario: &Scenario, at: &Standing, body: &MethodBody) -> bool
    requires { length scenario.now.classes.interfaces ≤ INTERFACE_LIMIT }
    ensures { IsTrue result ↔ IsBody scenario.now at.now body.now }
{
    is_body(scenario, at, BODY_LIMIT, &body.body)
        && has_method(&scenario.classes, body.iface, body.method)
}

// Whether two bodies are of one method of one interface.
fn same_body(left: &MethodBody, right: &MethodBody) -> bool
    ensures { result ≡ same_body left.now right.now }
{
    left.iface == right.iface && left.method == right.method
}

// Whether none of the other bodies is of the method that this one is of.
fn is_body_new(body: &MethodBody, others: &[MethodBody]) -> bool
    ensures { IsTrue result ↔ All (λ other. same_body body.now other ≡ false) others.now }
{
    others.iter().all(|other| !same_body(body, other))
}

// Whether no method has two bodies.
fn are_bodies_distinct(bodies: &[MethodBody]) -> bool
    ensures { IsTrue result ↔ Distinct same_body bodies.now }
{
    match bodies {
        [] => true,
        [first, rest @ ..] => is_body_new(first, rest) && are_bodies_distinct(rest),
    }
}

// Whether a class lists this interface alone, and has no bodies of its own.
fn lists_alone(class: &Class, iface: u16) -> bool
    ensures { IsTrue result ↔ ((class.now.interfaces ≡ iface ∷ []) × (class.now.bodies ≡ [])) }
{
    let [listed] = class.interfaces.as_slice() else {
        return false;
    };
    *listed == iface && class.bodies.as_slice().is_empty()
}

// Whether a class has what the code that runs its bodies asks for.
fn is_native(class: &Class) -> bool
    ensures { IsTrue result ↔ IsNative class.now.native class.now }
{
    match class.native {
        Native::Bodies => 1 <= class.interfaces.len() && class.interfaces.len() <= LISTED_LIMIT,
        Native::Counter => lists_alone(class, ICOUNTER),
        Native::Relay => lists_alone(class, IRELAY) && !is_agile(class.model),
        Native::Latch => lists_alone(class, ILATCH),
    }
}

// Whether the class with this number keeps the form and the limits, and names only what is declared.
fn is_class(scenario: &Scenario, number: u32, class: &Class) -> bool
    requires { length scenario.now.classes.interfaces ≤ INTERFACE_LIMIT }
    ensures { IsTrue result ↔ IsClass scenario.now number class.now }
{
    let at = in_class(number, class);
    is_name(class.name.as_slice())
        && is_native(class)
        && class
            .interfaces
            .as_slice()
            .iter()
            .all(|iface| is_declared(&scenario.classes, *iface))
        && class
            .bodies
            .as_slice()
            .iter()
            .all(|body| is_method_body(scenario, &at, body))
        && are_bodies_distinct(class.bodies.as_slice())
}

// Whether the classes from an index on are such.
#[tactic(auto, using(crate::proofs::Walks::there, crate::proofs::Walks::each_past))]
fn are_classes(scenario: &Scenario, index: u32) -> bool
    requires few { length scenario.now.classes.classes ≤ CLASS_LIMIT }
    requires inside { index ≤ CLASS_LIMIT }
    requires named { length scenario.now.classes.interfaces ≤ INTERFACE_LIMIT }
    ensures { IsTrue result
        ↔ EachFrom (IsClass scenario.now) (index + 1) (drop index scenario.now.classes.classes) }
{
    let Some(class) = class_at(&scenario.classes, index) else {
        return true;
    };
    is_class(scenario, index + 1, class) && are_classes(scenario, index + 1)
}

// Whether two classes have one name or one CLSID.
fn same_class(left: &Class, right: &Class) -> bool
    ensures { result ≡ same_class left.now right.now }
{
    left.name.as_slice() == right.name.as_slice() || same_guid(&left.clsid, &right.clsid)
}

// Whether two classes have neither one name nor one CLSID.
fn are_apart(left: &Class, right: &Class) -> bool
    ensures { IsTrue result ↔ (same_class left.now right.now ≡ false) }
{
    !same_class(left, right)
}

// Whether no class from an index on has the name or the CLSID of this one.
#[tactic(auto, using(crate::proofs::Walks::there, crate::proofs::Walks::all_past))]
fn is_class_new(class: &Class, classes: &Classes, index: u32) -> bool
    requires few { length classes.now.classes ≤ CLASS_LIMIT }
    requires inside { index ≤ CLASS_LIMIT }
    ensures { IsTrue result
        ↔ All (λ other. same_class class.now other ≡ false) (drop index classes.now.classes) }
{
    let Some(other) = class_at(classes, index) else {
        return true;
    };
    are_apart(class, other) && is_class_new(class, classes, index + 1)
}

// Whether no two classes from an index on have one name or one CLSID.
#[tactic(auto, using(crate::proofs::Walks::there, crate::proofs::Walks::distinct_past))]
fn are_classes_distinct(classes: &Classes, index: u32) -> bool
    requires few { length classes.now.classes ≤ CLASS_LIMIT }
    requires inside { index ≤ CLASS_LIMIT }
    ensures { IsTrue result ↔ Distinct same_class (drop index classes.now.classes) }
{
    let Some(class) = class_at(classes, index) else {
        return true;
    };
    is_class_new(class, classes, index + 1) && are_classes_distinct(classes, index + 1)
}

// Whether there are at most `CLASS_LIMIT` classes.
#[tactic(auto, using(crate::proofs::Walks::there, crate::proofs::Walks::past))]
fn are_classes_few(classes: &Classes) -> bool
    ensures { IsTrue result ↔ (length classes.now.classes ≤ CLASS_LIMIT) }
{
    class_at(classes, CLASS_LIMIT as u32).is_none()
}

// Whether the classes are at most `CLASS_LIMIT`, keep their forms, name only what is declared, and repeat no
// name or CLSID.
#[tactic(auto, using(crate::proofs::Whole::formed_classes))]
pub(crate) fn are_classes_formed(scenario: &Scenario) -> bool
    requires { length scenario.now.classes.interfaces ≤ INTERFACE_LIMIT }
    ensures { IsTrue result ↔ FormedClasses scenario.now }
{
    are_classes_few(&scenario.classes)
        && are_classes(scenario, 0)
        && are_classes_distinct(&scenario.classes, 0)
}
