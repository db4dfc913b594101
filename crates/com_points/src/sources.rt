//! Which classes of a scenario are event sources after IConnectionPoint.
ghost use Rattle.std.specs.Prelude.{◌≡◌, ◌↔◌, ◌∷◌, [], ℕ, IfNone, IfSome, IsTrue, Some};
ghost use Rattle.com_body.specs.declared.frame.Native.TheVariants.{Bodies};
ghost use Rattle.com_classes.specs.Lookups.{body_at};
ghost use Rattle.com_laws_sources.specs.Bodies.{advise_body, unadvise_body, fire_body};
ghost use Rattle.com_laws_sources.specs.Sources.{IsPoint, IsSource, IsStaModel, point_iid, point_methods};
ghost use Rattle.com_points.specs.SourceHeads.{Looks, are_own_bodies};
ghost use Rattle.com_points.specs.declared.sources.TheConstants.{ADVISE, FIRE, UNADVISE};

mod bodies;
mod shapes;

use bodies::{is_advise, is_fire, is_unadvise};
use com_base::{Guid, Kind};
use com_body::Native;
use com_classes::{Class, Classes, Interface, Method, MethodBody, ThreadingModel};
use com_model::Scenario;

/// The IID of a source's interface.
pub(crate) const POINT_IID: Guid = Guid {
    data1: 0x5C0B_0030,
    data2: 0x0000,
    data3: 0x4000,
    data4: [0x80, 0x00, 0x00, 0x00, 0x00, 0x00, 0x00, 0x01],
};
/// The number of the method `advise` in a source's interface.
pub const ADVISE: u16 = 0;
/// The number of the method `unadvise`.
pub const UNADVISE: u16 = 1;
/// The number of the method `fire`.
pub const FIRE: u16 = 2;

/// The number of the interface of a source, if the class with this number is one (`some`), and `None` exactly
/// where it is none (`none`): a source is a class with a model of an STA, whose one declared interface has
/// the IID and the methods of a source's, and whose bodies are those of a source, whichever line declared it.
#[tactic(auto, using(crate::proofs::Found::found, crate::proofs::Missed::no_class, crate::proofs::Missed::no_only, crate::proofs::Missed::no_interface, crate::proofs::Missed::no_looks))]
pub fn source_interface(scenario: &Scenario, class: u32) -> Option<u16>
    ensures some { IfSome result (λ iface. IsSource scenario.now class iface) }
    ensures none { IfNone result ((iface : ℕ) → IsSource scenario.now class iface → ⊥) }
{
    let classes = &scenario.classes;
    let declared = classes.class(class)?;
    let iface = only_interface(declared.interfaces.as_slice())?;
    let point = classes.interface(iface)?;
    if looks_as_source(classes, class, declared, iface, point) {
        return Some(iface);
    }
    None
}

// Whether a class whose one interface is this one looks as a source.
fn looks_as_source(
    classes: &Classes,
    class: u32,
    declared: &Class,
    iface: u16,
    point: &Interface,
) -> bool
    ensures { IsTrue result ↔ Looks classes.now class declared.now iface point.now }
{
    is_sta_model(declared.model)
        && is_bodies(declared.native)
        && is_point(point)
        && are_own_bodies(declared.bodies.as_slice(), iface)
        && has_advise(classes, class, iface)
        && has_unadvise(classes, class, iface)
        && has_fire(classes, class, iface)
}

// The objects of a source live in an STA.
fn is_sta_model(model: ThreadingModel) -> bool
    ensures { IsTrue result ↔ IsStaModel model }
{
    match model {
        ThreadingModel::Nothing => true,
        ThreadingModel::Apartment => true,
        _ => false,
    }
}

// Whether a class runs bodies of statements, and is none of the built-in ones.
fn is_bodies(native: Native) -> bool
    ensures { IsTrue result ↔ native ≡ Bodies }
{
    match native {
        Native::Bodies => true,
        _ => false,
    }
}

// The number of the interface, where exactly one is declared.
fn only_interface(interfaces: &[u16]) -> Option<u16>
    ensures some { IfSome result (λ iface. interfaces.now ≡ iface ∷ []) }
    ensures none { IfNone result ((iface : ℕ) → interfaces.now ≡ iface ∷ [] → ⊥) }
{
    match interfaces {
        [iface] => Some(*iface),
        _ => None,
    }
}

// Whether an interface has the IID and the methods of a source's.
fn is_point(interface: &Interface) -> bool
    ensures { IsTrue result ↔ IsPoint interface.now }
{
    is_point_iid(interface.iid) && are_point_methods(interface.methods.as_slice())
}

// Whether an IID is that of a source's interface.
pub(crate) fn is_point_iid(iid: Guid) -> bool
    ensures { IsTrue result ↔ iid ≡ point_iid }
{
    iid == POINT_IID
}

// Whether these are the three methods of a source's interface, in their order.
fn are_point_methods(methods: &[Method]) -> bool
    ensures { IsTrue result ↔ methods.now ≡ point_methods }
{
    match methods {
        [advise, unadvise, fire] => {
            is_method(advise, b"advise", Kind::Ref(1), Some(Kind::Int))
                && is_method(unadvise, b"unadvise", Kind::Int, None)
                && is_method(fire, b"fire", Kind::Int, Some(Kind::Int))
        }
        _ => false,
    }
}

// Whether a method has this name, one parameter of this kind, and this kind of result, or none.
fn is_method(method: &Method, name: &[u8], param: Kind, answer: Option<Kind>) -> bool
    ensures { IsTrue result
        ↔ method.now ≡ record { name = name.now; params = param ∷ []; result = answer } }
{
    method.name.as_slice() == name
        && is_one_kind(method.params.as_slice(), param)
        && is_result(method.result, answer)
}

// Whether a method's result is of the wanted kind, or is missing where none is wanted.
fn is_result(kind: Option<Kind>, wanted: Option<Kind>) -> bool
    ensures { IsTrue result ↔ kind ≡ wanted }
{
    match (kind, wanted) {
        (None, None) => true,
        (Some(kind), Some(wanted)) => kind == wanted,
        _ => false,
    }
}

// Whether there is one parameter, of this kind.
fn is_one_kind(kinds: &[Kind], kind: Kind) -> bool
    ensures { IsTrue result ↔ kinds.now ≡ kind ∷ [] }
{
    match kinds {
        [one] => *one == kind,
        _ => false,
    }
}

// Whether all bodies are those of the interface's first three methods.
fn are_own_bodies(bodies: &[MethodBody], iface: u16) -> bool
    ensures { result ≡ are_own_bodies iface bodies.now }
{
    for body in bodies {
        if body.iface != iface || body.method > FIRE {
            return false;
        }
    }
    true
}

// Whether a class gives the body of `advise` for the first method of this interface.
fn has_advise(classes: &Classes, class: u32, iface: u16) -> bool
    ensures { IsTrue result ↔ body_at classes.now class iface ADVISE ≡ Some advise_body }
{
    match classes.body(class, iface, ADVISE) {
        None => false,
        Some(body) => is_advise(body.statements()),
    }
}

// Whether a class gives the body of `unadvise` for the second method of this interface.
fn has_unadvise(classes: &Classes, class: u32, iface: u16) -> bool
    ensures { IsTrue result ↔ body_at classes.now class iface UNADVISE ≡ Some unadvise_body }
{
    match classes.body(class, iface, UNADVISE) {
        None => false,
        Some(body) => is_unadvise(body.statements()),
    }
}

// Whether a class gives the body of `fire` for the third method of this interface.
fn has_fire(classes: &Classes, class: u32, iface: u16) -> bool
    ensures { IsTrue result ↔ body_at classes.now class iface FIRE ≡ Some fire_body }
{
    match classes.body(class, iface, FIRE) {
        None => false,
        Some(body) => is_fire(body.statements()),
    }
}
