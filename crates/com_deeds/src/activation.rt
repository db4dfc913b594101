//! The entries of creation and of a query.

ghost use Rattle.std.specs.Prelude.{◌≡◌, ℕ, ◌+◌, ◌<◌, ◌^◌};
ghost use Rattle.com_model.specs.Sight.{Sight};
ghost use Rattle.com_model.specs.Tables.{class_number, interface_number, shown};
ghost use Rattle.com_model.specs.Deeds.{created, creator, not_made, placing, offers};
ghost use Rattle.com_model.specs.Deeds.{queried, query_answer, object_in};
ghost use Rattle.com_classes.specs.Lookups.{class_at as class_under};
ghost use Rattle.com_model.specs.Lists.{number_or_zero};
ghost use Rattle.com_deeds.specs.Seen.{FitsNumber, Sees};

use crate::target::Target;
use com_base::{HResult, RefValue};
use com_body::Asked;
use com_classes::{Creator, Factory, Placed, is_agile, owner_for};
use com_model::{Deed, Scenario};

/// The number of the class that is asked for, where the scenario declares it.
pub fn class_number(scenario: &Scenario, class: Asked) -> Option<u32>
    ensures { result ≡ class_number scenario.now class }
{
    match class {
        Asked::Number(number) => match scenario.classes.class(number) {
            Some(_) => Some(number),
            None => None,
        },
        Asked::Guid(clsid) => scenario.classes.find_class(&clsid),
    }
}

/// The number of the interface that is asked for, where the scenario declares it.
pub fn interface_number(scenario: &Scenario, iface: Asked) -> Option<u16>
    requires { FitsNumber iface }
    ensures { result ≡ interface_number scenario.now iface }
{
    match iface {
        Asked::Number(number) => match scenario.classes.interface(number as u16) {
            Some(_) => Some(number as u16),
            None => None,
        },
        Asked::Guid(iid) => scenario.classes.find_interface(&iid),
    }
}

// What an entry shows of a class or an interface: its number, where it is declared.
fn show(number: Option<u32>, asked: Asked) -> Asked
    ensures { result ≡ shown number asked }
{
    match number {
        None => asked,
        Some(number) => Asked::Number(number),
    }
}

// An interface's number, which has 16 bits, as one of the 32 bits in which an entry shows it.
fn wide(number: Option<u16>) -> Option<u32>
    ensures { result ≡ number }
{
    match number {
        None => None,
        Some(number) => Some(u32::from(number)),
    }
}

/// What an entry shows of an interface that is asked for: its number, where the scenario declares it, else
/// its IID.
pub fn shown_interface(scenario: &Scenario, iface: Asked) -> Asked
    requires { FitsNumber iface }
    ensures { result ≡ shown (interface_number scenario.now iface) iface }
{
    show(wide(interface_number(scenario, iface)), iface)
}

// The entry of a `create` that is refused with this answer: it names no object and no apartment.
fn not_made(scenario: &Scenario, class: Asked, iface: Asked, hr: HResult) -> Deed
    requires { FitsNumber iface }
    ensures { result ≡ not_made scenario.now class iface hr }
{
    Deed::Made {
        object: None,
        apartment: None,
        class: show(class_number(scenario, class), class),
        iface: shown_interface(scenario, iface),
        hr,
    }
}

/// The entry of `create` in a lane with this home and running apartment, where `objects` were made so far. It
/// is refused, by the first that applies, with CO_E_NOTINITIALIZED without home, REGDB_E_CLASSNOTREG where
/// the class is not declared, and E_NOINTERFACE where the interface is not in the class's set; else the owner
/// is where the class's threading model places the object (CoCreateInstance).
pub fn create_deed(
    scenario: &Scenario,
    class: Asked,
    iface: Asked,
    home: Option<u32>,
    running: Option<u32>,
    main_sta: u32,
    objects: u32,
) -> Deed
    requires number { FitsNumber iface }
    requires room { objects + 1 < 2 ^ 32 }
    ensures { (v : Sight) (l : ℕ) → v.running l ≡ running → v.main_sta ≡ main_sta → v.objects ≡ objects
        → result ≡ created scenario.now v l class iface home }
{
    let Some(home) = home else {
        return not_made(scenario, class, iface, HResult::CO_E_NOTINITIALIZED);
    };
    let Some(number) = class_number(scenario, class) else {
        return not_made(scenario, class, iface, HResult::REGDB_E_CLASSNOTREG);
    };
    let creator = Creator {
        running: number_or_zero(running),
        home,
        main_sta,
    };
    match placing(scenario, number, interface_number(scenario, iface), creator) {
        Err(hr) => not_made(scenario, class, iface, hr),
        Ok(placed) => Deed::Made {
            object: Some(objects + 1),
            apartment: Some(placed.owner),
            class: Asked::Number(placed.class),
            iface: Asked::Number(u32::from(placed.iface)),
            hr: HResult::S_OK,
        },
    }
}

/// The number, or 0 where there is none.
pub fn number_or_zero(number: Option<u32>) -> u32
    ensures { result ≡ number_or_zero number }
{
    match number {
        None => 0,
        Some(number) => number,
    }
}

// Where the object of a class that is found by its number is placed, or why it is not made.
fn placing(
    scenario: &Scenario,
    class: u32,
    iface: Option<u16>,
    creator: Creator,
) -> Result<Placed, HResult>
    ensures { result ≡ placing creator class iface (class_under scenario.now.classes class) }
{
    let Some(found) = scenario.classes.class(class) else {
        return Err(HResult::REGDB_E_CLASSNOTREG);
    };
    let Some(iface) = iface else {
        return Err(HResult::E_NOINTERFACE);
    };
    if !scenario.classes.has(class, iface) {
        return Err(HResult::E_NOINTERFACE);
    }
    Ok(Placed {
        class,
        iface,
        owner: owner_for(found.model, creator),
        agile: is_agile(found.model),
    })
}

// Whether the object's class has the interface. None is an interface that is not declared.
fn offers(scenario: &Scenario, class: u32, iface: Option<u16>) -> bool
    ensures { result ≡ offers scenario.now class iface }
{
    match iface {
        None => false,
        Some(iface) => scenario.classes.has(class, iface),
    }
}

/// The object of a reference, or none of null.
pub fn object_in(held: Option<RefValue>) -> Option<u32>
    ensures { result ≡ object_in held }
{
    match held {
        None => None,
        Some(held) => Some(held.object),
    }
}

// The answer of a `query`: the first refusal that applies, as `query_deed` orders them, else S_OK.
fn query_answer(
    scenario: &Scenario,
    held: Option<RefValue>,
    iface: Option<u16>,
    home: Option<u32>,
    target: Target,
) -> HResult
    ensures { (v : Sight) (l : ℕ) → Sees v l held target
        → result ≡ query_answer scenario.now v l home held iface }
{
    if home.is_none() {
        return HResult::CO_E_NOTINITIALIZED;
    }
    if held.is_none() {
        return HResult::E_POINTER;
    }
    if !target.is_owned && !target.is_connected {
        return HResult::RPC_E_DISCONNECTED;
    }
    if offers(scenario, target.class, iface) {
        HResult::S_OK
    } else {
        HResult::E_NOINTERFACE
    }
}

/// The entry of `query`. It is refused, by the first that applies, with CO_E_NOTINITIALIZED without home,
/// E_POINTER on null, RPC_E_DISCONNECTED on a proxy whose object is not connected, and E_NOINTERFACE outside
/// the object's set (IUnknown::QueryInterface).
pub fn query_deed(
    scenario: &Scenario,
    held: Option<RefValue>,
    iface: Asked,
    home: Option<u32>,
    target: Target,
) -> Deed
    requires { FitsNumber iface }
    ensures { (v : Sight) (l : ℕ) → v.home l ≡ home → Sees v l held target
        → result ≡ queried scenario.now v l held iface }
{
    let number = interface_number(scenario, iface);
    Deed::Query {
        object: object_in(held),
        iface: show(wide(number), iface),
        hr: query_answer(scenario, held, number, home, target),
    }
}
