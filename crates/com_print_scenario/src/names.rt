//! The names that a scenario declares, and the tables of its interfaces.

ghost use Rattle.std.specs.Prelude.{◌≡◌, ◌≤◌, IfOk, length, map};
ghost use Rattle.com_base.specs.declared.limits.TheConstants.{CLASS_LIMIT, INTERFACE_LIMIT};
ghost use Rattle.com_print_scenario.specs.Printed.{filter_name, filter_names, names_in};

use com_base::{ByteList, Kind, Memory, Rows};
use com_classes::{Classes, Interface, Method};
use com_filter::Filter;
use com_model::Scenario;
use com_read_statements::Names;
use itoa::Buffer;
use std::alloc::Global;

// A copy of a method's parameter types. The only error is want of memory.
fn copy_kinds(alloc: Global, kinds: &[Kind]) -> Result<Rows<Kind>, Memory>
    ensures { IfOk result (λ copy. copy ≡ kinds.now) }
{
    Ok(Rows::from_vec(Vec::from_slice(alloc, kinds)?))
}

// A copy of a method: its name, its parameters and its result. The only error is want of memory.
fn copy_method(alloc: Global, method: &Method) -> Result<Method, Memory>
    ensures { IfOk result (λ copy. copy ≡ method.now) }
{
    Ok(Method {
        name: method.name.copy()?,
        params: copy_kinds(alloc, method.params.as_slice())?,
        result: method.result,
    })
}

// A copy of an interface's methods. The only error is want of memory.
fn copy_methods(alloc: Global, methods: &[Method]) -> Result<Rows<Method>, Memory>
    ensures { IfOk result (λ copies. copies ≡ methods.now) }
{
    let mut copies = Vec::new(alloc);
    for method in methods {
        copies.push(copy_method(alloc, method)?)?;
    }
    Ok(Rows::from_vec(copies))
}

// A copy of an interface: its name, its IID and its methods. The only error is want of memory.
fn copy_interface(alloc: Global, interface: &Interface) -> Result<Interface, Memory>
    ensures { IfOk result (λ copy. copy ≡ interface.now) }
{
    Ok(Interface {
        name: interface.name.copy()?,
        iid: interface.iid,
        methods: copy_methods(alloc, interface.methods.as_slice())?,
    })
}

// The interfaces, the built-in ones first.
#[tactic(auto, using(crate::proofs::Lists::interface_more, crate::proofs::Lists::interface_there, crate::proofs::Lists::interfaces_end))]
fn tables(alloc: Global, classes: &Classes) -> Result<Rows<Interface>, Memory>
    requires { length classes.now.interfaces ≤ INTERFACE_LIMIT }
    ensures { IfOk result (λ copies. copies ≡ classes.now.interfaces) }
{
    let mut copies = Vec::new(alloc);
    let mut number = 0;
    'tables: while let Some(interface) = classes.interface(number) {
        copies.push(copy_interface(alloc, interface)?)?;
        number += 1;
    }
    Ok(Rows::from_vec(copies))
}

// The names of the interfaces by number, from 0. The only error is want of memory.
fn interface_names(alloc: Global, tables: &[Interface]) -> Result<Rows<ByteList>, Memory>
    ensures { IfOk result (λ names. names ≡ map (λ i. i.name) tables.now) }
{
    let mut names = Vec::new(alloc);
    for interface in tables {
        names.push(interface.name.copy()?)?;
    }
    Ok(Rows::from_vec(names))
}

// The names of the classes by number, from 1. The only error is want of memory.
#[tactic(auto, using(crate::proofs::Lists::class_more, crate::proofs::Lists::class_there, crate::proofs::Lists::classes_end))]
fn class_names(alloc: Global, classes: &Classes) -> Result<Rows<ByteList>, Memory>
    requires { length classes.now.classes ≤ CLASS_LIMIT }
    ensures { IfOk result (λ names. names ≡ map (λ c. c.name) classes.now.classes) }
{
    let mut names = Vec::new(alloc);
    let mut number = 0;
    'classes: while let Some(class) = classes.class(number + 1) {
        names.push(class.name.copy()?)?;
        number += 1;
    }
    Ok(Rows::from_vec(names))
}

// `F` and a number.
fn filter_name(alloc: Global, number: usize) -> Result<ByteList, Memory>
    ensures { IfOk result (λ name. name ≡ filter_name number) }
{
    let mut digits = Buffer::new();
    let mut name = ByteList::new(alloc);
    name.push(b'F')?;
    name.push_all(digits.format(number).as_bytes())?;
    Ok(name)
}

// A name for each filter: `F1`, `F2` and on. The only error is want of memory.
#[tactic(auto, using(crate::proofs::Lists::filter_more, crate::proofs::Lists::filters_end))]
fn filter_names(alloc: Global, filters: &[Filter]) -> Result<Rows<ByteList>, Memory>
    ensures { IfOk result (λ names. names ≡ filter_names 1 filters.now) }
{
    let mut names = Vec::new(alloc);
    for index in 0..filters.len() {
        names.push(filter_name(alloc, index + 1)?)?;
    }
    Ok(Rows::from_vec(names))
}

// The names of a scenario. It keeps no filters' names, so these are `F1`, `F2` and on.
pub(crate) fn names_of(alloc: Global, scenario: &Scenario) -> Result<Names, Memory>
    requires interfaces { length scenario.now.classes.interfaces ≤ INTERFACE_LIMIT }
    requires classes { length scenario.now.classes.classes ≤ CLASS_LIMIT }
    ensures { IfOk result (λ names. names ≡ names_in scenario.now) }
{
    let tables = tables(alloc, &scenario.classes)?;
    Ok(Names {
        classes: class_names(alloc, &scenario.classes)?,
        interfaces: interface_names(alloc, tables.as_slice())?,
        filters: filter_names(alloc, scenario.filters.as_slice())?,
        tables,
    })
}
