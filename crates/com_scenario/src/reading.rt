//! A scenario from its text.

ghost use Rattle.std.specs.Prelude.{◌≡◌, ◌≤◌, ◌++◌, ◌∷◌, [], None, drop, length, OnOk, IfOk};
ghost use Rattle.com_base.specs.declared.limits.TheConstants.{CLASS_LIMIT};
ghost use Rattle.com_classes.specs.BuiltIns.{built_in_interfaces};
ghost use Rattle.com_classes.specs.Lookups.{class_refusal, interface_refusal};
ghost use Rattle.com_read_operands.specs.Reading.{Gives};
ghost use Rattle.com_model.specs.Formed.{Distinct, Formed, FormedInterfaces, same_class};
ghost use Rattle.com_scenario.specs.Scenarios.{tables_of, scenario_of, reading};

use com_base::{BUILT_IN_COUNT, Memory, Rows};
use com_classes::{Class, ClassError, Classes, Interface, built_in_interfaces};
use com_model::Scenario;
use com_read_operands::ScenarioError;
use com_read_sections::{Outline, outline_of};
use std::alloc::{AllocError, Global};

// The interfaces that a text declares itself.
fn declared_interfaces(mut interfaces: Vec<Interface>) -> Result<Vec<Interface>, Memory>
    ensures { IfOk result (λ v. v.items ≡ drop BUILT_IN_COUNT interfaces.items) }
{
    let from = interfaces.len().min(BUILT_IN_COUNT);
    interfaces.split_off(from)
}

// Adds an interface that is not refused. The only error is want of memory.
fn add_interface(classes: &mut Classes, interface: Interface) -> Result<(), Memory>
    requires { interface_refusal classes.old interface ≡ None }
    ensures { OnOk result (classes.new
        ≡ record classes.old { interfaces = classes.old.interfaces ++ interface ∷ [] }) }
{
    match classes.add_interface(interface) {
        Ok(_) => Ok(()),
        Err(ClassError::Memory) => Err(AllocError),
        Err(_) => unreachable!(),
    }
}

// Adds a class that is not refused. The only error is want of memory.
fn add_class(classes: &mut Classes, class: Class) -> Result<(), Memory>
    requires { class_refusal classes.old class ≡ None }
    ensures { OnOk result (classes.new ≡ record classes.old { classes = classes.old.classes ++ class ∷ [] }) }
{
    match classes.add_class(class) {
        Ok(_) => Ok(()),
        Err(ClassError::Memory) => Err(AllocError),
        Err(_) => unreachable!(),
    }
}

// The tables of an outline's interfaces and classes, which keep the forms and the limits of the language.
fn tables(alloc: Global, interfaces: Rows<Interface>, list: Rows<Class>) -> Result<Classes, Memory>
    requires interfaces { FormedInterfaces (built_in_interfaces ++ drop BUILT_IN_COUNT interfaces) }
    requires few { length list ≤ CLASS_LIMIT }
    requires distinct { Distinct same_class list }
    ensures { IfOk result (λ t. t ≡ tables_of interfaces list) }
{
    let mut classes = Classes::new(alloc)?;
    for interface in declared_interfaces(interfaces.into_vec())? {
        add_interface(&mut classes, interface)?;
    }
    for class in list.into_vec() {
        add_class(&mut classes, class)?;
    }
    Ok(classes)
}

/// The scenario of an outline, where it is formed. The only error is want of memory.
pub fn scenario(alloc: Global, outline: Outline) -> Result<Scenario, Memory>
    requires { Formed (scenario_of outline) }
    ensures { IfOk result (λ s. s ≡ scenario_of outline) }
{
    Ok(Scenario {
        version: outline.version,
        pool: outline.pool,
        classes: tables(alloc, outline.interfaces, outline.classes)?,
        filters: outline.filters,
        threads: outline.threads,
        picks: outline.picks,
    })
}

/// The scenario that a text spells, or the first fault by position, and of two at one position the one
/// with the lower number. `Memory` comes where memory is short, and for a text of nearly 2^32 bytes
/// or more. The scenario keeps the limits, the forms and the ranges of the language, repeats no name
/// or GUID, and names only what is declared.
#[tactic(auto, unfolding(crate::specs::Scenarios::reading))]
pub fn parse(alloc: Global, text: &[u8]) -> Result<Scenario, ScenarioError>
    ensures value { Gives (λ s. s) result (reading text.now) }
    ensures formed { IfOk result (λ s. Formed s) }
{
    let outline = outline_of(alloc, built_in_interfaces(alloc)?, text)?;
    Ok(scenario(alloc, outline)?)
}
