//! Interfaces, classes and activation.
#![tactic(auto)]

mod built_ins;
mod classes;
mod factory;
mod interfaces;
mod owners;

pub use built_ins::{built_in_iid, built_in_interfaces};
pub use classes::{Class, ClassError, Classes, MethodBody, ThreadingModel};
pub use com_base::Memory;
pub use factory::{Creator, Factory, Placed};
pub use interfaces::{Interface, Method};
pub use owners::{is_agile, owner_for};
