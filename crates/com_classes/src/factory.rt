//! Activation: which class, which interface, and where the new object lives.

ghost use Rattle.std.specs.Prelude.{◌≡◌};
ghost use Rattle.com_classes.specs.Activation.{placed};

use crate::classes::Classes;
use crate::owners::{is_agile, owner_for};
use com_base::{Guid, HResult};

/// Who creates an object: the creator's running apartment, its lane's home, and the main STA at that moment.
#[derive(Debug, Clone, Copy, PartialEq, Eq)]
pub struct Creator {
    /// The apartment in which its lane runs.
    pub running: u32,
    /// The home of its lane.
    pub home: u32,
    /// The main STA at that moment.
    pub main_sta: u32,
}

/// What is to be made: an object of the class, with a reference of the interface, in the apartment `owner`.
///
/// `agile` says that every apartment owns the object, and then `owner` is a0, the neutral apartment.
#[derive(Debug, Clone, Copy, PartialEq, Eq)]
pub struct Placed {
    /// The number of the class, from 1.
    pub class: u32,
    /// The number of the interface of the first reference.
    pub iface: u16,
    /// The apartment that owns the object.
    pub owner: u32,
    /// Whether every apartment owns it; `owner` is 0 then.
    pub agile: bool,
}

/// The class factories (CoCreateInstance).
#[derive(Debug, Clone, Copy, PartialEq, Eq)]
pub struct Factory;

impl Factory {
    /// The new object that a CLSID and an IID ask for (CoCreateInstance). It takes no memory.
    ///
    /// REGDB_E_CLASSNOTREG comes exactly where no class has the CLSID, and else E_NOINTERFACE exactly where
    /// the IID names no interface of the class, which IUnknown always is. The owner goes by the class's
    /// threading model: the main STA for none; for `Apartment` the creator's apartment if it is an STA, else
    /// the host's STA; the multithreaded apartment for `Free`; the running apartment for `Both`; the neutral
    /// apartment for `Neutral` and `Agile`. A creator that runs in the neutral apartment counts for
    /// `Apartment` as its lane's home.
    pub fn create_instance(
        classes: &Classes,
        clsid: &Guid,
        iid: &Guid,
        creator: Creator,
    ) -> Result<Placed, HResult>
        ensures { result ≡ placed classes.now clsid.now iid.now creator }
    {
        let Some(number) = classes.find_class(clsid) else {
            return Err(HResult::REGDB_E_CLASSNOTREG);
        };
        let Some(class) = classes.class(number) else {
            return Err(HResult::REGDB_E_CLASSNOTREG);
        };
        let Some(iface) = classes.find_interface(iid) else {
            return Err(HResult::E_NOINTERFACE);
        };
        if !class.has(iface) {
            return Err(HResult::E_NOINTERFACE);
        }
        Ok(Placed {
            class: number,
            iface,
            owner: owner_for(class.model, creator),
            agile: is_agile(class.model),
        })
    }
}
