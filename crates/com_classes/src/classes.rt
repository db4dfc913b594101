//! Classes and the tables of interfaces and classes.

ghost use Rattle.std.specs.Prelude.{◌≡◌, [], ◌∷◌, ◌++◌, ◌+◌, ◌==◌, None, IfOk, IfErr, OnOk, OnErr};
ghost use Rattle.std.specs.Prelude.{length, slice_get, unwrap_or, if◌then◌else◌};
ghost use Rattle.std.specs.Option.{option_copied};
ghost use Rattle.com_classes.specs.declared.classes.ClassError.TheVariants as error;
ghost use Rattle.com_classes.specs.BuiltIns.{built_in_interfaces};
ghost use Rattle.com_classes.specs.Indexed.{key_of, same_key};
ghost use Rattle.indexmap.specs.IndexMap.{index_of};
ghost use Rattle.com_classes.specs.Lookups.{interface_at, class_at, find_interface, find_class, class_has};
ghost use Rattle.com_classes.specs.Lookups.{has_interface, method_at, given_in, class_body, body_at};
ghost use Rattle.com_classes.specs.Lookups.{interface_refusal, class_refusal};

use crate::built_ins;
use crate::interfaces::{Interface, Method};
use com_base::{ByteList, CLASS_LIMIT, Guid, INTERFACE_LIMIT, Memory, Rows};
use com_body::{Body, Native};
use indexmap::IndexMap;
use std::alloc::Global;
use std::marker::Model;

// A GUID by its four fields.
type Key = (u32, u16, u16, [u8; 8]);

/// Where the objects of a class live, by the registry's word `ThreadingModel`.
#[derive(Debug, Clone, Copy, PartialEq, Eq)]
pub enum ThreadingModel {
    /// No word: the main STA.
    Nothing,
    /// An STA: the creator's, or else the host's.
    Apartment,
    /// The multithreaded apartment.
    Free,
    /// The creator's apartment.
    Both,
    /// The neutral apartment.
    Neutral,
    /// Every apartment, as with the free-threaded marshaler.
    Agile,
}

/// The body of one method of a class.
#[derive(Debug, Drop)]
pub struct MethodBody {
    /// The number of the interface.
    pub iface: u16,
    /// The number of the method in the interface's table, from 0.
    pub method: u16,
    /// What runs where the method is called.
    pub body: Body,
}

/// A class: its name, CLSID and threading model, which code runs its bodies, the numbers of its interfaces in
/// the order of their declaration in it, and the bodies of its methods.
///
/// `native` is `Bodies` for a class that is not built in. IUnknown need not be among the interfaces: each
/// class has it.
#[derive(Debug, Drop)]
pub struct Class {
    /// Its name, of 1 to 32 characters.
    pub name: ByteList,
    /// Its CLSID, which no other class has.
    pub clsid: Guid,
    /// Its threading model, which says where its objects live.
    pub model: ThreadingModel,
    /// Which code runs its bodies.
    pub native: Native,
    /// The numbers of the interfaces that it declares, at most 16, in the order of their declaration in it.
    pub interfaces: Rows<u16>,
    /// The bodies of its methods. Of two for one method the first counts.
    pub bodies: Rows<MethodBody>,
}

/// Why a class or an interface is not taken into the tables.
#[derive(Debug, Clone, Copy, PartialEq, Eq)]
pub enum ClassError {
    /// Its CLSID or IID is there already.
    Repeated,
    /// The table has as many as it may have.
    Full,
    /// Want of memory.
    Memory,
}

impl From<Memory> for ClassError {
    ghost from_gives = { λ _ e. e ≡ error.Memory };

    fn from(_error: Memory) -> ClassError {
        ClassError::Memory
    }
}

/// The interfaces and the classes, each in the order of declaration.
///
/// Contracts see the list of interfaces, the built-in ones first, and the list of classes. An interface's
/// number is its index in its list, and a class's number is one more than its index.
#[derive(Drop)]
pub struct Classes {
    interfaces: IndexMap<Key, Interface>,
    classes: IndexMap<Key, Class>,
    counter: Vec<Body>,
    relay: Vec<Body>,
    latch: Vec<Body>,
}

impl Model for Classes {
    ghost use Rattle.indexmap.specs.IndexMap.{keys, values};
    ghost use Rattle.com_classes.specs.Tables.{Tables};
    ghost use Rattle.com_classes.specs.Indexed.{IsIndexed};

    ghost Value = { Tables };

    ghost view = { λ a. record { interfaces = values a.interfaces; classes = values a.classes } };

    ghost invariant = { λ a. IsIndexed (keys a.interfaces) (values a.interfaces) (keys a.classes)
        (values a.classes)
        a.counter.items a.relay.items a.latch.items };
}

impl Classes {
    /// The interface with this number. None exactly where there is none. Interface 0 is IUnknown, without
    /// methods.
    pub fn interface(&self, iface: u16) -> Option<&Interface>
        ensures { option_copied result ≡ interface_at self.now iface }
    {
        let (_, interface) = self.interfaces.get_index(iface as usize)?;
        Some(interface)
    }

    /// The class with this number, from 1. None exactly where there is none.
    pub fn class(&self, class: u32) -> Option<&Class>
        ensures { option_copied result ≡ class_at self.now class }
    {
        if class == 0 {
            return None;
        }
        let index = class - 1;
        match self.classes.get_index(index as usize) {
            Some((_, class)) => Some(class),
            None => None,
        }
    }

    /// The number of the interface with this IID. None exactly where it is not declared.
    pub fn find_interface(&self, iid: &Guid) -> Option<u16>
        ensures { result ≡ find_interface self.now iid.now }
    {
        match self.interfaces.get_index_of(&key_of(iid)) {
            Some(index) => Some(index as u16),
            None => None,
        }
    }

    /// The number of the class with this CLSID. None exactly where it is not declared.
    pub fn find_class(&self, clsid: &Guid) -> Option<u32>
        ensures { result ≡ find_class self.now clsid.now }
    {
        match self.classes.get_index_of(&key_of(clsid)) {
            Some(index) => Some(index as u32 + 1),
            None => None,
        }
    }

    /// Whether an object of the class has the interface: IUnknown, or one of the class's list. False for a
    /// number that is no class's.
    pub fn has(&self, class: u32, iface: u16) -> bool
        ensures { result ≡ has_interface self.now class iface }
    {
        match self.class(class) {
            Some(class) => class.has(iface),
            None => false,
        }
    }

    /// The tables with the four built-in interfaces and no class: IUnknown 0, ICounter 1, IRelay 2 and ILatch
    /// 3. The only error is want of memory.
    #[tactic(auto, using(crate::proofs::BuiltIns::iunknown_is_new, crate::proofs::BuiltIns::icounter_is_new, crate::proofs::BuiltIns::irelay_is_new, crate::proofs::BuiltIns::ilatch_is_new))]
    pub fn new(alloc: Global) -> Result<Classes, Memory>
        ensures interfaces { IfOk result (λ tables. tables.interfaces ≡ built_in_interfaces) }
        ensures classes { IfOk result (λ tables. tables.classes ≡ []) }
    {
        let mut tables = Classes {
            interfaces: IndexMap::new(alloc),
            classes: IndexMap::new(alloc),
            counter: built_ins::counter_bodies(alloc)?,
            relay: built_ins::relay_bodies(alloc)?,
            latch: built_ins::latch_bodies(alloc)?,
        };
        tables.put_interface(built_ins::iunknown(alloc)?)?;
        tables.put_interface(built_ins::icounter(alloc)?)?;
        tables.put_interface(built_ins::irelay(alloc)?)?;
        tables.put_interface(built_ins::ilatch(alloc)?)?;
        Ok(tables)
    }

    /// Declares an interface and answers its number, the next one.
    ///
    /// `Repeated` comes exactly where its IID is declared, and else `Full` exactly where 60 interfaces stand
    /// beside the built-in ones. `Memory` is want of memory. After an error the tables are as before.
    pub fn add_interface(&mut self, interface: Interface) -> Result<u16, ClassError>
        ensures refused { IfErr result (λ cause. cause
            ≡ unwrap_or (interface_refusal self.old interface) error.Memory) }
        ensures unchanged { OnErr result (self.new ≡ self.old) }
        ensures good { OnOk result (interface_refusal self.old interface ≡ None) }
        ensures number { IfOk result (λ number. number ≡ length self.old.interfaces) }
        ensures added { OnOk result (self.new
            ≡ record self.old { interfaces = self.old.interfaces ++ interface ∷ [] }) }
    {
        match self.interface_refusal(&interface) {
            Some(cause) => Err(cause),
            None => Ok(self.put_interface(interface)?),
        }
    }

    // Appends an interface that is not refused. The only error is want of memory.
    #[tactic(auto, using(crate::proofs::Keys::unrefused_interface))]
    fn put_interface(&mut self, interface: Interface) -> Result<u16, Memory>
        requires { interface_refusal self.old interface ≡ None }
        ensures unchanged { OnErr result (self.new ≡ self.old) }
        ensures number { IfOk result (λ number. number ≡ length self.old.interfaces) }
        ensures added { OnOk result (self.new
            ≡ record self.old { interfaces = self.old.interfaces ++ interface ∷ [] }) }
    {
        let number = self.interfaces.len();
        append_interface(&mut self.interfaces, interface)?;
        Ok(number as u16)
    }

    // Why an interface is not taken: its IID is declared already, or the table is full. None
    // where neither holds.
    fn interface_refusal(&self, interface: &Interface) -> Option<ClassError>
        ensures { result ≡ interface_refusal self.now interface.now }
    {
        if self.find_interface(&interface.iid).is_some() {
            return Some(ClassError::Repeated);
        }
        if self.interfaces.len() >= INTERFACE_LIMIT {
            Some(ClassError::Full)
        } else {
            None
        }
    }

    /// Declares a class and answers its number, the next one from 1.
    ///
    /// `Repeated` comes exactly where its CLSID is declared, and else `Full` exactly where there are 64
    /// classes. `Memory` is want of memory. After an error the tables are as before. Where a method is
    /// given two bodies the first one counts, and where `native` is another than `Bodies` the built-in
    /// bodies count alone.
    pub fn add_class(&mut self, class: Class) -> Result<u32, ClassError>
        ensures refused { IfErr result (λ cause. cause
            ≡ unwrap_or (class_refusal self.old class) error.Memory) }
        ensures unchanged { OnErr result (self.new ≡ self.old) }
        ensures good { OnOk result (class_refusal self.old class ≡ None) }
        ensures number { IfOk result (λ number. number ≡ length self.old.classes + 1) }
        ensures added { OnOk result (self.new
            ≡ record self.old { classes = self.old.classes ++ class ∷ [] }) }
    {
        match self.class_refusal(&class) {
            Some(cause) => Err(cause),
            None => Ok(self.put_class(class)?),
        }
    }

    // Appends a class that is not refused. The only error is want of memory.
    #[tactic(auto, using(crate::proofs::Keys::unrefused_class))]
    fn put_class(&mut self, class: Class) -> Result<u32, Memory>
        requires { class_refusal self.old class ≡ None }
        ensures unchanged { OnErr result (self.new ≡ self.old) }
        ensures number { IfOk result (λ number. number ≡ length self.old.classes + 1) }
        ensures added { OnOk result (self.new
            ≡ record self.old { classes = self.old.classes ++ class ∷ [] }) }
    {
        let number = self.classes.len();
        append_class(&mut self.classes, class)?;
        Ok(number as u32 + 1)
    }

    // Why a class is not taken: its CLSID is declared already, or the table is full. None where
    // neither holds.
    fn class_refusal(&self, class: &Class) -> Option<ClassError>
        ensures { result ≡ class_refusal self.now class.now }
    {
        if self.find_class(&class.clsid).is_some() {
            return Some(ClassError::Repeated);
        }
        if self.classes.len() >= CLASS_LIMIT {
            Some(ClassError::Full)
        } else {
            None
        }
    }

    /// The body that the class gives for the method of the interface: for a built-in class the built-in one.
    /// None exactly where it gives none; such a method leaves with E_NOTIMPL.
    pub fn body(&self, class: u32, iface: u16, method: u16) -> Option<&Body>
        ensures { option_copied result ≡ body_at self.now class iface method }
    {
        let class = self.class(class)?;
        self.body_in(class, iface, method)
    }

    // The body that a class gives for a method: for a class of its own bodies the first in its
    // list, else the built-in one.
    fn body_in<'a>(&'a self, class: &'a Class, iface: u16, method: u16) -> Option<&'a Body>
        ensures { option_copied result ≡ class_body class.now iface method }
    {
        match class.native {
            Native::Bodies => given_body(class.bodies.as_slice(), iface, method),
            Native::Counter => built_in_body(&self.counter, 1, iface, method),
            Native::Relay => built_in_body(&self.relay, 2, iface, method),
            Native::Latch => built_in_body(&self.latch, 3, iface, method),
        }
    }

    /// The method of the interface, by its number from 0. None exactly where the interface has none with it.
    pub fn method(&self, iface: u16, method: u16) -> Option<&Method>
        ensures { option_copied result ≡ method_at self.now iface method }
    {
        let interface = self.interface(iface)?;
        interface.methods.as_slice().get(method as usize)
    }
}

impl Class {
    // Whether an object of this class has the interface.
    pub(crate) fn has(&self, iface: u16) -> bool
        ensures { result ≡ class_has self.now iface }
    {
        iface == 0 || self.interfaces.as_slice().contains(&iface)
    }
}

// Puts one more interface at the table's end, where its IID is new.
fn append_interface(
    table: &mut IndexMap<Key, Interface>,
    interface: Interface,
) -> Result<(), Memory>
    requires { index_of same_key table.old (key_of interface.iid) ≡ None }
    ensures ok { OnOk result (table.new.entries
        ≡ table.old.entries ++ (key_of interface.iid, interface) ∷ []) }
    ensures err { OnErr result (table.new.entries ≡ table.old.entries) }
{
    match table.insert(key_of(&interface.iid), interface) {
        Ok(_) => Ok(()),
        Err(_) => Err(Memory),
    }
}

// Puts one more class at the table's end, where its CLSID is new.
fn append_class(table: &mut IndexMap<Key, Class>, class: Class) -> Result<(), Memory>
    requires { index_of same_key table.old (key_of class.clsid) ≡ None }
    ensures ok { OnOk result (table.new.entries ≡ table.old.entries ++ (key_of class.clsid, class) ∷ []) }
    ensures err { OnErr result (table.new.entries ≡ table.old.entries) }
{
    match table.insert(key_of(&class.clsid), class) {
        Ok(_) => Ok(()),
        Err(_) => Err(Memory),
    }
}

// The body of a class's list for the method.
fn given_body(bodies: &[MethodBody], iface: u16, method: u16) -> Option<&Body>
    ensures { option_copied result ≡ given_in bodies.now iface method }
{
    for given in bodies {
        if given.iface == iface && given.method == method {
            return Some(&given.body);
        }
    }
    None
}

// The built-in body for the method, if the interface is the one of the kind.
fn built_in_body(bodies: &[Body], own: u16, iface: u16, method: u16) -> Option<&Body>
    ensures { option_copied result ≡ (if iface == own then slice_get bodies.now method else None) }
{
    if iface == own {
        bodies.get(method as usize)
    } else {
        None
    }
}

// A GUID by its four fields.
fn key_of(guid: &Guid) -> Key
    ensures { result ≡ key_of guid.now }
{
    (guid.data1, guid.data2, guid.data3, guid.data4)
}
