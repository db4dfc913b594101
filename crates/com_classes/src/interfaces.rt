//! Interfaces and their methods.

use com_base::{ByteList, Guid, Kind, Rows};

/// A method of an interface: its name, the kinds of its parameters, and the kind of its result where it has
/// one.
#[derive(Debug, Drop)]
pub struct Method {
    /// Its name, of 1 to 32 characters, which no other method of the interface has.
    pub name: ByteList,
    /// The kinds of its parameters, at most 4.
    pub params: Rows<Kind>,
    /// The kind of its result. `None` where it has none.
    pub result: Option<Kind>,
}

/// An interface: its name, its IID and its methods, numbered from 0.
#[derive(Debug, Drop)]
pub struct Interface {
    /// Its name, of 1 to 32 characters.
    pub name: ByteList,
    /// Its IID, which no other interface has.
    pub iid: Guid,
    /// Its methods, at most 32, numbered from 0.
    pub methods: Rows<Method>,
}
