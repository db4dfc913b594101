//! What a statement's words stand for.

use com_base::{Guid, HResult, Value};

/// The class or interface that a statement asks for, as it is written.
///
/// A name is its number and a GUID stays a GUID, so that a body may ask for what no table declares.
#[derive(Debug, Clone, Copy, PartialEq, Eq)]
pub enum Asked {
    /// The number of a declared class or interface.
    Number(u32),
    /// A CLSID or an IID, declared or not.
    Guid(Guid),
}

/// A value to be read when the statement is done: a register or a literal.
#[derive(Debug, Drop)]
pub enum Op {
    /// The value that the register holds.
    Register(u8),
    /// The value that is written in the statement.
    Literal(Value),
}

/// Where a reference stands.
#[derive(Debug, Clone, Copy, PartialEq, Eq)]
pub enum Place {
    /// A slot of the frame.
    Slot(u8),
    /// A link of the object whose body runs.
    Link(u8),
}

/// An argument of a call statement.
#[derive(Debug, Drop)]
pub enum Arg {
    /// A register's value or a literal.
    Op(Op),
    /// The reference in a slot.
    Slot(u8),
    /// The null reference.
    Null,
}

/// The HRESULT with which a body leaves.
#[derive(Debug, Clone, Copy, PartialEq, Eq)]
pub enum Code {
    /// The HRESULT that is written in the statement.
    Literal(HResult),
    /// The low 32 bits of the number of a register.
    Register(u8),
}

/// The result that a body gives when it leaves.
#[derive(Debug, Drop)]
pub enum Given {
    /// No result.
    Nothing,
    /// A register's value or a literal.
    Op(Op),
    /// The reference in a slot.
    Slot(u8),
}

/// Where a call's result goes when the call comes back.
#[derive(Debug, Clone, Copy, PartialEq, Eq)]
pub enum Destination {
    /// The result is not kept.
    Nowhere,
    /// A register.
    Register(u8),
    /// A slot.
    Slot(u8),
}
