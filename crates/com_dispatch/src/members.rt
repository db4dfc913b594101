//! What a late-bound call names, and what it is bound to.

ghost use Rattle.std.specs.Prelude.{◌≡◌, IfOk};
ghost use Rattle.com_dispatch.specs.declared.members.BindError.TheVariants as errors;

use com_base::{ByteList, HResult, Rows, Value};
use std::alloc::{AllocError, AllocFailed};

/// The member of an interface that a call names.
#[derive(Debug, Drop)]
pub enum Member {
    /// A method by its name, whatever the case of its ASCII letters. Source: IDispatch::GetIDsOfNames.
    Name(ByteList),
    /// A method by its number, counted from 1. Source: DISPID.
    Number(u32),
}

/// An argument as it is given, or as it is passed on.
#[derive(Debug, Drop)]
pub enum DispArg {
    /// A value that is written in the call.
    Literal(Value),
    /// The reference in a slot, 0 to 7.
    Slot(u8),
    /// The null reference.
    Null,
}

impl DispArg {
    /// An equal argument. The only error is want of memory.
    pub fn copy(&self) -> Result<DispArg, AllocError>
        ensures { IfOk result (λ copy. copy ≡ self.now) }
    {
        match self {
            DispArg::Literal(value) => Ok(DispArg::Literal(value.copy()?)),
            DispArg::Slot(slot) => Ok(DispArg::Slot(*slot)),
            DispArg::Null => Ok(DispArg::Null),
        }
    }
}

/// What a destination takes.
#[derive(Debug, Clone, Copy, PartialEq, Eq)]
pub enum Sort {
    /// A result that is no reference.
    Register,
    /// A reference.
    Slot,
}

/// A method of an interface and the arguments that it is called with.
#[derive(Debug, Drop)]
pub struct Bound {
    /// The method's number, from 0.
    pub method: u16,
    /// The arguments in the order of the parameters, each of its parameter's kind.
    pub args: Rows<DispArg>,
}

/// Why a call is not bound.
#[derive(Debug, Clone, Copy, PartialEq, Eq)]
pub enum BindError {
    /// It is refused: DISP_E_UNKNOWNNAME, DISP_E_MEMBERNOTFOUND, DISP_E_BADPARAMCOUNT or DISP_E_TYPEMISMATCH.
    Disp(HResult),
    /// There was not enough memory.
    Memory,
}

impl From<AllocError> for BindError {
    ghost from_gives = { λ _ e. e ≡ errors.Memory };

    fn from(_error: AllocError) -> BindError {
        BindError::Memory
    }
}

impl<T: Drop> From<AllocFailed<T>> for BindError {
    ghost from_gives = { λ _ e. e ≡ errors.Memory };

    fn from(_error: AllocFailed<T>) -> BindError {
        BindError::Memory
    }
}
