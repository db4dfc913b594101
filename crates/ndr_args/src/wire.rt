//! Values as they travel, and why bytes are none.
ghost use Rattle.std.specs.Prelude.{◌≡◌};
ghost use Rattle.ndr_args.specs.declared.wire.ArgError.TheVariants.{Memory};

use com_base::{ByteList, Guid, StdFields};
use std::alloc::{AllocError, AllocFailed};

/// A value as it travels: a whole number of 64 bits, a truth value, a text of UTF-8, bytes, a GUID, or a
/// reference, which is null or has the fields of its packet.
#[derive(Debug, Drop)]
pub enum Wire {
    /// A whole number of 64 bits, with a sign.
    Int(i64),
    /// A truth value.
    Bool(bool),
    /// The bytes of a text of UTF-8.
    Text(ByteList),
    /// Bytes of any values.
    Bytes(ByteList),
    /// A GUID.
    Guid(Guid),
    /// The fields of the packet of a reference, and None for null.
    Ref(Option<StdFields>),
}

/// Why bytes are no arguments of given kinds: the first fault in the order of reading, and its position in
/// the bytes.
#[derive(Debug, Clone, Copy, PartialEq, Eq)]
pub struct ArgFault {
    /// 1 a field or the bytes of a count are not whole, 2 a padding byte is not 0, 3 a truth value is
    /// another number than 0 and 1, 4 a text is not UTF-8, 5 the two counts of a reference differ or a
    /// count is above 65,536, 6 bytes are left, 7 a reference's bytes are no standard OBJREF.
    pub number: u8,
    /// For 1 the length of the bytes, for 2 that byte, for 3 the number, for 4 the text's first byte, for
    /// 5 the count, and where two differ the second, for 6 the first of them, for 7 the OBJREF's first
    /// byte.
    pub at: usize,
}

impl ArgFault {
    /// A field, or the bytes that a count tells, are not whole.
    pub const SHORT: u8 = 1;

    /// A byte of padding is not 0.
    pub const PADDING: u8 = 2;

    /// A truth value is another number than 0 and 1.
    pub const BOOL: u8 = 3;

    /// A text is not UTF-8.
    pub const TEXT: u8 = 4;

    /// A count is greater than any that is taken, or the two counts of a reference differ.
    pub const COUNT: u8 = 5;

    /// Bytes are left behind the last value.
    pub const TRAILING: u8 = 6;

    /// The bytes of a reference are no OBJREF by standard marshalling.
    pub const REF: u8 = 7;
}

/// Why no arguments were read.
#[derive(Debug, Drop)]
pub enum ArgError {
    /// The bytes are no arguments of these kinds.
    Fault(ArgFault),
    /// Want of memory.
    Memory,
}

impl From<AllocError> for ArgError {
    ghost from_gives = { λ _ e. e ≡ Memory };

    fn from(_error: AllocError) -> ArgError {
        ArgError::Memory
    }
}

impl<T: Drop> From<AllocFailed<T>> for ArgError {
    ghost from_gives = { λ _ e. e ≡ Memory };

    fn from(_error: AllocFailed<T>) -> ArgError {
        ArgError::Memory
    }
}
