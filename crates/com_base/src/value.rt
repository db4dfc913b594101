//! The values that calls carry.
ghost use Rattle.std.specs.Prelude.{◌≡◌, IfOk};
ghost use Rattle.com_base.specs.Values.{as_kind};

use crate::bytes::ByteList;
use crate::guid::Guid;
use std::alloc::{AllocError, Global};

/// The declared kind of a parameter or a result. A reference's kind has its interface's number.
#[derive(Debug, Clone, Copy, PartialEq, Eq)]
pub enum Kind {
    /// A whole number of 64 bits, with a sign.
    Int,
    /// A truth value.
    Bool,
    /// A text of UTF-8.
    Text,
    /// Bytes of any values.
    Bytes,
    /// A GUID.
    Guid,
    /// A reference to the interface of that number, or null.
    Ref(u16),
}

/// A reference: an object's number, from 1, and the number of the interface that it speaks.
#[derive(Debug, Clone, Copy, PartialEq, Eq)]
pub struct RefValue {
    /// The number of the object, from 1.
    pub object: u32,
    /// The number of the interface that it speaks; 0 is IUnknown.
    pub iface: u16,
}

/// A value: a whole number of 64 bits, a truth value, a text of UTF-8, bytes, a GUID, or a reference
/// that may be null.
#[derive(Debug, Drop)]
pub enum Value {
    /// A whole number of 64 bits, with a sign.
    Int(i64),
    /// A truth value.
    Bool(bool),
    /// The bytes of a text.
    Text(ByteList),
    /// Bytes of any values.
    Bytes(ByteList),
    /// A GUID.
    Guid(Guid),
    /// A reference, and None for null.
    Ref(Option<RefValue>),
}

impl Value {
    /// An equal value. The only error is want of memory.
    pub fn copy(&self) -> Result<Value, AllocError>
        ensures { IfOk result (λ copy. copy ≡ self.now) }
    {
        match self {
            Value::Int(number) => Ok(Value::Int(*number)),
            Value::Bool(truth) => Ok(Value::Bool(*truth)),
            Value::Text(text) => Ok(Value::Text(text.copy()?)),
            Value::Bytes(bytes) => Ok(Value::Bytes(bytes.copy()?)),
            Value::Guid(guid) => Ok(Value::Guid(*guid)),
            Value::Ref(held) => Ok(Value::Ref(*held)),
        }
    }

    /// The value itself where it has this kind, else the kind's default: 0, false, empty text, empty
    /// bytes, the zero GUID, null. A reference of another interface is not of the kind. It takes no
    /// memory, since an empty list takes none.
    pub fn as_kind(self, alloc: Global, kind: Kind) -> Value
        ensures { result ≡ as_kind self kind }
    {
        match (self, kind) {
            (Value::Int(number), Kind::Int) => Value::Int(number),
            (Value::Bool(truth), Kind::Bool) => Value::Bool(truth),
            (Value::Text(text), Kind::Text) => Value::Text(text),
            (Value::Bytes(bytes), Kind::Bytes) => Value::Bytes(bytes),
            (Value::Guid(guid), Kind::Guid) => Value::Guid(guid),
            (Value::Ref(Some(held)), Kind::Ref(iface)) => {
                if held.iface == iface {
                    Value::Ref(Some(held))
                } else {
                    Value::Ref(None)
                }
            }
            (_, Kind::Int) => Value::Int(0),
            (_, Kind::Bool) => Value::Bool(false),
            (_, Kind::Text) => Value::Text(ByteList::new(alloc)),
            (_, Kind::Bytes) => Value::Bytes(ByteList::new(alloc)),
            (_, Kind::Guid) => Value::Guid(Guid::ZERO),
            (_, Kind::Ref(_)) => Value::Ref(None),
        }
    }
}

/// How a thread is initialised: into an apartment of its own, or into the multithreaded one.
/// Source: CoInitializeEx, COINIT_APARTMENTTHREADED and COINIT_MULTITHREADED.
#[derive(Debug, Clone, Copy, PartialEq, Eq)]
pub enum Mode {
    /// Into a single-threaded apartment of its own.
    Sta,
    /// Into the multithreaded apartment.
    Mta,
}

/// What a marshalled packet is for: one unmarshal, many that keep the object, or many that do not.
/// Source: MSHLFLAGS_NORMAL, MSHLFLAGS_TABLESTRONG and MSHLFLAGS_TABLEWEAK.
#[derive(Debug, Clone, Copy, PartialEq, Eq)]
pub enum MarshalMode {
    /// For one unmarshal, which ends it; it carries the references that the unmarshal takes over.
    Normal,
    /// For many unmarshals; it holds the object.
    Strong,
    /// For many unmarshals; it does not hold the object.
    Weak,
}
