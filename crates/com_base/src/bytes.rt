//! Bytes, seen as a list.
ghost use Rattle.std.specs.Prelude.{◌≡◌, ◌≤◌, ◌++◌, ◌∷◌, [], IfOk, OnErr, OnOk, IsTrue, ◌↔◌, length};
ghost use Rattle.std.specs.Prelude.{take};
ghost use Rattle.std.specs.Borrow.{sem, LendsIfOk};
ghost use Rattle.com_base.specs.contracts.bytes.ByteList.{the_row as list_row};
ghost use Rattle.com_base.specs.contracts.room.Reserved.{the_row as reserved_row};

use crate::room::Reserved;
use std::alloc::{AllocError, Global};
use std::marker::Model;

/// A list of bytes that grows at its end. A contract sees the bytes alone, so two lists with the same
/// bytes are equal, whatever room they hold. Where room matters, `reserve` lends the list as `Reserved`.
#[derive(Debug, Drop)]
pub struct ByteList {
    bytes: Reserved,
}

impl Model for ByteList {
    ghost use Rattle.std.specs.Prelude.{List, ℕ};

    ghost Value = { List ℕ };

    ghost view = { λ a. a.bytes.items };
}

impl ByteList {
    /// The empty list. It takes no memory.
    pub fn new(alloc: Global) -> ByteList
        ensures { result ≡ [] }
    {
        ByteList::from_vec(Vec::new(alloc))
    }

    /// A list with these bytes. The only error is want of memory.
    pub fn from_slice(alloc: Global, bytes: &[u8]) -> Result<ByteList, AllocError>
        ensures { IfOk result (λ list. list ≡ bytes.now) }
    {
        Ok(ByteList::from_vec(Vec::from_slice(alloc, bytes)?))
    }

    /// The list of a vector's bytes. It takes no memory.
    pub fn from_vec(bytes: Vec<u8>) -> ByteList
        ensures { result ≡ bytes.items }
    {
        ByteList {
            bytes: Reserved::from_vec(bytes),
        }
    }

    /// The vector of these bytes. It takes no memory.
    pub fn into_vec(self) -> Vec<u8>
        ensures { result.items ≡ self }
    {
        let ByteList { bytes } = self;
        bytes.into_vec()
    }

    /// Makes room for `more` bytes beyond those that are there, and lends the list with its room seen:
    /// what is appended through it takes no memory. The only error is want of memory, and then the list
    /// is as before.
    pub fn reserve(&mut self, more: usize) -> Result<&mut Reserved, AllocError>
        ensures* lends { sem 𝓛 (LendsIfOk list_row reserved_row self.entry result (λ lent. lent.items) self.old) }
        ensures items { IfOk result (λ lent. lent.now.items ≡ self.old) }
        ensures spare { IfOk result (λ lent. more ≤ lent.now.spare) }
    {
        self.bytes.reserve(more)?;
        Ok(&mut self.bytes)
    }

    /// Appends one byte. The only error is want of memory, and then the list is as before.
    pub fn push(&mut self, byte: u8) -> Result<(), AllocError>
        ensures ok { OnOk result (self.new ≡ self.old ++ byte ∷ []) }
        ensures err { OnErr result (self.new ≡ self.old) }
    {
        self.bytes.push(byte)
    }

    /// Appends bytes. The only error is want of memory, and then the list is as before.
    pub fn push_all(&mut self, bytes: &[u8]) -> Result<(), AllocError>
        ensures ok { OnOk result (self.new ≡ self.old ++ bytes.now) }
        ensures err { OnErr result (self.new ≡ self.old) }
    {
        self.bytes.grow(bytes)
    }

    /// Keeps the first `count` bytes, or all where there are fewer, and drops those after them, so that a
    /// writer that wants memory in the middle can take back what it appended. It takes no memory.
    pub fn truncate(&mut self, count: usize)
        ensures { self.new ≡ take count self.old }
    {
        self.bytes.truncate(count);
    }

    /// Drops every byte. It takes no memory.
    pub fn clear(&mut self)
        ensures { self.new ≡ [] }
    {
        self.bytes.truncate(0);
    }

    /// The bytes as a slice.
    pub fn as_slice(&self) -> &[u8]
        ensures { result.now ≡ self.now }
    {
        self.bytes.as_slice()
    }

    /// How many bytes there are.
    pub fn len(&self) -> usize
        ensures { result ≡ length self.now }
    {
        self.as_slice().len()
    }

    /// Whether there is none.
    pub fn is_empty(&self) -> bool
        ensures { IsTrue result ↔ (self.now ≡ []) }
    {
        self.as_slice().is_empty()
    }

    /// An equal list. The only error is want of memory.
    pub fn copy(&self) -> Result<ByteList, AllocError>
        ensures { IfOk result (λ copy. copy ≡ self.now) }
    {
        Ok(ByteList {
            bytes: self.bytes.copy()?,
        })
    }

    /// Whether both lists have the same bytes.
    pub fn same(&self, other: &ByteList) -> bool
        ensures { IsTrue result ↔ (self.now ≡ other.now) }
    {
        self.as_slice() == other.as_slice()
    }
}
