//! Bytes with room behind them, which a contract sees.
ghost use Rattle.std.specs.Prelude.{◌≡◌, ◌+◌, ◌≤◌, ◌++◌, ◌∷◌, [], take, length, IfOk, OnOk, OnErr};

use std::alloc::AllocError;
use std::marker::Model;

/// A list of bytes while room is held for it, which `ByteList::reserve` lends: what a contract sees is
/// the bytes, and how many more are sure to find room.
#[derive(Debug, Drop)]
pub struct Reserved {
    bytes: Vec<u8>,
}

impl Model for Reserved {
    ghost use Rattle.std.specs.Prelude.{◌-◌, vec_capacity, vec_len};
    ghost use Rattle.com_base.specs.Room.{Room};

    ghost Value = { Room };

    ghost view = { λ r. record {
      items = r.bytes.items;
      spare = vec_capacity r.bytes - vec_len r.bytes;
    } };
}

impl Reserved {
    // The list of a vector's bytes, with what room it has.
    pub(crate) fn from_vec(bytes: Vec<u8>) -> Reserved
        ensures { result.items ≡ bytes.items }
    {
        Reserved { bytes }
    }

    // The vector of these bytes.
    pub(crate) fn into_vec(self) -> Vec<u8>
        ensures { result.items ≡ self.items }
    {
        let Reserved { bytes } = self;
        bytes
    }

    // Makes room for `more` bytes. The only error is want of memory.
    pub(crate) fn reserve(&mut self, more: usize) -> Result<(), AllocError>
        ensures items { self.new.items ≡ self.old.items }
        ensures spare { OnOk result (more ≤ self.new.spare) }
    {
        self.bytes.reserve(more)
    }

    // Appends one byte, for which it makes room. The only error is want of memory, and then the list is as
    // before.
    pub(crate) fn push(&mut self, byte: u8) -> Result<(), AllocError>
        ensures ok { OnOk result (self.new.items ≡ self.old.items ++ byte ∷ []) }
        ensures err { OnErr result (self.new.items ≡ self.old.items) }
    {
        match self.bytes.push(byte) {
            Ok(()) => Ok(()),
            Err(_) => Err(AllocError),
        }
    }

    // Appends bytes, for which it makes room. The only error is want of memory, and then the list is as
    // before.
    pub(crate) fn grow(&mut self, bytes: &[u8]) -> Result<(), AllocError>
        ensures ok { OnOk result (self.new.items ≡ self.old.items ++ bytes.now) }
        ensures err { OnErr result (self.new.items ≡ self.old.items) }
    {
        self.bytes.extend_from_slice(bytes)
    }

    // Keeps the first `count` bytes, or all where there are fewer.
    pub(crate) fn truncate(&mut self, count: usize)
        ensures { self.new.items ≡ take count self.old.items }
    {
        self.bytes.truncate(count);
    }

    // A copy of the bytes. The only error is want of memory.
    pub(crate) fn copy(&self) -> Result<Reserved, AllocError>
        ensures { IfOk result (λ copy. copy.items ≡ self.now.items) }
    {
        Ok(Reserved {
            bytes: self.bytes.clone()?,
        })
    }

    /// The bytes as a slice.
    pub fn as_slice(&self) -> &[u8]
        ensures { result.now ≡ self.now.items }
    {
        self.bytes.as_slice()
    }

    /// How many bytes there are.
    pub fn len(&self) -> usize
        ensures { result ≡ length self.now.items }
    {
        self.bytes.len()
    }

    /// Appends bytes for which there is room. It takes no memory.
    pub fn push_all(&mut self, bytes: &[u8])
        requires room { length bytes.now ≤ self.old.spare }
        ensures items { self.new.items ≡ self.old.items ++ bytes.now }
        ensures spare { self.old.spare ≤ self.new.spare + length bytes.now }
    {
        let Ok(()) = self.bytes.extend_from_slice(bytes) else {
            unreachable!()
        };
    }
}
