//! A list of rows, seen as a list.
ghost use Rattle.std.specs.Prelude.{◌≡◌, ◌++◌, ◌∷◌, [], OnErr, OnOk, length};

use std::alloc::{AllocError, Global};
use std::marker::Model;

/// A list inside a public struct or variant. It is a vector whose contract shows the list alone, so
/// values that hold one can be compared with definitions.
#[derive(Debug, Drop)]
pub struct Rows<T> {
    rows: Vec<T>,
}

impl<T> Model for Rows<T> {
    ghost use Rattle.std.specs.Prelude.{List};

    ghost Value = { List T };

    ghost view = { λ a. a.rows.items };
}

impl<T> Rows<T> {
    /// The empty list. It takes no memory.
    pub fn new(alloc: Global) -> Rows<T>
        ensures { result ≡ [] }
    {
        Rows {
            rows: Vec::new(alloc),
        }
    }

    /// The vector's values in its own memory. It takes no memory.
    pub fn from_vec(list: Vec<T>) -> Rows<T>
        ensures { result ≡ list.items }
    {
        Rows { rows: list }
    }

    /// The values as a slice.
    pub fn as_slice(&self) -> &[T]
        ensures { result.now ≡ self.now }
    {
        self.rows.as_slice()
    }

    /// The values as a vector. It takes no memory.
    pub fn into_vec(self) -> Vec<T>
        ensures { result.items ≡ self }
    {
        let Rows { rows } = self;
        rows
    }

    /// How many rows there are.
    pub fn len(&self) -> usize
        ensures { result ≡ length self.now }
    {
        self.rows.len()
    }
}

impl<T: Drop> Rows<T> {
    /// Appends a row. The only error is want of memory: then the list is as before, and the row is dropped.
    pub fn push(&mut self, value: T) -> Result<(), AllocError>
        ensures ok { OnOk result (self.new ≡ self.old ++ value ∷ []) }
        ensures err { OnErr result (self.new ≡ self.old) }
    {
        match self.rows.push(value) {
            Ok(()) => Ok(()),
            Err(_) => Err(AllocError),
        }
    }
}

impl<T: Copy> Rows<T> {
    /// Appends copies of the rows. The only error is want of memory, and then the list is as before.
    pub fn push_all(&mut self, rows: &[T]) -> Result<(), AllocError>
        ensures ok { OnOk result (self.new ≡ self.old ++ rows.now) }
        ensures err { OnErr result (self.new ≡ self.old) }
    {
        Ok(self.rows.extend_from_slice(rows)?)
    }

    /// Appends a list of rows. Where there are none yet, the list becomes that one, which takes no memory.
    /// The only error is want of memory: then the list is as before, and the rows are dropped.
    pub fn append(&mut self, rows: Vec<T>) -> Result<(), AllocError>
        ensures ok { OnOk result (self.new ≡ self.old ++ rows.items) }
        ensures err { OnErr result (self.new ≡ self.old) }
    {
        if self.rows.is_empty() {
            self.rows = rows;
            return Ok(());
        }
        self.push_all(&rows)
    }
}
