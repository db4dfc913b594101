//! Numbered tables: a value under each number, and numbers that are never used again.
#![tactic(auto)]

ghost use Rattle.std.specs.Prelude.{◌≡◌, ◌+◌, ◌<◌, ◌≤◌, ◌↔◌, [], ◌∷◌, ◌++◌, length, IsOk, OnOk, OnErr, IfOk};
ghost use Rattle.std.specs.Prelude.{IfErr, option_copied};
ghost use Rattle.std.specs.Option.{option_copied_mut};
ghost use Rattle.std.specs.Borrow.{sem};
ghost use Rattle.com_slots.specs.Table.{held, with_entry};
ghost use Rattle.com_slots.specs.TableLends.{lends_value};

use std::alloc::Global;
use std::marker::Model;

/// Want of memory.
pub use std::alloc::AllocError as Memory;

/// A table of values under the numbers 1, 2, 3 and on, seen as the value or nothing of each number
/// that was given, the limit, and how many inserts are sure to find memory.
#[derive(Debug, Drop)]
pub struct Slots<T> {
    entries: Vec<Option<T>>,
    limit: u32,
}

impl<T> Model for Slots<T> {
    ghost use Rattle.std.specs.Prelude.{◌-◌, ◌≤◌, vec_len, vec_capacity};
    ghost use Rattle.com_slots.specs.Table.{Table, table_code};

    ghost Value = { Table T };

    ghost coded = { table_code T.code };

    ghost view = { λ s. record {
      entries = s.entries.items;
      limit = s.limit;
      spare = vec_capacity s.entries - vec_len s.entries;
    } };

    ghost invariant = { λ s. vec_len s.entries ≤ s.limit };
}

/// Why a value was not put in. The value comes back.
#[derive(Debug, Drop)]
pub enum SlotsError<T> {
    /// All numbers up to the limit were given.
    Full(T),
    /// Want of memory.
    Memory(T),
}

impl<T> Slots<T> {
    /// A table that gave no number yet and may give `limit` of them.
    pub fn new(alloc: Global, limit: u32) -> Self
        ensures entries { result.entries ≡ [] }
        ensures limit { result.limit ≡ limit }
    {
        Slots {
            entries: Vec::new(alloc),
            limit,
        }
    }

    /// Makes room for `n` more inserts.
    pub fn reserve(&mut self, n: u32) -> Result<(), Memory>
        ensures room { OnOk result (n ≤ self.new.spare) }
        ensures entries { self.new.entries ≡ self.old.entries }
        ensures limit { self.new.limit ≡ self.old.limit }
        ensures spare { self.old.spare ≤ self.new.spare }
    {
        self.entries.reserve(n as usize)
    }

    /// Puts a value under the next number, which it returns. The first is 1.
    ///
    /// `Full` is tested before `Memory`; either hands the value back.
    pub fn insert(&mut self, value: T) -> Result<u32, SlotsError<T>>
        ensures number { IfOk result (λ number. number ≡ length self.old.entries + 1) }
        ensures stored { OnOk result (self.new.entries ≡ self.old.entries ++ Some value ∷ []) }
        ensures limit { self.new.limit ≡ self.old.limit }

        // Each error, and what it leaves.
        ensures full { (result ≡ Err (SlotsError.Full value)) ↔ (length self.old.entries ≡ self.old.limit) }
        ensures memory { length self.old.entries < self.old.limit
            → IfErr result (λ e. e ≡ SlotsError.Memory value) }
        ensures err { OnErr result (self.new ≡ self.old) }

        // Where there is room, memory is not wanted.
        ensures room { length self.old.entries < self.old.limit → 0 < self.old.spare → IsOk result }
        ensures spare { self.old.spare ≤ self.new.spare + 1 }
    {
        let given = self.entries.len();
        if given >= self.limit as usize {
            return Err(SlotsError::Full(value));
        }
        if self.entries.reserve(1).is_err() {
            return Err(SlotsError::Memory(value));
        }
        self.entries.push_reserved(Some(value));
        Ok((given + 1) as u32)
    }

    /// How many numbers were given.
    pub fn given_count(&self) -> u32
        ensures { result ≡ length self.now.entries }
    {
        let _limit = self.limit;
        self.entries.len() as u32
    }

    /// The value under a number. `None` exactly where the number holds none.
    pub fn get(&self, number: u32) -> Option<&T>
        ensures { option_copied result ≡ held self.now number }
    {
        let index = number.checked_sub(1)?;
        self.entries.get(index as usize)?.as_ref()
    }

    /// The value under a number, to be changed. `None` exactly where the number holds none.
    pub fn get_mut(&mut self, number: u32) -> Option<&mut T>
        ensures* writes_back { sem 𝓛 (lends_value T.row self.entry number result) }
        ensures value { option_copied_mut result ≡ held self.old number }
    {
        let index = number.checked_sub(1)?;
        self.entries.get_mut(index as usize)?.as_mut()
    }

    /// Takes the value from under a number, which is not used again. `None` exactly where the number
    /// holds none.
    pub fn remove(&mut self, number: u32) -> Option<T>
        ensures value { result ≡ held self.old number }
        ensures entries { self.new.entries ≡ with_entry self.old.entries number None }
        ensures limit { self.new.limit ≡ self.old.limit }
        ensures spare { self.new.spare ≡ self.old.spare }
    {
        let index = number.checked_sub(1)?;
        self.entries.get_mut(index as usize)?.take()
    }
}
