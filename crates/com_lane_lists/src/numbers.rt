//! Lists of numbers that grow at their end.
ghost use Rattle.std.specs.Prelude.{◌≡◌, [], ◌∷◌, ◌++◌, OnOk};
ghost use Rattle.com_lane_lists.specs.Rooms.{HasRow};

use com_base::Memory;
use std::alloc::Global;
use std::marker::Model;

/// Numbers, seen as their list, and for how many there is room.
#[derive(Debug, Drop)]
pub struct Numbers {
    numbers: Vec<u32>,
}

impl Model for Numbers {
    ghost use Rattle.std.specs.Prelude.{ℕ, vec_capacity};
    ghost use Rattle.com_lane_lists.specs.Rooms.{Roomed};

    ghost Value = { Roomed ℕ };

    ghost view = { λ a. record { rows = a.numbers.items; room = vec_capacity a.numbers } };
}

impl Numbers {
    /// The empty list. It takes no memory.
    pub fn new(alloc: Global) -> Numbers
        ensures { result.rows ≡ [] }
    {
        Numbers {
            numbers: Vec::new(alloc),
        }
    }

    /// Makes room for one more. The only error is want of memory.
    pub fn reserve(&mut self) -> Result<(), Memory>
        ensures rows { self.new.rows ≡ self.old.rows }
        ensures room { OnOk result (HasRow self.new) }
    {
        self.numbers.reserve(1)
    }

    /// Appends one.
    pub fn push(&mut self, number: u32)
        requires room { HasRow self.old }
        ensures rows { self.new.rows ≡ self.old.rows ++ number ∷ [] }
    {
        self.numbers.push_reserved(number);
    }
}
