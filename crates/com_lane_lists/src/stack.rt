//! Stacks, seen as lists with the innermost first.
ghost use Rattle.std.specs.Prelude.{◌≡◌, [], ◌∷◌, IsOk, OnOk, length, reverse, slice_get};
ghost use Rattle.com_model.specs.Lists.{first, without_first};
ghost use Rattle.com_lane_lists.specs.Rooms.{HasRow};

use com_base::Memory;
use std::alloc::Global;
use std::marker::Model;

/// What was pushed and not popped, seen as a list with the last pushed first, and for how many there is room.
#[derive(Debug, Drop)]
pub struct Stack<T> {
    rows: Vec<T>,
}

impl<T> Model for Stack<T> {
    ghost use Rattle.std.specs.Prelude.{reverse, vec_capacity};
    ghost use Rattle.com_lane_lists.specs.Rooms.{Roomed};

    ghost Value = { Roomed T };

    ghost view = { λ a. record { rows = reverse a.rows.items; room = vec_capacity a.rows } };
}

impl<T: Copy> Stack<T> {
    /// The empty stack. It takes no memory.
    pub fn new(alloc: Global) -> Stack<T>
        ensures { result.rows ≡ [] }
    {
        Stack {
            rows: Vec::new(alloc),
        }
    }

    /// Makes room for one more. The only error is want of memory.
    pub fn reserve(&mut self) -> Result<(), Memory>
        ensures rows { self.new.rows ≡ self.old.rows }
        ensures room { OnOk result (HasRow self.new) }
        ensures succeeds { HasRow self.old → IsOk result }
    {
        self.rows.reserve(1)
    }

    /// Pushes one more.
    pub fn push(&mut self, row: T)
        requires room { HasRow self.old }
        ensures rows { self.new.rows ≡ row ∷ self.old.rows }
    {
        self.rows.push_reserved(row);
    }

    /// Pops the last, if there is one.
    pub fn pop(&mut self)
        ensures { self.new.rows ≡ without_first self.old.rows }
    {
        let _ = self.rows.pop();
    }

    /// The last that was pushed and not popped.
    pub fn top(&self) -> Option<T>
        ensures { result ≡ first self.now.rows }
    {
        self.rows.last().copied()
    }

    /// How many there are.
    pub fn len(&self) -> usize
        ensures { result ≡ length self.now.rows }
    {
        self.rows.len()
    }

    /// The row at a place, counted from the first that was pushed.
    pub fn at(&self, place: u32) -> Option<T>
        ensures { result ≡ slice_get (reverse self.now.rows) place }
    {
        self.rows.get(place as usize).copied()
    }

    /// All, the first that was pushed first.
    pub fn as_slice(&self) -> &[T]
        ensures { result.now ≡ reverse self.now.rows }
    {
        self.rows.as_slice()
    }
}
