//! The line of an entry, in a room that is kept from one line to the next.
ghost use Rattle.std.specs.Prelude.{◌≡◌, ◌≤◌, [], length, OnErr, OnOk};
ghost use Rattle.com_model.specs.Text.{line_text};

use crate::lines::{ROOM, entry_line};
use crate::width::line_room;
use com_base::Memory;
use com_model::Entry;
use std::alloc::Global;
use std::marker::Model;

/// The line of an entry. Its room is kept, so that a line takes no memory where one as wide was written before.
#[derive(Debug, Drop)]
pub struct Line {
    room: Vec<u8>,
    // Where the line begins. It ends where the room does.
    start: usize,
}

impl Model for Line {
    ghost use Rattle.std.specs.Prelude.{◌≤◌, drop, length, List, ℕ};

    ghost Value = { List ℕ };

    ghost view = { λ l. drop l.start l.room.items };

    ghost invariant = { λ l. l.start ≤ length l.room.items };
}

impl Line {
    /// No line yet. It takes no memory.
    pub fn new(alloc: Global) -> Line
        ensures { result ≡ [] }
    {
        Line {
            room: Vec::new(alloc),
            start: 0,
        }
    }

    /// Writes the line of the entry that stands at `place` of a history, as `line` writes it, in the place of the line
    /// that was here. The only error is want of memory, and then that line stays.
    #[inline(always)]
    pub fn write(&mut self, version: u8, place: u64, entry: &Entry) -> Result<(), Memory>
        ensures ok { OnOk result (self.new ≡ line_text version place entry.now) }
        ensures err { OnErr result (self.new ≡ self.old) }
    {
        let Some(size) = line_room(&entry.deed) else {
            return Err(Memory);
        };
        make_room(&mut self.room, size)?;
        self.start = entry_line(self.room.as_mut_slice(), version, place, entry);
        Ok(())
    }

    /// The line, with its end.
    #[inline(always)]
    pub fn as_slice(&self) -> &[u8]
        ensures { result.now ≡ self.now }
    {
        self.room.as_slice().split_at(self.start).1
    }
}

// Makes a room so wide, or leaves it, where it is. The only error is want of memory, and then it is as before.
#[inline(always)]
fn make_room(room: &mut Vec<u8>, size: usize) -> Result<(), Memory>
    ensures wide { OnOk result (size ≤ length room.new.items) }
    ensures err { OnErr result (room.new.items ≡ room.old.items) }
{
    if room.len() >= size {
        return Ok(());
    }
    widen(room, size.max(ROOM))
}

// Makes a room so wide. The only error is want of memory, and then it is as before.
#[inline(never)]
fn widen(room: &mut Vec<u8>, size: usize) -> Result<(), Memory>
    ensures wide { OnOk result (length room.new.items ≡ size) }
    ensures err { OnErr result (room.new.items ≡ room.old.items) }
{
    room.resize(size, 0)
}
