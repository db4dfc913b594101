//! What stands open in a lane, and where each began.
ghost use Rattle.std.specs.Prelude.{◌≡◌, ◌+◌, ◌<◌, ◌^◌, ◌++◌, ◌∷◌, [], OnOk, length};
ghost use Rattle.com_draw_state.specs.Stacks.{innermost, outer};

use com_base::Memory;
use std::alloc::Global;
use std::marker::Model;

/// Where something begins: in a section of the page, counted from 1, and in a row of it, counted from 0.
/// Section 0 is above the first one.
#[derive(Debug, Clone, Copy, PartialEq, Eq)]
pub struct Start {
    /// The section, from 1, or 0 for what was there before.
    pub section: u64,
    /// The row of the section, from 0.
    pub row: u32,
}

/// How a call is waited for.
#[derive(Debug, Clone, Copy, PartialEq, Eq)]
pub enum Manner {
    /// Its body runs in the caller's own lane.
    Within,
    /// Its body runs in another lane.
    Across,
    /// It was refused at its issue.
    Refused,
}

/// What stands open in a lane.
#[derive(Debug, Clone, Copy)]
pub enum Opened {
    /// A pump.
    Pumps,
    /// A call that is waited for, and the method that it names.
    Waits {
        call: u32,
        manner: Manner,
        iface: u16,
        method: u16,
    },
    /// A body that runs for a call in an apartment.
    Runs {
        call: u32,
        apartment: u32,
    },
}

/// Something that stands open in a lane, and where it began.
#[derive(Debug, Clone, Copy)]
pub struct Opening {
    /// What it is.
    pub what: Opened,
    /// Where it began.
    pub start: Start,
}

/// What stands open in a lane, the outermost first.
#[derive(Debug, Drop)]
pub struct Openings {
    openings: Vec<Opening>,
}

impl Model for Openings {
    ghost use Rattle.std.specs.Prelude.{List, ◌<◌, ◌^◌, length};
    ghost use Rattle.com_draw_state.specs.declared.stacks.Opening.{Opening};

    ghost Value = { List Opening };

    ghost view = { λ o. o.openings.items };

    ghost invariant = { λ o. length o.openings.items < 2 ^ 31 };
}

impl Openings {
    /// Nothing stands open. It takes no memory.
    pub fn new(alloc: Global) -> Openings
        ensures { result ≡ [] }
    {
        Openings {
            openings: Vec::new(alloc),
        }
    }

    /// All that stands open, the outermost first.
    pub fn as_slice(&self) -> &[Opening]
        ensures value { result.now ≡ self.now }
        ensures few { length result.now < 2 ^ 31 }
    {
        self.openings.as_slice()
    }

    /// How much stands open.
    pub fn depth(&self) -> u32
        ensures value { result ≡ length self.now }
        ensures few { result < 2 ^ 31 }
    {
        self.openings.len() as u32
    }

    /// The innermost, where something is open.
    pub fn innermost(&self) -> Option<Opening>
        ensures { result ≡ innermost self.now }
    {
        self.openings.as_slice().last().copied()
    }

    /// Something more stands open, which makes less than 2^31. The only error is want of memory.
    pub fn push(&mut self, opening: Opening) -> Result<(), Memory>
        requires { length self.old + 1 < 2 ^ 31 }
        ensures { OnOk result (self.new ≡ self.old ++ opening ∷ []) }
    {
        self.openings.push(opening)?;
        Ok(())
    }

    /// The innermost is closed, where something is open.
    pub fn pop(&mut self)
        ensures { self.new ≡ outer self.old }
    {
        self.openings.pop();
    }
}
