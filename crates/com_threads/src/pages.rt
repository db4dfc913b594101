//! The history as it is written, and how many entries each lane has.
ghost use Rattle.std.specs.Prelude.{◌≡◌, ◌+◌, ◌<◌, ◌^◌, ◌++◌, ◌∷◌, [], length, IfOk, OnErr, OnOk};
ghost use Rattle.com_threads.specs.Commits.{Tallies};

use com_base::{Memory, Rows};
use com_model::Entry;
use std::alloc::Global;
use std::marker::Model;

// The entries in the order in which they were made, and for each lane, lane 0 first, how many it has.
#[derive(Drop)]
pub(crate) struct Pages {
    entries: Vec<Entry>,
    commits: Vec<u64>,
}

impl Model for Pages {
    ghost use Rattle.std.specs.Prelude.{length};
    ghost use Rattle.com_threads.specs.Commits.{Tallies};
    ghost use Rattle.com_threads.specs.Histories.{Written};

    ghost Value = { Written };

    ghost view = { λ p. record { entries = p.entries.items; rows = length p.commits.items } };

    ghost invariant = { λ p. Tallies (length p.commits.items) p.entries.items p.commits.items };
}

impl Pages {
    // No entries yet, for so many lanes and lane 0.
    pub(crate) fn new(alloc: Global, lanes: u32) -> Result<Pages, Memory>
        ensures { IfOk result (λ pages. pages ≡ record { entries = []; rows = lanes + 1 }) }
    {
        let entries = Vec::new(alloc);
        let commits = Vec::from_elem(alloc, 0u64, lanes as usize + 1)?;
        Ok(Pages { entries, commits })
    }

    // Writes an entry behind the others. On want of memory all is as before.
    pub(crate) fn write(&mut self, entry: Entry) -> Result<(), Memory>
        requires row { entry.lane < self.old.rows }
        requires few { length self.old.entries < 2 ^ 32 }
        ensures ok { OnOk result (self.new
            ≡ record { entries = self.old.entries ++ entry ∷ []; rows = self.old.rows }) }
        ensures err { OnErr result (self.new ≡ self.old) }
    {
        let lane = entry.lane as usize;
        self.entries.push(entry)?;
        self.commits[lane] += 1;
        Ok(())
    }

    // How many entries there are.
    pub(crate) fn len(&self) -> u64
        ensures { result ≡ length self.now.entries }
    {
        self.entries.len() as u64
    }

    // The entries, and how many each lane has.
    pub(crate) fn into_parts(self) -> (Rows<Entry>, Rows<u64>)
        ensures entries { result.0 ≡ self.entries }
        ensures commits { Tallies self.rows self.entries result.1 }
    {
        let Pages { entries, commits } = self;
        (Rows::from_vec(entries), Rows::from_vec(commits))
    }
}
