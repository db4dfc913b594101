//! How many bodies of each object run.
ghost use Rattle.std.specs.Prelude.{◌≡◌, ◌+◌, ◌-◌, ◌<◌, ◌^◌, [], ◌∷◌, ◌++◌, not, ◌==◌, OnOk};
ghost use Rattle.std.specs.Prelude.{slice_index_or, slice_set};

use com_base::Memory;
use std::alloc::Global;
use std::marker::Model;

/// How many bodies of each object run, seen as their list by the objects' numbers and as for how many more
/// objects there is room. Object 0 is none.
#[derive(Debug, Drop)]
pub struct Entered {
    counts: Vec<u32>,
}

impl Model for Entered {
    ghost use Rattle.std.specs.Prelude.{◌-◌, vec_len, vec_capacity};
    ghost use Rattle.com_objects.specs.Lists.{BodyCounts};

    ghost Value = { BodyCounts };

    ghost view = { λ a. record {
      counts = a.counts.items;
      spare = vec_capacity a.counts - vec_len a.counts;
    } };
}

impl Entered {
    /// No object was made. It takes no memory.
    pub fn new(alloc: Global) -> Entered
        ensures { result.counts ≡ [] }
    {
        Entered {
            counts: Vec::new(alloc),
        }
    }

    /// Makes room for one more object. The only error is want of memory, and then nothing has changed.
    pub fn reserve(&mut self) -> Result<(), Memory>
        ensures room { OnOk result (0 < self.new.spare) }
        ensures counts { self.new.counts ≡ self.old.counts }
    {
        self.counts.reserve(1)
    }

    /// One more object is made. There is room for it.
    pub fn make(&mut self)
        requires { 0 < self.old.spare }
        ensures { self.new.counts ≡ self.old.counts ++ 0 ∷ [] }
    {
        self.counts.push_reserved(0);
    }

    /// A body of an object is entered.
    pub fn enter(&mut self, object: u32)
        requires { slice_index_or self.old.counts object 0 + 1 < 2 ^ 32 }
        ensures { self.new.counts
            ≡ slice_set self.old.counts object (slice_index_or self.old.counts object 0 + 1) }
    {
        if let Some(count) = self.counts.get_mut(object as usize) {
            *count += 1;
        }
    }

    /// A body of an object leaves.
    pub fn leave(&mut self, object: u32)
        ensures { self.new.counts
            ≡ slice_set self.old.counts object (slice_index_or self.old.counts object 0 - 1) }
    {
        if let Some(count) = self.counts.get_mut(object as usize) {
            *count = count.saturating_sub(1);
        }
    }

    /// Whether a body of an object runs.
    pub fn runs(&self, object: u32) -> bool
        ensures { result ≡ not (slice_index_or self.now.counts object 0 == 0) }
    {
        match self.counts.get(object as usize) {
            Some(count) => *count != 0,
            None => false,
        }
    }
}
