//! The dying objects, which wait for their Finals.
ghost use Rattle.std.specs.Prelude.{◌≡◌, ◌≤◌, ℕ, Bool, [], ◌++◌, ◌+◌, OnOk, length, vec_len, vec_capacity};
ghost use Rattle.com_model.specs.Dying.{fallen_more};
ghost use Rattle.com_objects.specs.Settled.{DieBut, Falls, without};

use com_base::Memory;
use std::alloc::Global;
use std::marker::Model;

/// The numbers of the objects that are dying, in the order of the entries after which each was, and by number
/// where one entry made several so; and for how many more there is room.
#[derive(Debug, Drop)]
pub struct DyingQueue {
    objects: Vec<u32>,
}

impl Model for DyingQueue {
    ghost use Rattle.std.specs.Prelude.{◌-◌, vec_len, vec_capacity};
    ghost use Rattle.com_objects.specs.Lists.{DyingList};

    ghost Value = { DyingList };

    ghost view = { λ a. record {
      objects = a.objects.items;
      spare = vec_capacity a.objects - vec_len a.objects;
    } };
}

impl DyingQueue {
    /// No object is dying. It takes no memory.
    pub fn new(alloc: Global) -> DyingQueue
        ensures { result.objects ≡ [] }
    {
        DyingQueue {
            objects: Vec::new(alloc),
        }
    }

    /// Makes room for so many more. The only error is want of memory, and then nothing has changed.
    pub fn reserve(&mut self, more: usize) -> Result<(), Memory>
        ensures room { OnOk result (more ≤ self.new.spare) }
        ensures objects { self.new.objects ≡ self.old.objects }
    {
        self.objects.reserve(more)
    }

    /// After an entry: `gone` was released by it, if it is one, and `fresh` are those that are dying now
    /// and were not before, by number. There is room for them.
    #[tactic(auto, using(crate::proofs::Settling::settled))]
    pub fn settle(&mut self, gone: Option<u32>, fresh: &[u32])
        requires { length fresh.now ≤ self.old.spare }
        ensures { (dying : ℕ → Bool) (n : ℕ) → DieBut dying gone self.old.objects
            → Falls dying n self.old.objects fresh.now
            → self.new.objects ≡ fallen_more dying n self.old.objects }
    {
        take_out(&mut self.objects, gone);
        append(&mut self.objects, fresh);
    }

    /// The dying objects in their order.
    pub fn as_slice(&self) -> &[u32]
        ensures { result.now ≡ self.now.objects }
    {
        self.objects.as_slice()
    }
}

// Takes out the one that was released, if one was.
fn take_out(objects: &mut Vec<u32>, gone: Option<u32>)
    ensures items { objects.new.items ≡ without gone objects.old.items }
    ensures len { vec_len objects.new ≤ vec_len objects.old }
    ensures capacity { vec_capacity objects.new ≡ vec_capacity objects.old }
{
    match gone {
        Some(released) => objects.retain(|object| *object != released),
        None => {}
    }
}

// Adds these at the end. There is room for them.
fn append(objects: &mut Vec<u32>, fresh: &[u32])
    requires { vec_len objects.old + length fresh.now ≤ vec_capacity objects.old }
    ensures { objects.new.items ≡ objects.old.items ++ fresh.now }
{
    let Ok(()) = objects.extend_from_slice(fresh) else {
        unreachable!()
    };
}
