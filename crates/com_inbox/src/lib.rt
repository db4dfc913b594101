//! Inboxes: queues of numbers that wait, each to be taken out of the middle in constant time.
#![tactic(auto)]

ghost use Rattle.std.specs.Prelude.{◌≡◌, ◌-◌, ◌<◌, ◌≤◌, ◌↔◌, max, [], ◌++◌, length, replicate, None, IsTrue};
ghost use Rattle.std.specs.Prelude.{IsSome, OnOk, OnErr, IfOk, slice_get};
ghost use Rattle.com_inbox.specs.Queues.{queue_at, queue_of, with_last, without_number, numbered};

use com_lists::Lists;
use std::alloc::Global;
use std::marker::Model;

/// Want of memory.
pub use std::alloc::AllocError as Memory;

/// Queues of numbers from 1 on, seen as the list of the queues and the greatest number with room.
///
/// A number waits in at most one queue, and there once. The queues are linked lists, in which the
/// number n stands at the node n - 1.
#[derive(Debug, Drop)]
pub struct Inbox {
    lists: Lists,
}

impl Model for Inbox {
    ghost use Rattle.std.specs.Prelude.{◌<◌, ◌^◌, length};
    ghost use Rattle.com_inbox.specs.Queues.{Queues, queues_of};

    ghost Value = { Queues };

    ghost view = { λ s. queues_of s.lists };

    ghost invariant = { λ s. (length s.lists.lists < 2 ^ 32) × (s.lists.nodes < 2 ^ 32) };
}

impl Inbox {
    /// So many empty queues, and room for no number yet.
    pub fn new(alloc: Global, queues: u32) -> Result<Self, Memory>
        ensures queues { IfOk result (λ inbox. inbox.queues ≡ replicate queues []) }
        ensures numbers { IfOk result (λ inbox. inbox.numbers ≡ 0) }
    {
        let lists = Lists::new(alloc, queues, 0)?;
        Ok(Inbox { lists })
    }

    /// Makes room for so many queues, and for each number up to this one. What waits stays.
    pub fn reserve(&mut self, queues: u32, number: u32) -> Result<(), Memory>
        ensures queues { OnOk result (self.new.queues
            ≡ self.old.queues ++ replicate (queues - length self.old.queues) []) }
        ensures numbers { OnOk result (self.new.numbers ≡ max self.old.numbers number) }
        ensures err { OnErr result (self.new ≡ self.old) }
    {
        let heads = self.lists.heads() as u32;
        let nodes = self.lists.nodes() as u32;
        self.lists.grow(heads.max(queues), nodes.max(number))
    }

    /// Lets a number wait at the end of a queue.
    pub fn post(&mut self, queue: u32, number: u32)
        requires queue { queue < length self.old.queues }
        requires positive { 1 ≤ number }
        requires room { number ≤ self.old.numbers }
        requires free { queue_of self.old number ≡ None }
        ensures { self.new ≡ with_last self.old queue number }
    {
        self.lists.push_back(queue, number - 1);
    }

    /// The number that waits first in a queue. `None` exactly where none waits there.
    pub fn first(&self, queue: u32) -> Option<u32>
        ensures { result ≡ slice_get (queue_at self.now queue) 0 }
    {
        if queue as usize >= self.lists.heads() {
            return None;
        }
        let node = self.lists.front(queue)?;
        Some(node + 1)
    }

    /// Takes a number out of its queue, wherever it waits there. All else stays.
    ///
    /// True exactly where it waited in a queue.
    pub fn remove(&mut self, number: u32) -> bool
        ensures waited { IsTrue result ↔ IsSome (queue_of self.old number) }
        ensures queues { self.new ≡ without_number self.old number }
    {
        let nodes = self.lists.nodes();
        if number == 0 {
            return false;
        }
        let node = number - 1;
        if node as usize >= nodes {
            return false;
        }
        if self.lists.holder(node).is_none() {
            return false;
        }
        self.lists.unlink(node);
        true
    }

    /// The linked lists. With 1 added to each node they are the queues.
    pub fn lists(&self) -> &Lists
        ensures queues { numbered result.now.lists ≡ self.now.queues }
        ensures numbers { result.now.nodes ≡ self.now.numbers }
    {
        &self.lists
    }
}
