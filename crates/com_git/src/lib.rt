//! The global interface table: references under cookies, which are never used again.
//!
//! Source: the documentation of IGlobalInterfaceTable. Cookies from 1 on are this project's.
#![tactic(auto)]

ghost use Rattle.std.specs.Prelude.{◌≡◌, ◌+◌, ◌<◌, ◌≤◌, ◌^◌, [], ◌∷◌, ◌++◌, length, OnOk, OnErr, IfOk, IsOk};
ghost use Rattle.std.specs.Prelude.{Some, None};
ghost use Rattle.com_slots.specs.Table.{held_in, with_entry};

use com_base::RefValue;
use com_slots::Slots;
use std::alloc::Global;
use std::marker::Model;

/// Want of memory.
pub use com_base::Memory;

/// The table, seen as the reference or nothing of each cookie that was given, and the number of
/// registrations that are sure to find memory.
#[derive(Debug, Drop)]
pub struct Git {
    slots: Slots<RefValue>,
}

impl Model for Git {
    ghost use Rattle.std.specs.Prelude.{◌≡◌, ◌-◌, ◌^◌};
    ghost use Rattle.com_git.specs.Table.{Table};

    ghost Value = { Table };

    ghost view = { λ g. record {
      entries = g.slots.entries;
      spare = g.slots.spare;
    } };

    ghost invariant = { λ g. g.slots.limit ≡ 2 ^ 32 - 1 };
}

impl Git {
    /// A table without cookies. It takes no memory.
    pub fn new(alloc: Global) -> Self
        ensures { result.entries ≡ [] }
    {
        Git {
            slots: Slots::new(alloc, u32::MAX),
        }
    }

    /// Makes room for `n` registrations.
    pub fn reserve(&mut self, n: u32) -> Result<(), Memory>
        ensures room { OnOk result (n ≤ self.new.spare) }
        ensures entries { self.new.entries ≡ self.old.entries }
        ensures spare { self.old.spare ≤ self.new.spare }
    {
        self.slots.reserve(n)
    }

    /// Puts a reference under the next cookie, which it returns. The first is 1.
    ///
    /// The only error is want of memory, and then no cookie was given.
    /// Source: RegisterInterfaceInGlobal.
    pub fn register(&mut self, held: RefValue) -> Result<u32, Memory>
        requires fits { length self.old.entries + 1 < 2 ^ 32 }
        ensures cookie { IfOk result (λ cookie. cookie ≡ length self.old.entries + 1) }
        ensures ok { OnOk result (self.new.entries ≡ self.old.entries ++ Some held ∷ []) }
        ensures err { OnErr result (self.new.entries ≡ self.old.entries) }
        ensures room { 0 < self.old.spare → IsOk result }
        ensures spare { self.old.spare ≤ self.new.spare + 1 }
    {
        match self.slots.insert(held) {
            Ok(cookie) => Ok(cookie),
            Err(_) => Err(Memory),
        }
    }

    /// How many cookies were given.
    pub fn given_count(&self) -> u32
        ensures { result ≡ length self.now.entries }
    {
        self.slots.given_count()
    }

    /// The reference under a cookie. `None` exactly where the cookie was never given or was revoked.
    /// Source: GetInterfaceFromGlobal.
    pub fn get(&self, cookie: u32) -> Option<RefValue>
        ensures { result ≡ held_in self.now.entries cookie }
    {
        self.slots.get(cookie).copied()
    }

    /// Takes the reference from under a cookie, which is not used again. `None` exactly where the cookie
    /// was never given or was revoked. Source: RevokeInterfaceFromGlobal.
    pub fn revoke(&mut self, cookie: u32) -> Option<RefValue>
        ensures value { result ≡ held_in self.old.entries cookie }
        ensures entries { self.new.entries ≡ with_entry self.old.entries cookie None }
        ensures spare { self.new.spare ≡ self.old.spare }
    {
        self.slots.remove(cookie)
    }
}
