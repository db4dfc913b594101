//! Who holds references to each object, and how many public references the object's stub counts for them.
//!
//! A place of a reference is direct in an apartment that owns the object, and is one of that apartment's
//! proxy elsewhere. Outside of apartments packets and cookies hold references. Every call changes the books
//! of public references by its row of the table of reference counting, and the places by one at most. Source:
//! MS-DCOM 2.2.18 and 3.2.4.4, and Essential COM, chapter 5, on stubs, proxies and marshalling.
#![tactic(auto)]

mod balance;
mod lives;
mod objects;
mod packing;
mod places;
mod readings;
mod registering;
mod reserved;

ghost use Rattle.std.specs.Prelude.{◌≡◌, ◌<◌, ◌≤◌, ℕ, true, max, [], OnOk, OnErr, IsOk};
ghost use Rattle.com_stub.specs.CounterRows.{EachFirst};
ghost use Rattle.com_proxy.specs.Rows.{IsFree};
ghost use Rattle.com_refs_books.specs.Changes.{given_back};
ghost use Rattle.com_refs_holders.specs.Tables.{books_of, owns_of};
ghost use Rattle.com_refs_holders.specs.Places.{places_in, distinct};
ghost use Rattle.com_refs_holders.specs.Stands.{Tells, Known, Bounded, IsEven};

use com_git::Git;
use com_keyed::Chains;
use com_packets::Packets;
use com_proxy::Proxies;
use com_stub::Stubs;
use std::alloc::Global;
use std::marker::Model;

/// Want of memory.
pub use com_base::Memory;
pub use packing::is_normal;

/// An object: the apartment that owns it, whether every apartment does, and how many of its places are
/// direct.
#[derive(Debug, Clone, Copy)]
pub struct ObjectRow {
    /// The apartment that owns the object; 0 for an agile one.
    pub owner: u32,
    /// Whether every apartment owns it.
    pub agile: bool,
    /// The places in apartments that own it.
    pub direct: u64,
}

/// Why a call changed nothing.
#[derive(Debug, Clone, Copy, PartialEq, Eq)]
pub enum HoldersError {
    /// The object is not connected.
    NotConnected,
    /// The interface is not in the object's set.
    NoInterface,
    /// No outstanding packet has the number, or no cookie.
    Unknown,
    /// Want of memory.
    Memory,
}

/// The holders of all objects, seen as their tables: the objects, packets and cookies in order of their
/// numbers from 1 on, how many references were given so far, and the number of calls that are sure to find
/// memory.
#[derive(Debug, Drop)]
pub struct Holders {
    objects: Vec<ObjectRow>,
    // The places of the objects under their owners.
    owners: Chains,
    stubs: Stubs,
    proxies: Proxies,
    packets: Packets,
    cookies: Git,
    // How many references were given so far.
    issued: u32,
    // So many calls are sure to find memory: each table has room for them.
    room: u32,
}

impl Model for Holders {
    ghost use Rattle.std.specs.Prelude.{◌-◌, vec_len, vec_capacity};
    ghost use Rattle.com_refs_holders.specs.Tables.{Tables, tables};
    ghost use Rattle.com_refs_holders.specs.Stands.{IsWhole};

    ghost Value = { Tables };

    ghost view = { λ r. tables r.objects.items r.stubs.stubs r.stubs.counters r.proxies.rows
        r.packets.entries r.cookies.entries r.issued r.room };

    ghost invariant = { λ r. IsWhole
        (tables r.objects.items r.stubs.stubs r.stubs.counters r.proxies.rows
        r.packets.entries r.cookies.entries r.issued r.room)
        r.owners (vec_capacity r.objects - vec_len r.objects) r.stubs.spare r.proxies.spare
        r.packets.spare r.cookies.spare };
}

/// How many references may ever be issued, of all objects together. Each brings five public references at
/// most, so that what a stub or a proxy counts stays far below the greatest number of 32 bits.
pub const MOST_ISSUED: u32 = 0x1000_0000;

impl Holders {
    /// No object was made and nothing is held. It takes no memory.
    pub fn new(alloc: Global) -> Self
        ensures objects { result.objects ≡ [] }
        ensures proxies { result.proxies ≡ [] }
        ensures packets { result.packets ≡ [] }
        ensures cookies { result.cookies ≡ [] }
        ensures stubs { result.stubs ≡ [] }
        ensures counters { result.counters ≡ [] }
        ensures spare { result.spare ≡ 0 }
        ensures issued { result.issued ≡ 0 }
    {
        Holders {
            objects: Vec::new(alloc),
            owners: Chains::new(alloc),
            stubs: Stubs::new(alloc),
            proxies: Proxies::new(alloc),
            packets: Packets::new(alloc),
            cookies: Git::new(alloc),
            issued: 0,
            room: 0,
        }
    }

    /// Makes room for `n` calls: so many of those that can want memory then do not. The only error is want of
    /// memory, and then nothing changed; it does not come where there is that room already.
    #[tactic(auto, unfolding(crate::specs::Tables::books_of))]
    pub fn reserve(&mut self, n: u32) -> Result<(), Memory>
        ensures room { OnOk result (n ≤ self.new.spare) }
        ensures succeeds { n ≤ self.old.spare → IsOk result }
        ensures same { self.new ≡ record self.old { spare = self.new.spare } }
        ensures err { OnErr result (self.new ≡ self.old) }
        ensures most { self.new.spare ≤ max self.old.spare n }
        ensures spare { self.old.spare ≤ self.new.spare }
    {
        if n <= self.room {
            return Ok(());
        }
        self.objects.reserve(n as usize)?;
        self.owners.reserve(n as usize)?;
        self.stubs.reserve(n)?;
        self.proxies.reserve(n)?;
        self.packets.reserve(n)?;
        self.cookies.reserve(n)?;
        self.room = n;
        Ok(())
    }

    /// Makes room for one call, where there is none. The only error is want of memory, and then nothing
    /// changed.
    #[tactic(auto, unfolding(crate::specs::Tables::books_of))]
    pub fn make_room(&mut self) -> Result<(), Memory>
        ensures room { OnOk result (0 < self.new.spare) }
        ensures succeeds { 0 < self.old.spare → IsOk result }
        ensures same { self.new ≡ record self.old { spare = self.new.spare } }
        ensures err { OnErr result (self.new ≡ self.old) }
        ensures most { self.new.spare ≤ max self.old.spare 1 }
        ensures books { books_of self.new ≡ books_of self.old }
        ensures objects { self.new.objects ≡ self.old.objects }
        ensures stubs { self.new.stubs ≡ self.old.stubs }
        ensures counters { self.new.counters ≡ self.old.counters }
        ensures proxies { self.new.proxies ≡ self.old.proxies }
        ensures packets { self.new.packets ≡ self.old.packets }
        ensures cookies { self.new.cookies ≡ self.old.cookies }
        ensures issued { self.new.issued ≡ self.old.issued }
        ensures spare { self.old.spare ≤ self.new.spare }
    {
        self.reserve(1)
    }

    /// What is known of the tables at all times, and how high their numbers are.
    pub fn stands(&self)
        ensures known { Known self.now }
        ensures bounded { Bounded self.now }
        ensures owned { (a o : ℕ) → owns_of self.now.objects o a ≡ true → places_in self.now a o ≡ 0 }
        ensures apart { distinct self.now.proxies ≡ true }
        ensures even { IsEven (books_of self.now) }
        ensures placed { (a o i : ℕ) → IsFree self.now.proxies a o → (books_of self.now).proxy a o i ≡ 0 }
        ensures first { EachFirst self.now.counters }
    {
        self.stubs.counters_differ();
    }

    /// Between calls nothing is left to give back.
    pub fn gives_nothing(&self)
        ensures { (n : ℕ) (places : ℕ → ℕ → ℕ) → Tells n places self.now
            → given_back n places (books_of self.now) ≡ books_of self.now }
    {
        let _rows = &self.objects;
    }
}
