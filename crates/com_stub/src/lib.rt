//! Stubs: the public references to an object that are out in the world, counted for each interface.
//!
//! Source: MS-DCOM 3.2.4.4.2, and Essential COM, chapter 5, on the stub manager.
#![tactic(auto)]

mod counters;

ghost use Rattle.std.specs.Prelude.{◌≡◌, ◌+◌, ◌<◌, ◌≤◌, ◌^◌, ◌↔◌, true, false, [], ◌∷◌, ◌++◌, length};
ghost use Rattle.std.specs.Prelude.{OnOk, OnErr, IsOk, Err};
ghost use Rattle.com_stub.specs.CounterRows.{has_counter, changed_counter, more, less, opened_all, EachFirst};
ghost use Rattle.com_stub.specs.StubRows.{has_stub, is_connected, ended_rows, stub_objects, EachStubFirst};
ghost use Rattle.com_stub.specs.Tables.{count_of, total_of};

use com_keyed::Chains;
pub use counters::CounterRow;
use counters::Counters;
use std::alloc::Global;
use std::marker::Model;

/// Want of memory.
pub use std::alloc::AllocError as Memory;

/// A stub: whether its object is connected. A row of what contracts see.
#[derive(Debug, Clone, Copy)]
pub struct StubRow {
    /// The number of the object.
    pub object: u32,
    /// Whether the object is connected.
    pub is_connected: bool,
}

/// Why references were not added to a stub.
#[derive(Debug, Clone, Copy, PartialEq, Eq)]
pub enum StubError {
    /// The object has no stub, or one that was disconnected.
    NotConnected,
    /// The interface is not in the object's set.
    NoInterface,
}

/// The stubs of all objects, seen as a row for each stub, a row for each interface of a stub, and the
/// number of enrolments that are sure to find memory.
#[derive(Debug, Drop)]
pub struct Stubs {
    stubs: Vec<StubRow>,
    chains: Chains,
    counters: Counters,
}

impl Model for Stubs {
    ghost use Rattle.std.specs.Prelude.{◌-◌, ◌/◌, vec_len, vec_capacity, min};
    ghost use Rattle.com_stub.specs.Tables.{StubTable, IsStubTable};
    ghost use Rattle.com_stub.specs.declared.TheConstants.{MOST_INTERFACES};

    ghost Value = { StubTable };

    ghost view = { λ s. record {
      stubs = s.stubs.items;
      counters = s.counters.rows;
      spare = min (s.counters.spare / MOST_INTERFACES) (min s.chains.spare (vec_capacity s.stubs - vec_len s.stubs));
    } };

    ghost invariant = { λ s. IsStubTable s.stubs.items s.chains };
}

/// The most interfaces that an object's set has: IUnknown, and 16 of its class.
pub const MOST_INTERFACES: usize = 17;

// True exactly where the object has a stub that is connected.
fn is_live(stubs: &[StubRow], chains: &Chains, object: u32) -> bool
    requires keyed { chains.now.keys ≡ stub_objects stubs.now }
    requires first { EachStubFirst stubs.now }
    ensures { result ≡ is_connected stubs.now object }
{
    match chains.last(object) {
        None => false,
        Some(index) => stubs[index].is_connected,
    }
}

// The stub of the object, if it has one, is no longer connected.
fn end(stubs: &mut [StubRow], chains: &Chains, object: u32)
    requires keyed { chains.now.keys ≡ stub_objects stubs.old }
    requires first { EachStubFirst stubs.old }
    ensures { stubs.new ≡ ended_rows object stubs.old }
{
    if let Some(index) = chains.last(object) {
        stubs[index].is_connected = false;
    }
}

impl Stubs {
    /// No stubs. It takes no memory.
    pub fn new(alloc: Global) -> Self
        ensures stubs { result.stubs ≡ [] }
        ensures counters { result.counters ≡ [] }
    {
        Stubs {
            stubs: Vec::new(alloc),
            chains: Chains::new(alloc),
            counters: Counters::new(alloc),
        }
    }

    /// Makes room for `n` enrolments.
    pub fn reserve(&mut self, n: u32) -> Result<(), Memory>
        ensures room { OnOk result (n ≤ self.new.spare) }
        ensures stubs { self.new.stubs ≡ self.old.stubs }
        ensures counters { self.new.counters ≡ self.old.counters }
        ensures spare { self.old.spare ≤ self.new.spare }
    {
        let stubs = n as usize;
        self.counters.reserve(stubs * MOST_INTERFACES)?;
        self.chains.reserve(stubs)?;
        self.stubs.reserve(stubs)
    }

    /// Gives an object a connected stub, with a count of 0 for each interface of its set.
    ///
    /// The only error is want of memory, and then no stub has changed.
    pub fn enroll(&mut self, object: u32, set: &[u16]) -> Result<(), Memory>
        requires new { has_stub self.old.stubs object ≡ false }
        requires few { length set.now ≤ MOST_INTERFACES }
        ensures ok { OnOk result (self.new.stubs
            ≡ self.old.stubs ++ record { object = object; is_connected = true } ∷ []) }
        ensures opened { OnOk result (self.new.counters ≡ opened_all object set.now self.old.counters) }
        ensures err { OnErr result (self.new.stubs ≡ self.old.stubs) }
        ensures kept { OnErr result (self.new.counters ≡ self.old.counters) }
        ensures room { 0 < self.old.spare → IsOk result }
        ensures spare { self.old.spare ≤ self.new.spare + 1 }
    {
        self.counters.reserve(MOST_INTERFACES)?;
        self.chains.reserve(1)?;
        self.stubs.reserve(1)?;
        self.counters.open_all(object, set);
        self.chains.append(object);
        self.stubs.push_reserved(StubRow {
            object,
            is_connected: true,
        });
        Ok(())
    }

    /// `n` public references more of an interface.
    ///
    /// `NotConnected` exactly where the object has no connected stub; else `NoInterface` exactly where the
    /// interface is not in its set.
    pub fn add(&mut self, object: u32, iface: u16, n: u32) -> Result<(), StubError>
        requires fits { total_of self.old object + n < 2 ^ 64 }
        ensures not_connected { (result
            ≡ Err StubError.NotConnected) ↔ (is_connected self.old.stubs object ≡ false) }
        ensures no_interface { (result ≡ Err StubError.NoInterface) ↔ ((is_connected self.old.stubs object
            ≡ true) × (has_counter self.old.counters object iface ≡ false)) }
        ensures ok { OnOk result (self.new.counters
            ≡ changed_counter (more n) object iface self.old.counters) }
        ensures stubs { self.new.stubs ≡ self.old.stubs }
        ensures err { OnErr result (self.new ≡ self.old) }
        ensures spare { self.new.spare ≡ self.old.spare }
    {
        if !is_live(&self.stubs, &self.chains, object) {
            return Err(StubError::NotConnected);
        }
        if !self.counters.has(object, iface) {
            return Err(StubError::NoInterface);
        }
        self.counters.add(object, iface, n);
        Ok(())
    }

    /// `n` public references less of an interface, which counts as many at least.
    pub fn take(&mut self, object: u32, iface: u16, n: u64)
        requires { n ≤ count_of self.old object iface }
        ensures counters { self.new.counters ≡ changed_counter (less n) object iface self.old.counters }
        ensures stubs { self.new.stubs ≡ self.old.stubs }
        ensures spare { self.new.spare ≡ self.old.spare }
    {
        self.counters.take(object, iface, n);
    }

    /// The public references of all interfaces together. A stub that is not connected has none.
    pub fn count(&self, object: u32) -> u64
        ensures { result ≡ total_of self.now object }
    {
        if is_live(&self.stubs, &self.chains, object) {
            return self.counters.sum(object);
        }
        0
    }

    /// No two counters are of the same object and interface.
    pub fn counters_differ(&self)
        ensures { EachFirst self.now.counters }
    {
        self.counters.differ();
    }

    /// The public references of an interface. A stub that is not connected has none.
    pub fn count_of(&self, object: u32, iface: u16) -> u64
        ensures { result ≡ count_of self.now object iface }
    {
        if is_live(&self.stubs, &self.chains, object) {
            return self.counters.get(object, iface);
        }
        0
    }

    /// True exactly where the object has a stub that is connected.
    pub fn is_connected(&self, object: u32) -> bool
        ensures { result ≡ is_connected self.now.stubs object }
    {
        is_live(&self.stubs, &self.chains, object)
    }

    /// True exactly where the interface is in the set of the object, which has a stub, connected or not.
    pub fn offers(&self, object: u32, iface: u16) -> bool
        ensures { result ≡ has_counter self.now.counters object iface }
    {
        self.counters.has(object, iface)
    }

    /// Disconnects the object's stub: all its counts are 0 and `add` is refused from then on.
    /// Source: CoDisconnectObject.
    pub fn disconnect(&mut self, object: u32)
        ensures stubs { self.new.stubs ≡ ended_rows object self.old.stubs }
        ensures counters { self.new.counters ≡ self.old.counters }
        ensures ended { is_connected self.new.stubs object ≡ false }
        ensures spare { self.new.spare ≡ self.old.spare }
    {
        end(&mut self.stubs, &self.chains, object);
    }
}
