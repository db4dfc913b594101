//! The counters of the stubs: a number for each object and interface.

ghost use Rattle.std.specs.Prelude.{◌≡◌, ◌+◌, ◌<◌, ◌≤◌, ◌^◌, true, [], length, OnOk, IsOk};
ghost use Rattle.com_stub.specs.CounterRows.{has_counter, counter_of, index_of, changed_counter, more, less};
ghost use Rattle.com_stub.specs.CounterRows.{opened, opened_all, sum_of, objects_of, EachFirst};

use com_keyed::Chains;
use std::alloc::{AllocError, Global};
use std::marker::Model;

/// A counter: the public references of one interface of an object. A row of what contracts see.
#[derive(Debug, Clone, Copy)]
pub struct CounterRow {
    /// The number of the object.
    pub object: u32,
    /// The number of the interface.
    pub iface: u16,
    /// The public references of the interface that are out.
    pub count: u64,
}

/// The counters, seen as their rows and the number of counters that are sure to find memory. The
/// counters of an object are linked by index.
#[derive(Debug, Drop)]
pub struct Counters {
    rows: Vec<CounterRow>,
    chains: Chains,
}

impl Model for Counters {
    ghost use Rattle.std.specs.Prelude.{◌-◌, vec_len, vec_capacity, min};
    ghost use Rattle.com_stub.specs.Tables.{CounterTable, IsCounterTable};

    ghost Value = { CounterTable };

    ghost view = { λ c. record {
      rows = c.rows.items;
      spare = min c.chains.spare (vec_capacity c.rows - vec_len c.rows);
    } };

    ghost invariant = { λ c. IsCounterTable c.rows.items c.chains };
}

// The index of a counter, or the number of counters.
fn find(rows: &[CounterRow], chains: &Chains, object: u32, iface: u16) -> usize
    requires keyed { chains.now.keys ≡ objects_of rows.now }
    requires first { EachFirst rows.now }
    ensures { result ≡ index_of rows.now object iface }
{
    let mut at = chains.last(object);
    while let Some(index) = at {
        if rows[index].iface == iface {
            return index;
        }
        at = chains.earlier(index);
    }
    rows.len()
}

// The sum of the object's counters.
fn sum(rows: &[CounterRow], chains: &Chains, object: u32) -> u64
    requires keyed { chains.now.keys ≡ objects_of rows.now }
    requires fits { sum_of rows.now object < 2 ^ 64 }
    ensures { result ≡ sum_of rows.now object }
{
    let mut sum = 0;
    let mut at = chains.last(object);
    while let Some(index) = at {
        sum += rows[index].count;
        at = chains.earlier(index);
    }
    sum
}

impl Counters {
    /// No counter. It takes no memory.
    pub fn new(alloc: Global) -> Self
        ensures { result.rows ≡ [] }
    {
        Counters {
            rows: Vec::new(alloc),
            chains: Chains::new(alloc),
        }
    }

    /// Makes room for `n` more counters. The only error is want of memory: then the counters are as before.
    /// It does not come where there is that room already.
    pub fn reserve(&mut self, n: usize) -> Result<(), AllocError>
        ensures room { OnOk result (n ≤ self.new.spare) }
        ensures rows { self.new.rows ≡ self.old.rows }
        ensures spare { self.old.spare ≤ self.new.spare }
        ensures succeeds { n ≤ self.old.spare → IsOk result }
    {
        self.chains.reserve(n)?;
        self.rows.reserve(n)
    }

    /// A counter of the object's interface, at 0, where there is none yet. Room for one was made before.
    #[tactic(auto, using(crate::proofs::CounterLemmas::has_index, crate::proofs::CounterLemmas::has_not))]
    pub fn open(&mut self, object: u32, iface: u16)
        requires { 0 < self.old.spare }
        ensures rows { self.new.rows ≡ opened object iface self.old.rows }
        ensures spare { self.old.spare ≤ self.new.spare + 1 }
    {
        let at = find(&self.rows, &self.chains, object, iface);
        if at < self.rows.len() {
            return;
        }
        self.chains.append(object);
        self.rows.push_reserved(CounterRow {
            object,
            iface,
            count: 0,
        });
    }

    /// A counter of each interface of the set, at 0, where there is none yet. Room for as many as the set is
    /// long was made before.
    pub fn open_all(&mut self, object: u32, set: &[u16])
        requires { length set.now ≤ self.old.spare }
        ensures rows { self.new.rows ≡ opened_all object set.now self.old.rows }
        ensures spare { self.old.spare ≤ self.new.spare + length set.now }
    {
        for iface in set {
            self.open(object, *iface);
        }
    }

    /// True exactly where there is a counter of the interface.
    #[tactic(auto, using(crate::proofs::CounterLemmas::has_index, crate::proofs::CounterLemmas::has_not))]
    pub fn has(&self, object: u32, iface: u16) -> bool
        ensures { result ≡ has_counter self.now.rows object iface }
    {
        find(&self.rows, &self.chains, object, iface) < self.rows.len()
    }

    /// `n` references more.
    #[tactic(auto, using(crate::proofs::CounterLemmas::index_in_range, crate::proofs::CounterLemmas::row_at_index, crate::proofs::CounterLemmas::changed_at))]
    pub fn add(&mut self, object: u32, iface: u16, n: u32)
        requires there { has_counter self.old.rows object iface ≡ true }
        requires fits { sum_of self.old.rows object + n < 2 ^ 64 }
        ensures rows { self.new.rows ≡ changed_counter (more n) object iface self.old.rows }
        ensures spare { self.new.spare ≡ self.old.spare }
    {
        let at = find(&self.rows, &self.chains, object, iface);
        let row = &mut self.rows[at];
        row.count += u64::from(n);
    }

    /// `n` references less, where there is a counter.
    #[tactic(auto, using(crate::proofs::CounterLemmas::no_index, crate::proofs::CounterLemmas::row_at_index, crate::proofs::CounterLemmas::changed_at, crate::proofs::CounterLemmas::changed_none))]
    pub fn take(&mut self, object: u32, iface: u16, n: u64)
        requires { n ≤ (counter_of self.old.rows object iface).count }
        ensures rows { self.new.rows ≡ changed_counter (less n) object iface self.old.rows }
        ensures spare { self.new.spare ≡ self.old.spare }
    {
        let at = find(&self.rows, &self.chains, object, iface);
        if at >= self.rows.len() {
            return;
        }
        let row = &mut self.rows[at];
        row.count -= n;
    }

    /// The count of the interface.
    #[tactic(auto, using(crate::proofs::CounterLemmas::no_index, crate::proofs::CounterLemmas::row_at_index))]
    pub fn get(&self, object: u32, iface: u16) -> u64
        ensures { result ≡ (counter_of self.now.rows object iface).count }
    {
        let at = find(&self.rows, &self.chains, object, iface);
        if at < self.rows.len() {
            return self.rows[at].count;
        }
        0
    }

    /// No two counters are of the same object and interface.
    pub fn differ(&self)
        ensures { EachFirst self.now.rows }
    {
        let _rows = &self.rows;
    }

    /// The sum over all interfaces of the object.
    pub fn sum(&self, object: u32) -> u64
        ensures { result ≡ sum_of self.now.rows object }
    {
        sum(&self.rows, &self.chains, object)
    }
}
