//! Proxies: the local and the public references that each apartment holds of each interface of an
//! object elsewhere.
//!
//! A proxy of an apartment for an object counts two numbers for each interface. The local references
//! are those of the apartment's own slots and links. The public references are those that the object's
//! stub counts. Source: MS-DCOM 3.2.4.4, and Essential COM, chapter 5, on the proxy manager.
#![tactic(auto)]

ghost use Rattle.std.specs.Prelude.{◌≡◌, ◌+◌, ◌<◌, ◌≤◌, ◌^◌, ◌↔◌, ℕ, [], OnOk, OnErr, IsOk, IsTrue, IfNone};
ghost use Rattle.std.specs.Prelude.{IfSome, length};
ghost use Rattle.com_proxy.specs.Rows.{local_of, public_of, changed_row, gaining, one_local_more};
ghost use Rattle.com_proxy.specs.Rows.{one_local_less, no_public, split_of, split_rows, cut_rows, public_sum};
ghost use Rattle.com_proxy.specs.Rows.{index_of, row_at, proxy_key_of, proxies_of, objects_of, EachFirst};
ghost use Rattle.com_proxy.specs.Rows.{HasNoPublic, IsFree, IsLowest};

use com_keyed::Chains;
use std::alloc::Global;
use std::marker::Model;

/// Want of memory.
pub use std::alloc::AllocError as Memory;

/// What an apartment holds of one interface of an object: a row of what contracts see.
#[derive(Debug, Clone, Copy)]
pub struct ProxyRow {
    /// The apartment that holds it.
    pub apartment: u32,
    /// The number of the object.
    pub object: u32,
    /// The number of the interface.
    pub iface: u16,
    /// The places of the apartment that hold a reference of this interface.
    pub local: u64,
    /// The public references of this interface that the proxy has of the stub.
    pub public: u64,
}

/// Where the references of a new packet come from.
#[derive(Debug, Clone, Copy, PartialEq, Eq)]
pub enum Split {
    /// From the proxy: so many public references are the packet's now.
    Moved(u64),
    /// From the stub: the proxy has fewer than two and keeps them.
    New,
}

/// The proxies of all apartments, seen as a row for each apartment, object and interface that ever had
/// a reference, and the number of rows that are sure to find memory.
#[derive(Debug, Drop)]
pub struct Proxies {
    rows: Vec<ProxyRow>,
    // The indices of the rows under the keys of their proxies.
    proxies: Chains,
    // The indices of the rows under their objects.
    objects: Chains,
}

impl Model for Proxies {
    ghost use Rattle.std.specs.Prelude.{◌-◌, vec_len, vec_capacity, min};
    ghost use Rattle.com_proxy.specs.Table.{Table, IsTable};

    ghost Value = { Table };

    ghost view = { λ p. record {
      rows = p.rows.items;
      spare = min (min p.proxies.spare p.objects.spare) (vec_capacity p.rows - vec_len p.rows);
    } };

    ghost invariant = { λ p. IsTable p.rows.items p.proxies p.objects };
}

// 2 ^ 32 divided by the golden ratio. It is odd, so that two apartments never have the same multiple of
// it, and the multiples of apartments that follow each other lie far apart: then the proxies of one
// object in many apartments, and those of many objects in one apartment, seldom share a key.
const MIX: u32 = 2_654_435_769;

// The key of a proxy, which another proxy may share.
#[tactic(auto, unfolding(crate::specs::Rows::proxy_key_of))]
fn proxy_key(apartment: u32, object: u32) -> u32
    ensures { result ≡ proxy_key_of apartment object }
{
    apartment.wrapping_mul(MIX).wrapping_add(object)
}

// The index of a row, or the number of rows.
fn find(rows: &[ProxyRow], proxies: &Chains, apartment: u32, object: u32, iface: u16) -> usize
    requires keyed { proxies.now.keys ≡ proxies_of rows.now }
    requires first { EachFirst rows.now }
    ensures { result ≡ index_of rows.now apartment object iface }
{
    let mut at = proxies.last(proxy_key(apartment, object));
    while let Some(index) = at {
        let row = &rows[index];
        if row.object == object && row.apartment == apartment && row.iface == iface {
            return index;
        }
        at = proxies.earlier(index);
    }
    rows.len()
}

// The index of the row of the lowest interface of which the apartment has public references.
fn lowest(rows: &[ProxyRow], proxies: &Chains, apartment: u32, object: u32) -> Option<usize>
    requires keyed { proxies.now.keys ≡ proxies_of rows.now }
    ensures none { IfNone result ((index : ℕ) → index < length rows.now
        → HasNoPublic apartment object rows.now index) }
    ensures lowest { IfSome result (IsLowest apartment object rows.now) }
{
    let mut lowest: Option<usize> = None;
    let mut at = proxies.last(proxy_key(apartment, object));
    while let Some(index) = at {
        let row = &rows[index];
        if row.object == object
            && row.apartment == apartment
            && row.public > 0
            && is_lower(rows, row.iface, lowest)
        {
            lowest = Some(index);
        }
        at = proxies.earlier(index);
    }
    lowest
}

// The interface is below that of the index, if there is one.
fn is_lower(rows: &[ProxyRow], iface: u16, index: Option<usize>) -> bool
    requires inside { IfSome index (λ index. index < length rows.now) }
    ensures { IsTrue result ↔ IfSome index (λ index. iface < (row_at rows.now index).iface) }
{
    match index {
        None => true,
        Some(index) => iface < rows[index].iface,
    }
}

// An interface by which the apartment has a local reference to the object.
fn any_held(rows: &[ProxyRow], proxies: &Chains, apartment: u32, object: u32) -> Option<u16>
    requires keyed { proxies.now.keys ≡ proxies_of rows.now }
    requires first { EachFirst rows.now }
    ensures some { IfSome result (λ iface. 0 < local_of rows.now apartment object iface) }
    ensures none { IfNone result (IsFree rows.now apartment object) }
{
    let mut at = proxies.last(proxy_key(apartment, object));
    while let Some(index) = at {
        let row = &rows[index];
        if row.object == object && row.apartment == apartment && row.local > 0 {
            return Some(row.iface);
        }
        at = proxies.earlier(index);
    }
    None
}

// True exactly where the apartment has no local reference to the object, by any interface.
fn is_free(rows: &[ProxyRow], proxies: &Chains, apartment: u32, object: u32) -> bool
    requires keyed { proxies.now.keys ≡ proxies_of rows.now }
    requires first { EachFirst rows.now }
    ensures { IsTrue result ↔ IsFree rows.now apartment object }
{
    match any_held(rows, proxies, apartment, object) {
        Some(_) => false,
        None => true,
    }
}

// The public references of all proxies of the object, where they have a number.
fn sum_public(rows: &[ProxyRow], objects: &Chains, object: u32) -> u64
    requires keyed { objects.now.keys ≡ objects_of rows.now }
    ensures { public_sum object rows.now < 2 ^ 64 → result ≡ public_sum object rows.now }
{
    let mut sum: u64 = 0;
    let mut latest = objects.last(object);
    while let Some(index) = latest {
        sum = sum.saturating_add(rows[index].public);
        latest = objects.earlier(index);
    }
    sum
}

// Takes the public references of all proxies of the object away.
fn cut_all(rows: &mut [ProxyRow], objects: &Chains, object: u32)
    requires keyed { objects.now.keys ≡ objects_of rows.old }
    ensures { rows.new ≡ cut_rows object rows.old }
{
    let mut at = objects.last(object);
    while let Some(index) = at {
        rows[index].public = 0;
        at = objects.earlier(index);
    }
}

impl Proxies {
    /// No proxies. It takes no memory.
    pub fn new(alloc: Global) -> Self
        ensures { result.rows ≡ [] }
    {
        Proxies {
            rows: Vec::new(alloc),
            proxies: Chains::new(alloc),
            objects: Chains::new(alloc),
        }
    }

    /// Makes room for `n` calls of `gain`.
    pub fn reserve(&mut self, n: u32) -> Result<(), Memory>
        ensures room { OnOk result (n ≤ self.new.spare) }
        ensures rows { self.new.rows ≡ self.old.rows }
        ensures spare { self.old.spare ≤ self.new.spare }
    {
        let rows = n as usize;
        self.proxies.reserve(rows)?;
        self.objects.reserve(rows)?;
        self.rows.reserve(rows)
    }

    /// One local reference and `refs` public ones more.
    ///
    /// The only error is want of memory, and then no number has changed.
    #[tactic(auto, using(crate::proofs::Rows::no_index, crate::proofs::Rows::index_row, crate::proofs::Rows::changed_at, crate::proofs::Rows::changed_new))]
    pub fn gain(&mut self, apartment: u32, object: u32, iface: u16, refs: u32) -> Result<(), Memory>
        requires local_fits { local_of self.old.rows apartment object iface + 1 < 2 ^ 64 }
        requires public_fits { public_of self.old.rows apartment object iface + refs < 2 ^ 64 }
        ensures ok { OnOk result (self.new.rows
            ≡ changed_row (gaining refs) apartment object iface self.old.rows) }
        ensures err { OnErr result (self.new.rows ≡ self.old.rows) }
        ensures room { 0 < self.old.spare → IsOk result }
        ensures spare { self.old.spare ≤ self.new.spare + 1 }
    {
        let at = find(&self.rows, &self.proxies, apartment, object, iface);
        if at < self.rows.len() {
            let row = &mut self.rows[at];
            row.local += 1;
            row.public += u64::from(refs);
            return Ok(());
        }
        self.proxies.reserve(1)?;
        self.objects.reserve(1)?;
        self.rows.reserve(1)?;
        self.proxies.append(proxy_key(apartment, object));
        self.objects.append(object);
        self.rows.push_reserved(ProxyRow {
            apartment,
            object,
            iface,
            local: 1,
            public: u64::from(refs),
        });
        Ok(())
    }

    /// One local reference more, where one is held.
    #[tactic(auto, using(crate::proofs::Rows::held_index, crate::proofs::Rows::index_row, crate::proofs::Rows::changed_at))]
    pub fn copy(&mut self, apartment: u32, object: u32, iface: u16)
        requires held { 0 < local_of self.old.rows apartment object iface }
        requires fits { local_of self.old.rows apartment object iface + 1 < 2 ^ 64 }
        ensures rows { self.new.rows ≡ changed_row one_local_more apartment object iface self.old.rows }
        ensures spare { self.new.spare ≡ self.old.spare }
    {
        let at = find(&self.rows, &self.proxies, apartment, object, iface);
        let row = &mut self.rows[at];
        row.local += 1;
    }

    /// One local reference less, where one is held. True exactly where that proxy now has no local
    /// reference of any interface left.
    #[tactic(auto, using(crate::proofs::Rows::held_index, crate::proofs::Rows::index_row, crate::proofs::Rows::changed_at))]
    pub fn release(&mut self, apartment: u32, object: u32, iface: u16) -> bool
        requires held { 0 < local_of self.old.rows apartment object iface }
        ensures rows { self.new.rows ≡ changed_row one_local_less apartment object iface self.old.rows }
        ensures free { IsTrue result ↔ IsFree self.new.rows apartment object }
        ensures spare { self.new.spare ≡ self.old.spare }
    {
        let at = find(&self.rows, &self.proxies, apartment, object, iface);
        let row = &mut self.rows[at];
        row.local -= 1;
        is_free(&self.rows, &self.proxies, apartment, object)
    }

    /// The local references of the interface that the apartment holds.
    #[tactic(auto, using(crate::proofs::Rows::no_index, crate::proofs::Rows::index_row))]
    pub fn local(&self, apartment: u32, object: u32, iface: u16) -> u64
        ensures { result ≡ local_of self.now.rows apartment object iface }
    {
        let at = find(&self.rows, &self.proxies, apartment, object, iface);
        if at < self.rows.len() {
            return self.rows[at].local;
        }
        0
    }

    /// An interface by which the apartment has a local reference to the object. `None` exactly where it has
    /// none by any.
    pub fn any_local(&self, apartment: u32, object: u32) -> Option<u16>
        ensures some { IfSome result (λ iface. 0 < local_of self.now.rows apartment object iface) }
        ensures none { IfNone result (IsFree self.now.rows apartment object) }
    {
        any_held(&self.rows, &self.proxies, apartment, object)
    }

    /// The public references of the interface that the proxy holds.
    #[tactic(auto, using(crate::proofs::Rows::no_index, crate::proofs::Rows::index_row))]
    pub fn public(&self, apartment: u32, object: u32, iface: u16) -> u64
        ensures { result ≡ public_of self.now.rows apartment object iface }
    {
        let at = find(&self.rows, &self.proxies, apartment, object, iface);
        if at < self.rows.len() {
            return self.rows[at].public;
        }
        0
    }

    /// The public references of all proxies of an object, where they have a number.
    pub fn total(&self, object: u32) -> u64
        ensures { public_sum object self.now.rows < 2 ^ 64 → result ≡ public_sum object self.now.rows }
    {
        sum_public(&self.rows, &self.objects, object)
    }

    /// Takes the public references of the lowest interface of which the proxy has some: that interface,
    /// and how many they were. `None` exactly where it has none of any.
    pub fn take_public(&mut self, apartment: u32, object: u32) -> Option<(u16, u64)>
        ensures none { IfNone result ((iface : ℕ) → public_of self.old.rows apartment object iface ≡ 0) }
        ensures kept { IfNone result (self.new.rows ≡ self.old.rows) }
        ensures some { IfSome result (λ taken. 0 < taken.1) }
        ensures held { IfSome result (λ taken. taken.1 ≡ public_of self.old.rows apartment object taken.0) }
        ensures lowest { IfSome result (λ taken. (iface : ℕ)
            → 0 < public_of self.old.rows apartment object iface → taken.0 ≤ iface) }
        ensures rows { IfSome result (λ taken. self.new.rows
            ≡ changed_row no_public apartment object taken.0 self.old.rows) }
        ensures spare { self.new.spare ≡ self.old.spare }
    {
        let Some(at) = lowest(&self.rows, &self.proxies, apartment, object) else {
            return None;
        };
        let row = &mut self.rows[at];
        let taken = (row.iface, row.public);
        row.public = 0;
        Some(taken)
    }

    /// Takes half of the public references of the interface, rounded down, where the proxy holds two or
    /// more; else nothing.
    #[tactic(auto, using(crate::proofs::Rows::no_index, crate::proofs::Rows::index_row, crate::proofs::Rows::changed_at))]
    pub fn split(&mut self, apartment: u32, object: u32, iface: u16) -> Split
        ensures answer { result ≡ split_of (public_of self.old.rows apartment object iface) }
        ensures rows { self.new.rows ≡ split_rows apartment object iface self.old.rows }
        ensures spare { self.new.spare ≡ self.old.spare }
    {
        let at = find(&self.rows, &self.proxies, apartment, object, iface);
        if at >= self.rows.len() {
            return Split::New;
        }
        let held = self.rows[at].public;
        if held < 2 {
            return Split::New;
        }
        let row = &mut self.rows[at];
        row.public -= held / 2;
        Split::Moved(held / 2)
    }

    /// Takes the public references of all proxies of an object away. The local ones stay.
    pub fn cut(&mut self, object: u32)
        ensures rows { self.new.rows ≡ cut_rows object self.old.rows }
        ensures spare { self.new.spare ≡ self.old.spare }
    {
        cut_all(&mut self.rows, &self.objects, object);
    }
}
