//! Indices in order, each under a key, and the indices of one key from the latest to the earliest.
//!
//! A table of rows keeps a `Chains` beside it, with the rows' keys: then the rows of one key are found
//! without a walk over the others.
#![tactic(auto)]

ghost use Rattle.std.specs.Prelude.{◌≡◌, ◌+◌, ◌-◌, ◌<◌, ◌≤◌, ℕ, [], ◌∷◌, ◌++◌, length, slice_index};
ghost use Rattle.std.specs.Prelude.{OnOk, OnErr, IsOk, IsTrue, ◌↔◌, ◌^◌};
ghost use Rattle.com_keyed.specs.Indices.{IsLatest, reach};
ghost use Rattle.com_keyed.specs.Linked.{IsLinked, LeadsOn};

use std::alloc::Global;
use std::marker::Model;

/// Want of memory.
pub use std::alloc::AllocError as Memory;

/// The indices 0, 1, 2 and on, each under a key that it keeps, seen as the list of their keys and the number
/// of indices that are sure to find memory.
///
/// The indices are linked by index in buckets of their keys, of which there is one for each index that
/// the table has room for.
#[derive(Debug, Drop)]
pub struct Chains {
    keys: Vec<u32>,
    links: Vec<usize>,
    heads: Vec<usize>,
}

impl Model for Chains {
    ghost use Rattle.std.specs.Prelude.{◌-◌, length, vec_capacity};
    ghost use Rattle.com_keyed.specs.Indices.{KeyList};
    ghost use Rattle.com_keyed.specs.Linked.{IsTable};

    ghost Value = { KeyList };

    ghost view = { λ c. record {
      keys = c.keys.items;
      spare = length c.heads.items - length c.keys.items;
    } };

    ghost invariant = { λ c. IsTable c.keys.items c.links.items c.heads.items (vec_capacity c.keys)
        (vec_capacity c.links) };
}

// Links one index, which is the next after those that are linked.
fn link(keys: &[u32], links: &mut [usize], heads: &mut [usize], index: usize)
    requires known { index < length keys.now }
    requires room { index < length links.old }
    requires buckets { 0 < length heads.old }
    requires linked { IsLinked keys.now links.old heads.old (length heads.old) index }
    ensures linked { IsLinked keys.now links.new heads.new (length heads.new) (index + 1) }
{
    let bucket = keys[index] as usize % heads.len();
    links[index] = heads[bucket];
    heads[bucket] = index + 1;
}

// Links all indices afresh.
fn link_all(keys: &[u32], links: &mut [usize], heads: &mut [usize])
    requires room { length keys.now ≤ length links.old }
    requires buckets { 0 < length heads.old }
    requires empty { (bucket : ℕ) → slice_index heads.old bucket ≡ 0 }
    ensures linked { IsLinked keys.now links.new heads.new (length heads.new) (length keys.now) }
{
    for index in 0..keys.len() {
        link(keys, links, heads, index);
    }
}

// The link that leads to the latest index below `end` in the bucket of the key, where `end` is an index of
// that key, or the end of the table.
fn first_link(keys: &[u32], links: &[usize], heads: &[usize], key: u32, end: usize) -> usize
    requires linked { IsLinked keys.now links.now heads.now (length heads.now) (length keys.now) }
    requires as_many { length links.now ≡ length keys.now }
    requires buckets { length keys.now ≤ length heads.now }
    requires end { end ≤ length keys.now }
    requires keyed { end < length keys.now → slice_index keys.now end ≡ key }
    ensures { LeadsOn keys.now (length heads.now) key end result }
{
    if end < keys.len() {
        return links[end];
    }
    if heads.is_empty() {
        return 0;
    }
    heads[key as usize % heads.len()]
}

// One more than the latest index below `end` that has the key, or 0, where `end` is an index of that key,
// or the end of the table.
fn latest(keys: &[u32], links: &[usize], heads: &[usize], key: u32, end: usize) -> usize
    requires linked { IsLinked keys.now links.now heads.now (length heads.now) (length keys.now) }
    requires as_many { length links.now ≡ length keys.now }
    requires buckets { length keys.now ≤ length heads.now }
    requires end { end ≤ length keys.now }
    requires keyed { end < length keys.now → slice_index keys.now end ≡ key }
    ensures within { result ≤ end }
    ensures keyed { 0 < result → slice_index keys.now (result - 1) ≡ key }
    ensures covers { (index : ℕ) → index < end → slice_index keys.now index ≡ key → index < result }
{
    let mut link = first_link(keys, links, heads, key, end);
    while link > 0 {
        let index = link - 1;
        if keys[index] == key {
            return link;
        }
        link = links[index];
    }
    0
}

// The index that a link leads to.
fn index_of(link: usize) -> Option<usize>
    ensures { reach result ≡ link }
{
    link.checked_sub(1)
}

impl Chains {
    /// No indices. It takes no memory.
    pub fn new(alloc: Global) -> Self
        ensures { result.keys ≡ [] }
    {
        Chains {
            keys: Vec::new(alloc),
            links: Vec::new(alloc),
            heads: Vec::new(alloc),
        }
    }

    /// How many indices were given.
    pub fn len(&self) -> usize
        ensures { result ≡ length self.now.keys }
    {
        self.keys.len()
    }

    /// True exactly where no index was given.
    pub fn is_empty(&self) -> bool
        ensures { IsTrue result ↔ (self.now.keys ≡ []) }
    {
        self.keys.is_empty()
    }

    /// The latest index of a key. `None` exactly where no index has it.
    pub fn last(&self, key: u32) -> Option<usize>
        ensures { IsLatest self.now.keys key (length self.now.keys) result }
    {
        index_of(latest(&self.keys, &self.links, &self.heads, key, self.keys.len()))
    }

    /// The latest index before this one that has the same key. `None` exactly where there is none.
    pub fn earlier(&self, index: usize) -> Option<usize>
        requires { index < length self.now.keys }
        ensures { IsLatest self.now.keys (slice_index self.now.keys index) index result }
    {
        let keys = self.keys.as_slice();
        index_of(latest(keys, &self.links, &self.heads, keys[index], index))
    }

    /// Makes room for `n` more indices.
    pub fn reserve(&mut self, n: usize) -> Result<(), Memory>
        ensures room { OnOk result (n ≤ self.new.spare) }
        ensures keys { self.new.keys ≡ self.old.keys }
        ensures spare { self.old.spare ≤ self.new.spare }
        ensures err { OnErr result (self.new ≡ self.old) }
        ensures succeeds { n ≤ self.old.spare → IsOk result }
    {
        if n <= self.heads.len() - self.keys.len() {
            return Ok(());
        }
        let buckets = self
            .keys
            .len()
            .saturating_add(n)
            .max(self.heads.len().saturating_mul(2));
        self.grow(buckets)
    }

    // Makes a table of more buckets, and room for as many indices.
    fn grow(&mut self, buckets: usize) -> Result<(), Memory>
        requires more { length self.old.keys + self.old.spare < buckets }
        ensures ok { OnOk result (length self.old.keys + self.new.spare ≡ buckets) }
        ensures few { OnOk result (buckets < 2 ^ 63) }
        ensures keys { self.new.keys ≡ self.old.keys }
        ensures err { OnErr result (self.new ≡ self.old) }
    {
        let more = buckets - self.keys.len();
        self.keys.reserve(more)?;
        self.links.reserve(more)?;
        let mut heads = vec![in *self.keys.allocator(); 0usize; buckets]?;
        link_all(&self.keys, &mut self.links, &mut heads);
        self.heads = heads;
        Ok(())
    }

    /// Gives the next index, which is the number of indices so far, and puts it under the key.
    pub fn append(&mut self, key: u32)
        requires { 0 < self.old.spare }
        ensures keys { self.new.keys ≡ self.old.keys ++ key ∷ [] }
        ensures spare { self.new.spare + 1 ≡ self.old.spare }
    {
        let index = self.keys.len();
        self.keys.push_reserved(key);
        self.links.push_reserved(0);
        link(&self.keys, &mut self.links, &mut self.heads, index);
    }
}
