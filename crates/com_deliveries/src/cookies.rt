//! Cookies in the order in which they were given.
ghost use Rattle.std.specs.Prelude.{◌≡◌, ◌+◌, ◌<◌, ◌++◌, ◌∷◌, [], IfOk, OnOk, drop, length, take};
ghost use Rattle.com_laws_sources.specs.Sinks.{is_cookie};
ghost use Rattle.com_deliveries.specs.Rows.{last_in, next_in, removed};
ghost use Rattle.com_deliveries.specs.Indices.{index_in};

use com_base::{Memory, Rows};
use std::alloc::Global;
use std::marker::Model;

// Cookies, seen as a list.
#[derive(Debug, Drop)]
pub(crate) struct Cookies {
    items: Vec<u64>,
}

impl Model for Cookies {
    ghost use Rattle.std.specs.Prelude.{ℕ, List};

    ghost Value = { List ℕ };

    ghost view = { λ c. c.items.items };
}

impl Cookies {
    /// None. It takes no memory.
    pub fn new(alloc: Global) -> Cookies
        ensures { result ≡ [] }
    {
        Cookies {
            items: Vec::new(alloc),
        }
    }

    /// One more, behind the others.
    pub fn push(&mut self, cookie: u64) -> Result<(), Memory>
        ensures { OnOk result (self.new ≡ self.old ++ (cookie ∷ [])) }
    {
        self.items.push(cookie)?;
        Ok(())
    }

    /// The last one, 0 where there is none.
    pub fn last(&self) -> u64
        ensures { result ≡ last_in self.now }
    {
        last_of(self.items.as_slice())
    }

    /// The first one above the one that was reached and at most the last one.
    pub fn next(&self, reached: u64, last: u64) -> Option<u64>
        ensures { result ≡ next_in reached last self.now }
    {
        next_of(self.items.as_slice(), reached, last)
    }

    /// The first one that is this number goes.
    #[tactic(auto, using(crate::proofs::Removing::removed_by, crate::proofs::Removing::removed_not))]
    pub fn remove(&mut self, number: i64)
        ensures { self.new ≡ removed number self.old }
    {
        let index = self.index(number);
        if index < self.len() {
            self.take_out(index);
        }
    }

    // The first index of a number, or how many there are.
    fn index(&self, number: i64) -> usize
        ensures { result ≡ index_in number self.now }
    {
        index_of(self.items.as_slice(), number)
    }

    // How many there are.
    fn len(&self) -> usize
        ensures { result ≡ length self.now }
    {
        self.items.len()
    }

    // The one at an index goes.
    fn take_out(&mut self, index: usize)
        requires { index < length self.old }
        ensures { self.new ≡ take index self.old ++ drop (index + 1) self.old }
    {
        self.items.remove(index);
    }

    /// A copy of the cookies. The only error is want of memory.
    pub fn rows(&self) -> Result<Rows<u64>, Memory>
        ensures { IfOk result (λ rows. rows ≡ self.now) }
    {
        Ok(Rows::from_vec(self.items.clone()?))
    }
}

// The last of these cookies, 0 where there is none.
#[tactic(auto, using(crate::proofs::Removing::last_of_end, crate::proofs::Removing::last_of_none))]
fn last_of(cookies: &[u64]) -> u64
    ensures { result ≡ last_in cookies.now }
{
    match cookies.split_last() {
        None => 0,
        Some((cookie, _)) => *cookie,
    }
}

// The first cookie above the one that was reached and at most the last one.
fn next_of(cookies: &[u64], reached: u64, last: u64) -> Option<u64>
    ensures { result ≡ next_in reached last cookies.now }
{
    for cookie in cookies {
        if reached < *cookie && *cookie <= last {
            return Some(*cookie);
        }
    }
    None
}

// Whether a number is a cookie, as numbers of 64 bits.
fn is_cookie(number: i64, cookie: u64) -> bool
    ensures { result ≡ is_cookie number cookie }
{
    number.wrapping_sub_unsigned(cookie) == 0
}

// The first index of a cookie, or how many there are.
fn index_of(cookies: &[u64], number: i64) -> usize
    ensures { result ≡ index_in number cookies.now }
{
    let mut index = 0;
    for cookie in cookies {
        if is_cookie(number, *cookie) {
            return index;
        }
        index += 1;
    }
    index
}
