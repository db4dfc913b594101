//! The sinks of each object of a source.
ghost use Rattle.std.specs.Prelude.{◌≡◌, [], OnOk, MatchOption, None, Some};
ghost use Rattle.com_deliveries.specs.Book.{advised_of, cookies_of, has_iface, lost};
ghost use Rattle.com_deliveries.specs.Book.{no_source, one_more, took};
ghost use Rattle.com_deliveries.specs.Rows.{next_in, row_at, with_row};

use crate::cookies::Cookies;
use com_base::Memory;
use std::alloc::Global;

// An object, which is a source or is none.
#[derive(Debug, Drop)]
pub(crate) struct Source {
    /// The number of its interface, if it is a source.
    pub iface: Option<u16>,
    /// The cookies of its sinks, in the order of their advising.
    pub cookies: Cookies,
    /// How many sinks were advised.
    pub advised: u64,
}

impl Source {
    /// An object without sinks.
    pub fn new(alloc: Global, iface: Option<u16>) -> Source
        ensures { result ≡ record { iface = iface; cookies = []; advised = 0 } }
    {
        Source {
            iface,
            cookies: Cookies::new(alloc),
            advised: 0,
        }
    }

    // A sink was advised under a cookie.
    fn take(&mut self, cookie: u64) -> Result<(), Memory>
        ensures { OnOk result (self.new ≡ took cookie self.old) }
    {
        self.advised = one_more(self.advised);
        self.cookies.push(cookie)
    }

    // The sink with a cookie was unadvised.
    fn lose(&mut self, number: i64)
        ensures { self.new ≡ lost number self.old }
    {
        self.cookies.remove(number);
    }
}

// One more.
#[tactic(auto, unfolding(crate::specs::Book::one_more))]
fn one_more(advised: u64) -> u64
    ensures { result ≡ one_more advised }
{
    advised.saturating_add(1)
}

// The row of an object.
pub(crate) fn source_of(objects: &[Source], object: u32) -> Option<&Source>
    ensures { MatchOption result (row_at objects.now object ≡ None)
        (λ row. row_at objects.now object ≡ Some row.now) }
{
    if object == 0 {
        return None;
    }
    objects.get(object as usize - 1)
}

// Whether an object is of a source with this interface.
pub(crate) fn has_iface(objects: &[Source], object: u32, iface: u16) -> bool
    ensures { result ≡ has_iface (row_at objects.now object) iface }
{
    match source_of(objects, object) {
        None => false,
        Some(source) => match source.iface {
            None => false,
            Some(own) => iface == own,
        },
    }
}

// How many sinks of an object were advised.
pub(crate) fn advised_of(objects: &[Source], object: u32) -> u64
    ensures { result ≡ advised_of (row_at objects.now object) }
{
    match source_of(objects, object) {
        None => 0,
        Some(source) => source.advised,
    }
}

// The first cookie that an object keeps above the one that was reached, and at most the last one.
pub(crate) fn next_cookie(objects: &[Source], object: u32, reached: u64, last: u64) -> Option<u64>
    ensures { result ≡ next_in reached last (cookies_of (row_at objects.now object)) }
{
    match source_of(objects, object) {
        None => None,
        Some(source) => source.cookies.next(reached, last),
    }
}

// A sink was advised under a cookie.
pub(crate) fn advise(objects: &mut [Source], object: u32, cookie: u64) -> Result<(), Memory>
    ensures { OnOk result (objects.new ≡ with_row (took cookie) no_source object objects.old) }
{
    if object == 0 || object as usize > objects.len() {
        return Ok(());
    }
    objects[object as usize - 1].take(cookie)
}

// The sink with a cookie was unadvised.
pub(crate) fn unadvise(objects: &mut [Source], object: u32, number: i64)
    ensures { objects.new ≡ with_row (lost number) no_source object objects.old }
{
    if object == 0 || object as usize > objects.len() {
        return;
    }
    objects[object as usize - 1].lose(number);
}
