//! Who holds references, and the packets of each call.
ghost use Rattle.std.specs.Prelude.{◌≡◌, ◌+◌, ◌<◌, ◌↔◌, ℕ, [], IsTrue, sum_by};
ghost use Rattle.com_refs_books.specs.Counting.{sum_below};
ghost use Rattle.com_refs_books.specs.Changes.{in_normal, in_table, in_cookie};
ghost use Rattle.com_refs_holders.specs.Tables.{books_of, direct_in};
ghost use Rattle.com_refs.specs.Counts.{holders_of};
ghost use Rattle.com_refs.specs.Numbers.{Within};

use crate::books::Books;
use com_refs::RefCounts;
use std::alloc::Global;
use std::marker::Model;

/// Who holds references, which packets carry the arguments and the result of each call, and the objects that
/// lost their last holder in the last entry.
#[derive(Debug, Drop)]
pub struct Ledger {
    /// All that it keeps.
    pub books: Books,
}

impl Model for Ledger {
    ghost use Rattle.com_refs_rows.specs.Books.{Held};

    ghost Value = { Held };

    ghost view = { λ a. record {
      tables = a.books.refs;
      calls = a.books.calls;
      touched =
          a.books.touched.items;
    } };
}

impl Ledger {
    /// Nothing is held. It takes no memory.
    pub fn new(alloc: Global) -> Ledger
        ensures objects { result.tables.objects ≡ [] }
        ensures proxies { result.tables.proxies ≡ [] }
        ensures packets { result.tables.packets ≡ [] }
        ensures cookies { result.tables.cookies ≡ [] }
        ensures stubs { result.tables.stubs ≡ [] }
        ensures issued { result.tables.issued ≡ 0 }
        ensures calls { result.calls ≡ [] }
        ensures touched { result.touched ≡ [] }
    {
        Ledger {
            books: Books::new(alloc),
        }
    }

    /// The objects that lost their last holder in the last entry, or may have: each once, by number.
    pub fn touched_objects(&self) -> &[u32]
        ensures { result.now ≡ self.now.touched }
    {
        self.books.touched.as_slice()
    }

    /// Something holds the object: a direct place, or where it is connected a place elsewhere, a packet or a
    /// cookie.
    pub fn is_held(&self, object: u32) -> bool
        ensures { IsTrue result ↔ (0 < holders_of self.now.tables object) }
    {
        self.books.refs.is_held(object)
    }

    /// The numbers of a report for an object, over all apartments with a place and all interfaces of all
    /// sets.
    pub fn counts(&self, object: u32) -> RefCounts
        ensures direct { result.direct ≡ direct_in self.now.tables object }
        ensures proxies { (n m : ℕ) → Within n m self.now.tables
            → result.proxies ≡ sum_below n (λ a. sum_below m ((books_of self.now.tables).proxy a object)) }
        ensures packets { result.packets ≡ sum_by (in_normal object) (books_of self.now.tables).packets }
        ensures tables { (n m : ℕ) → Within n m self.now.tables
            → result.tables ≡ sum_by (in_table object) (books_of self.now.tables).packets + sum_by
            (in_cookie object) (books_of self.now.tables).cookies }
        ensures stub { (n m : ℕ) → Within n m self.now.tables
            → result.stub ≡ sum_below m ((books_of self.now.tables).stub object) }
    {
        self.books.refs.counts(object)
    }
}
