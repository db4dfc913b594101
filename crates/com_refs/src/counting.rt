//! The numbers of a report.
ghost use Rattle.std.specs.Prelude.{◌≡◌, ◌+◌, ℕ, true, sum_by};
ghost use Rattle.com_stub.specs.StubRows.{is_connected};
ghost use Rattle.com_refs_holders.specs.Tables.{books_of, direct_in};
ghost use Rattle.com_refs_books.specs.Counting.{sum_below};
ghost use Rattle.com_refs_books.specs.Changes.{in_normal, in_table, in_cookie};
ghost use Rattle.com_refs.specs.Numbers.{Within};

use crate::{RefCounts, Refs};

impl Refs {
    /// The numbers of a report for an object. It looks at all that ever held it.
    pub fn counts(&self, object: u32) -> RefCounts
        ensures direct { result.direct ≡ direct_in self.now object }
        ensures proxies { (n m : ℕ) → Within n m self.now
            → result.proxies ≡ sum_below n (λ a. sum_below m ((books_of self.now).proxy a object)) }
        ensures packets { result.packets ≡ sum_by (in_normal object) (books_of self.now).packets }
        ensures tables { (n m : ℕ) → Within n m self.now
            → result.tables ≡ sum_by (in_table object) (books_of self.now).packets + sum_by
            (in_cookie object) (books_of self.now).cookies }
        ensures stub { (n m : ℕ) → Within n m self.now
            → result.stub ≡ sum_below m ((books_of self.now).stub object) }
    {
        let direct = self.holders.direct(object);
        if !self.holders.is_connected(object) {
            return RefCounts {
                direct,
                proxies: 0,
                packets: 0,
                tables: 0,
                stub: 0,
            };
        }
        self.counts_of_connected(object, direct)
    }

    // The numbers of a connected object: what proxies and normal packets leave of the stub's count is that of
    // the tables.
    fn counts_of_connected(&self, object: u32, direct: u64) -> RefCounts
        requires connected { is_connected self.now.stubs object ≡ true }
        ensures direct { result.direct ≡ direct }
        ensures proxies { (n m : ℕ) → Within n m self.now
            → result.proxies ≡ sum_below n (λ a. sum_below m ((books_of self.now).proxy a object)) }
        ensures packets { result.packets ≡ sum_by (in_normal object) (books_of self.now).packets }
        ensures tables { (n m : ℕ) → Within n m self.now
            → result.tables ≡ sum_by (in_table object) (books_of self.now).packets + sum_by
            (in_cookie object) (books_of self.now).cookies }
        ensures stub { (n m : ℕ) → Within n m self.now
            → result.stub ≡ sum_below m ((books_of self.now).stub object) }
    {
        self.holders.stands();
        let proxies = self.holders.proxy_references(object);
        let packets = self.holders.packet_references(object);
        let stub = self.holders.stub_references(object);
        RefCounts {
            direct,
            proxies,
            packets,
            tables: stub.saturating_sub(proxies).saturating_sub(packets),
            stub,
        }
    }
}
