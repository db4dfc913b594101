//! Places of references come and go.
ghost use Rattle.std.specs.Prelude.{◌≡◌, ◌+◌, ◌<◌, ◌≤◌, ◌↔◌, ◌||◌, ℕ, true, false, OnOk, OnErr, IsOk};
ghost use Rattle.std.specs.Prelude.{IsTrue, Err, IfSome, IfNone, if◌then◌else◌};
ghost use Rattle.com_stub.specs.StubRows.{is_connected};
ghost use Rattle.com_proxy.specs.Rows.{IsFree, local_of};
ghost use Rattle.com_refs_holders.specs.Tables.{books_of, owns_of, object_in, offers, SameSets};
ghost use Rattle.com_refs_holders.specs.Places.{OneMore, OneLess};
ghost use Rattle.com_refs_holders.specs.Stands.{Tells};
ghost use Rattle.com_refs_books.specs.Changes.{changed, change, Asks};
ghost use Rattle.com_refs_books.specs.Ends.{ends};
ghost use Rattle.com_refs.specs.Counts.{holders_of};
ghost use Rattle.com_refs.specs.Totals.{Totals};

use crate::holds::{gain_hold, hold_at, lose_hold, settle};
use crate::{MOST_ISSUED, Memory, Refs, RefsError};
use com_base::RefValue;

impl Refs {
    /// One place less, to the end of its entry. True exactly where nothing holds the object then.
    pub fn release(&mut self, apartment: u32, held: RefValue) -> bool
        requires proxied { owns_of self.old.objects held.object apartment ≡ false
            → 0 < local_of self.old.proxies apartment held.object held.iface }
        requires direct { owns_of self.old.objects held.object apartment ≡ true
            → 0 < (object_in self.old.objects held.object).direct }
        ensures lost { IsTrue result ↔ (holders_of self.new held.object ≡ 0) }
        ensures books { (n : ℕ) (places : ℕ → ℕ → ℕ) → apartment < n → Tells n places self.new
            → Totals n places self.new → books_of self.new ≡ ends n places (books_of self.old) }
        ensures places { OneLess self.old self.new apartment held.object
            (owns_of self.old.objects held.object apartment) }
        ensures offers { SameSets self.old self.new }
        ensures issued { self.new.issued ≡ self.old.issued }
        ensures spare { self.new.spare ≡ self.old.spare }
    {
        let is_owned = self.holders.owns(held.object, apartment);
        self.holders.release(apartment, held);
        lose_hold(&mut self.holds, held.object, !is_owned);
        let left = hold_at(&self.holds, held.object);
        settle(&mut self.holders, left, held.object)
    }

    /// One place more of a reference that the apartment holds.
    pub fn copy(&mut self, apartment: u32, held: RefValue)
        requires proxied { owns_of self.old.objects held.object apartment ≡ false
            → 0 < local_of self.old.proxies apartment held.object held.iface }
        requires direct { owns_of self.old.objects held.object apartment ≡ true
            → 0 < (object_in self.old.objects held.object).direct }
        requires known { offers self.old held.object held.iface ≡ true }
        requires few { self.old.issued < MOST_ISSUED }
        ensures books { books_of self.new ≡ books_of self.old }
        ensures places { OneMore self.old self.new apartment held.object
            (owns_of self.old.objects held.object apartment) }
        ensures offers { SameSets self.old self.new }
        ensures issued { self.new.issued ≡ self.old.issued + 1 }
        ensures spare { self.new.spare ≡ self.old.spare }
    {
        self.holders.stands();
        let is_owned = self.holders.owns(held.object, apartment);
        self.holders.copy(apartment, held);
        gain_hold(&mut self.holds, held.object, !is_owned);
    }

    /// Whether the apartment has a place of the reference: a direct one of the object where it owns that,
    /// else one of its proxy.
    pub fn has_place(&self, apartment: u32, held: RefValue) -> bool
        ensures exact { IsTrue result ↔ (0 < (if owns_of self.now.objects held.object apartment
            then (object_in self.now.objects held.object).direct
            else local_of self.now.proxies apartment held.object held.iface)) }
        ensures proxied { IsTrue result → owns_of self.now.objects held.object apartment ≡ false
            → 0 < local_of self.now.proxies apartment held.object held.iface }
        ensures direct { IsTrue result → owns_of self.now.objects held.object apartment ≡ true
            → 0 < (object_in self.now.objects held.object).direct }
    {
        self.holders.has_place(apartment, held)
    }

    /// A reference to the object by which the apartment has a place: the one given where it has one of that,
    /// else one by another interface. `None` exactly where it has no place of the object.
    pub fn place_of(&self, apartment: u32, held: RefValue) -> Option<RefValue>
        ensures object { IfSome result (λ place. place.object ≡ held.object) }
        ensures proxied { IfSome result (λ place. owns_of self.now.objects held.object apartment ≡ false
            → 0 < local_of self.now.proxies apartment held.object place.iface) }
        ensures direct { IfSome result (λ place. owns_of self.now.objects held.object apartment ≡ true
            → 0 < (object_in self.now.objects held.object).direct) }
        ensures free { IfNone result (owns_of self.now.objects held.object apartment ≡ false
            → IsFree self.now.proxies apartment held.object) }
        ensures none { IfNone result (owns_of self.now.objects held.object apartment ≡ true
            → (object_in self.now.objects held.object).direct ≡ 0) }
    {
        self.holders.place_of(apartment, held)
    }

    /// One place more of a reference, and no public reference. The apartment need not hold it: a body of an
    /// object that every apartment owns writes the object's links in the neutral apartment. The only error is
    /// want of memory.
    pub fn share(&mut self, apartment: u32, held: RefValue) -> Result<(), Memory>
        requires known { offers self.old held.object held.iface ≡ true }
        requires few { self.old.issued < MOST_ISSUED }
        ensures books { books_of self.new ≡ books_of self.old }
        ensures places { OnOk result (OneMore self.old self.new apartment held.object
            (owns_of self.old.objects held.object apartment)) }
        ensures offers { SameSets self.old self.new }
        ensures issued { OnOk result (self.new.issued ≡ self.old.issued + 1) }
        ensures room { 0 < self.old.spare → IsOk result }
        ensures err { OnErr result (self.new ≡ self.old) }
        ensures spare { self.old.spare ≤ self.new.spare + 1 }
    {
        self.holders.stands();
        let is_owned = self.holders.owns(held.object, apartment);
        match self.holders.share(apartment, held) {
            Ok(()) => {
                gain_hold(&mut self.holds, held.object, !is_owned);
                Ok(())
            }
            Err(memory) => Err(memory),
        }
    }

    /// A reference to another interface of an object of which the apartment holds one. `NotConnected` exactly
    /// where the apartment does not own the object, which is not connected; else `NoInterface` exactly where
    /// the interface is not in its set.
    pub fn query(&mut self, apartment: u32, object: u32, iface: u16) -> Result<(), RefsError>
        requires few { self.old.issued < MOST_ISSUED }
        ensures not_connected { (result
            ≡ Err RefsError.NotConnected) ↔
            ((owns_of self.old.objects object apartment || is_connected self.old.stubs object) ≡ false) }
        ensures no_interface { (result
            ≡ Err RefsError.NoInterface) ↔
            (((owns_of self.old.objects object apartment || is_connected self.old.stubs object) ≡ true)
            × (offers self.old object iface ≡ false)) }
        ensures row { OnOk result (books_of self.new
            ≡ changed (books_of self.old) (change (owns_of self.old.objects) (books_of self.old)
            (Asks apartment object iface))) }
        ensures places { OnOk result (OneMore self.old self.new apartment object
            (owns_of self.old.objects object apartment)) }
        ensures offers { SameSets self.old self.new }
        ensures issued { OnOk result (self.new.issued ≡ self.old.issued + 1) }
        ensures room { 0 < self.old.spare → result ≡ Err RefsError.Memory → ⊥ }
        ensures sure { 0 < self.old.spare
            → (owns_of self.old.objects object apartment || is_connected self.old.stubs object) ≡ true
            → offers self.old object iface ≡ true → IsOk result }
        ensures err { OnErr result (self.new ≡ self.old) }
        ensures spare { self.old.spare ≤ self.new.spare + 1 }
    {
        self.holders.stands();
        let is_owned = self.holders.owns(object, apartment);
        match self.holders.query(apartment, object, iface) {
            Ok(()) => {
                gain_hold(&mut self.holds, object, !is_owned);
                Ok(())
            }
            Err(error) => Err(error),
        }
    }
}
