//! Places of references come and go: direct ones, and those of proxies.
ghost use Rattle.std.specs.Prelude.{◌≡◌, ◌+◌, ◌<◌, ◌≤◌, ◌↔◌, ◌||◌, ℕ, true, false, length, OnOk, OnErr};
ghost use Rattle.std.specs.Prelude.{IsOk, IsTrue, Err, if◌then◌else◌, IfNone, IfSome};
ghost use Rattle.com_stub.specs.StubRows.{is_connected};
ghost use Rattle.com_proxy.specs.Rows.{local_of, IsFree};
ghost use Rattle.com_refs_books.specs.Changes.{changed, change, Asks, ToProxy, given_back};
ghost use Rattle.com_refs_holders.specs.Tables.{books_of, owns_of, object_in, offers, SameSets};
ghost use Rattle.com_refs_holders.specs.Places.{OneMore, OneLess};
ghost use Rattle.com_refs_holders.specs.Stands.{Tells};

use crate::balance::{issue, let_go};
use crate::objects::{gain_direct, lose_direct};
use crate::reserved::gain;
use crate::{Holders, HoldersError, MOST_ISSUED, Memory};
use com_base::{PUBLIC_REFERENCES, RefValue};

impl Holders {
    // One direct place more of an object that was made: an apartment that owns it holds one reference more.
    // No public reference moves.
    pub(crate) fn keep_direct(&mut self, object: u32)
        requires made { (0 < object) × (object ≤ length self.old.objects) }
        requires few { self.old.issued < MOST_ISSUED }
        ensures books { books_of self.new ≡ books_of self.old }
        ensures places { (a : ℕ) → OneMore self.old self.new a object true }
        ensures counters { self.new.counters ≡ self.old.counters }
        ensures issued { self.new.issued ≡ self.old.issued + 1 }
        ensures spare { self.new.spare ≡ self.old.spare }
    {
        gain_direct(&mut self.objects, object);
        self.issued += 1;
    }

    /// One place more of an apartment that does not own the object and has one: its proxy counts one local
    /// reference more, and no public reference moves. Source: Essential COM, chapter 5, on proxies.
    pub fn keep_elsewhere(&mut self, apartment: u32, held: RefValue)
        requires elsewhere { owns_of self.old.objects held.object apartment ≡ false }
        requires held { 0 < local_of self.old.proxies apartment held.object held.iface }
        requires few { self.old.issued < MOST_ISSUED }
        ensures books { books_of self.new ≡ books_of self.old }
        ensures places { OneMore self.old self.new apartment held.object false }
        ensures counters { self.new.counters ≡ self.old.counters }
        ensures issued { self.new.issued ≡ self.old.issued + 1 }
        ensures spare { self.new.spare ≡ self.old.spare }
    {
        self.proxies.copy(apartment, held.object, held.iface);
        self.issued += 1;
    }

    // One place more of an apartment that does not own the connected object, with `PUBLIC_REFERENCES` new public references,
    // which its stub counts from now on. Source: MS-DCOM 3.2.4.4.
    fn issue_elsewhere(&mut self, apartment: u32, held: RefValue)
        requires elsewhere { owns_of self.old.objects held.object apartment ≡ false }
        requires connected { is_connected self.old.stubs held.object ≡ true }
        requires known { offers self.old held.object held.iface ≡ true }
        requires few { self.old.issued < MOST_ISSUED }
        requires room { 0 < self.old.spare }
        ensures books { books_of self.new
            ≡ changed (books_of self.old) (ToProxy apartment held.object held.iface PUBLIC_REFERENCES) }
        ensures places { OneMore self.old self.new apartment held.object false }
        ensures offers { SameSets self.old self.new }
        ensures issued { self.new.issued ≡ self.old.issued + 1 }
        ensures spare { self.new.spare + 1 ≡ self.old.spare }
    {
        gain(&mut self.proxies, apartment, held, PUBLIC_REFERENCES);
        issue(&mut self.stubs, held, PUBLIC_REFERENCES);
        self.issued += 1;
        self.room -= 1;
    }

    // One place more of an apartment that does not own the object, and no public reference.
    fn share_elsewhere(&mut self, apartment: u32, held: RefValue)
        requires elsewhere { owns_of self.old.objects held.object apartment ≡ false }
        requires known { offers self.old held.object held.iface ≡ true }
        requires few { self.old.issued < MOST_ISSUED }
        requires room { 0 < self.old.spare }
        ensures books { books_of self.new ≡ books_of self.old }
        ensures places { OneMore self.old self.new apartment held.object false }
        ensures counters { self.new.counters ≡ self.old.counters }
        ensures issued { self.new.issued ≡ self.old.issued + 1 }
        ensures spare { self.new.spare + 1 ≡ self.old.spare }
    {
        let _public = self.public(apartment, held.object, held.iface);
        gain(&mut self.proxies, apartment, held, 0);
        self.issued += 1;
        self.room -= 1;
    }

    /// One place more of an apartment that does not own the connected object, with `PUBLIC_REFERENCES` new public references.
    /// Room is made first. The only error is want of memory, and then nothing changed; it does not come where
    /// there is room for a call.
    pub fn take_new(&mut self, apartment: u32, held: RefValue) -> Result<(), Memory>
        requires elsewhere { owns_of self.old.objects held.object apartment ≡ false }
        requires connected { is_connected self.old.stubs held.object ≡ true }
        requires known { offers self.old held.object held.iface ≡ true }
        requires few { self.old.issued < MOST_ISSUED }
        ensures books { OnOk result (books_of self.new
            ≡ changed (books_of self.old) (ToProxy apartment held.object held.iface PUBLIC_REFERENCES)) }
        ensures places { OnOk result (OneMore self.old self.new apartment held.object false) }
        ensures offers { SameSets self.old self.new }
        ensures issued { OnOk result (self.new.issued ≡ self.old.issued + 1) }
        ensures most { self.new.spare ≤ self.old.spare }
        ensures err { OnErr result (self.new ≡ self.old) }
        ensures room { 0 < self.old.spare → IsOk result }
        ensures spare { self.old.spare ≤ self.new.spare + 1 }
    {
        self.make_room()?;
        self.issue_elsewhere(apartment, held);
        Ok(())
    }

    /// One place more of an apartment that does not own the object, without a public reference. Room is made
    /// first. The only error is want of memory, and then nothing changed; it does not come where there is
    /// room for a call.
    pub fn take_shared(&mut self, apartment: u32, held: RefValue) -> Result<(), Memory>
        requires elsewhere { owns_of self.old.objects held.object apartment ≡ false }
        requires known { offers self.old held.object held.iface ≡ true }
        requires few { self.old.issued < MOST_ISSUED }
        ensures books { OnOk result (books_of self.new ≡ books_of self.old) }
        ensures places { OnOk result (OneMore self.old self.new apartment held.object false) }
        ensures offers { SameSets self.old self.new }
        ensures issued { OnOk result (self.new.issued ≡ self.old.issued + 1) }
        ensures most { self.new.spare ≤ self.old.spare }
        ensures err { OnErr result (self.new ≡ self.old) }
        ensures room { 0 < self.old.spare → IsOk result }
        ensures spare { self.old.spare ≤ self.new.spare + 1 }
    {
        self.make_room()?;
        self.share_elsewhere(apartment, held);
        Ok(())
    }

    /// One place less of an apartment that owns the object, of at least one. Stub and proxies stay.
    pub fn leave_direct(&mut self, object: u32)
        requires some { 0 < (object_in self.old.objects object).direct }
        ensures books { books_of self.new ≡ books_of self.old }
        ensures places { (a : ℕ) → OneLess self.old self.new a object true }
        ensures stubs { self.new.stubs ≡ self.old.stubs }
        ensures packets { self.new.packets ≡ self.old.packets }
        ensures cookies { self.new.cookies ≡ self.old.cookies }
        ensures counters { self.new.counters ≡ self.old.counters }
        ensures issued { self.new.issued ≡ self.old.issued }
        ensures spare { self.new.spare ≡ self.old.spare }
        ensures given { (n a : ℕ) (places : ℕ → ℕ → ℕ) → a < n → owns_of self.old.objects object a ≡ true
            → Tells n places self.new → books_of self.new ≡ given_back n places (books_of self.old) }
    {
        lose_direct(&mut self.objects, object);
    }

    /// One place less of an apartment that does not own the object. With its last place of a connected object
    /// the proxy gives all its public references back to the stub. Source: Essential COM, chapter 5, on
    /// proxies.
    pub fn leave_elsewhere(&mut self, apartment: u32, held: RefValue)
        requires elsewhere { owns_of self.old.objects held.object apartment ≡ false }
        requires held { 0 < local_of self.old.proxies apartment held.object held.iface }
        ensures places { OneLess self.old self.new apartment held.object false }
        ensures connected { (x : ℕ) → is_connected self.new.stubs x ≡ is_connected self.old.stubs x }
        ensures packets { self.new.packets ≡ self.old.packets }
        ensures cookies { self.new.cookies ≡ self.old.cookies }
        ensures offers { SameSets self.old self.new }
        ensures issued { self.new.issued ≡ self.old.issued }
        ensures spare { self.new.spare ≡ self.old.spare }
        ensures given { (n : ℕ) (places : ℕ → ℕ → ℕ) → apartment < n → Tells n places self.new
            → books_of self.new ≡ given_back n places (books_of self.old) }
    {
        let_go(&mut self.stubs, &mut self.proxies, apartment, held);
    }

    /// One place less. With its last place a proxy of a connected object gives all its public references
    /// back.
    pub fn release(&mut self, apartment: u32, held: RefValue)
        requires proxied { owns_of self.old.objects held.object apartment ≡ false
            → 0 < local_of self.old.proxies apartment held.object held.iface }
        requires direct { owns_of self.old.objects held.object apartment ≡ true
            → 0 < (object_in self.old.objects held.object).direct }
        ensures places { OneLess self.old self.new apartment held.object
            (owns_of self.old.objects held.object apartment) }
        ensures connected { (x : ℕ) → is_connected self.new.stubs x ≡ is_connected self.old.stubs x }
        ensures packets { self.new.packets ≡ self.old.packets }
        ensures cookies { self.new.cookies ≡ self.old.cookies }
        ensures offers { SameSets self.old self.new }
        ensures issued { self.new.issued ≡ self.old.issued }
        ensures spare { self.new.spare ≡ self.old.spare }
        ensures given { (n : ℕ) (places : ℕ → ℕ → ℕ) → apartment < n → Tells n places self.new
            → books_of self.new ≡ given_back n places (books_of self.old) }
    {
        if self.owns(held.object, apartment) {
            self.leave_direct(held.object);
            return;
        }
        self.leave_elsewhere(apartment, held);
    }

    /// One place more of a reference that the apartment holds.
    pub fn copy(&mut self, apartment: u32, held: RefValue)
        requires proxied { owns_of self.old.objects held.object apartment ≡ false
            → 0 < local_of self.old.proxies apartment held.object held.iface }
        requires direct { owns_of self.old.objects held.object apartment ≡ true
            → 0 < (object_in self.old.objects held.object).direct }
        requires few { self.old.issued < MOST_ISSUED }
        ensures books { books_of self.new ≡ books_of self.old }
        ensures places { OneMore self.old self.new apartment held.object
            (owns_of self.old.objects held.object apartment) }
        ensures offers { SameSets self.old self.new }
        ensures issued { self.new.issued ≡ self.old.issued + 1 }
        ensures spare { self.new.spare ≡ self.old.spare }
    {
        if self.owns(held.object, apartment) {
            self.keep_direct(held.object);
            return;
        }
        self.keep_elsewhere(apartment, held);
    }

    /// One place more of a reference, and no public reference. The apartment need not hold it: a body of an
    /// object that every apartment owns writes the object's links in the neutral apartment. The only error is
    /// want of memory.
    pub fn share(&mut self, apartment: u32, held: RefValue) -> Result<(), Memory>
        requires known { offers self.old held.object held.iface ≡ true }
        requires few { self.old.issued < MOST_ISSUED }
        ensures books { OnOk result (books_of self.new ≡ books_of self.old) }
        ensures places { OnOk result (OneMore self.old self.new apartment held.object
            (owns_of self.old.objects held.object apartment)) }
        ensures offers { SameSets self.old self.new }
        ensures issued { OnOk result (self.new.issued ≡ self.old.issued + 1) }
        ensures room { 0 < self.old.spare → IsOk result }
        ensures err { OnErr result (self.new ≡ self.old) }
        ensures most { self.new.spare ≤ self.old.spare }
        ensures spare { self.old.spare ≤ self.new.spare + 1 }
    {
        if self.owns(held.object, apartment) {
            self.stands();
            self.keep_direct(held.object);
            return Ok(());
        }
        self.take_shared(apartment, held)
    }

    /// A reference to another interface of an object of which the apartment holds one. `NotConnected` exactly
    /// where the apartment does not own the object, which is not connected; else `NoInterface` exactly where
    /// the interface is not in its set.
    pub fn query(&mut self, apartment: u32, object: u32, iface: u16) -> Result<(), HoldersError>
        requires few { self.old.issued < MOST_ISSUED }
        ensures not_connected { (result
            ≡ Err HoldersError.NotConnected) ↔
            ((owns_of self.old.objects object apartment || is_connected self.old.stubs object) ≡ false) }
        ensures no_interface { (result
            ≡ Err HoldersError.NoInterface) ↔
            (((owns_of self.old.objects object apartment || is_connected self.old.stubs object) ≡ true)
            × (offers self.old object iface ≡ false)) }
        ensures offered { OnOk result (offers self.old object iface ≡ true) }
        ensures row { OnOk result (books_of self.new
            ≡ changed (books_of self.old) (change (owns_of self.old.objects) (books_of self.old)
            (Asks apartment object iface))) }
        ensures places { OnOk result (OneMore self.old self.new apartment object
            (owns_of self.old.objects object apartment)) }
        ensures offers { SameSets self.old self.new }
        ensures issued { OnOk result (self.new.issued ≡ self.old.issued + 1) }
        ensures room { 0 < self.old.spare → result ≡ Err HoldersError.Memory → ⊥ }
        ensures sure { 0 < self.old.spare
            → (owns_of self.old.objects object apartment || is_connected self.old.stubs object) ≡ true
            → offers self.old object iface ≡ true → IsOk result }
        ensures err { OnErr result (self.new ≡ self.old) }
        ensures most { self.new.spare ≤ self.old.spare }
        ensures spare { self.old.spare ≤ self.new.spare + 1 }
    {
        let is_owned = self.owns(object, apartment);
        if !(is_owned || self.is_connected(object)) {
            return Err(HoldersError::NotConnected);
        }
        if !self.offers(object, iface) {
            return Err(HoldersError::NoInterface);
        }
        if is_owned {
            self.stands();
            self.keep_direct(object);
            return Ok(());
        }
        match self.ask(apartment, RefValue { object, iface }) {
            Ok(()) => Ok(()),
            Err(_) => Err(HoldersError::Memory),
        }
    }

    // One place more of an apartment that does not own the object, with new references where the proxy has
    // none of the interface.
    fn ask(&mut self, apartment: u32, held: RefValue) -> Result<(), Memory>
        requires elsewhere { owns_of self.old.objects held.object apartment ≡ false }
        requires connected { is_connected self.old.stubs held.object ≡ true }
        requires known { offers self.old held.object held.iface ≡ true }
        requires few { self.old.issued < MOST_ISSUED }
        ensures row { OnOk result (books_of self.new
            ≡ changed (books_of self.old) (change (owns_of self.old.objects) (books_of self.old)
            (Asks apartment held.object held.iface))) }
        ensures places { OnOk result (OneMore self.old self.new apartment held.object false) }
        ensures offers { SameSets self.old self.new }
        ensures issued { OnOk result (self.new.issued ≡ self.old.issued + 1) }
        ensures room { 0 < self.old.spare → IsOk result }
        ensures err { OnErr result (self.new ≡ self.old) }
        ensures most { self.new.spare ≤ self.old.spare }
        ensures spare { self.old.spare ≤ self.new.spare + 1 }
    {
        if self.public(apartment, held.object, held.iface) > 0 {
            return self.take_shared(apartment, held);
        }
        self.take_new(apartment, held)
    }

    /// Whether the apartment has a place of the reference: a direct one of the object where it owns that,
    /// else one of its proxy.
    pub fn has_place(&self, apartment: u32, held: RefValue) -> bool
        ensures exact { IsTrue result ↔ (0 < (if owns_of self.now.objects held.object apartment
            then (object_in self.now.objects held.object).direct
            else local_of self.now.proxies apartment held.object held.iface)) }
        ensures proxied { IsTrue result → owns_of self.now.objects held.object apartment ≡ false
            → 0 < local_of self.now.proxies apartment held.object held.iface }
        ensures direct { IsTrue result → owns_of self.now.objects held.object apartment ≡ true
            → 0 < (object_in self.now.objects held.object).direct }
    {
        if self.owns(held.object, apartment) {
            return self.direct(held.object) > 0;
        }
        self.proxies.local(apartment, held.object, held.iface) > 0
    }

    /// A reference to the object by which the apartment has a place: the one given where it has one of that,
    /// else one by another interface. `None` exactly where it has no place of the object.
    pub fn place_of(&self, apartment: u32, held: RefValue) -> Option<RefValue>
        ensures object { IfSome result (λ place. place.object ≡ held.object) }
        ensures proxied { IfSome result (λ place. owns_of self.now.objects held.object apartment ≡ false
            → 0 < local_of self.now.proxies apartment held.object place.iface) }
        ensures direct { IfSome result (λ place. owns_of self.now.objects held.object apartment ≡ true
            → 0 < (object_in self.now.objects held.object).direct) }
        ensures free { IfNone result (owns_of self.now.objects held.object apartment ≡ false
            → IsFree self.now.proxies apartment held.object) }
        ensures none { IfNone result (owns_of self.now.objects held.object apartment ≡ true
            → (object_in self.now.objects held.object).direct ≡ 0) }
    {
        if self.has_place(apartment, held) {
            return Some(held);
        }
        if self.owns(held.object, apartment) {
            return None;
        }
        match self.proxies.any_local(apartment, held.object) {
            None => None,
            Some(iface) => Some(RefValue {
                object: held.object,
                iface,
            }),
        }
    }
}
