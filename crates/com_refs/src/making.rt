//! Objects are made, and are no longer connected.
ghost use Rattle.std.specs.Prelude.{◌≡◌, ◌+◌, ◌<◌, ◌≤◌, ◌&&◌, ◌==◌, ℕ, true, false, not, length, OnOk};
ghost use Rattle.std.specs.Prelude.{OnErr, IsOk};
ghost use Rattle.com_refs_holders.specs.Tables.{books_of, owners_of, is_owned, SameSets};
ghost use Rattle.com_refs_holders.specs.Steps.{among};
ghost use Rattle.com_refs_books.specs.Changes.{cut};
ghost use Rattle.com_refs.specs.Makes.{IsMade, IsNewObject};

use crate::holds::gain_hold;
use crate::{MOST_INTERFACES, MOST_ISSUED, Memory, NewObject, Refs};

impl Refs {
    /// A new object of the owner's is made, and the apartment has a place for it by an interface of its set, of
    /// at most `MOST_INTERFACES`. In the owner's apartment the place is a direct one; elsewhere a proxy has it,
    /// with `PUBLIC_REFERENCES` public references. The only error is want of memory, and then nothing changed; it
    /// does not come where there is room for a call. Source: Essential COM, chapter 5, on stubs.
    pub fn made(
        &mut self,
        object: u32,
        owner: u32,
        apartment: u32,
        iface: u16,
        set: &[u16],
    ) -> Result<(), Memory>
        requires new { IsNewObject self.old.objects object }
        requires small { length set.now ≤ MOST_INTERFACES }
        requires within { among iface set.now ≡ true }
        requires few { self.old.issued + 1 < MOST_ISSUED }
        ensures made { OnOk result (IsMade self.old self.new
            (record { object = object; owner = owner; agile = false; apartment = apartment; iface = iface })
            set.now) }
        ensures err { OnErr result (self.new ≡ self.old) }
        ensures room { 0 < self.old.spare → IsOk result }
        ensures spare { self.old.spare ≤ self.new.spare + 1 }
    {
        let making = NewObject {
            object,
            owner,
            agile: false,
            apartment,
            iface,
        };
        self.make_object(making, set)
    }

    /// A new object that every apartment owns is made, and the apartment has a direct place for it. Its owner
    /// reads as the apartment 0. The only error is want of memory, and then nothing changed; it does not come
    /// where there is room for a call. Source: the documentation of CoCreateFreeThreadedMarshaler.
    pub fn made_agile(
        &mut self,
        object: u32,
        apartment: u32,
        iface: u16,
        set: &[u16],
    ) -> Result<(), Memory>
        requires new { IsNewObject self.old.objects object }
        requires small { length set.now ≤ MOST_INTERFACES }
        requires within { among iface set.now ≡ true }
        requires few { self.old.issued + 1 < MOST_ISSUED }
        ensures made { OnOk result (IsMade self.old self.new
            (record { object = object; owner = 0; agile = true; apartment = apartment; iface = iface })
            set.now) }
        ensures err { OnErr result (self.new ≡ self.old) }
        ensures room { 0 < self.old.spare → IsOk result }
        ensures spare { self.old.spare ≤ self.new.spare + 1 }
    {
        let making = NewObject {
            object,
            owner: 0,
            agile: true,
            apartment,
            iface,
        };
        self.make_object(making, set)
    }

    /// A new object is made, as `made` and `made_agile` say of one that an apartment owns and of one that every
    /// apartment owns.
    pub fn make_object(&mut self, making: NewObject, set: &[u16]) -> Result<(), Memory>
        requires new { IsNewObject self.old.objects making.object }
        requires small { length set.now ≤ MOST_INTERFACES }
        requires within { among making.iface set.now ≡ true }
        requires few { self.old.issued + 1 < MOST_ISSUED }
        ensures made { OnOk result (IsMade self.old self.new making set.now) }
        ensures err { OnErr result (self.new ≡ self.old) }
        ensures room { 0 < self.old.spare → IsOk result }
        ensures spare { self.old.spare ≤ self.new.spare + 1 }
    {
        self.reserve(1)?;
        self.hold_made(making, set);
        Ok(())
    }

    // Books the object as made, where there is room for its row.
    fn hold_made(&mut self, making: NewObject, set: &[u16])
        requires new { IsNewObject self.old.objects making.object }
        requires small { length set.now ≤ MOST_INTERFACES }
        requires within { among making.iface set.now ≡ true }
        requires few { self.old.issued + 1 < MOST_ISSUED }
        requires room { 0 < self.old.spare }
        ensures made { IsMade self.old self.new making set.now }
        ensures spare { self.old.spare ≤ self.new.spare + 1 }
    {
        self.holders.stands();
        self.holders.make_object(
            making.owner,
            making.agile,
            set,
            making.apartment,
            making.iface,
        );
        self.holds.push_reserved(0);
        let is_owned = self.holders.owns(making.object, making.apartment);
        gain_hold(&mut self.holds, making.object, !is_owned);
    }

    /// The object is no longer connected: nothing of it is held any more but its direct places. Source:
    /// CoDisconnectObject.
    pub fn disconnect(&mut self, object: u32)
        ensures books { books_of self.new
            ≡ cut (λ x. (books_of self.old).live x && not (x == object)) (books_of self.old) }
        ensures objects { self.new.objects ≡ self.old.objects }
        ensures proxies { self.new.proxies ≡ self.old.proxies }
        ensures offers { SameSets self.old self.new }
        ensures issued { self.new.issued ≡ self.old.issued }
        ensures spare { self.new.spare ≡ self.old.spare }
    {
        self.holders.disconnect(object);
    }

    /// All objects that the apartment owns are no longer connected.
    pub fn end_apartment(&mut self, apartment: u32)
        requires few { self.old.issued ≤ MOST_ISSUED }
        ensures books { books_of self.new
            ≡ cut (λ x. (books_of self.old).live x && not (is_owned
            (owners_of self.old.objects) apartment x)) (books_of self.old) }
        ensures objects { self.new.objects ≡ self.old.objects }
        ensures proxies { self.new.proxies ≡ self.old.proxies }
        ensures offers { SameSets self.old self.new }
        ensures issued { self.new.issued ≡ self.old.issued }
        ensures spare { self.new.spare ≡ self.old.spare }
    {
        self.holders.end_apartment(apartment);
    }
}
