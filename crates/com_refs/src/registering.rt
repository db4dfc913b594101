//! Cookies of the global interface table are given, read and revoked.
ghost use Rattle.std.specs.Prelude.{◌≡◌, ◌+◌, ◌<◌, ◌≤◌, ◌↔◌, ℕ, true, false, length, OnOk, OnErr, IfOk};
ghost use Rattle.std.specs.Prelude.{IsOk, Err, Some, None, IsSomeAnd};
ghost use Rattle.com_stub.specs.StubRows.{is_connected};
ghost use Rattle.com_slots.specs.Table.{held_in};
ghost use Rattle.com_refs_holders.specs.Tables.{books_of, owns_of, offers, SameSets};
ghost use Rattle.com_refs_holders.specs.Places.{OneMore, SamePlaces};
ghost use Rattle.com_refs_holders.specs.Stands.{Tells};
ghost use Rattle.com_refs_books.specs.Changes.{changed, change, cookie, Takes, Revokes, ToCookie};
ghost use Rattle.com_refs_books.specs.Ends.{ends};
ghost use Rattle.com_refs.specs.Counts.{unheld};
ghost use Rattle.com_refs.specs.Totals.{Totals};

use crate::holds::{gain_hold, hold_at, if_lost, lose_hold, settle};
use crate::{MOST_ISSUED, Refs, RefsError};
use com_base::RefValue;

impl Refs {
    /// A cookie of a reference that the apartment holds. `NotConnected` exactly where the object is not
    /// connected. Source: IGlobalInterfaceTable::RegisterInterfaceInGlobal.
    pub fn register(&mut self, held: RefValue) -> Result<u32, RefsError>
        requires known { offers self.old held.object held.iface ≡ true }
        requires few { self.old.issued < MOST_ISSUED }
        ensures not_connected { (result
            ≡ Err RefsError.NotConnected) ↔ (is_connected self.old.stubs held.object ≡ false) }
        ensures cookie { IfOk result (λ cookie. cookie ≡ length self.old.cookies + 1) }
        ensures books { OnOk result (books_of self.new
            ≡ changed (books_of self.old) (ToCookie held.object held.iface 1)) }
        ensures places { OnOk result (SamePlaces self.old self.new) }
        ensures offers { SameSets self.old self.new }
        ensures issued { OnOk result (self.new.issued ≡ self.old.issued + 1) }
        ensures room { 0 < self.old.spare → result ≡ Err RefsError.Memory → ⊥ }
        ensures sure { 0 < self.old.spare → is_connected self.old.stubs held.object ≡ true → IsOk result }
        ensures err { OnErr result (self.new ≡ self.old) }
        ensures spare { self.old.spare ≤ self.new.spare + 1 }
    {
        self.holders.stands();
        match self.holders.register(held) {
            Ok(cookie) => {
                gain_hold(&mut self.holds, held.object, true);
                Ok(cookie)
            }
            Err(error) => Err(error),
        }
    }

    /// The reference of a cookie, in a place of the apartment. `Unknown` exactly where the cookie was never
    /// given or was revoked; else `NotConnected` exactly where its object is not connected. Source:
    /// IGlobalInterfaceTable::GetInterfaceFromGlobal.
    pub fn get(&mut self, apartment: u32, cookie: u32) -> Result<RefValue, RefsError>
        requires few { self.old.issued < MOST_ISSUED }
        ensures unknown { (result ≡ Err RefsError.Unknown) ↔ (held_in self.old.cookies cookie ≡ None) }
        ensures not_connected { (result
            ≡ Err RefsError.NotConnected) ↔ IsSomeAnd (held_in self.old.cookies cookie)
            (λ held. is_connected self.old.stubs held.object ≡ false) }
        ensures held { IfOk result (λ held. held_in self.old.cookies cookie ≡ Some held) }
        ensures row { IfOk result (λ held. books_of self.new
            ≡ changed (books_of self.old) (change (owns_of self.old.objects) (books_of self.old)
            (Takes apartment held.object held.iface))) }
        ensures places { IfOk result (λ held. OneMore self.old self.new apartment held.object
            (owns_of self.old.objects held.object apartment)) }
        ensures offers { SameSets self.old self.new }
        ensures issued { OnOk result (self.new.issued ≡ self.old.issued + 1) }
        ensures room { 0 < self.old.spare → result ≡ Err RefsError.Memory → ⊥ }
        ensures sure { 0 < self.old.spare → IsSomeAnd (held_in self.old.cookies cookie)
            (λ held. is_connected self.old.stubs held.object ≡ true) → IsOk result }
        ensures err { OnErr result (self.new ≡ self.old) }
        ensures spare { self.old.spare ≤ self.new.spare + 1 }
    {
        self.holders.stands();
        match self.holders.get(apartment, cookie) {
            Ok(held) => {
                let is_owned = self.holders.owns(held.object, apartment);
                gain_hold(&mut self.holds, held.object, !is_owned);
                Ok(held)
            }
            Err(error) => Err(error),
        }
    }

    /// A cookie ends, and its reference goes back, to the end of the entry. The answer is the cookie's object
    /// exactly where nothing holds it then. `Unknown` exactly where the cookie was never given or was
    /// revoked. Source: IGlobalInterfaceTable::RevokeInterfaceFromGlobal.
    pub fn revoke(&mut self, cookie: u32) -> Result<Option<u32>, RefsError>
        ensures unknown { (result ≡ Err RefsError.Unknown) ↔ (held_in self.old.cookies cookie ≡ None) }
        ensures only { OnErr result (result ≡ Err RefsError.Unknown) }
        ensures lost { IfOk result (λ lost. IsSomeAnd (held_in self.old.cookies cookie) (λ held. lost
            ≡ unheld self.new held.object)) }
        ensures books { OnOk result ((n : ℕ) (places : ℕ → ℕ → ℕ) → Tells n places self.new
            → Totals n places self.new → books_of self.new
            ≡ ends n places (changed (books_of self.old) (change (owns_of self.old.objects)
            (books_of self.old) (Revokes cookie)))) }
        ensures places { OnOk result (SamePlaces self.old self.new) }
        ensures offers { SameSets self.old self.new }
        ensures issued { self.new.issued ≡ self.old.issued }
        ensures err { OnErr result (self.new ≡ self.old) }
        ensures spare { self.new.spare ≡ self.old.spare }
    {
        let Ok(held) = self.holders.revoke(cookie) else {
            return Err(RefsError::Unknown);
        };
        self.holders.gives_nothing();
        lose_hold(&mut self.holds, held.object, true);
        let left = hold_at(&self.holds, held.object);
        let is_lost = settle(&mut self.holders, left, held.object);
        Ok(if_lost(is_lost, held.object))
    }
}
