//! Cookies of the global interface table are given, read and revoked.
ghost use Rattle.std.specs.Prelude.{◌≡◌, ◌+◌, ◌<◌, ◌≤◌, ◌↔◌, ℕ, true, false, length, OnOk, OnErr, IfOk};
ghost use Rattle.std.specs.Prelude.{IsOk, Err, Some, None, IsSomeAnd};
ghost use Rattle.com_stub.specs.StubRows.{is_connected};
ghost use Rattle.com_slots.specs.Table.{held_in};
ghost use Rattle.com_refs_books.specs.Changes.{changed, change, Takes, ToCookie, Withdraw};
ghost use Rattle.com_refs_holders.specs.Tables.{books_of, owns_of, offers, SameSets};
ghost use Rattle.com_refs_holders.specs.Places.{OneMore, SamePlaces};

use crate::balance::{issue, take_back};
use crate::reserved::register;
use crate::{Holders, HoldersError, MOST_ISSUED, Memory};
use com_base::RefValue;

impl Holders {
    // A cookie more, with one new reference.
    fn issue_cookie(&mut self, held: RefValue) -> u32
        requires connected { is_connected self.old.stubs held.object ≡ true }
        requires known { offers self.old held.object held.iface ≡ true }
        requires few { self.old.issued < MOST_ISSUED }
        requires room { 0 < self.old.spare }
        ensures cookie { result ≡ length self.old.cookies + 1 }
        ensures books { books_of self.new ≡ changed (books_of self.old) (ToCookie held.object held.iface 1) }
        ensures places { SamePlaces self.old self.new }
        ensures offers { SameSets self.old self.new }
        ensures issued { self.new.issued ≡ self.old.issued + 1 }
        ensures spare { self.new.spare + 1 ≡ self.old.spare }
    {
        let cookie = register(&mut self.cookies, held);
        issue(&mut self.stubs, held, 1);
        self.issued += 1;
        self.room -= 1;
        cookie
    }

    /// A new cookie of a connected object, counted from 1, with one new public reference. Room is made first.
    /// The only error is want of memory, and then nothing changed; it does not come where there is room for a
    /// call. Source: the documentation of IGlobalInterfaceTable.
    pub fn give_cookie(&mut self, held: RefValue) -> Result<u32, Memory>
        requires connected { is_connected self.old.stubs held.object ≡ true }
        requires known { offers self.old held.object held.iface ≡ true }
        requires few { self.old.issued < MOST_ISSUED }
        ensures cookie { IfOk result (λ cookie. cookie ≡ length self.old.cookies + 1) }
        ensures books { OnOk result (books_of self.new
            ≡ changed (books_of self.old) (ToCookie held.object held.iface 1)) }
        ensures places { SamePlaces self.old self.new }
        ensures offers { SameSets self.old self.new }
        ensures issued { OnOk result (self.new.issued ≡ self.old.issued + 1) }
        ensures most { self.new.spare ≤ self.old.spare }
        ensures err { OnErr result (self.new ≡ self.old) }
        ensures room { 0 < self.old.spare → IsOk result }
        ensures spare { self.old.spare ≤ self.new.spare + 1 }
    {
        self.make_room()?;
        Ok(self.issue_cookie(held))
    }

    /// A cookie for a reference that the apartment holds. `NotConnected` exactly where the object is not
    /// connected. Source: RegisterInterfaceInGlobal.
    pub fn register(&mut self, held: RefValue) -> Result<u32, HoldersError>
        requires known { offers self.old held.object held.iface ≡ true }
        requires few { self.old.issued < MOST_ISSUED }
        ensures not_connected { (result
            ≡ Err HoldersError.NotConnected) ↔ (is_connected self.old.stubs held.object ≡ false) }
        ensures cookie { IfOk result (λ cookie. cookie ≡ length self.old.cookies + 1) }
        ensures books { OnOk result (books_of self.new
            ≡ changed (books_of self.old) (ToCookie held.object held.iface 1)) }
        ensures places { OnOk result (SamePlaces self.old self.new) }
        ensures offers { SameSets self.old self.new }
        ensures issued { OnOk result (self.new.issued ≡ self.old.issued + 1) }
        ensures room { 0 < self.old.spare → result ≡ Err HoldersError.Memory → ⊥ }
        ensures sure { 0 < self.old.spare → is_connected self.old.stubs held.object ≡ true → IsOk result }
        ensures err { OnErr result (self.new ≡ self.old) }
        ensures most { self.new.spare ≤ self.old.spare }
        ensures spare { self.old.spare ≤ self.new.spare + 1 }
    {
        if !self.is_connected(held.object) {
            return Err(HoldersError::NotConnected);
        }
        match self.give_cookie(held) {
            Ok(cookie) => Ok(cookie),
            Err(_) => Err(HoldersError::Memory),
        }
    }

    /// The reference of a cookie, in another place. `Unknown` exactly where the cookie was never given or was
    /// revoked; else
    /// `NotConnected` exactly where its object is not connected. Source: GetInterfaceFromGlobal.
    pub fn get(&mut self, apartment: u32, cookie: u32) -> Result<RefValue, HoldersError>
        requires few { self.old.issued < MOST_ISSUED }
        ensures unknown { (result ≡ Err HoldersError.Unknown) ↔ (held_in self.old.cookies cookie ≡ None) }
        ensures not_connected { (result
            ≡ Err HoldersError.NotConnected) ↔ IsSomeAnd (held_in self.old.cookies cookie)
            (λ held. is_connected self.old.stubs held.object ≡ false) }
        ensures held { IfOk result (λ held. held_in self.old.cookies cookie ≡ Some held) }
        ensures row { IfOk result (λ held. books_of self.new
            ≡ changed (books_of self.old) (change (owns_of self.old.objects) (books_of self.old)
            (Takes apartment held.object held.iface))) }
        ensures places { IfOk result (λ held. OneMore self.old self.new apartment held.object
            (owns_of self.old.objects held.object apartment)) }
        ensures offers { SameSets self.old self.new }
        ensures issued { OnOk result (self.new.issued ≡ self.old.issued + 1) }
        ensures room { 0 < self.old.spare → result ≡ Err HoldersError.Memory → ⊥ }
        ensures sure { 0 < self.old.spare → IsSomeAnd (held_in self.old.cookies cookie)
            (λ held. is_connected self.old.stubs held.object ≡ true) → IsOk result }
        ensures err { OnErr result (self.new ≡ self.old) }
        ensures most { self.new.spare ≤ self.old.spare }
        ensures spare { self.old.spare ≤ self.new.spare + 1 }
    {
        let Some(held) = self.cookie(cookie) else {
            return Err(HoldersError::Unknown);
        };
        if !self.is_connected(held.object) {
            return Err(HoldersError::NotConnected);
        }
        self.stands();
        if self.owns(held.object, apartment) {
            self.keep_direct(held.object);
            return Ok(held);
        }
        match self.take_new(apartment, held) {
            Ok(()) => Ok(held),
            Err(_) => Err(HoldersError::Memory),
        }
    }

    /// A cookie of the global interface table ends. Its public reference goes back to the stub, where the
    /// object is connected. Source: the documentation of IGlobalInterfaceTable.
    pub fn withdraw(&mut self, cookie: u32, held: RefValue)
        requires held { held_in self.old.cookies cookie ≡ Some held }
        ensures books { books_of self.new ≡ changed (books_of self.old) (Withdraw cookie) }
        ensures places { SamePlaces self.old self.new }
        ensures offers { SameSets self.old self.new }
        ensures issued { self.new.issued ≡ self.old.issued }
        ensures spare { self.new.spare ≡ self.old.spare }
    {
        self.cookies.revoke(cookie);
        take_back(&mut self.stubs, held);
    }

    /// A cookie ends, and its reference goes back. `Unknown` exactly where the cookie was never given or was
    /// revoked. Source: RevokeInterfaceFromGlobal.
    pub fn revoke(&mut self, cookie: u32) -> Result<RefValue, HoldersError>
        ensures held { IfOk result (λ held. held_in self.old.cookies cookie ≡ Some held) }
        ensures unknown { OnErr result (held_in self.old.cookies cookie ≡ None) }
        ensures only { OnErr result (result ≡ Err HoldersError.Unknown) }
        ensures books { OnOk result (books_of self.new ≡ changed (books_of self.old) (Withdraw cookie)) }
        ensures places { OnOk result (SamePlaces self.old self.new) }
        ensures offers { SameSets self.old self.new }
        ensures issued { self.new.issued ≡ self.old.issued }
        ensures err { OnErr result (self.new ≡ self.old) }
        ensures spare { self.new.spare ≡ self.old.spare }
    {
        let Some(held) = self.cookie(cookie) else {
            return Err(HoldersError::Unknown);
        };
        self.withdraw(cookie, held);
        Ok(held)
    }
}
