//! The rows of the table of reference counting, one for each kind of entry.
ghost use Rattle.std.specs.Prelude.{◌≡◌, ◌+◌, ◌<◌, ◌≤◌, ◌^◌, ◌++◌, ◌∷◌, ◌==◌, [], ℕ, true};
ghost use Rattle.std.specs.Prelude.{length, vec_len, vec_capacity};
ghost use Rattle.com_refs_books.specs.Changes.{Takes, Asks, Marshals, Unmarshals, Drops, Registers, Revokes};
ghost use Rattle.com_refs_holders.specs.Places.{SamePlaces};
ghost use Rattle.com_refs_holders.specs.Tables.{offers};
ghost use Rattle.com_model.specs.Deeds.{cookie_number};
ghost use Rattle.com_state.specs.Parts.{named_at};
ghost use Rattle.com_refs_rows.specs.Books.{Rowed, Gained, Taken, Cut, moved_to};
ghost use Rattle.com_refs_rows.specs.Fits.{IsKept, IsOfferedTo};
ghost use Rattle.com_refs_rows.specs.Moving.{Climbs, HoldsMore, Touches, TouchesCounted};

use crate::touching::{touch, touch_if};
use com_base::{MarshalMode, RefValue};
use com_objects::Objects;
use com_reference_moves::Move;
use com_refs::{MOST_ISSUED, Refs};

/// The row brought a place.
pub fn bring(brought: &mut Vec<Move>, apartment: u32, reference: RefValue)
    requires place { vec_len brought.old < vec_capacity brought.old }
    ensures items { brought.new.items ≡ brought.old.items ++ moved_to apartment reference ∷ [] }
    ensures len { vec_len brought.new ≡ vec_len brought.old + 1 }
    ensures capacity { vec_capacity brought.new ≡ vec_capacity brought.old }
{
    brought.push_reserved(Move {
        apartment,
        reference,
    });
}

/// A reference is asked for another interface: its object is reached, and the interface is in its set.
pub fn query(refs: &mut Refs, brought: &mut Vec<Move>, apartment: u32, held: RefValue)
    requires offered { IsOfferedTo refs.old apartment held.object held.iface }
    requires few { refs.old.issued < MOST_ISSUED }
    requires room { 0 < refs.old.spare }
    requires place { vec_len brought.old < vec_capacity brought.old }
    ensures gained { Gained apartment
        (Asks apartment held.object held.iface ∷ []) refs.old refs.new brought.old.items brought.new.items }
    ensures more { HoldsMore refs.old refs.new }
    ensures offers { (x j : ℕ) → offers refs.new x j ≡ offers refs.old x j }
    ensures issued { refs.new.issued ≤ refs.old.issued + 1 }
    ensures spare { refs.old.spare ≤ refs.new.spare + 1 }
    ensures len { vec_len brought.new ≤ vec_len brought.old + 1 }
    ensures capacity { vec_capacity brought.old ≤ vec_capacity brought.new }
{
    match refs.query(apartment, held.object, held.iface) {
        Ok(()) => bring(brought, apartment, held),
        Err(_) => unreachable!(),
    }
}

/// A packet of a reference; what is not connected gets none.
pub fn marshal(refs: &mut Refs, apartment: u32, held: RefValue, mode: MarshalMode)
    requires known { offers refs.old held.object held.iface ≡ true }
    requires few { refs.old.issued < MOST_ISSUED }
    requires room { 0 < refs.old.spare }
    ensures row { Rowed refs.old refs.new (Marshals apartment mode held.object held.iface) }
    ensures more { HoldsMore refs.old refs.new }
    ensures places { SamePlaces refs.old refs.new }
    ensures offers { (x j : ℕ) → offers refs.new x j ≡ offers refs.old x j }
    ensures issued { refs.new.issued ≤ refs.old.issued + 1 }
    ensures spare { refs.old.spare ≤ refs.new.spare + 1 }
{
    if !refs.connected(held.object) {
        return;
    }
    match refs.marshal(apartment, held, mode) {
        Ok(_) => {}
        Err(_) => {}
    }
}

/// A packet is read; one that has ended gives nothing.
pub fn unmarshal(refs: &mut Refs, brought: &mut Vec<Move>, apartment: u32, number: u32)
    requires few { refs.old.issued < MOST_ISSUED }
    requires room { 0 < refs.old.spare }
    requires place { vec_len brought.old < vec_capacity brought.old }
    ensures row { Gained apartment
        (Unmarshals apartment number ∷ []) refs.old refs.new brought.old.items brought.new.items }
    ensures more { HoldsMore refs.old refs.new }
    ensures offers { (x j : ℕ) → offers refs.new x j ≡ offers refs.old x j }
    ensures issued { refs.new.issued ≤ refs.old.issued + 1 }
    ensures spare { refs.old.spare ≤ refs.new.spare + 1 }
    ensures len { vec_len brought.new ≤ vec_len brought.old + 1 }
    ensures capacity { vec_capacity brought.old ≤ vec_capacity brought.new }
{
    match refs.unmarshal(apartment, number) {
        Ok(packet) => bring(
            brought,
            apartment,
            RefValue {
                object: packet.object,
                iface: packet.iface,
            },
        ),
        Err(_) => {}
    }
}

/// A packet ends; one that has ended stays so.
pub fn drop_packet(refs: &mut Refs, touched: &mut Vec<u32>, number: u32)
    requires room { vec_len touched.old < vec_capacity touched.old }
    ensures row { Taken (Drops number) refs.old refs.new }
    ensures offers { (x j : ℕ) → offers refs.new x j ≡ offers refs.old x j }
    ensures issued { refs.new.issued ≡ refs.old.issued }
    ensures touched { TouchesCounted refs.old refs.new touched.old.items touched.new.items }
    ensures climbs { Climbs 0 touched.old.items → Climbs 0 touched.new.items }
    ensures len { vec_len touched.new ≤ vec_len touched.old + 1 }
    ensures capacity { vec_capacity touched.old ≤ vec_capacity touched.new }
{
    refs.rests();
    refs.tells();
    match refs.drop_packet(number) {
        Ok(lost) => {
            refs.tells();
            touch_if(touched, lost);
        }
        Err(_) => {}
    }
}

/// A cookie of a reference; what is not connected gets none.
pub fn register(refs: &mut Refs, held: RefValue)
    requires known { offers refs.old held.object held.iface ≡ true }
    requires few { refs.old.issued < MOST_ISSUED }
    requires room { 0 < refs.old.spare }
    ensures row { Rowed refs.old refs.new (Registers held.object held.iface) }
    ensures more { HoldsMore refs.old refs.new }
    ensures places { SamePlaces refs.old refs.new }
    ensures offers { (x j : ℕ) → offers refs.new x j ≡ offers refs.old x j }
    ensures issued { refs.new.issued ≤ refs.old.issued + 1 }
    ensures spare { refs.old.spare ≤ refs.new.spare + 1 }
{
    if !refs.connected(held.object) {
        return;
    }
    match refs.register(held) {
        Ok(_) => {}
        Err(_) => unreachable!(),
    }
}

/// The reference of a cookie, which is this one.
pub fn get(refs: &mut Refs, brought: &mut Vec<Move>, apartment: u32, cookie: i64, held: RefValue)
    requires few { refs.old.issued < MOST_ISSUED }
    requires room { 0 < refs.old.spare }
    requires kept { IsKept refs.old.cookies refs.old.stubs cookie held }
    requires place { vec_len brought.old < vec_capacity brought.old }
    ensures row { Gained apartment
        (Takes apartment held.object held.iface ∷ []) refs.old refs.new brought.old.items brought.new.items }
    ensures more { HoldsMore refs.old refs.new }
    ensures offers { (x j : ℕ) → offers refs.new x j ≡ offers refs.old x j }
    ensures issued { refs.new.issued ≤ refs.old.issued + 1 }
    ensures spare { refs.old.spare ≤ refs.new.spare + 1 }
    ensures len { vec_len brought.new ≤ vec_len brought.old + 1 }
    ensures capacity { vec_capacity brought.old ≤ vec_capacity brought.new }
{
    let _count = refs.cookies();
    let number = cookie_number(cookie);
    match refs.get(apartment, number) {
        Ok(found) => bring(brought, apartment, found),
        Err(_) => unreachable!(),
    }
}

/// A cookie ends; one that has ended stays so.
pub fn revoke(refs: &mut Refs, touched: &mut Vec<u32>, cookie: i64)
    requires room { vec_len touched.old < vec_capacity touched.old }
    ensures row { Taken (Revokes (cookie_number cookie)) refs.old refs.new }
    ensures offers { (x j : ℕ) → offers refs.new x j ≡ offers refs.old x j }
    ensures issued { refs.new.issued ≡ refs.old.issued }
    ensures touched { TouchesCounted refs.old refs.new touched.old.items touched.new.items }
    ensures climbs { Climbs 0 touched.old.items → Climbs 0 touched.new.items }
    ensures len { vec_len touched.new ≤ vec_len touched.old + 1 }
    ensures capacity { vec_capacity touched.old ≤ vec_capacity touched.new }
{
    let _count = refs.cookies();
    refs.rests();
    refs.tells();
    let number = cookie_number(cookie);
    match refs.revoke(number) {
        Ok(lost) => {
            refs.tells();
            touch_if(touched, lost);
        }
        Err(_) => {}
    }
}

/// An object is disconnected: only its direct places hold it then.
pub fn disconnect(refs: &mut Refs, touched: &mut Vec<u32>, object: u32)
    requires room { vec_len touched.old < vec_capacity touched.old }
    ensures cut { Cut (λ x. x == object) refs.old refs.new }
    ensures offers { (x j : ℕ) → offers refs.new x j ≡ offers refs.old x j }
    ensures issued { refs.new.issued ≡ refs.old.issued }
    ensures touched { Touches refs.old refs.new touched.old.items touched.new.items }
    ensures climbs { Climbs 0 touched.old.items → Climbs 0 touched.new.items }
    ensures len { vec_len touched.new ≤ vec_len touched.old + 1 }
    ensures capacity { vec_capacity touched.old ≤ vec_capacity touched.new }
{
    if !refs.connected(object) {
        return;
    }
    refs.disconnect(object);
    if refs.direct(object) > 0 {
        return;
    }
    touch(touched, object);
}

/// An STA ends: nothing that it owns is connected any more.
pub fn end_apartment(refs: &mut Refs, touched: &mut Vec<u32>, objects: &Objects, apartment: u32)
    requires apartment { 0 < apartment }
    requires room { vec_len touched.old + length objects.now.tables.makings ≤ vec_capacity touched.old }
    ensures cut { Cut (λ x. named_at objects.now.tables x == apartment) refs.old refs.new }
    ensures offers { (x j : ℕ) → offers refs.new x j ≡ offers refs.old x j }
    ensures issued { refs.new.issued ≡ refs.old.issued }
    ensures touched { Touches refs.old refs.new touched.old.items touched.new.items }
    ensures climbs { Climbs 0 touched.old.items → Climbs 0 touched.new.items }
    ensures len { vec_len touched.new ≤ vec_len touched.old + length objects.now.tables.makings }
    ensures capacity { vec_capacity touched.old ≤ vec_capacity touched.new }
{
    for place in 0..objects.len() {
        if objects.owner(place + 1) == apartment {
            disconnect(refs, touched, place + 1);
        }
    }
}

/// The number of a cookie, and 0 where the value names none.
pub fn cookie_number(number: i64) -> u32
    ensures within { cookie_number number < 2 ^ 32 → result ≡ cookie_number number }
    ensures past { 2 ^ 32 ≤ cookie_number number → result ≡ 0 }
{
    if number < 0 || number > 0xffff_ffff {
        return 0;
    }
    number as u32
}
