//! What comes to places and leaves them, beside what the row of the entry brings.
ghost use Rattle.std.specs.Prelude.{◌≡◌, ◌+◌, ◌<◌, ◌≤◌, ℕ, ◌∷◌, [], false, true};
ghost use Rattle.std.specs.Prelude.{length, vec_capacity, vec_len};
ghost use Rattle.com_refs_holders.specs.Places.{Counts};
ghost use Rattle.com_refs_holders.specs.Tables.{books_of, object_in, offers, owns_of};
ghost use Rattle.com_proxy.specs.Rows.{local_of};
ghost use Rattle.com_refs.specs.Counts.{holders_of};
ghost use Rattle.com_refs_rows.specs.Moving.{plus, AllBelow, AllOffered, Climbs, Ended, Touches};
ghost use Rattle.com_refs_rows.specs.Owners.{AsOwned};

use crate::touching::touch_where;
use com_base::RefValue;
use com_reference_moves::Move;
use com_refs::{MOST_ISSUED, Refs};

// One place more.
fn gain(refs: &mut Refs, moved: Move)
    requires known { offers refs.old moved.reference.object moved.reference.iface ≡ true }
    requires few { refs.old.issued < MOST_ISSUED }
    requires room { 0 < refs.old.spare }
    ensures books { books_of refs.new ≡ books_of refs.old }
    ensures places { (n : ℕ) (places : ℕ → ℕ → ℕ) → moved.apartment < n
        → Counts n places refs.old → Counts n (plus places (moved ∷ [])) refs.new }
    ensures objects { AsOwned refs.old refs.new }
    ensures more { (o : ℕ) → holders_of refs.old o ≤ holders_of refs.new o }
    ensures offers { (x j : ℕ) → offers refs.new x j ≡ offers refs.old x j }
    ensures issued { refs.new.issued ≡ refs.old.issued + 1 }
    ensures spare { refs.old.spare ≤ refs.new.spare + 1 }
{
    match refs.share(moved.apartment, moved.reference) {
        Ok(()) => {}
        Err(_) => {}
    }
}

// One place less of a reference by an interface of which the apartment has one. Where that was the object's
// last holder, the object is written down.
fn lose_by(refs: &mut Refs, touched: &mut Vec<u32>, moved: Move, iface: u16)
    requires proxied { owns_of refs.old.objects moved.reference.object moved.apartment ≡ false
        → 0 < local_of refs.old.proxies moved.apartment moved.reference.object iface }
    requires direct { owns_of refs.old.objects moved.reference.object moved.apartment ≡ true
        → 0 < (object_in refs.old.objects moved.reference.object).direct }
    requires room { vec_len touched.old < vec_capacity touched.old }
    ensures objects { AsOwned refs.old refs.new }
    ensures ended { (n : ℕ) (later : ℕ → ℕ → ℕ) → moved.apartment < n
        → Counts n (plus later (moved ∷ [])) refs.old → Ended n later refs.old refs.new }
    ensures offers { (x j : ℕ) → offers refs.new x j ≡ offers refs.old x j }
    ensures issued { refs.new.issued ≡ refs.old.issued }
    ensures touched { (n : ℕ) (later : ℕ → ℕ → ℕ) → moved.apartment < n
        → Counts n (plus later (moved ∷ [])) refs.old
        → Touches refs.old refs.new touched.old.items touched.new.items }
    ensures climbs { Climbs 0 touched.old.items → Climbs 0 touched.new.items }
    ensures len { vec_len touched.new ≤ vec_len touched.old + 1 }
    ensures capacity { vec_capacity touched.old ≤ vec_capacity touched.new }
{
    refs.tells();
    refs.rests();
    let object = moved.reference.object;
    let is_lost = refs.release(moved.apartment, RefValue { object, iface });
    refs.tells();
    touch_where(touched, is_lost, object);
}

// One place less: of the reference, or where the apartment has none of that, of another to the object. Places
// are counted by object, and where they are counted there is one.
fn lose(refs: &mut Refs, touched: &mut Vec<u32>, moved: Move)
    requires room { vec_len touched.old < vec_capacity touched.old }
    ensures objects { AsOwned refs.old refs.new }
    ensures ended { (n : ℕ) (later : ℕ → ℕ → ℕ) → moved.apartment < n
        → Counts n (plus later (moved ∷ [])) refs.old → Ended n later refs.old refs.new }
    ensures offers { (x j : ℕ) → offers refs.new x j ≡ offers refs.old x j }
    ensures issued { refs.new.issued ≡ refs.old.issued }
    ensures touched { (n : ℕ) (later : ℕ → ℕ → ℕ) → moved.apartment < n
        → Counts n (plus later (moved ∷ [])) refs.old
        → Touches refs.old refs.new touched.old.items touched.new.items }
    ensures climbs { Climbs 0 touched.old.items → Climbs 0 touched.new.items }
    ensures len { vec_len touched.new ≤ vec_len touched.old + 1 }
    ensures capacity { vec_capacity touched.old ≤ vec_capacity touched.new }
{
    match refs.place_of(moved.apartment, moved.reference) {
        None => refs.tells(),
        Some(held) => lose_by(refs, touched, moved, held.iface),
    }
}

/// What comes to places. The books stay, and no object has fewer holders than before.
pub fn gain_all(refs: &mut Refs, gained: &[Move])
    requires known { AllOffered refs.old gained.now }
    requires few { refs.old.issued + length gained.now ≤ MOST_ISSUED }
    requires room { length gained.now ≤ refs.old.spare }
    ensures books { books_of refs.new ≡ books_of refs.old }
    ensures places { (n : ℕ) (places : ℕ → ℕ → ℕ) → AllBelow n gained.now
        → Counts n places refs.old → Counts n (plus places gained.now) refs.new }
    ensures objects { AsOwned refs.old refs.new }
    ensures more { (o : ℕ) → holders_of refs.old o ≤ holders_of refs.new o }
    ensures offers { (x j : ℕ) → offers refs.new x j ≡ offers refs.old x j }
    ensures issued { refs.new.issued ≤ refs.old.issued + length gained.now }
{
    for moved in gained {
        gain(refs, *moved);
    }
}

/// What leaves places. Each object that loses its last holder is written down, by number.
pub fn lose_all(refs: &mut Refs, touched: &mut Vec<u32>, lost: &[Move])
    requires room { vec_len touched.old + length lost.now ≤ vec_capacity touched.old }
    ensures objects { AsOwned refs.old refs.new }
    ensures ended { (n : ℕ) (later : ℕ → ℕ → ℕ) → AllBelow n lost.now
        → Counts n (plus later lost.now) refs.old → Ended n later refs.old refs.new }
    ensures offers { (x j : ℕ) → offers refs.new x j ≡ offers refs.old x j }
    ensures issued { refs.new.issued ≡ refs.old.issued }
    ensures touched { (n : ℕ) (later : ℕ → ℕ → ℕ) → AllBelow n lost.now
        → Counts n (plus later lost.now) refs.old
        → Touches refs.old refs.new touched.old.items touched.new.items }
    ensures climbs { Climbs 0 touched.old.items → Climbs 0 touched.new.items }
    ensures len { vec_len touched.new ≤ vec_len touched.old + length lost.now }
    ensures capacity { vec_capacity touched.old ≤ vec_capacity touched.new }
{
    refs.tells();
    refs.rests();
    for moved in lost {
        lose(refs, touched, *moved);
    }
}
