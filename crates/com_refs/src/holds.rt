//! How many holders an object has beside its direct places, and what becomes of one that has none.
ghost use Rattle.std.specs.Prelude.{◌≡◌, ◌+◌, ◌<◌, ◌^◌, ◌↔◌, ◌&&◌, ◌==◌, true, not, IsTrue, Some, None};
ghost use Rattle.std.specs.Prelude.{if◌then◌else◌};
ghost use Rattle.com_stub.specs.StubRows.{is_connected};
ghost use Rattle.com_refs_holders.specs.Tables.{books_of, object_in};
ghost use Rattle.com_refs_books.specs.Changes.{cut, is_weak};
ghost use Rattle.com_refs.specs.Counts.{hold_of, hold_less, hold_more};

use com_base::MarshalMode;
use com_refs_holders::Holders;

// The number of an object.
pub(crate) fn hold_at(holds: &[u64], object: u32) -> u64
    ensures { result ≡ hold_of holds.now object }
{
    match object.checked_sub(1) {
        None => 0,
        Some(place) => match holds.get(place as usize) {
            None => 0,
            Some(held) => *held,
        },
    }
}

// One holder less, if it was one.
pub(crate) fn lose_hold(holds: &mut [u64], object: u32, is_held: bool)
    ensures { holds.new ≡ hold_less object is_held holds.old }
{
    if !is_held {
        return;
    }
    let Some(place) = object.checked_sub(1) else {
        return;
    };
    let at = place as usize;
    if at < holds.len() {
        holds[at] = holds[at].saturating_sub(1);
    }
}

// One holder more, if it is one.
pub(crate) fn gain_hold(holds: &mut [u64], object: u32, is_held: bool)
    requires fits { hold_of holds.old object + 1 < 2 ^ 64 }
    ensures { holds.new ≡ hold_more object is_held holds.old }
{
    if !is_held {
        return;
    }
    let Some(place) = object.checked_sub(1) else {
        return;
    };
    let at = place as usize;
    if at < holds.len() {
        holds[at] += 1;
    }
}

// Where an object has no holder left it is no longer connected. True exactly then; of an object that was not
// connected before only its direct places hold it.
pub(crate) fn settle(holders: &mut Holders, held: u64, object: u32) -> bool
    ensures lost { IsTrue result ↔ (((object_in holders.old.objects object).direct ≡ 0)
        × (is_connected holders.old.stubs object ≡ true → held ≡ 0)) }
    ensures objects { holders.new.objects ≡ holders.old.objects }
    ensures proxies { holders.new.proxies ≡ holders.old.proxies }
    ensures counters { holders.new.counters ≡ holders.old.counters }
    ensures issued { holders.new.issued ≡ holders.old.issued }
    ensures spare { holders.new.spare ≡ holders.old.spare }
    ensures books { books_of holders.new
        ≡ (if (object_in holders.old.objects object).direct + held == 0
        then cut (λ x. (books_of holders.old).live x && not (x == object)) (books_of holders.old)
        else books_of holders.old) }
{
    if holders.direct(object) > 0 {
        return false;
    }
    if held > 0 {
        return !holders.is_connected(object);
    }
    holders.disconnect(object);
    true
}

// The holders once a packet was unmarshalled: a normal one ends, and any other stays.
pub(crate) fn recount(holds: &mut [u64], object: u32, is_owned: bool, normal: bool)
    requires fits { hold_of holds.old object + 1 < 2 ^ 64 }
    ensures { holds.new ≡ (if normal then hold_less object is_owned holds.old
        else hold_more object (not is_owned) holds.old) }
{
    if normal {
        lose_hold(holds, object, is_owned);
        return;
    }
    gain_hold(holds, object, !is_owned);
}

// The object, if it lost its last holder.
pub(crate) fn if_lost(is_lost: bool, object: u32) -> Option<u32>
    ensures { result ≡ (if is_lost then Some object else None) }
{
    if is_lost {
        return Some(object);
    }
    None
}

// The packet holds its object: a weak one does not.
pub(crate) fn holds_object(mode: MarshalMode) -> bool
    ensures { result ≡ not (is_weak mode) }
{
    match mode {
        MarshalMode::Normal => true,
        MarshalMode::Strong => true,
        MarshalMode::Weak => false,
    }
}
