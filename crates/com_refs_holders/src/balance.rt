//! How public references go between a stub, the proxies of its object, its packets and its cookies.
ghost use Rattle.std.specs.Prelude.{◌≡◌, ◌+◌, ◌<◌, ◌≤◌, ◌^◌, ◌↔◌, ℕ, true, false, IsTrue, if◌then◌else◌};
ghost use Rattle.com_stub.specs.CounterRows.{counter_of, has_counter, changed_counter, more, less};
ghost use Rattle.com_stub.specs.CounterRows.{sum_of};
ghost use Rattle.com_stub.specs.StubRows.{is_connected};
ghost use Rattle.com_proxy.specs.Rows.{public_of, local_of, IsFree};
ghost use Rattle.com_refs_holders.specs.Stands.{Gave, Released};
ghost use Rattle.com_refs_holders.specs.Steps.{minted, minted_counters, minted_rows};

use com_base::{MarshalMode, PUBLIC_REFERENCES, RefValue};
use com_proxy::{Proxies, Split};
use com_stub::Stubs;

// New public references of a stub that has the interface.
pub(crate) fn issue(stubs: &mut Stubs, held: RefValue, n: u32) -> u32
    requires connected { is_connected stubs.old.stubs held.object ≡ true }
    requires known { has_counter stubs.old.counters held.object held.iface ≡ true }
    requires fits { sum_of stubs.old.counters held.object + n < 2 ^ 64 }
    ensures result { result ≡ n }
    ensures counters { stubs.new.counters
        ≡ changed_counter (more n) held.object held.iface stubs.old.counters }
    ensures stubs { stubs.new.stubs ≡ stubs.old.stubs }
    ensures stub_room { stubs.new.spare ≡ stubs.old.spare }
{
    let _ = stubs.add(held.object, held.iface, n);
    n
}

// The references of a new packet.
#[tactic(auto, unfolding(crate::specs::Steps::minted, crate::specs::Steps::minted_counters, crate::specs::Steps::minted_rows))]
pub(crate) fn mint(
    stubs: &mut Stubs,
    proxies: &mut Proxies,
    is_owned: bool,
    apartment: u32,
    held: RefValue,
    mode: MarshalMode,
) -> u32
    requires connected { is_connected stubs.old.stubs held.object ≡ true }
    requires known { has_counter stubs.old.counters held.object held.iface ≡ true }
    requires fits { sum_of stubs.old.counters held.object + PUBLIC_REFERENCES < 2 ^ 64 }
    requires public_fits { public_of proxies.old.rows apartment held.object held.iface < 2 ^ 32 }
    ensures result { result ≡ minted is_owned mode
        (public_of proxies.old.rows apartment held.object held.iface) }
    ensures counters { stubs.new.counters
        ≡ minted_counters is_owned mode
        (public_of proxies.old.rows apartment held.object held.iface) held.object held.iface
        stubs.old.counters }
    ensures rows { proxies.new.rows
        ≡ minted_rows is_owned mode apartment held.object held.iface proxies.old.rows }
    ensures stubs { stubs.new.stubs ≡ stubs.old.stubs }
    ensures stub_room { stubs.new.spare ≡ stubs.old.spare }
    ensures proxy_room { proxies.new.spare ≡ proxies.old.spare }
{
    match mode {
        MarshalMode::Strong => issue(stubs, held, 1),
        MarshalMode::Weak => issue(stubs, held, 0),
        MarshalMode::Normal => {
            if is_owned {
                return issue(stubs, held, PUBLIC_REFERENCES);
            }
            match proxies.split(apartment, held.object, held.iface) {
                Split::Moved(half) => half as u32,
                Split::New => issue(stubs, held, PUBLIC_REFERENCES),
            }
        }
    }
}

// The proxy gives all its public references back.
fn give_back(stubs: &mut Stubs, proxies: &mut Proxies, apartment: u32, object: u32)
    requires connected { is_connected stubs.old.stubs object ≡ true }
    requires within { (iface : ℕ)
        → public_of proxies.old.rows apartment object iface ≤
        (counter_of stubs.old.counters object iface).count }
    ensures stubs { stubs.new.stubs ≡ stubs.old.stubs }
    ensures stub_room { stubs.new.spare ≡ stubs.old.spare }
    ensures proxy_room { proxies.new.spare ≡ proxies.old.spare }
    ensures gave { Gave apartment object true proxies.old.rows stubs.old.counters proxies.new.rows
        stubs.new.counters }
{
    while let Some((iface, n)) = proxies.take_public(apartment, object) {
        stubs.take(object, iface, n);
    }
}

// One reference of a proxy less. True where the proxy then gave all back.
pub(crate) fn let_go(
    stubs: &mut Stubs,
    proxies: &mut Proxies,
    apartment: u32,
    held: RefValue,
) -> bool
    requires held { 0 < local_of proxies.old.rows apartment held.object held.iface }
    requires within { is_connected stubs.old.stubs held.object ≡ true → (iface : ℕ)
        → public_of proxies.old.rows apartment held.object iface ≤
        (counter_of stubs.old.counters held.object iface).count }
    ensures stubs { stubs.new.stubs ≡ stubs.old.stubs }
    ensures stub_room { stubs.new.spare ≡ stubs.old.spare }
    ensures proxy_room { proxies.new.spare ≡ proxies.old.spare }
    ensures released { Released apartment held.object held.iface result proxies.old.rows stubs.old.counters
        proxies.new.rows stubs.new.counters }
    ensures free { is_connected stubs.old.stubs held.object ≡ true
        → (IsTrue result ↔ IsFree proxies.new.rows apartment held.object) }
    ensures none { is_connected stubs.old.stubs held.object ≡ false → result ≡ false }
{
    let free = proxies.release(apartment, held.object, held.iface);
    if !free {
        return false;
    }
    if !stubs.is_connected(held.object) {
        return false;
    }
    give_back(stubs, proxies, apartment, held.object);
    true
}

// The reference of a cookie back to the stub of its object, if that is connected.
pub(crate) fn take_back(stubs: &mut Stubs, held: RefValue)
    requires counted { is_connected stubs.old.stubs held.object ≡ true
        → 1 ≤ (counter_of stubs.old.counters held.object held.iface).count }
    ensures counters { stubs.new.counters ≡ (if is_connected stubs.old.stubs held.object
        then changed_counter (less 1) held.object held.iface stubs.old.counters else stubs.old.counters) }
    ensures stubs { stubs.new.stubs ≡ stubs.old.stubs }
    ensures spare { stubs.new.spare ≡ stubs.old.spare }
{
    if stubs.is_connected(held.object) {
        stubs.take(held.object, held.iface, 1);
    }
}
