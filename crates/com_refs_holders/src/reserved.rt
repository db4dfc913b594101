//! What is added to a table that has room for it.
ghost use Rattle.std.specs.Prelude.{◌≡◌, ◌+◌, ◌<◌, ◌≤◌, ◌^◌, true, false, [], ◌∷◌, ◌++◌, length, Some};
ghost use Rattle.com_stub.specs.CounterRows.{opened_all};
ghost use Rattle.com_stub.specs.StubRows.{has_stub};
ghost use Rattle.com_proxy.specs.Rows.{public_of, local_of, changed_row, gaining};

use com_base::RefValue;
use com_git::Git;
use com_packets::{Packet, Packets};
use com_proxy::Proxies;
use com_stub::{MOST_INTERFACES, Stubs};

// One local reference and so many public ones more, where there is room.
pub(crate) fn gain(proxies: &mut Proxies, apartment: u32, held: RefValue, refs: u32)
    requires room { 0 < proxies.old.spare }
    requires local_fits { local_of proxies.old.rows apartment held.object held.iface + 1 < 2 ^ 64 }
    requires public_fits { public_of proxies.old.rows apartment held.object held.iface + refs < 2 ^ 64 }
    ensures rows { proxies.new.rows
        ≡ changed_row (gaining refs) apartment held.object held.iface proxies.old.rows }
    ensures spare { proxies.old.spare ≤ proxies.new.spare + 1 }
{
    let _ = proxies.gain(apartment, held.object, held.iface, refs);
}

// A packet more, where there is room.
pub(crate) fn make(packets: &mut Packets, packet: Packet) -> u32
    requires room { 0 < packets.old.spare }
    requires fits { length packets.old.entries + 1 < 2 ^ 32 }
    ensures number { result ≡ length packets.old.entries + 1 }
    ensures entries { packets.new.entries ≡ packets.old.entries ++ Some packet ∷ [] }
    ensures spare { packets.old.spare ≤ packets.new.spare + 1 }
{
    let Ok(number) = packets.make(packet) else {
        return 0;
    };
    number
}

// A cookie more, where there is room.
pub(crate) fn register(cookies: &mut Git, held: RefValue) -> u32
    requires room { 0 < cookies.old.spare }
    requires fits { length cookies.old.entries + 1 < 2 ^ 32 }
    ensures cookie { result ≡ length cookies.old.entries + 1 }
    ensures entries { cookies.new.entries ≡ cookies.old.entries ++ Some held ∷ [] }
    ensures spare { cookies.old.spare ≤ cookies.new.spare + 1 }
{
    let Ok(cookie) = cookies.register(held) else {
        return 0;
    };
    cookie
}

// A stub more, where there is room.
pub(crate) fn enroll(stubs: &mut Stubs, object: u32, set: &[u16])
    requires room { 0 < stubs.old.spare }
    requires new { has_stub stubs.old.stubs object ≡ false }
    requires few { length set.now ≤ MOST_INTERFACES }
    ensures stubs { stubs.new.stubs
        ≡ stubs.old.stubs ++ record { object = object; is_connected = true } ∷ [] }
    ensures counters { stubs.new.counters ≡ opened_all object set.now stubs.old.counters }
    ensures spare { stubs.old.spare ≤ stubs.new.spare + 1 }
{
    let _ = stubs.enroll(object, set);
}
