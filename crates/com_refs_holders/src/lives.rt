//! Objects are made, and are no longer connected.
ghost use Rattle.std.specs.Prelude.{◌≡◌, ◌+◌, ◌==◌, ◌<◌, ◌≤◌, ◌^◌, ◌&&◌, ℕ, true, not, length};
ghost use Rattle.std.specs.Prelude.{if◌then◌else◌};
ghost use Rattle.com_stub.specs.CounterRows.{has_counter, changed_counter, more, sum_of};
ghost use Rattle.com_stub.specs.StubRows.{is_connected, has_stub};
ghost use Rattle.com_proxy.specs.Rows.{public_of, local_of, changed_row, gaining};
ghost use Rattle.com_refs_books.specs.Changes.{cut};
ghost use Rattle.com_refs_holders.specs.Tables.{is_owned, books_of, owns_of, owners_of, object_in};
ghost use Rattle.com_refs_holders.specs.Tables.{direct_more};
ghost use Rattle.com_refs_holders.specs.Makes.{MadeWithPlace};
ghost use Rattle.com_refs_holders.specs.Steps.{among};

use crate::balance::issue;
use crate::objects::{gain_direct, owns};
use crate::reserved::{enroll, gain};
use crate::{Holders, MOST_ISSUED, ObjectRow};
use com_base::{PUBLIC_REFERENCES, RefValue};
use com_keyed::Chains;
use com_proxy::Proxies;
use com_stub::{MOST_INTERFACES, Stubs};

// Gives an apartment the first place of a new object: a direct one where the apartment owns it, else one of the
// apartment's proxy with `PUBLIC_REFERENCES` new public references, for which there is room.
fn give_first_place(
    objects: &mut [ObjectRow],
    proxies: &mut Proxies,
    stubs: &mut Stubs,
    apartment: u32,
    held: RefValue,
)
    requires connected { is_connected stubs.old.stubs held.object ≡ true }
    requires known { has_counter stubs.old.counters held.object held.iface ≡ true }
    requires room { 0 < proxies.old.spare }
    requires direct_fits { (object_in objects.old held.object).direct + 1 < 2 ^ 64 }
    requires local_fits { local_of proxies.old.rows apartment held.object held.iface + 1 < 2 ^ 64 }
    requires public_fits { public_of proxies.old.rows apartment held.object held.iface + PUBLIC_REFERENCES < 2 ^ 64 }
    requires sum_fits { sum_of stubs.old.counters held.object + PUBLIC_REFERENCES < 2 ^ 64 }
    ensures objects { objects.new ≡ (if owns_of objects.old held.object apartment
        then direct_more held.object objects.old else objects.old) }
    ensures proxies { proxies.new.rows ≡ (if owns_of objects.old held.object apartment then proxies.old.rows
        else changed_row (gaining PUBLIC_REFERENCES) apartment held.object held.iface proxies.old.rows) }
    ensures counters { stubs.new.counters ≡ (if owns_of objects.old held.object apartment
        then stubs.old.counters else changed_counter (more PUBLIC_REFERENCES) held.object held.iface stubs.old.counters) }
    ensures stubs { stubs.new.stubs ≡ stubs.old.stubs }
    ensures proxy_room { proxies.old.spare ≤ proxies.new.spare + 1 }
    ensures stub_room { stubs.new.spare ≡ stubs.old.spare }
{
    if owns(objects, held.object, apartment) {
        gain_direct(objects, held.object);
        return;
    }
    gain(proxies, apartment, held, PUBLIC_REFERENCES);
    issue(stubs, held, PUBLIC_REFERENCES);
}

// Disconnects all objects of an owner.
fn end_all(stubs: &mut Stubs, owners: &Chains, apartment: u32)
    requires fits { length owners.now.keys < 2 ^ 32 }
    ensures stubs { (x : ℕ) → is_connected stubs.new.stubs x
        ≡ (is_connected stubs.old.stubs x && not (is_owned owners.now.keys apartment x)) }
    ensures counters { stubs.new.counters ≡ stubs.old.counters }
    ensures stub_room { stubs.new.spare ≡ stubs.old.spare }
    ensures known { (x : ℕ) → has_stub stubs.new.stubs x ≡ has_stub stubs.old.stubs x }
{
    let mut at = owners.last(apartment);
    while let Some(place) = at {
        stubs.disconnect((place + 1) as u32);
        at = owners.earlier(place);
    }
}

impl Holders {
    /// A new object, the next by its number from 1 on, with its first place in an apartment. It has an owner,
    /// 0 where it is agile, and a connected stub with the interfaces of the set, of which there are at most `MOST_INTERFACES`.
    /// Where the apartment owns the object, the place is a direct one. Else it is one of the apartment's proxy,
    /// by an interface of the set, with `PUBLIC_REFERENCES` new public references. Room for a call was made before. Source:
    /// Essential COM, chapter 5, on stubs and proxies; MS-DCOM 3.2.4.4.
    pub fn make_object(&mut self, owner: u32, agile: bool, set: &[u16], apartment: u32, iface: u16)
        requires small { length set.now ≤ MOST_INTERFACES }
        requires within { among iface set.now ≡ true }
        requires few { self.old.issued + 1 < MOST_ISSUED }
        requires room { 0 < self.old.spare }
        ensures made { MadeWithPlace self.old self.new (length self.old.objects + 1) owner agile
            set.now apartment iface }
        ensures spare { self.new.spare + 1 ≡ self.old.spare }
    {
        let object = self.objects.len() as u32 + 1;
        enroll(&mut self.stubs, object, set);
        self.owners.append(owner);
        self.objects.push_reserved(ObjectRow {
            owner,
            agile,
            direct: 0,
        });
        give_first_place(
            &mut self.objects,
            &mut self.proxies,
            &mut self.stubs,
            apartment,
            RefValue { object, iface },
        );
        self.issued += 2;
        self.room -= 1;
    }

    /// The object is no longer connected: nothing of it is held any more. Source: CoDisconnectObject.
    pub fn disconnect(&mut self, object: u32)
        ensures books { books_of self.new
            ≡ cut (λ x. (books_of self.old).live x && not (x == object)) (books_of self.old) }
        ensures objects { self.new.objects ≡ self.old.objects }
        ensures proxies { self.new.proxies ≡ self.old.proxies }
        ensures counters { self.new.counters ≡ self.old.counters }
        ensures issued { self.new.issued ≡ self.old.issued }
        ensures spare { self.new.spare ≡ self.old.spare }
    {
        self.stubs.disconnect(object);
    }

    /// All objects that the apartment alone owns are no longer connected. Places, packets and cookies stay.
    /// Source: the documentation of CoUninitialize.
    pub fn end_apartment(&mut self, apartment: u32)
        requires few { self.old.issued ≤ MOST_ISSUED }
        ensures books { books_of self.new
            ≡ cut (λ x. (books_of self.old).live x && not (is_owned
            (owners_of self.old.objects) apartment x)) (books_of self.old) }
        ensures objects { self.new.objects ≡ self.old.objects }
        ensures proxies { self.new.proxies ≡ self.old.proxies }
        ensures counters { self.new.counters ≡ self.old.counters }
        ensures issued { self.new.issued ≡ self.old.issued }
        ensures spare { self.new.spare ≡ self.old.spare }
    {
        end_all(&mut self.stubs, &self.owners, apartment);
    }
}
