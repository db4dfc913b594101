//! What is read of the tables.
ghost use Rattle.std.specs.Prelude.{◌≡◌, ◌<◌, ◌^◌, length, if◌then◌else◌};
ghost use Rattle.com_stub.specs.CounterRows.{sum_of};
ghost use Rattle.com_stub.specs.StubRows.{is_connected};
ghost use Rattle.com_slots.specs.Table.{held_in};
ghost use Rattle.com_proxy.specs.Rows.{public_of, public_sum};
ghost use Rattle.com_packets.specs.Sums.{normal_sum};
ghost use Rattle.com_refs_holders.specs.Tables.{owns_of, object_in, is_made, offers};

use crate::Holders;
use crate::objects::{object_at, owns};
use com_base::RefValue;

impl Holders {
    /// The apartment owns the object: every apartment owns an agile one.
    pub fn owns(&self, object: u32, apartment: u32) -> bool
        ensures { result ≡ owns_of self.now.objects object apartment }
    {
        owns(&self.objects, object, apartment)
    }

    /// The object is connected.
    pub fn is_connected(&self, object: u32) -> bool
        ensures { result ≡ is_connected self.now.stubs object }
    {
        self.stubs.is_connected(object)
    }

    /// How many objects were made.
    pub fn objects(&self) -> u32
        ensures { result ≡ length self.now.objects }
    {
        let _issued = self.issued_count();
        self.objects.len() as u32
    }

    /// How many references were given so far.
    pub fn issued_count(&self) -> u32
        ensures { result ≡ self.now.issued }
    {
        self.issued
    }

    /// The interface is in the object's set.
    pub fn offers(&self, object: u32, iface: u16) -> bool
        ensures { result ≡ offers self.now object iface }
    {
        self.stubs.offers(object, iface)
    }

    /// The direct places of the object.
    pub fn direct(&self, object: u32) -> u64
        ensures { result ≡ (object_in self.now.objects object).direct }
    {
        object_at(&self.objects, object).direct
    }

    /// The object was made.
    pub fn is_made(&self, object: u32) -> bool
        ensures { result ≡ is_made self.now.objects object }
    {
        object > 0 && object <= self.objects()
    }

    /// Every apartment owns the object.
    pub fn is_agile(&self, object: u32) -> bool
        ensures { result ≡ (object_in self.now.objects object).agile }
    {
        object_at(&self.objects, object).agile
    }

    /// The owner of the object; 0 where it was not made, or every apartment owns it.
    pub fn owner(&self, object: u32) -> u32
        ensures { result ≡ (object_in self.now.objects object).owner }
    {
        object_at(&self.objects, object).owner
    }

    /// How many packets were made.
    pub fn packets(&self) -> u32
        ensures { result ≡ length self.now.packets }
    {
        self.packets.given_count()
    }

    /// How many cookies were given.
    pub fn cookies(&self) -> u32
        ensures { result ≡ length self.now.cookies }
    {
        self.cookies.given_count()
    }

    /// What the stub of the object counts, over all interfaces: nothing where the object is not connected.
    pub fn stub_references(&self, object: u32) -> u64
        ensures { result ≡ (if is_connected self.now.stubs object then sum_of self.now.counters object
            else 0) }
    {
        self.stubs.count(object)
    }

    /// The public references of all proxies of the object, where they have a number.
    pub fn proxy_references(&self, object: u32) -> u64
        ensures { public_sum object self.now.proxies < 2 ^ 64 → result ≡ public_sum object self.now.proxies }
    {
        self.proxies.total(object)
    }

    /// The public references of the normal packets of the object.
    pub fn packet_references(&self, object: u32) -> u64
        ensures { result ≡ normal_sum object self.now.packets }
    {
        self.packets.normal_refs(object)
    }

    /// The public references that the apartment's proxy has.
    pub fn public(&self, apartment: u32, object: u32, iface: u16) -> u64
        ensures { result ≡ public_of self.now.proxies apartment object iface }
    {
        self.proxies.public(apartment, object, iface)
    }

    /// The reference of a cookie, if it was given and not revoked.
    pub fn cookie(&self, cookie: u32) -> Option<RefValue>
        ensures { result ≡ held_in self.now.cookies cookie }
    {
        self.cookies.get(cookie)
    }
}
