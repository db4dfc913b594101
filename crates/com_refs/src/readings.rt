//! What is read of the references.
ghost use Rattle.std.specs.Prelude.{◌≡◌, ◌<◌, ◌↔◌, length, IsTrue, option_copied};
ghost use Rattle.com_stub.specs.StubRows.{is_connected};
ghost use Rattle.com_slots.specs.Table.{held_in};
ghost use Rattle.com_refs_holders.specs.Tables.{books_of, owns_of, object_in, offers, outstanding_in};
ghost use Rattle.com_refs_holders.specs.Tables.{owner_in};
ghost use Rattle.com_refs.specs.Counts.{holders_of};

use crate::Refs;
use com_base::RefValue;
use com_packets::Packet;

impl Refs {
    /// The direct places of the object: once it is not connected, nothing else holds it.
    pub fn direct(&self, object: u32) -> u64
        ensures { result ≡ (object_in self.now.objects object).direct }
    {
        self.holders.direct(object)
    }

    /// The apartment that owns the object; 0 of one that every apartment owns. `None` exactly where the object
    /// was not made.
    pub fn owner(&self, object: u32) -> Option<u32>
        ensures { result ≡ owner_in self.now.objects object }
    {
        if !self.holders.is_made(object) {
            return None;
        }
        Some(self.holders.owner(object))
    }

    /// Every apartment owns the object. True exactly where it was made so.
    pub fn agile(&self, object: u32) -> bool
        ensures { result ≡ (object_in self.now.objects object).agile }
    {
        self.holders.is_agile(object)
    }

    /// The apartment owns the object: every apartment owns an agile one.
    pub fn owns(&self, object: u32, apartment: u32) -> bool
        ensures { result ≡ owns_of self.now.objects object apartment }
    {
        self.holders.owns(object, apartment)
    }

    /// The interface is in the object's set.
    pub fn offers(&self, object: u32, iface: u16) -> bool
        ensures { result ≡ offers self.now object iface }
    {
        self.holders.offers(object, iface)
    }

    /// How many objects were made.
    pub fn objects(&self) -> u32
        ensures { result ≡ length self.now.objects }
    {
        self.holders.objects()
    }

    /// How many references were given so far.
    pub fn issued_count(&self) -> u32
        ensures { result ≡ self.now.issued }
    {
        self.holders.issued_count()
    }

    /// The object is connected.
    pub fn connected(&self, object: u32) -> bool
        ensures { result ≡ is_connected self.now.stubs object }
    {
        self.holders.is_connected(object)
    }

    /// Something holds the object: a direct place, or where it is connected a place elsewhere, a packet or a
    /// cookie.
    pub fn is_held(&self, object: u32) -> bool
        ensures { IsTrue result ↔ (0 < holders_of self.now object) }
    {
        self.holders.direct(object) > 0 || self.holders.is_connected(object)
    }

    /// The outstanding packet of a number. `None` exactly where none is outstanding under it: it was never
    /// made, or it has ended, or its object is not connected.
    pub fn packet(&self, number: u32) -> Option<&Packet>
        ensures { option_copied result
            ≡ outstanding_in (is_connected self.now.stubs) self.now.packets number }
    {
        self.holders.packet(number)
    }

    /// How many packets were made.
    pub fn packets(&self) -> u32
        ensures rows { result ≡ length self.now.packets }
        ensures books { result ≡ length (books_of self.now).packets }
    {
        self.holders.packets()
    }

    /// The reference of a cookie. `None` exactly where it was never given or was revoked.
    pub fn cookie(&self, number: u32) -> Option<RefValue>
        ensures { result ≡ held_in self.now.cookies number }
    {
        self.holders.cookie(number)
    }

    /// How many cookies were given.
    pub fn cookies(&self) -> u32
        ensures rows { result ≡ length self.now.cookies }
        ensures books { result ≡ length (books_of self.now).cookies }
    {
        self.holders.cookies()
    }

    /// The public references that the apartment's proxy holds of the interface: none where the object is not
    /// connected.
    pub fn public(&self, apartment: u32, object: u32, iface: u16) -> u64
        ensures { result ≡ (books_of self.now).proxy apartment object iface }
    {
        if !self.holders.is_connected(object) {
            return 0;
        }
        self.holders.public(apartment, object, iface)
    }
}
