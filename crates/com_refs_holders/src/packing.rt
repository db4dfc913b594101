//! Packets are made, unmarshalled and dropped.
ghost use Rattle.std.specs.Prelude.{◌≡◌, ◌+◌, ◌<◌, ◌≤◌, ◌↔◌, ℕ, true, false, length, OnOk, OnErr, IfOk};
ghost use Rattle.std.specs.Prelude.{IsOk, IsTrue, Err, Some, None, option_copied};
ghost use Rattle.com_stub.specs.StubRows.{is_connected};
ghost use Rattle.com_refs_books.specs.Changes.{changed, change, Marshals, Unmarshals, Join, Return};
ghost use Rattle.com_refs_holders.specs.Tables.{books_of, owns_of, outstanding_in, offers, SameSets};
ghost use Rattle.com_refs_holders.specs.Places.{OneMore, SamePlaces};

use crate::balance::mint;
use crate::objects::{object_at, owns};
use crate::reserved::{gain, make};
use crate::{Holders, HoldersError, MOST_ISSUED, Memory};
use com_base::{MarshalMode, RefValue};
use com_packets::{Packet, Packets};
use com_stub::Stubs;

/// The packet is one that ends when it is unmarshalled.
pub fn is_normal(mode: MarshalMode) -> bool
    ensures { IsTrue result ↔ (mode ≡ MarshalMode.Normal) }
{
    match mode {
        MarshalMode::Normal => true,
        MarshalMode::Strong => false,
        MarshalMode::Weak => false,
    }
}

// The packet of a number, if it is outstanding.
#[tactic(auto, unfolding(crate::specs::Tables::outstanding_in))]
fn outstanding<'a>(packets: &'a Packets, stubs: &Stubs, number: u32) -> Option<&'a Packet>
    ensures { option_copied result
        ≡ outstanding_in (is_connected stubs.now.stubs) packets.now.entries number }
{
    let Some(packet) = packets.get(number) else {
        return None;
    };
    if !stubs.is_connected(packet.object) {
        return None;
    }
    Some(packet)
}

impl Holders {
    /// The packet of a number, if it is outstanding.
    pub fn packet(&self, number: u32) -> Option<&Packet>
        ensures { option_copied result
            ≡ outstanding_in (is_connected self.now.stubs) self.now.packets number }
    {
        outstanding(&self.packets, &self.stubs, number)
    }

    // A packet of a connected object, with references of its own.
    fn issue_packet(&mut self, apartment: u32, held: RefValue, mode: MarshalMode) -> u32
        requires connected { is_connected self.old.stubs held.object ≡ true }
        requires known { offers self.old held.object held.iface ≡ true }
        requires few { self.old.issued < MOST_ISSUED }
        requires room { 0 < self.old.spare }
        ensures number { result ≡ length self.old.packets + 1 }
        ensures row { books_of self.new
            ≡ changed (books_of self.old) (change (owns_of self.old.objects) (books_of self.old)
            (Marshals apartment mode held.object held.iface)) }
        ensures places { SamePlaces self.old self.new }
        ensures offers { SameSets self.old self.new }
        ensures issued { self.new.issued ≡ self.old.issued + 1 }
        ensures spare { self.new.spare + 1 ≡ self.old.spare }
    {
        let row = object_at(&self.objects, held.object);
        let is_owned = owns(&self.objects, held.object, apartment);
        let refs = mint(
            &mut self.stubs,
            &mut self.proxies,
            is_owned,
            apartment,
            held,
            mode,
        );
        let packet = Packet {
            mode,
            object: held.object,
            iface: held.iface,
            owner: row.owner,
            refs,
        };
        let number = make(&mut self.packets, packet);
        self.issued += 1;
        self.room -= 1;
        number
    }

    /// The number of a new packet of a connected object, counted from 1. A normal packet of an apartment that
    /// does not own the object takes half of the proxy's public references, where that has at least two, and
    /// else it has 5 new ones; a strong packet has 1 and a weak one none. Room is made first. The only error
    /// is want of memory, and then nothing changed; it does not come where there is room for a call.
    /// Source: the documentation of CoMarshalInterface and of MSHLFLAGS.
    pub fn give_packet(
        &mut self,
        apartment: u32,
        held: RefValue,
        mode: MarshalMode,
    ) -> Result<u32, Memory>
        requires connected { is_connected self.old.stubs held.object ≡ true }
        requires known { offers self.old held.object held.iface ≡ true }
        requires few { self.old.issued < MOST_ISSUED }
        ensures number { IfOk result (λ number. number ≡ length self.old.packets + 1) }
        ensures row { OnOk result (books_of self.new
            ≡ changed (books_of self.old) (change (owns_of self.old.objects) (books_of self.old)
            (Marshals apartment mode held.object held.iface))) }
        ensures places { SamePlaces self.old self.new }
        ensures offers { SameSets self.old self.new }
        ensures issued { OnOk result (self.new.issued ≡ self.old.issued + 1) }
        ensures most { self.new.spare ≤ self.old.spare }
        ensures err { OnErr result (self.new ≡ self.old) }
        ensures room { 0 < self.old.spare → IsOk result }
        ensures spare { self.old.spare ≤ self.new.spare + 1 }
    {
        self.make_room()?;
        Ok(self.issue_packet(apartment, held, mode))
    }

    /// A packet of a reference that the apartment holds. `NotConnected` exactly where the object is not
    /// connected.
    pub fn marshal(
        &mut self,
        apartment: u32,
        held: RefValue,
        mode: MarshalMode,
    ) -> Result<u32, HoldersError>
        requires known { offers self.old held.object held.iface ≡ true }
        requires few { self.old.issued < MOST_ISSUED }
        ensures not_connected { (result
            ≡ Err HoldersError.NotConnected) ↔ (is_connected self.old.stubs held.object ≡ false) }
        ensures live { OnOk result (is_connected self.old.stubs held.object ≡ true) }
        ensures number { IfOk result (λ number. number ≡ length self.old.packets + 1) }
        ensures row { OnOk result (books_of self.new
            ≡ changed (books_of self.old) (change (owns_of self.old.objects) (books_of self.old)
            (Marshals apartment mode held.object held.iface))) }
        ensures places { OnOk result (SamePlaces self.old self.new) }
        ensures room { 0 < self.old.spare → result ≡ Err HoldersError.Memory → ⊥ }
        ensures sure { 0 < self.old.spare → is_connected self.old.stubs held.object ≡ true → IsOk result }
        ensures offers { SameSets self.old self.new }
        ensures issued { OnOk result (self.new.issued ≡ self.old.issued + 1) }
        ensures err { OnErr result (self.new ≡ self.old) }
        ensures most { self.new.spare ≤ self.old.spare }
        ensures spare { self.old.spare ≤ self.new.spare + 1 }
    {
        if !self.is_connected(held.object) {
            return Err(HoldersError::NotConnected);
        }
        match self.give_packet(apartment, held, mode) {
            Ok(number) => Ok(number),
            Err(_) => Err(HoldersError::Memory),
        }
    }

    /// An outstanding packet ends, and its public references go back to the stub, which counts them no
    /// longer. No place changes. Source: the documentation of CoReleaseMarshalData.
    pub fn end_packet(&mut self, number: u32, packet: Packet)
        requires outstanding { outstanding_in (is_connected self.old.stubs) self.old.packets number
            ≡ Some packet }
        ensures books { books_of self.new ≡ changed (books_of self.old) (Return number) }
        ensures proxies { self.new.proxies ≡ self.old.proxies }
        ensures objects { self.new.objects ≡ self.old.objects }
        ensures places { SamePlaces self.old self.new }
        ensures offers { SameSets self.old self.new }
        ensures issued { self.new.issued ≡ self.old.issued }
        ensures spare { self.new.spare ≡ self.old.spare }
    {
        self.packets.end(number);
        self.stubs
            .take(packet.object, packet.iface, u64::from(packet.refs));
    }

    /// A packet ends, and its references go back. `Unknown` exactly where no outstanding packet has the
    /// number.
    pub fn drop_packet(&mut self, number: u32) -> Result<Packet, HoldersError>
        ensures packet { IfOk result (λ packet. outstanding_in
            (is_connected self.old.stubs) self.old.packets number ≡ Some packet) }
        ensures unknown { OnErr result (outstanding_in
            (is_connected self.old.stubs) self.old.packets number ≡ None) }
        ensures only { OnErr result (result ≡ Err HoldersError.Unknown) }
        ensures books { OnOk result (books_of self.new ≡ changed (books_of self.old) (Return number)) }
        ensures places { OnOk result (SamePlaces self.old self.new) }
        ensures offers { SameSets self.old self.new }
        ensures issued { self.new.issued ≡ self.old.issued }
        ensures err { OnErr result (self.new ≡ self.old) }
        ensures spare { self.new.spare ≡ self.old.spare }
    {
        let Some(packet) = self.packet(number).copied() else {
            return Err(HoldersError::Unknown);
        };
        self.end_packet(number, packet);
        Ok(packet)
    }

    // A normal packet ends, and its references go to the proxy of an apartment that does not own its object.
    fn join_packet(&mut self, apartment: u32, number: u32, packet: Packet)
        requires outstanding { outstanding_in (is_connected self.old.stubs) self.old.packets number
            ≡ Some packet }
        requires elsewhere { owns_of self.old.objects packet.object apartment ≡ false }
        requires few { self.old.issued < MOST_ISSUED }
        requires room { 0 < self.old.spare }
        ensures books { books_of self.new ≡ changed (books_of self.old) (Join apartment number) }
        ensures places { OneMore self.old self.new apartment packet.object false }
        ensures counters { self.new.counters ≡ self.old.counters }
        ensures issued { self.new.issued ≡ self.old.issued + 1 }
        ensures spare { self.new.spare + 1 ≡ self.old.spare }
    {
        let held = RefValue {
            object: packet.object,
            iface: packet.iface,
        };
        gain(&mut self.proxies, apartment, held, packet.refs);
        self.packets.end(number);
        self.issued += 1;
        self.room -= 1;
    }

    /// One place more of an apartment that does not own the packet's object. The outstanding packet ends, and
    /// its public references go to the apartment's proxy. Room is made first. The only error is want of
    /// memory, and then nothing changed; it does not come where there is room for a call. Source: the
    /// documentation of CoUnmarshalInterface.
    pub fn take_packet(&mut self, apartment: u32, number: u32, packet: Packet) -> Result<(), Memory>
        requires outstanding { outstanding_in (is_connected self.old.stubs) self.old.packets number
            ≡ Some packet }
        requires elsewhere { owns_of self.old.objects packet.object apartment ≡ false }
        requires few { self.old.issued < MOST_ISSUED }
        ensures books { OnOk result (books_of self.new
            ≡ changed (books_of self.old) (Join apartment number)) }
        ensures places { OnOk result (OneMore self.old self.new apartment packet.object false) }
        ensures offers { SameSets self.old self.new }
        ensures issued { OnOk result (self.new.issued ≡ self.old.issued + 1) }
        ensures most { self.new.spare ≤ self.old.spare }
        ensures err { OnErr result (self.new ≡ self.old) }
        ensures room { 0 < self.old.spare → IsOk result }
        ensures spare { self.old.spare ≤ self.new.spare + 1 }
    {
        self.make_room()?;
        self.join_packet(apartment, number, packet);
        Ok(())
    }

    /// A packet's reference, in a place. A normal packet ends: its references go to the proxy, or back to the
    /// stub in an apartment that owns the object. `Unknown` exactly where no outstanding packet has the
    /// number.
    pub fn unmarshal(&mut self, apartment: u32, number: u32) -> Result<Packet, HoldersError>
        requires few { self.old.issued < MOST_ISSUED }
        ensures unknown { (result ≡ Err HoldersError.Unknown) ↔ (outstanding_in
            (is_connected self.old.stubs) self.old.packets number ≡ None) }
        ensures packet { IfOk result (λ packet. outstanding_in
            (is_connected self.old.stubs) self.old.packets number ≡ Some packet) }
        ensures row { OnOk result (books_of self.new
            ≡ changed (books_of self.old) (change (owns_of self.old.objects) (books_of self.old)
            (Unmarshals apartment number))) }
        ensures places { IfOk result (λ packet. OneMore self.old self.new apartment packet.object
            (owns_of self.old.objects packet.object apartment)) }
        ensures offers { SameSets self.old self.new }
        ensures issued { OnOk result (self.new.issued ≡ self.old.issued + 1) }
        ensures room { 0 < self.old.spare → result ≡ Err HoldersError.Memory → ⊥ }
        ensures only { 0 < self.old.spare → OnErr result (result ≡ Err HoldersError.Unknown) }
        ensures err { OnErr result (self.new ≡ self.old) }
        ensures most { self.new.spare ≤ self.old.spare }
        ensures spare { self.old.spare ≤ self.new.spare + 1 }
    {
        let Some(packet) = self.packet(number).copied() else {
            return Err(HoldersError::Unknown);
        };
        if self.owns(packet.object, apartment) {
            self.unmarshal_here(apartment, number, packet);
            return Ok(packet);
        }
        match self.unmarshal_elsewhere(apartment, number, packet) {
            Ok(()) => Ok(packet),
            Err(_) => Err(HoldersError::Memory),
        }
    }

    // Unmarshals the packet in an apartment that owns the object.
    fn unmarshal_here(&mut self, apartment: u32, number: u32, packet: Packet)
        requires outstanding { outstanding_in (is_connected self.old.stubs) self.old.packets number
            ≡ Some packet }
        requires here { owns_of self.old.objects packet.object apartment ≡ true }
        requires few { self.old.issued < MOST_ISSUED }
        ensures row { books_of self.new
            ≡ changed (books_of self.old) (change (owns_of self.old.objects) (books_of self.old)
            (Unmarshals apartment number)) }
        ensures places { OneMore self.old self.new apartment packet.object true }
        ensures offers { SameSets self.old self.new }
        ensures issued { self.new.issued ≡ self.old.issued + 1 }
        ensures spare { self.new.spare ≡ self.old.spare }
    {
        self.stands();
        if is_normal(packet.mode) {
            self.end_packet(number, packet);
            self.keep_direct(packet.object);
            return;
        }
        self.keep_direct(packet.object);
    }

    // Unmarshals the packet in an apartment that does not own the object. The only error is want of memory.
    fn unmarshal_elsewhere(
        &mut self,
        apartment: u32,
        number: u32,
        packet: Packet,
    ) -> Result<(), Memory>
        requires outstanding { outstanding_in (is_connected self.old.stubs) self.old.packets number
            ≡ Some packet }
        requires elsewhere { owns_of self.old.objects packet.object apartment ≡ false }
        requires few { self.old.issued < MOST_ISSUED }
        ensures row { OnOk result (books_of self.new
            ≡ changed (books_of self.old) (change (owns_of self.old.objects) (books_of self.old)
            (Unmarshals apartment number))) }
        ensures places { OnOk result (OneMore self.old self.new apartment packet.object false) }
        ensures offers { SameSets self.old self.new }
        ensures issued { OnOk result (self.new.issued ≡ self.old.issued + 1) }
        ensures room { 0 < self.old.spare → IsOk result }
        ensures err { OnErr result (self.new ≡ self.old) }
        ensures most { self.new.spare ≤ self.old.spare }
        ensures spare { self.old.spare ≤ self.new.spare + 1 }
    {
        self.stands();
        if is_normal(packet.mode) {
            return self.take_packet(apartment, number, packet);
        }
        let held = RefValue {
            object: packet.object,
            iface: packet.iface,
        };
        self.take_new(apartment, held)
    }
}
