//! Packets are made, unmarshalled and dropped.
ghost use Rattle.std.specs.Prelude.{◌≡◌, ◌+◌, ◌<◌, ◌≤◌, ◌↔◌, ℕ, true, false, length, OnOk, OnErr, IfOk};
ghost use Rattle.std.specs.Prelude.{IsOk, Err, Some, None, IsSomeAnd};
ghost use Rattle.com_stub.specs.StubRows.{is_connected};
ghost use Rattle.com_refs_holders.specs.Tables.{books_of, owns_of, offers, outstanding_in, SameSets};
ghost use Rattle.com_refs_holders.specs.Places.{OneMore, SamePlaces};
ghost use Rattle.com_refs_holders.specs.Stands.{Tells};
ghost use Rattle.com_refs_books.specs.Changes.{changed, change, packet, Marshals, Unmarshals, Drops};
ghost use Rattle.com_refs_books.specs.Ends.{ends};
ghost use Rattle.com_refs.specs.Counts.{unheld};
ghost use Rattle.com_refs.specs.Totals.{Totals};

use crate::holds::{gain_hold, hold_at, holds_object, if_lost, lose_hold, recount, settle};
use crate::{MOST_ISSUED, Refs, RefsError};
use com_base::{MarshalMode, RefValue};
use com_packets::Packet;
use com_refs_holders::is_normal;

impl Refs {
    /// A packet of a reference that the apartment holds, under the number that is answered. A strong or a
    /// weak one may be unmarshalled many times; a weak one does not hold its object. `NotConnected` exactly
    /// where the object is not connected. Source: CoMarshalInterface.
    pub fn marshal(
        &mut self,
        apartment: u32,
        held: RefValue,
        mode: MarshalMode,
    ) -> Result<u32, RefsError>
        requires known { offers self.old held.object held.iface ≡ true }
        requires few { self.old.issued < MOST_ISSUED }
        ensures not_connected { (result
            ≡ Err RefsError.NotConnected) ↔ (is_connected self.old.stubs held.object ≡ false) }
        ensures number { IfOk result (λ number. number ≡ length self.old.packets + 1) }
        ensures row { OnOk result (books_of self.new
            ≡ changed (books_of self.old) (change (owns_of self.old.objects) (books_of self.old)
            (Marshals apartment mode held.object held.iface))) }
        ensures places { OnOk result (SamePlaces self.old self.new) }
        ensures offers { SameSets self.old self.new }
        ensures issued { OnOk result (self.new.issued ≡ self.old.issued + 1) }
        ensures room { 0 < self.old.spare → result ≡ Err RefsError.Memory → ⊥ }
        ensures sure { 0 < self.old.spare → is_connected self.old.stubs held.object ≡ true → IsOk result }
        ensures err { OnErr result (self.new ≡ self.old) }
        ensures spare { self.old.spare ≤ self.new.spare + 1 }
    {
        self.holders.stands();
        match self.holders.marshal(apartment, held, mode) {
            Ok(number) => {
                gain_hold(&mut self.holds, held.object, holds_object(mode));
                Ok(number)
            }
            Err(error) => Err(error),
        }
    }

    /// A packet's reference, in a place of the apartment. A normal packet ends: its references go to the
    /// proxy, or back to the stub in an apartment that owns the object. `Unknown` exactly where no
    /// outstanding packet has the number. Source: CoUnmarshalInterface.
    pub fn unmarshal(&mut self, apartment: u32, number: u32) -> Result<Packet, RefsError>
        requires few { self.old.issued < MOST_ISSUED }
        ensures unknown { (result ≡ Err RefsError.Unknown) ↔ (outstanding_in
            (is_connected self.old.stubs) self.old.packets number ≡ None) }
        ensures packet { IfOk result (λ packet. outstanding_in
            (is_connected self.old.stubs) self.old.packets number ≡ Some packet) }
        ensures row { OnOk result (books_of self.new
            ≡ changed (books_of self.old) (change (owns_of self.old.objects) (books_of self.old)
            (Unmarshals apartment number))) }
        ensures places { IfOk result (λ packet. OneMore self.old self.new apartment packet.object
            (owns_of self.old.objects packet.object apartment)) }
        ensures offers { SameSets self.old self.new }
        ensures issued { OnOk result (self.new.issued ≡ self.old.issued + 1) }
        ensures room { 0 < self.old.spare → result ≡ Err RefsError.Memory → ⊥ }
        ensures only { 0 < self.old.spare → OnErr result (result ≡ Err RefsError.Unknown) }
        ensures err { OnErr result (self.new ≡ self.old) }
        ensures spare { self.old.spare ≤ self.new.spare + 1 }
    {
        self.holders.stands();
        match self.holders.unmarshal(apartment, number) {
            Ok(packet) => {
                let is_owned = self.holders.owns(packet.object, apartment);
                recount(
                    &mut self.holds,
                    packet.object,
                    is_owned,
                    is_normal(packet.mode),
                );
                Ok(packet)
            }
            Err(error) => Err(error),
        }
    }

    /// A packet ends, and its references go back, to the end of the entry. The answer is the packet's object
    /// exactly where nothing holds it then. `Unknown` exactly where no outstanding packet has the number.
    /// Source: CoReleaseMarshalData.
    pub fn drop_packet(&mut self, number: u32) -> Result<Option<u32>, RefsError>
        ensures unknown { (result ≡ Err RefsError.Unknown) ↔ (outstanding_in
            (is_connected self.old.stubs) self.old.packets number ≡ None) }
        ensures only { OnErr result (result ≡ Err RefsError.Unknown) }
        ensures lost { IfOk result (λ lost. IsSomeAnd (outstanding_in
            (is_connected self.old.stubs) self.old.packets number) (λ packet. lost
            ≡ unheld self.new packet.object)) }
        ensures books { OnOk result ((n : ℕ) (places : ℕ → ℕ → ℕ) → Tells n places self.new
            → Totals n places self.new → books_of self.new
            ≡ ends n places (changed (books_of self.old) (change (owns_of self.old.objects)
            (books_of self.old) (Drops number)))) }
        ensures places { OnOk result (SamePlaces self.old self.new) }
        ensures offers { SameSets self.old self.new }
        ensures issued { self.new.issued ≡ self.old.issued }
        ensures err { OnErr result (self.new ≡ self.old) }
        ensures spare { self.new.spare ≡ self.old.spare }
    {
        let Ok(packet) = self.holders.drop_packet(number) else {
            return Err(RefsError::Unknown);
        };
        self.holders.gives_nothing();
        lose_hold(&mut self.holds, packet.object, holds_object(packet.mode));
        let left = hold_at(&self.holds, packet.object);
        let is_lost = settle(&mut self.holders, left, packet.object);
        Ok(if_lost(is_lost, packet.object))
    }
}
