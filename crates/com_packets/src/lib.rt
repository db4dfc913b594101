//! Outstanding packets: what was marshalled and not yet unmarshalled or dropped, under numbers that are
//! never used again.
//!
//! A packet is what a standard OBJREF stands for. Source: MS-DCOM 2.2.18 and Essential COM, chapter 5.
//! The numbers, and what of them is written into the OBJREF, are this project's.
#![tactic(auto)]

ghost use Rattle.std.specs.Prelude.{◌≡◌, ◌+◌, ◌-◌, ◌<◌, ◌≤◌, ◌^◌, ℕ, [], ◌∷◌, ◌++◌, length, slice_index, OnOk};
ghost use Rattle.std.specs.Prelude.{OnErr, IfOk, IsOk, IfSome, IfNone, IsTrue, ◌↔◌, Some, None};
ghost use Rattle.std.specs.Prelude.{option_copied};
ghost use Rattle.std.specs.Int.{from_le_bytes, w64};
ghost use Rattle.com_slots.specs.Table.{held_in, with_entry};
ghost use Rattle.com_packets.specs.Written.{written_fields, IsNamed, cut_entries};
ghost use Rattle.com_packets.specs.Sums.{normal_of, normal_sum};
ghost use Rattle.com_packets.specs.Table.{entry_at};

use com_base::{Guid, MarshalMode, StdFields};
use com_keyed::Chains;
use com_slots::Slots;
use std::alloc::Global;
use std::marker::Model;

/// Want of memory.
pub use com_base::Memory;

/// A packet: what it is for, the object and the interface of its reference, the apartment that owns the
/// object, and the public references that it holds.
#[derive(Debug, Clone, Copy, PartialEq, Eq)]
pub struct Packet {
    /// What it is for: one unmarshalling, or many, with or without a hold on the object.
    pub mode: MarshalMode,
    /// The object of its reference.
    pub object: u32,
    /// The number of the interface of its reference.
    pub iface: u16,
    /// The apartment that owns the object, which stands as OXID in its bytes.
    pub owner: u32,
    /// The public references that it holds: of a strong packet 1, of a weak one 0.
    pub refs: u32,
}

impl Packet {
    ghost use Rattle.com_packets.specs.Written.{written_ipid, written_refs};

    /// What is written of the packet with this number into a standard OBJREF, where its interface has
    /// this identifier. A strong or a weak packet says that it carries no public references.
    pub fn fields(&self, number: u32, iid: Guid) -> StdFields
        ensures { result ≡ written_fields self.now number iid }
    {
        StdFields {
            iid,
            refs: self.written_refs(),
            oxid: u64::from(self.owner),
            oid: u64::from(self.object),
            ipid: self.ipid(number),
        }
    }

    // The packet is of the interface, and the fields are what is written of it with this number.
    fn is_written(&self, number: u32, fields: &StdFields, iface: u16) -> bool
        ensures { IsTrue result ↔ ((self.now.iface ≡ iface)
            × (written_fields self.now number fields.now.iid ≡ fields.now)) }
    {
        self.iface == iface && self.fields(number, fields.iid) == *fields
    }

    // The public references that its bytes say it carries: a strong or a weak packet says 0.
    fn written_refs(&self) -> u32
        ensures { result ≡ written_refs self.now.mode self.now.refs }
    {
        match self.mode {
            MarshalMode::Normal => self.refs,
            MarshalMode::Strong => 0,
            MarshalMode::Weak => 0,
        }
    }

    // The interface pointer that stands for it in its bytes: its object, its interface, the low
    // 16 bits of its owner, and its number.
    fn ipid(&self, number: u32) -> Guid
        ensures { result ≡ written_ipid self.now number }
    {
        Guid {
            data1: self.object,
            data2: self.iface,
            data3: (self.owner % 0x1_0000) as u16,
            data4: u64::from(number).to_le_bytes(),
        }
    }
}

/// The outstanding packets, seen as the packet or nothing of each number that was given, and the number
/// of packets that are sure to find memory.
#[derive(Debug, Drop)]
pub struct Packets {
    slots: Slots<Packet>,
    chains: Chains,
}

impl Model for Packets {
    ghost use Rattle.std.specs.Prelude.{min};
    ghost use Rattle.com_packets.specs.Table.{Table, IsTable};

    ghost Value = { Table };

    ghost view = { λ p. record {
      entries = p.slots.entries;
      spare = min p.slots.spare p.chains.spare;
    } };

    ghost invariant = { λ p. IsTable p.slots.entries p.chains.keys p.slots.limit };
}

// Ends all packets of the object.
fn end_all(slots: &mut Slots<Packet>, chains: &Chains, object: u32)
    requires as_many { length chains.now.keys ≡ length slots.old.entries }
    requires keyed { (index : ℕ)
        → IfSome (entry_at slots.old.entries index) (λ packet. packet.object
        ≡ slice_index chains.now.keys index) }
    requires fits { length slots.old.entries ≤ 2 ^ 32 - 1 }
    ensures entries { slots.new.entries ≡ cut_entries object slots.old.entries }
    ensures limit { slots.new.limit ≡ slots.old.limit }
    ensures spare { slots.new.spare ≡ slots.old.spare }
{
    let mut at = chains.last(object);
    while let Some(index) = at {
        slots.remove((index + 1) as u32);
        at = chains.earlier(index);
    }
}

// What a number adds to the public references of normal packets.
fn normal_at(slots: &Slots<Packet>, number: u32) -> u32
    ensures { result ≡ normal_of (held_in slots.now.entries number) }
{
    let Some(packet) = slots.get(number) else {
        return 0;
    };
    match packet.mode {
        MarshalMode::Normal => packet.refs,
        MarshalMode::Strong => 0,
        MarshalMode::Weak => 0,
    }
}

// The public references of the outstanding normal packets of the object.
fn sum_normal(slots: &Slots<Packet>, chains: &Chains, object: u32) -> u64
    requires as_many { length chains.now.keys ≡ length slots.now.entries }
    requires keyed { (index : ℕ)
        → IfSome (entry_at slots.now.entries index) (λ packet. packet.object
        ≡ slice_index chains.now.keys index) }
    requires fits { length slots.now.entries ≤ 2 ^ 32 - 1 }
    ensures { result ≡ normal_sum object slots.now.entries }
{
    let mut sum = 0;
    let mut latest = chains.last(object);
    while let Some(index) = latest {
        sum += u64::from(normal_at(slots, (index + 1) as u32));
        latest = chains.earlier(index);
    }
    sum
}

// The number that the last eight bytes of an interface pointer are, if it is one of 32 bits.
fn number_in(bytes: [u8; 8]) -> Option<u32>
    ensures some { IfSome result (λ number. from_le_bytes w64 bytes ≡ number) }
    ensures none { IfNone result (2 ^ 32 ≤ from_le_bytes w64 bytes) }
{
    u32::try_from(u64::from_le_bytes(bytes)).ok()
}

impl Packets {
    /// No packets. It takes no memory.
    pub fn new(alloc: Global) -> Self
        ensures { result.entries ≡ [] }
    {
        Packets {
            slots: Slots::new(alloc, u32::MAX),
            chains: Chains::new(alloc),
        }
    }

    /// Makes room for `n` packets.
    pub fn reserve(&mut self, n: u32) -> Result<(), Memory>
        ensures room { OnOk result (n ≤ self.new.spare) }
        ensures entries { self.new.entries ≡ self.old.entries }
        ensures spare { self.old.spare ≤ self.new.spare }
    {
        self.chains.reserve(n as usize)?;
        self.slots.reserve(n)
    }

    /// Puts a packet under the next number, which it returns. The first is 1.
    ///
    /// The only error is want of memory, and then no number was given.
    pub fn make(&mut self, packet: Packet) -> Result<u32, Memory>
        requires fits { length self.old.entries + 1 < 2 ^ 32 }
        ensures number { IfOk result (λ number. number ≡ length self.old.entries + 1) }
        ensures ok { OnOk result (self.new.entries ≡ self.old.entries ++ Some packet ∷ []) }
        ensures err { OnErr result (self.new.entries ≡ self.old.entries) }
        ensures room { 0 < self.old.spare → IsOk result }
        ensures spare { self.old.spare ≤ self.new.spare + 1 }
    {
        self.chains.reserve(1)?;
        match self.slots.insert(packet) {
            Ok(number) => {
                self.chains.append(packet.object);
                Ok(number)
            }
            Err(_) => Err(Memory),
        }
    }

    /// The outstanding packet that the fields name: that whose written references, OXID, OID and IPID they
    /// have, and whose interface is `iface`, which the caller read from their IID. `None` exactly where
    /// they name none.
    pub fn find(&self, fields: &StdFields, iface: u16) -> Option<u32>
        ensures some { IfSome result (IsNamed self.now.entries fields.now iface) }
        ensures only { IfSome result (λ number. (other : ℕ) → other < 2 ^ 32
            → IsNamed self.now.entries fields.now iface other → other ≡ number) }
        ensures none { IfNone result ((number : ℕ) → number < 2 ^ 32
            → IsNamed self.now.entries fields.now iface number → ⊥) }
    {
        let Some(number) = number_in(fields.ipid.data4) else {
            return None;
        };
        let Some(packet) = self.slots.get(number) else {
            return None;
        };
        if !packet.is_written(number, fields, iface) {
            return None;
        }
        Some(number)
    }

    /// How many numbers were given.
    pub fn given_count(&self) -> u32
        ensures { result ≡ length self.now.entries }
    {
        self.slots.given_count()
    }

    /// The public references of the outstanding normal packets of an object.
    pub fn normal_refs(&self, object: u32) -> u64
        ensures { result ≡ normal_sum object self.now.entries }
    {
        sum_normal(&self.slots, &self.chains, object)
    }

    /// The outstanding packet of a number. `None` exactly where none is outstanding under it.
    pub fn get(&self, number: u32) -> Option<&Packet>
        ensures { option_copied result ≡ held_in self.now.entries number }
    {
        self.slots.get(number)
    }

    /// Ends the packet of a number, which is not used again. `None` exactly where none is outstanding
    /// under it.
    pub fn end(&mut self, number: u32) -> Option<Packet>
        ensures value { result ≡ held_in self.old.entries number }
        ensures entries { self.new.entries ≡ with_entry self.old.entries number None }
        ensures spare { self.new.spare ≡ self.old.spare }
    {
        self.slots.remove(number)
    }

    /// Ends all packets of an object.
    pub fn cut(&mut self, object: u32)
        ensures entries { self.new.entries ≡ cut_entries object self.old.entries }
        ensures spare { self.new.spare ≡ self.old.spare }
    {
        end_all(&mut self.slots, &self.chains, object);
    }
}
