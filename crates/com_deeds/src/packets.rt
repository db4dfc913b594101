//! The bytes of a packet: its fields, and the packet that bytes name.

ghost use Rattle.std.specs.Prelude.{◌≡◌, ℕ, Some, IfOk, IfErr};
ghost use Rattle.com_model.specs.Answers.{S_OK};
ghost use Rattle.com_model.specs.declared.deeds.Deed.TheVariants as deed;
ghost use Rattle.com_model.specs.Sight.{Sight};
ghost use Rattle.com_model.specs.Deeds.{packet_fields, written_refs, ipid, iid_of, named_by, named_or};
ghost use Rattle.com_model.specs.Deeds.{named_packet, Refuses, marshalled};
ghost use Rattle.com_classes.specs.Lookups.{interface_at};
ghost use Rattle.objref.specs.Grammar.{written_of};
ghost use Rattle.com_model.specs.declared.scenario.Scenario.{Scenario};

use com_base::{ByteList, Guid, HResult, MarshalMode, Memory, RefValue, StdFields};
use com_model::{Deed, Scenario};
use com_refs_books::Packet;
use objref::{ObjRef, decode, encode};
use std::alloc::Global;

// The public references in a packet's bytes: those that a normal packet holds, and else 0.
fn written_refs(mode: MarshalMode, refs: u32) -> u32
    ensures { result ≡ written_refs mode refs }
{
    match mode {
        MarshalMode::Normal => refs,
        MarshalMode::Strong | MarshalMode::Weak => 0,
    }
}

// The IID of the interface with this number, and the zero GUID where the scenario declares none.
fn iid_of(scenario: &Scenario, iface: u16) -> Guid
    ensures { result ≡ iid_of (interface_at scenario.now.classes iface) }
{
    match scenario.classes.interface(iface) {
        None => Guid::ZERO,
        Some(interface) => interface.iid,
    }
}

// The IPID in the bytes of a packet: the numbers of its object and interface, the low 16 bits of
// the owner's, and its own.
fn ipid(object: u32, iface: u16, owner: u32, packet: u32) -> Guid
    ensures { result ≡ ipid object iface owner packet }
{
    Guid {
        data1: object,
        data2: iface,
        data3: (owner % 0x1_0000) as u16,
        data4: u64::from(packet).to_le_bytes(),
    }
}

/// The fields that the bytes of a packet have: the IID, the public references where it is a normal packet and
/// else 0, the owner's number as OXID, the object's as OID, and all of them with the packet's number as IPID
/// ([MS-DCOM] 2.2.18.2, STDOBJREF).
pub fn packet_fields(scenario: &Scenario, kept: Packet, number: u32, owner: u32) -> StdFields
    ensures { (v : Sight) → v.named kept.object ≡ owner → result ≡ packet_fields scenario.now v kept number }
{
    StdFields {
        iid: iid_of(scenario, kept.iface),
        refs: written_refs(kept.mode, kept.refs),
        oxid: u64::from(owner),
        oid: u64::from(kept.object),
        ipid: ipid(kept.object, kept.iface, owner, number),
    }
}

/// The entry of `marshal` that makes the packet with this number and these fields, holding `refs` public
/// references (CoMarshalInterface). The only error is want of memory.
pub fn marshal_deed(
    alloc: Global,
    number: u32,
    mode: MarshalMode,
    held: RefValue,
    refs: u32,
    fields: &StdFields,
) -> Result<Deed, Memory>
    ensures { IfOk result (λ made. made
        ≡ deed.Marshal (Some number) mode (Some held) refs S_OK (Some (written_of fields.now))) }
{
    let mut bytes = ByteList::new(alloc);
    encode(fields, &mut bytes)?;
    Ok(Deed::Marshal {
        packet: Some(number),
        mode,
        held: Some(held),
        refs,
        hr: HResult::S_OK,
        bytes: Some(bytes),
    })
}

/// The entry of a `marshal` that is refused.
pub fn refused_marshal_deed(mode: MarshalMode, held: Option<RefValue>, hr: HResult) -> Deed
    ensures { (s : Scenario) (v : Sight) (l : ℕ) → result ≡ marshalled s v l mode held (Some hr) }
{
    Deed::Marshal {
        packet: None,
        mode,
        held,
        refs: 0,
        hr,
        bytes: None,
    }
}

/// The standard fields of bytes that a lane with this home unmarshals or drops, or the refusal:
/// CO_E_NOTINITIALIZED without home, RPC_E_INVALID_OBJREF for bytes that are no OBJREF, E_NOTIMPL for
/// marshalling by a handler or custom marshalling; the first that applies (CoUnmarshalInterface).
pub fn standard_fields(home: Option<u32>, bytes: &[u8]) -> Result<StdFields, HResult>
    ensures found { IfOk result (λ fields. (s : Scenario) (v : Sight)
        → named_by s v home bytes.now ≡ named_or (named_packet s v fields)) }
    ensures refused { IfErr result (λ hr. (s : Scenario) (v : Sight)
        → named_by s v home bytes.now ≡ Refuses hr) }
{
    if home.is_none() {
        return Err(HResult::CO_E_NOTINITIALIZED);
    }
    match decode(bytes) {
        Err(_) => Err(HResult::RPC_E_INVALID_OBJREF),
        Ok(ObjRef::Standard { fields, .. }) => Ok(fields),
        Ok(_) => Err(HResult::E_NOTIMPL),
    }
}
