//! The numbers of values that travel are in the ranges of their types: functions that do nothing.
ghost use Rattle.std.specs.Prelude.{◌<◌, ◌^◌, option_copied};
ghost use Rattle.std.specs.List.{AllByRecursion};
ghost use Rattle.com_wire.specs.Fields.{IsGuid};
ghost use Rattle.objref.specs.Grammar.{IsStdFields};
ghost use Rattle.ndr_args.specs.Written.{IsInRange};
ghost use Rattle.com_model.specs.Values.{result_list, wires};
ghost use Rattle.com_exchange.specs.Wires.{wire_of};

use crate::writing::{packet_at, packets_of};
use com_base::{Guid, StdFields, Value};

// The numbers of a GUID.
#[tactic(auto, using(crate::proofs::Ranging::eight_bytes))]
fn guid_is_in_range(guid: &Guid)
    ensures { IsGuid guid.now }
{
    let _numbers = (guid.data1, guid.data2, guid.data3);
    let [d0, d1, d2, d3, d4, d5, d6, d7] = guid.data4;
    let _bytes = (d0, d1, d2, d3, d4, d5, d6, d7);
}

// The numbers of a packet's fields beside its GUIDs.
fn numbers_are_in_range(refs: u32, oxid: u64, oid: u64)
    ensures refs { refs < 2 ^ 32 }
    ensures oxid { oxid < 2 ^ 64 }
    ensures oid { oid < 2 ^ 64 }
{
    let _numbers = (refs, oxid, oid);
}

// The numbers of a packet's fields.
fn fields_are_in_range(fields: &StdFields)
    ensures { IsStdFields fields.now }
{
    guid_is_in_range(&fields.iid);
    guid_is_in_range(&fields.ipid);
    numbers_are_in_range(fields.refs, fields.oxid, fields.oid);
}

// The number of a value, and those of its packet.
fn is_in_range(value: &Value, packet: Option<&StdFields>)
    ensures { IsInRange (wire_of value.now (option_copied packet.entry)) }
{
    match (value, packet) {
        (Value::Int(number), _) => {
            let _number = *number;
        }
        (Value::Guid(guid), _) => guid_is_in_range(guid),
        (Value::Ref(Some(_)), Some(fields)) => fields_are_in_range(fields),
        _ => {}
    }
}

// All numbers of values that travel, each reference that is not null with the next packet.
pub(crate) fn are_in_range(values: &[Value], packets: &[StdFields])
    ensures { AllByRecursion IsInRange (wires values.now packets.now) }
{
    let mut taken = 0;
    for value in values {
        is_in_range(value, packet_at(packets, taken));
        taken += packets_of(value);
    }
}

// The number of a result, if there is one, and those of its packet.
pub(crate) fn result_is_in_range(value: Option<&Value>, packets: &[StdFields])
    ensures { AllByRecursion IsInRange (wires (result_list (option_copied value.entry)) packets.now) }
{
    match value {
        None => {}
        Some(value) => is_in_range(value, packets.first()),
    }
}

// A number of 32 bits.
pub(crate) fn number_is_in_range(number: u32)
    ensures { number < 2 ^ 32 }
{}
