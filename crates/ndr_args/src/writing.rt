//! Writing arguments behind what a list has already.
ghost use Rattle.std.specs.Prelude.{◌≡◌, ◌+◌, ◌++◌, ◌<◌, ◌≤◌, ◌^◌, ◌⊎◌, length, OnOk, OnErr, IfSome, IfNone};
ghost use Rattle.std.specs.Int.{w32};
ghost use Rattle.std.specs.List.{AllByRecursion};
ghost use Rattle.com_wire.specs.Fields.{number};
ghost use Rattle.objref.specs.Grammar.{written_of};
ghost use Rattle.ndr_args.specs.declared.reading.TheConstants.{LIMIT};
ghost use Rattle.ndr_args.specs.Grammar.{gap, zeros, counted};
ghost use Rattle.ndr_args.specs.Written.{align_of_value, written_arg, next_referent, written_args, CanSend};
ghost use Rattle.ndr_args.specs.Written.{CanSendAll, length_of, padded_length, length_args, referent_after};
ghost use Rattle.ndr_args.specs.Written.{FitsReferents};

use crate::reading::gap;
use crate::wire::Wire;
use com_base::{ByteList, Kind, Memory, Reserved, StdFields};
use com_wire::put;
use objref::encode_reserved;
use std::alloc::AllocError;

// The referent of a stream's first reference that is not null. They count up by the size of a pointer.
const FIRST_REFERENT: u32 = 0x0002_0000;

// How far a referent is from the one before it.
const STEP: u32 = 4;

// How many bytes the OBJREF of a reference has.
const OBJREF: u32 = 72;

// How many bytes a reference has that is not null: the referent and both counts, four each, and the OBJREF.
const REFERENCE: usize = 3 * 4 + OBJREF as usize;

// Appends so many zeros.
fn put_zeros(count: usize, out: &mut Reserved)
    requires few { count < 8 }
    requires room { count ≤ out.old.spare }
    ensures items { out.new.items ≡ out.old.items ++ zeros count }
    ensures spare { out.old.spare ≤ out.new.spare + count }
{
    out.push_all(&[0; 8][..count]);
}

// Appends bytes behind their count.
#[tactic(auto, unfolding(com_wire::specs::Fields::number))]
fn put_counted(bytes: &[u8], out: &mut Reserved)
    requires short { length bytes.now ≤ LIMIT }
    requires room { 4 + length bytes.now ≤ out.old.spare }
    ensures items { out.new.items ≡ out.old.items ++ counted bytes.now }
    ensures spare { out.old.spare ≤ out.new.spare + (4 + length bytes.now) }
{
    out.push_all(&(bytes.len() as u32).to_le_bytes());
    out.push_all(bytes);
}

// The referent and both counts of a reference that is not null.
fn counts(referent: u32) -> [u8; 12]
    ensures { result ≡ number w32 referent ++ (number w32 72 ++ number w32 72) }
{
    let mut bytes = [0; 12];
    put(&mut bytes, 0, &referent.to_le_bytes());
    put(&mut bytes, 4, &OBJREF.to_le_bytes());
    put(&mut bytes, 8, &OBJREF.to_le_bytes());
    bytes
}

// Appends a reference that is not null.
fn put_ref(fields: &StdFields, referent: u32, out: &mut Reserved)
    requires room { 84 ≤ out.old.spare }
    ensures items { out.new.items ≡ out.old.items
        ++ (number w32 referent ++ (number w32 72 ++ (number w32 72 ++ written_of fields.now))) }
    ensures spare { out.old.spare ≤ out.new.spare + 84 }
    ensures length { length out.new.items ≡ length out.old.items + 84 }
{
    out.push_all(&counts(referent));
    encode_reserved(fields, out);
}

// Where a value may begin: at the multiples of this.
fn align_of_value(value: &Wire) -> usize
    ensures value { result ≡ align_of_value value.now }
    ensures some { 0 < result }
    ensures few { result ≤ 8 }
{
    match value {
        Wire::Int(_) => 8,
        Wire::Bool(_) | Wire::Text(_) | Wire::Bytes(_) | Wire::Guid(_) | Wire::Ref(_) => 4,
    }
}

// How many bytes a value has, without the padding before it.
fn length_of(value: &Wire) -> usize
    requires { CanSend value.now }
    ensures value { result ≡ length_of value.now }
    ensures few { result ≤ LIMIT + 4 }
{
    match value {
        Wire::Int(_) => 8,
        Wire::Bool(_) | Wire::Ref(None) => 4,
        Wire::Text(bytes) | Wire::Bytes(bytes) => 4 + bytes.len(),
        Wire::Guid(_) => 16,
        Wire::Ref(Some(_)) => REFERENCE,
    }
}

// How many bytes a value has at a position, with the padding before it.
fn padded_length(position: usize, value: &Wire) -> usize
    requires { CanSend value.now }
    ensures { result ≡ padded_length position value.now }
{
    gap(position, align_of_value(value)) + length_of(value)
}

// Appends a value where it may begin.
#[tactic(auto, unfolding(crate::specs::Written::written_arg, com_wire::specs::Fields::number, com_wire::specs::Fields::guid))]
fn put_arg(value: &Wire, referent: u32, out: &mut Reserved)
    requires value { CanSend value.now }
    requires room { length_of value.now ≤ out.old.spare }
    ensures items { out.new.items ≡ out.old.items ++ written_arg referent value.now }
    ensures spare { out.old.spare ≤ out.new.spare + length_of value.now }
    ensures length { length out.new.items ≡ length out.old.items + length_of value.now }
{
    match value {
        Wire::Int(number) => out.push_all(&number.to_le_bytes()),
        Wire::Bool(true) => out.push_all(&1u32.to_le_bytes()),
        Wire::Bool(false) => out.push_all(&0u32.to_le_bytes()),
        Wire::Text(text) => put_counted(text.as_slice(), out),
        Wire::Bytes(bytes) => put_counted(bytes.as_slice(), out),
        Wire::Guid(guid) => out.push_all(&guid.to_wire()),
        Wire::Ref(None) => out.push_all(&0u32.to_le_bytes()),
        Wire::Ref(Some(fields)) => put_ref(fields, referent, out),
    }
}

// The referent of the next reference behind a value. None exactly where 32 bits do not tell it.
fn next_referent(referent: u32, value: &Wire) -> Option<u32>
    ensures some { IfSome result (λ next. next ≡ next_referent referent value.now) }
    ensures fits { IfSome result (λ next. next < 2 ^ 32) }
    ensures none { IfNone result (2 ^ 32 ≤ next_referent referent value.now) }
{
    match value {
        Wire::Ref(Some(_)) => referent.checked_add(STEP),
        _ => Some(referent),
    }
}

// Appends a value with the padding before it, at a position in the stream.
fn put_value(value: &Wire, position: usize, referent: u32, out: &mut Reserved)
    requires value { CanSend value.now }
    requires room { padded_length position value.now ≤ out.old.spare }
    ensures items { out.new.items ≡ out.old.items
        ++ (zeros (gap position (align_of_value value.now)) ++ written_arg referent value.now) }
    ensures spare { out.old.spare ≤ out.new.spare + padded_length position value.now }
    ensures length { length out.new.items ≡ length out.old.items + padded_length position value.now }
{
    put_zeros(gap(position, align_of_value(value)), out);
    put_arg(value, referent, out);
}

// Appends values that can be sent, to a list that has room for them.
fn put_values(values: &[Wire], out: &mut Reserved)
    requires each { AllByRecursion CanSend values.now }
    requires referents { FitsReferents values.now }
    requires room { length_args values.now ≤ out.old.spare }
    ensures items { out.new.items ≡ out.old.items ++ written_args values.now }
    ensures spare { out.old.spare ≤ out.new.spare + length_args values.now }
    ensures length { length out.new.items ≡ length out.old.items + length_args values.now }
{
    let start = out.len();
    let mut referent = FIRST_REFERENT;
    for value in values {
        put_value(value, out.len() - start, referent, out);
        let Some(next) = next_referent(referent, value) else {
            unreachable!()
        };
        referent = next;
    }
}

/// How many bytes `write_args` appends for values that can be sent. None exactly where usize does not tell
/// that number, or where 32 bits do not tell each referent and the one behind the last: such a stream has
/// thousands of millions of bytes.
pub fn args_length(values: &[Wire]) -> Option<usize>
    requires { AllByRecursion CanSend values.now }
    ensures length { IfSome result (λ length. length ≡ length_args values.now) }
    ensures referents { IfSome result (λ length. FitsReferents values.now) }
    ensures none { IfNone result
        ((2 ^ 64 ≤ length_args values.now) ⊎ (2 ^ 32 ≤ referent_after 0x20000 values.now)) }
{
    let mut length: usize = 0;
    let mut referent = FIRST_REFERENT;
    for value in values {
        let more = padded_length(length, value);
        let Some(longer) = length.checked_add(more) else {
            return None;
        };
        let Some(next) = next_referent(referent, value) else {
            return None;
        };
        length = longer;
        referent = next;
    }
    Some(length)
}

/// Appends the bytes of values of these kinds: each behind zeros up to a multiple of its alignment, the
/// referents of the references that are not null counting up by four from 0x00020000. The stream begins
/// at the list's end as it is. The only error is want of memory, and then the list is as before.
/// There are as many values as kinds, each has its kind, each text is UTF-8, and each text and each bytes
/// value has at most 65,536 bytes. Source: C706, chapter 14; MS-DCOM 2.2.14, "MInterfacePointer".
pub fn write_args(kinds: &[Kind], values: &[Wire], out: &mut ByteList) -> Result<(), Memory>
    requires { CanSendAll kinds.now values.now }
    ensures ok { OnOk result (out.new ≡ out.old ++ written_args values.now) }
    ensures err { OnErr result (out.new ≡ out.old) }
    ensures length { OnOk result (length out.new ≡ length out.old + length_args values.now) }
{
    // A stream whose length usize does not tell has no room in any memory.
    let Some(more) = args_length(values) else {
        return Err(AllocError);
    };
    let room = out.reserve(more)?;
    write_args_reserved(kinds, values, room);
    Ok(())
}

/// What `write_args` appends, to a list that has room for it: `args_length` tells how much. It takes no
/// memory.
pub fn write_args_reserved(kinds: &[Kind], values: &[Wire], out: &mut Reserved)
    requires values { CanSendAll kinds.now values.now }
    requires referents { FitsReferents values.now }
    requires room { length_args values.now ≤ out.old.spare }
    ensures items { out.new.items ≡ out.old.items ++ written_args values.now }
    ensures spare { out.old.spare ≤ out.new.spare + length_args values.now }
    ensures length { length out.new.items ≡ length out.old.items + length_args values.now }
{
    prove_eq!(kinds.len(), values.len());
    put_values(values, out);
}
