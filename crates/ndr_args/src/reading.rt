//! Reading arguments in one pass over the bytes.
ghost use Rattle.std.specs.Prelude.{◌≡◌, ◌+◌, ◌<◌, ◌≤◌, List, length, IfOk, Ok};
ghost use Rattle.std.specs.Str.{is_utf8};
ghost use Rattle.objref.specs.Reading.{objref_of};
ghost use Rattle.ndr_args.specs.declared.wire.Wire.{Wire};
ghost use Rattle.ndr_args.specs.Grammar.{gap, align_of, IsArgs};
ghost use Rattle.ndr_args.specs.Reading.{Gives, u32_field, zeros_at, count_at, part_at, counted_at};
ghost use Rattle.ndr_args.specs.Reading.{int_at, bool_at, text_at, bytes_at, guid_arg_at, std_fields};
ghost use Rattle.ndr_args.specs.Reading.{held_at, ref_at, arg_at, args_at, args_of};

use crate::wire::{ArgError, ArgFault, Wire};
use com_base::{ByteList, Kind, StdFields};
use com_wire::{guid_at, u32_at, u64_at};
use objref::{ObjRef, decode};
use std::alloc::Global;
use std::str::from_utf8;

// The greatest count that is taken: the most bytes of a text, of a bytes value and of an OBJREF.
pub(crate) const LIMIT: u32 = 65_536;

// The error of a fault, by its number and its position in the bytes.
fn fault(number: u8, at: usize) -> ArgError
    ensures { result ≡ ArgError.Fault (record { number = number; at = at }) }
{
    ArgError::Fault(ArgFault { number, at })
}

// How many bytes lie between a position and the next multiple of the alignment.
pub(crate) fn gap(position: usize, align: usize) -> usize
    requires { 0 < align }
    ensures value { result ≡ gap position align }
    ensures below { result < align }
{
    (align - position % align) % align
}

// The number of 32 bits at a position, and the position behind it.
fn u32_field(bytes: &[u8], position: usize) -> Result<(u32, usize), ArgError>
    ensures value { Gives (λ x. x) result (u32_field bytes.now position) }
    ensures within { IfOk result (λ x. (x.1 ≡ position + 4) × (x.1 ≤ length bytes.now)) }
{
    match u32_at(bytes, position) {
        Some(number) => Ok((number, position + 4)),
        None => Err(fault(ArgFault::SHORT, bytes.len())),
    }
}

// Passes over so many bytes that must be 0.
fn zeros_at(bytes: &[u8], count: usize, position: usize) -> Result<usize, ArgError>
    requires within { position ≤ length bytes.now }
    requires few { count < 8 }
    ensures value { Gives (λ x. x) result (zeros_at bytes.now count position) }
    ensures within { IfOk result (λ end. end ≤ length bytes.now) }
{
    for at in position..position + count {
        if at >= bytes.len() {
            return Err(fault(ArgFault::SHORT, bytes.len()));
        }
        if bytes[at] != 0 {
            return Err(fault(ArgFault::PADDING, at));
        }
    }
    Ok(position + count)
}

// The count at a position, if it is one that is taken, and the position behind it.
#[tactic(auto, unfolding(crate::specs::Reading::count_at))]
fn count_at(bytes: &[u8], position: usize) -> Result<(u32, usize), ArgError>
    ensures value { Gives (λ x. x) result (count_at bytes.now position) }
    ensures within { IfOk result (λ x. (x.1 ≡ position + 4) × (x.1 ≤ length bytes.now)) }
{
    let (count, end) = u32_field(bytes, position)?;
    if count > LIMIT {
        return Err(fault(ArgFault::COUNT, position));
    }
    Ok((count, end))
}

// So many bytes from a position on, and the position behind them.
fn part_at(bytes: &[u8], count: u32, position: usize) -> Result<(&[u8], usize), ArgError>
    requires { position ≤ length bytes.now }
    ensures value { Gives (λ x. (x.0.now, x.1)) result (part_at bytes.now count position) }
    ensures within { IfOk result (λ x. x.1 ≤ length bytes.now) }
{
    let count = count as usize;
    if bytes.len() - position < count {
        return Err(fault(ArgFault::SHORT, bytes.len()));
    }
    let end = position + count;
    Ok((&bytes[position..end], end))
}

// The bytes behind the count at a position, and the position behind them.
#[tactic(auto, unfolding(crate::specs::Reading::counted_at))]
fn counted_at(bytes: &[u8], position: usize) -> Result<(&[u8], usize), ArgError>
    ensures value { Gives (λ x. (x.0.now, x.1)) result (counted_at bytes.now position) }
    ensures within { IfOk result (λ x. x.1 ≤ length bytes.now) }
    ensures room { IfOk result (λ x. position + 4 ≤ length bytes.now) }
{
    let (count, start) = count_at(bytes, position)?;
    part_at(bytes, count, start)
}

// The whole number of 64 bits, with its sign, at a position, and the position behind it.
#[tactic(auto, unfolding(crate::specs::Reading::int_at))]
fn int_at(bytes: &[u8], position: usize) -> Result<(Wire, usize), ArgError>
    ensures value { Gives (λ x. x) result (int_at bytes.now position) }
    ensures within { IfOk result (λ x. x.1 ≤ length bytes.now) }
{
    match u64_at(bytes, position) {
        Some(number) => Ok((Wire::Int(number.cast_signed()), position + 8)),
        None => Err(fault(ArgFault::SHORT, bytes.len())),
    }
}

// The truth value at a position, as a number of 32 bits that is 0 or 1, and the position behind it.
#[tactic(auto, unfolding(crate::specs::Reading::bool_at))]
fn bool_at(bytes: &[u8], position: usize) -> Result<(Wire, usize), ArgError>
    ensures value { Gives (λ x. x) result (bool_at bytes.now position) }
    ensures within { IfOk result (λ x. x.1 ≤ length bytes.now) }
{
    let (number, end) = u32_field(bytes, position)?;
    match number {
        0 => Ok((Wire::Bool(false), end)),
        1 => Ok((Wire::Bool(true), end)),
        _ => Err(fault(ArgFault::BOOL, position)),
    }
}

// Whether bytes are a text of UTF-8, all of them.
fn is_utf8(bytes: &[u8]) -> bool
    ensures { result ≡ is_utf8 bytes.now }
{
    from_utf8(bytes).is_ok()
}

// The text behind the count at a position, and the position behind it.
#[tactic(auto, unfolding(crate::specs::Reading::text_at))]
fn text_at(alloc: Global, bytes: &[u8], position: usize) -> Result<(Wire, usize), ArgError>
    ensures value { Gives (λ x. x) result (text_at bytes.now position) }
    ensures within { IfOk result (λ x. x.1 ≤ length bytes.now) }
{
    let (text, end) = counted_at(bytes, position)?;
    if !is_utf8(text) {
        return Err(fault(ArgFault::TEXT, position + 4));
    }
    Ok((Wire::Text(ByteList::from_slice(alloc, text)?), end))
}

// The bytes value behind the count at a position, and the position behind it.
#[tactic(auto, unfolding(crate::specs::Reading::bytes_at))]
fn bytes_at(alloc: Global, bytes: &[u8], position: usize) -> Result<(Wire, usize), ArgError>
    ensures value { Gives (λ x. x) result (bytes_at bytes.now position) }
    ensures within { IfOk result (λ x. x.1 ≤ length bytes.now) }
{
    let (part, end) = counted_at(bytes, position)?;
    Ok((Wire::Bytes(ByteList::from_slice(alloc, part)?), end))
}

// The GUID at a position, and the position behind it.
#[tactic(auto, unfolding(crate::specs::Reading::guid_arg_at))]
fn guid_arg_at(bytes: &[u8], position: usize) -> Result<(Wire, usize), ArgError>
    ensures value { Gives (λ x. x) result (guid_arg_at bytes.now position) }
    ensures within { IfOk result (λ x. x.1 ≤ length bytes.now) }
{
    match guid_at(bytes, position) {
        Some(guid) => Ok((Wire::Guid(guid), position + 16)),
        None => Err(fault(ArgFault::SHORT, bytes.len())),
    }
}

// The fields of an OBJREF by standard marshalling. None for all other bytes.
fn standard_fields(bytes: &[u8]) -> Option<StdFields>
    ensures { result ≡ std_fields (objref_of bytes.now) }
{
    match decode(bytes) {
        Ok(ObjRef::Standard { fields, .. }) => Some(fields),
        _ => None,
    }
}

// What stands behind a referent that is not 0: both counts, the OBJREF and its padding. It
// gives the fields of the OBJREF, and the position behind the padding.
#[tactic(auto, unfolding(crate::specs::Reading::held_at))]
fn held_at(bytes: &[u8], position: usize) -> Result<(StdFields, usize), ArgError>
    ensures value { Gives (λ x. x) result (held_at bytes.now position) }
    ensures within { IfOk result (λ x. x.1 ≤ length bytes.now) }
{
    let (maximum, second) = count_at(bytes, position)?;
    let (count, start) = u32_field(bytes, second)?;
    if count != maximum {
        return Err(fault(ArgFault::COUNT, second));
    }
    let (part, end) = part_at(bytes, count, start)?;
    let Some(fields) = standard_fields(part) else {
        return Err(fault(ArgFault::REF, start));
    };
    let end = zeros_at(bytes, gap(end, 4), end)?;
    Ok((fields, end))
}

// The reference at a position, null where its referent is 0, and the position behind it.
#[tactic(auto, unfolding(crate::specs::Reading::ref_at))]
fn ref_at(bytes: &[u8], position: usize) -> Result<(Wire, usize), ArgError>
    ensures value { Gives (λ x. x) result (ref_at bytes.now position) }
    ensures within { IfOk result (λ x. x.1 ≤ length bytes.now) }
{
    let (referent, position) = u32_field(bytes, position)?;
    if referent == 0 {
        return Ok((Wire::Ref(None), position));
    }
    let (fields, end) = held_at(bytes, position)?;
    Ok((Wire::Ref(Some(fields)), end))
}

// Where a value of a kind may begin: at the multiples of this.
fn align_of(kind: Kind) -> usize
    ensures value { result ≡ align_of kind }
    ensures some { 0 < result }
    ensures few { result ≤ 8 }
{
    match kind {
        Kind::Int => 8,
        Kind::Bool | Kind::Text | Kind::Bytes | Kind::Guid | Kind::Ref(_) => 4,
    }
}

// The value of a kind that stands behind its padding, and the position behind the value.
#[tactic(auto, unfolding(crate::specs::Reading::arg_at))]
fn arg_at(
    alloc: Global,
    kind: Kind,
    bytes: &[u8],
    position: usize,
) -> Result<(Wire, usize), ArgError>
    requires { position ≤ length bytes.now }
    ensures value { Gives (λ x. x) result (arg_at kind bytes.now position) }
    ensures within { IfOk result (λ x. x.1 ≤ length bytes.now) }
{
    let start = zeros_at(bytes, gap(position, align_of(kind)), position)?;
    match kind {
        Kind::Int => int_at(bytes, start),
        Kind::Bool => bool_at(bytes, start),
        Kind::Text => text_at(alloc, bytes, start),
        Kind::Bytes => bytes_at(alloc, bytes, start),
        Kind::Guid => guid_arg_at(bytes, start),
        Kind::Ref(_) => ref_at(bytes, start),
    }
}

// The values of these kinds from the first byte on, and the position behind the last.
fn args_at(alloc: Global, kinds: &[Kind], bytes: &[u8]) -> Result<(Vec<Wire>, usize), ArgError>
    ensures { Gives (λ x. (x.0.items, x.1)) result (args_at kinds.now bytes.now 0) }
{
    let mut values = Vec::with_capacity(alloc, kinds.len())?;
    let mut position = 0;
    for kind in kinds {
        let (value, end) = arg_at(alloc, *kind, bytes, position)?;
        values.push(value)?;
        position = end;
    }
    Ok((values, position))
}

// The values of these kinds, where nothing stands behind the last.
#[tactic(auto, unfolding(crate::specs::Reading::args_of))]
fn all(alloc: Global, kinds: &[Kind], bytes: &[u8]) -> Result<Vec<Wire>, ArgError>
    ensures { Gives (λ v. v.items) result (args_of kinds.now bytes.now) }
{
    let (values, end) = args_at(alloc, kinds, bytes)?;
    if end < bytes.len() {
        return Err(fault(ArgFault::TRAILING, end));
    }
    Ok(values)
}

/// The values of these kinds that the bytes are, all of the bytes, or their first fault from the front.
/// Memory is taken for the list, the texts and the bytes.
/// Source: C706, chapter 14; MS-DCOM 2.2.14, "MInterfacePointer".
pub fn read_args(alloc: Global, kinds: &[Kind], bytes: &[u8]) -> Result<Vec<Wire>, ArgError>
    // What is read is spelled so, each byte of it.
    ensures found { IfOk result (λ values. IsArgs kinds.now 0 values.items bytes.now) }
    // What is spelled so is read, unless memory runs out.
    ensures only { (values : List Wire) → IsArgs kinds.now 0 values bytes.now
        → Gives (λ v. v.items) result (Ok values) }
    // Which fault it is.
    ensures exact { Gives (λ v. v.items) result (args_of kinds.now bytes.now) }
{
    all(alloc, kinds, bytes)
}
