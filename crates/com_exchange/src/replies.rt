//! Reading a reply: its HRESULT, its result, and the packet that carries a reference.
ghost use Rattle.std.specs.Prelude.{◌≡◌, ◌↔◌, ◌<◌, ◌≤◌, IfOk, IfSome, IsTrue, List, OnSome, Some, drop, length, ℕ};
ghost use Rattle.com_model.specs.Lists.{first};
ghost use Rattle.ndr_args.specs.declared.wire.TheConstants.ArgFault.{TRAILING};
ghost use Rattle.ndr_args.specs.declared.wire.Wire.{Wire};
ghost use Rattle.ndr_args.specs.Grammar.{gap, zeros};
ghost use Rattle.com_exchange.specs.Received.{packet_in, packets_in, value_in, values_in};
ghost use Rattle.com_exchange.specs.Replies.{Finds, IsResult, SaysAnswer, TellsReply, answer_at_end};
ghost use Rattle.com_exchange.specs.Replies.{kinds_before, reply_in, with_answer};

use crate::receiving::{packet_in_fields, reference_in_fields};
use crate::writing::gap;
use com_base::{HResult, Kind, Value};
use com_wire::u32_at;
use ndr_args::{ArgError, ArgFault, Wire, read_args};
use std::alloc::Global;

/// What a reply says: the HRESULT, the result, and the number of the packet that carries it.
#[derive(Debug, Drop)]
pub struct Reply {
    /// The HRESULT.
    pub hr: HResult,
    /// The result, and none where the call failed or its method has none.
    pub value: Option<Value>,
    /// The number of the packet that carries the result, where it is a reference that is not null.
    pub packet: Option<u64>,
}

/// Why no reply was read.
#[derive(Debug, Clone, Copy, PartialEq, Eq)]
pub enum ReplyError {
    /// The bytes are no reply of a method with such a result.
    NoReply,
    /// Want of memory.
    Memory,
}

// How many bytes the header of a reply has.
const HEADER: usize = 8;

// How many bytes the HRESULT has.
const ANSWER: usize = 4;

// What stands behind the header.
fn behind_header(bytes: &[u8]) -> &[u8]
    ensures { result.now ≡ drop 8 bytes.now }
{
    if bytes.len() < HEADER {
        return &[];
    }
    bytes.split_at(HEADER).1
}

// The HRESULT, which stands last. None where there are fewer than four bytes.
#[tactic(auto, unfolding(crate::specs::Replies::answer_at_end))]
fn answer_at_end(rest: &[u8]) -> Option<HResult>
    ensures says { SaysAnswer result (answer_at_end rest.now) }
    ensures room { OnSome result (4 ≤ length rest.now) }
{
    match u32_at(rest, rest.len().saturating_sub(ANSWER)) {
        Some(number) => Some(HResult(number)),
        None => None,
    }
}

// Whether bytes are the same.
fn same(bytes: &[u8], other: &[u8]) -> bool
    ensures { IsTrue result ↔ (bytes.now ≡ other.now) }
{
    bytes == other
}

// Whether bytes are so many zeros.
#[tactic(auto, using(crate::proofs::Rereading::zeros_taken))]
fn is_zeros(bytes: &[u8], count: usize) -> bool
    requires { count < 4 }
    ensures { IsTrue result ↔ (bytes.now ≡ zeros count) }
{
    same(bytes, &[0; ANSWER][..count])
}

// Whether the front of a reply has nothing but padding to a multiple of four from this end on.
fn is_padding(front: &[u8], end: usize) -> bool
    requires { end ≤ length front.now }
    ensures { IsTrue result ↔ (drop end front.now ≡ zeros (gap end 4)) }
{
    is_zeros(front.split_at(end).1, gap(end, ANSWER))
}

// The values of these kinds that the front of a reply spells up to this end, with padding behind them.
fn result_until(
    alloc: Global,
    kinds: &[Kind],
    front: &[u8],
    end: usize,
) -> Result<Vec<Wire>, ReplyError>
    requires { end ≤ length front.now }
    ensures found { IfOk result (λ found. IsResult kinds.now front.now found.items) }
    ensures only { (ws : List Wire) (h : IsResult kinds.now front.now ws) → length h.text ≡ end → Finds result ws }
{
    if !is_padding(front, end) {
        return Err(ReplyError::NoReply);
    }
    match read_args(alloc, kinds, front.split_at(end).0) {
        Ok(wires) => Ok(wires),
        Err(ArgError::Memory) => Err(ReplyError::Memory),
        Err(ArgError::Fault(_)) => Err(ReplyError::NoReply),
    }
}

// Where values end behind which bytes are left. None of every other fault.
fn end_before(fault: ArgFault, length: usize) -> Option<usize>
    ensures left { (end : ℕ) → fault ≡ record { number = TRAILING; at = end } → end ≤ length → result ≡ Some end }
    ensures within { IfSome result (λ end. end ≤ length) }
{
    if fault.number == ArgFault::TRAILING && fault.at <= length {
        Some(fault.at)
    } else {
        None
    }
}

// The values of these kinds that the front of a reply spells, with padding behind them. Where there is padding, the
// first reading finds bytes left, and says where.
fn read_result(alloc: Global, kinds: &[Kind], front: &[u8]) -> Result<Vec<Wire>, ReplyError>
    ensures found { IfOk result (λ found. IsResult kinds.now front.now found.items) }
    ensures only { (ws : List Wire) → IsResult kinds.now front.now ws → Finds result ws }
{
    match read_args(alloc, kinds, front) {
        Ok(wires) => {
            if is_padding(front, front.len()) {
                Ok(wires)
            } else {
                Err(ReplyError::NoReply)
            }
        }
        Err(ArgError::Memory) => Err(ReplyError::Memory),
        Err(ArgError::Fault(fault)) => match end_before(fault, front.len()) {
            Some(end) => result_until(alloc, kinds, front, end),
            None => Err(ReplyError::NoReply),
        },
    }
}

// The result of a method in the front of a reply with this HRESULT: one value, where the method has a result and the
// call did not fail.
fn read_declared(
    alloc: Global,
    kind: Option<Kind>,
    hr: HResult,
    front: &[u8],
) -> Result<Vec<Wire>, ReplyError>
    ensures found { IfOk result (λ found. IsResult (kinds_before kind hr) front.now found.items) }
    ensures only { (ws : List Wire) → IsResult (kinds_before kind hr) front.now ws → Finds result ws }
{
    let Some(kind) = kind else {
        return read_result(alloc, &[], front);
    };
    if hr.is_failure() {
        return read_result(alloc, &[], front);
    }
    read_result(alloc, &[kind], front)
}

// The value that travelled so. A reference is the one that its packet names.
fn value_of(wire: Wire) -> Value
    ensures { result ≡ value_in wire }
{
    match wire {
        Wire::Int(number) => Value::Int(number),
        Wire::Bool(truth) => Value::Bool(truth),
        Wire::Text(text) => Value::Text(text),
        Wire::Bytes(bytes) => Value::Bytes(bytes),
        Wire::Guid(guid) => Value::Guid(guid),
        Wire::Ref(None) => Value::Ref(None),
        Wire::Ref(Some(fields)) => Value::Ref(Some(reference_in_fields(&fields))),
    }
}

// The number of the packet that carries a value, if it is a reference that is not null.
fn packet_of(wire: &Wire) -> Option<u64>
    ensures { result ≡ first (packet_in wire.now) }
{
    match wire {
        Wire::Ref(Some(fields)) => Some(packet_in_fields(fields)),
        _ => None,
    }
}

// What a reply says with this HRESULT and at most one value.
fn reply_of(hr: HResult, mut wires: Vec<Wire>) -> Reply
    requires { length wires.items ≤ 1 }
    ensures { result ≡ record {
      hr = hr;
      value = first (values_in wires.items);
      packet = first (packets_in wires.items);
    } }
{
    match wires.pop() {
        None => Reply {
            hr,
            value: None,
            packet: None,
        },
        Some(wire) => {
            let packet = packet_of(&wire);
            Reply {
                hr,
                value: Some(value_of(wire)),
                packet,
            }
        }
    }
}

// What stands behind the header: the HRESULT at the end, and the result before it.
#[tactic(auto, using(crate::proofs::Rereading::result_few))]
fn read_body(alloc: Global, kind: Option<Kind>, rest: &[u8]) -> Result<Reply, ReplyError>
    ensures { TellsReply result (with_answer kind rest.now (answer_at_end rest.now)) }
{
    let Some(hr) = answer_at_end(rest) else {
        return Err(ReplyError::NoReply);
    };
    let front = rest.split_at(rest.len() - ANSWER).0;
    match read_declared(alloc, kind, hr, front) {
        Ok(wires) => Ok(reply_of(hr, wires)),
        Err(error) => Err(error),
    }
}

/// Reads a reply of a method with this result: the header, the HRESULT at the end, and the result before it, with
/// its padding. All of the bytes are read. A reference is the one that its packet names. Which packets there are is
/// not known here. Source: MS-DCOM 2.2.13.4, "ORPCTHAT"; C706, chapter 14.
pub fn read_reply(alloc: Global, kind: Option<Kind>, bytes: &[u8]) -> Result<Reply, ReplyError>
    ensures { TellsReply result (reply_in kind bytes.now) }
{
    match orpc::read_reply(bytes) {
        Ok(()) => read_body(alloc, kind, behind_header(bytes)),
        Err(_) => Err(ReplyError::NoReply),
    }
}
