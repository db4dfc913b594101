//! The values of a call as they travel.
ghost use Rattle.std.specs.Prelude.{◌≡◌, ◌++◌, Bool, ℕ, IfOk, OnOk, option_copied};
ghost use Rattle.com_base.specs.Values.{default_of};
ghost use Rattle.com_model.specs.Values.{if_live, sent_value, sent_values, sent_result};
ghost use Rattle.com_model.specs.Values.{carried};
ghost use Rattle.com_exchange.specs.Sent.{sent_or_default};
ghost use Rattle.com_exchange.specs.Wires.{reference_in};

use com_base::{ByteList, Guid, HResult, Kind, Memory, RefValue, Rows, Value};
use std::alloc::Global;

/// Which objects are connected.
pub trait Connections {
    // Whether the object with a number is connected.
    ghost live: { Self → ℕ → Bool };

    /// Whether the object is connected.
    fn is_connected(&self, object: u32) -> bool
        ensures { result ≡ live self.now object };
}

// A reference to an object that is not connected travels as null on the routes that marshal.
fn if_connected<C: Connections>(value: Value, is_marshalled: bool, connections: &C) -> Value
    ensures { result ≡ if_live is_marshalled (C.live connections.now) value }
{
    match value {
        Value::Ref(Some(held)) if is_marshalled => {
            if connections.is_connected(held.object) {
                Value::Ref(Some(held))
            } else {
                Value::Ref(None)
            }
        }
        other => other,
    }
}

/// A value as one of its declared kind: a value of another type travels as the kind's default, and so does a
/// reference of another interface. Where the route marshals, a reference to an object that is not connected
/// travels as null. The only error is want of memory.
pub fn sent_value<C: Connections>(
    alloc: Global,
    is_marshalled: bool,
    connections: &C,
    kind: Kind,
    value: &Value,
) -> Result<Value, Memory>
    ensures { IfOk result (λ sent. sent ≡ sent_value is_marshalled (C.live connections.now) kind value.now) }
{
    let value = value.copy()?.as_kind(alloc, kind);
    Ok(if_connected(value, is_marshalled, connections))
}

// The value that travels where none was given.
fn default_of(alloc: Global, kind: Kind) -> Value
    ensures { result ≡ default_of kind }
{
    match kind {
        Kind::Int => Value::Int(0),
        Kind::Bool => Value::Bool(false),
        Kind::Text => Value::Text(ByteList::new(alloc)),
        Kind::Bytes => Value::Bytes(ByteList::new(alloc)),
        Kind::Guid => Value::Guid(Guid::ZERO),
        Kind::Ref(_) => Value::Ref(None),
    }
}

// The value of one parameter, where some was given, as it travels.
fn sent_or_default<C: Connections>(
    alloc: Global,
    is_marshalled: bool,
    connections: &C,
    kind: Kind,
    value: Option<&Value>,
) -> Result<Value, Memory>
    ensures { IfOk result (λ sent. sent
        ≡ sent_or_default is_marshalled (C.live connections.now) kind (option_copied value.entry)) }
{
    match value {
        Some(value) => sent_value(alloc, is_marshalled, connections, kind, value),
        None => Ok(default_of(alloc, kind)),
    }
}

/// The arguments of a call as they travel, one for each kind. Where fewer values are given, the kinds'
/// defaults travel. The only error is want of memory.
#[tactic(auto, using(crate::proofs::Sendings::sent_more, crate::proofs::Sendings::sent_all))]
pub fn sent_values<C: Connections>(
    alloc: Global,
    is_marshalled: bool,
    connections: &C,
    kinds: &[Kind],
    values: &[Value],
) -> Result<Rows<Value>, Memory>
    ensures { IfOk result (λ sent. sent
        ≡ sent_values is_marshalled (C.live connections.now) kinds.now values.now) }
{
    let mut sent = Vec::with_capacity(alloc, kinds.len())?;
    for (at, kind) in kinds.iter().enumerate() {
        sent.push(sent_or_default(alloc, is_marshalled, connections, *kind, values.get(at))?)?;
    }
    Ok(Rows::from_vec(sent))
}

/// The result of a body as it travels: none on failure or where none is declared; else the given value, or
/// the kind's default. The only error is want of memory.
#[tactic(auto, using(crate::proofs::Sendings::sent_given))]
pub fn sent_result<C: Connections>(
    alloc: Global,
    is_marshalled: bool,
    connections: &C,
    answer: HResult,
    kind: Option<Kind>,
    value: Option<&Value>,
) -> Result<Option<Value>, Memory>
    ensures { IfOk result (λ sent. sent
        ≡ sent_result is_marshalled (C.live connections.now) answer kind (option_copied value.entry)) }
{
    let Some(kind) = kind else {
        return Ok(None);
    };
    if answer.is_failure() {
        return Ok(None);
    }
    Ok(Some(sent_or_default(alloc, is_marshalled, connections, kind, value)?))
}

// Appends the reference of a value, if it is one and not null.
fn append_reference(held: &mut Vec<RefValue>, value: &Value) -> Result<(), Memory>
    ensures { OnOk result (held.new.items ≡ held.old.items ++ reference_in value.now) }
{
    match value {
        Value::Ref(Some(reference)) => Ok(held.push(*reference)?),
        _ => Ok(()),
    }
}

/// The references among values, in their order, without null. The only error is want of memory.
#[tactic(auto, using(crate::proofs::Sendings::carried_more, crate::proofs::Sendings::carried_all))]
pub fn references_in(alloc: Global, values: &[Value]) -> Result<Vec<RefValue>, Memory>
    ensures { IfOk result (λ held. held.items ≡ carried values.now) }
{
    let mut held = Vec::new(alloc);
    for value in values {
        append_reference(&mut held, value)?;
    }
    Ok(held)
}
