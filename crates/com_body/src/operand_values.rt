//! The values of operands.

ghost use Rattle.std.specs.Prelude.{◌≡◌, IfOk, All};
ghost use Rattle.com_body.specs.Operands.{value_of, number_in, number_of, held_at};
ghost use Rattle.com_body.specs.Operands.{argument_of, arguments_of, answer_of, given_value, same_object};
ghost use Rattle.com_body.specs.Operands.{truth};
ghost use Rattle.com_body.specs.Bodies.{IsOp, IsPlace, IsArg, IsCode, IsGiven};

use crate::frame::{Cells, Frame};
use crate::operands::{Arg, Code, Given, Op, Place};
use com_base::{HResult, Memory, RefValue, Rows, Value};
use std::alloc::Global;

/// The Int of a value, and 0 where it is no Int.
#[inline]
pub fn number_in(value: &Value) -> i64
    ensures { result ≡ number_in value.now }
{
    match value {
        Value::Int(number) => *number,
        _ => 0,
    }
}

/// The number of an operand: its literal, or what its register holds, and 0 where that is no Int.
#[inline]
pub fn number_of(frame: &Frame, operand: &Op) -> i64
    requires { IsOp operand.now }
    ensures { result ≡ number_of frame.now operand.now }
{
    match operand {
        Op::Register(number) => number_in(frame.register(*number)),
        Op::Literal(value) => number_in(value),
    }
}

/// A copy of the value of an operand: of its literal, or of what its register holds. The only error is want of
/// memory.
#[inline]
pub fn value_of(frame: &Frame, operand: &Op) -> Result<Value, Memory>
    requires { IsOp operand.now }
    ensures { IfOk result (λ value. value ≡ value_of frame.now operand.now) }
{
    match operand {
        Op::Register(number) => frame.register(*number).copy(),
        Op::Literal(value) => value.copy(),
    }
}

/// The reference at a place, None for null: in a slot of the frame, or in a link of the object.
#[inline]
pub fn held_at(frame: &Frame, cells: &Cells, place: Place) -> Option<RefValue>
    requires { IsPlace place }
    ensures { result ≡ held_at frame.now cells.now place }
{
    match place {
        Place::Slot(number) => frame.slot(number),
        Place::Link(number) => {
            let links = cells.links.as_slice();
            links[number as usize]
        }
    }
}

// A copy of the value that an argument sends.
fn argument_of(frame: &Frame, argument: &Arg) -> Result<Value, Memory>
    requires { IsArg argument.now }
    ensures { IfOk result (λ value. value ≡ argument_of frame.now argument.now) }
{
    match argument {
        Arg::Op(operand) => value_of(frame, operand),
        Arg::Slot(number) => Ok(Value::Ref(frame.slot(*number))),
        Arg::Null => Ok(Value::Ref(None)),
    }
}

/// Copies of the values that a call sends, in the order of its arguments. The only error is want of memory.
pub fn arguments_of(alloc: Global, frame: &Frame, args: &[Arg]) -> Result<Rows<Value>, Memory>
    requires { All IsArg args.now }
    ensures { IfOk result (λ values. values ≡ arguments_of frame.now args.now) }
{
    let mut values = Vec::with_capacity(alloc, args.len())?;
    for argument in args {
        values.push(argument_of(frame, argument)?)?;
    }
    Ok(Rows::from_vec(values))
}

/// The HRESULT that a body leaves with: a literal, or the lowest 32 bits of what a register holds, and S_OK where
/// that is no Int.
pub fn answer_of(frame: &Frame, answer: Code) -> HResult
    requires { IsCode answer }
    ensures { result ≡ answer_of frame.now answer }
{
    match answer {
        Code::Literal(answer) => answer,
        Code::Register(number) => {
            let bits = number_in(frame.register(number)).cast_unsigned();
            HResult((bits % 0x1_0000_0000) as u32)
        }
    }
}

/// A copy of the value that a body gives beside its HRESULT, or none. The only error is want of memory.
pub fn given_value(frame: &Frame, given: &Given) -> Result<Option<Value>, Memory>
    requires { IsGiven given.now }
    ensures { IfOk result (λ value. value ≡ given_value frame.now given.now) }
{
    match given {
        Given::Nothing => Ok(None),
        Given::Op(operand) => Ok(Some(value_of(frame, operand)?)),
        Given::Slot(number) => Ok(Some(Value::Ref(frame.slot(*number)))),
    }
}

/// Whether two references name one object, or are both null. Their interfaces do not count. Source: the
/// documentation of IUnknown::QueryInterface, on the identity of objects.
pub fn same_object(left: Option<RefValue>, right: Option<RefValue>) -> bool
    ensures { result ≡ same_object left right }
{
    match (left, right) {
        (None, None) => true,
        (Some(left), Some(right)) => left.object == right.object,
        _ => false,
    }
}

/// The Int 1 for true and the Int 0 for false.
#[inline]
pub fn truth(holds: bool) -> Value
    ensures { result ≡ truth holds }
{
    Value::Int(if holds { 1 } else { 0 })
}
