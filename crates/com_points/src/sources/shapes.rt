//! Statements of a source's bodies, each by its form.
ghost use Rattle.std.specs.Prelude.{◌≡◌, ◌↔◌, IsTrue, [], ◌∷◌};
ghost use Rattle.com_body.specs.declared.statements.Stmt.TheVariants as stmt;
ghost use Rattle.com_body.specs.declared.operands.Arg.TheVariants as arg;
ghost use Rattle.com_body.specs.declared.operands.Given.TheVariants as given_of;
ghost use Rattle.com_body.specs.declared.operands.Destination.TheVariants as destination;
ghost use Rattle.com_laws_sources.specs.Bodies.{int, register, leave_with, leave_register};

use com_base::{HResult, Value};
use com_body::{Arg, Code, Destination, Given, Op, Place, Stmt};

// Whether an operand is the register with this number.
fn is_register(op: &Op, number: u8) -> bool
    ensures { IsTrue result ↔ (op.now ≡ register number) }
{
    match op {
        Op::Register(n) => *n == number,
        Op::Literal(_) => false,
    }
}

// Whether an operand is this whole number.
fn is_number(op: &Op, number: u32) -> bool
    ensures { IsTrue result ↔ (op.now ≡ int number) }
{
    match op {
        Op::Literal(Value::Int(n)) => *n == number as i64,
        _ => false,
    }
}

// Whether a statement copies register `from` to register `to`.
pub(crate) fn is_set(statement: &Stmt, to: u8, from: u8) -> bool
    ensures { IsTrue result ↔ (statement.now ≡ stmt.Set to (register from)) }
{
    match statement {
        Stmt::Set { to: t, from: f } => *t == to && is_register(f, from),
        _ => false,
    }
}

// Whether a statement puts 0 in register `to`.
pub(crate) fn is_set_zero(statement: &Stmt, to: u8) -> bool
    ensures { IsTrue result ↔ (statement.now ≡ stmt.Set to (int 0)) }
{
    match statement {
        Stmt::Set { to: t, from } => *t == to && is_number(from, 0),
        _ => false,
    }
}

// Whether a statement adds 1 to register `to`.
pub(crate) fn is_add_one(statement: &Stmt, to: u8) -> bool
    ensures { IsTrue result ↔ (statement.now ≡ stmt.Add to (int 1)) }
{
    match statement {
        Stmt::Add { to: t, from } => *t == to && is_number(from, 1),
        _ => false,
    }
}

// Whether a statement subtracts register `from` from register `to`.
pub(crate) fn is_sub(statement: &Stmt, to: u8, from: u8) -> bool
    ensures { IsTrue result ↔ (statement.now ≡ stmt.Sub to (register from)) }
{
    match statement {
        Stmt::Sub { to: t, from: f } => *t == to && is_register(f, from),
        _ => false,
    }
}

// Whether a statement puts in register `to` whether register `right` is above 0.
pub(crate) fn is_positive_test(statement: &Stmt, to: u8, right: u8) -> bool
    ensures { IsTrue result ↔ (statement.now ≡ stmt.Less to (int 0) (register right)) }
{
    match statement {
        Stmt::Less {
            to: t,
            left,
            right: r,
        } => *t == to && is_number(left, 0) && is_register(r, right),
        _ => false,
    }
}

// Whether a statement puts in register `to` whether register `left` is below register `right`.
pub(crate) fn is_less(statement: &Stmt, to: u8, left: u8, right: u8) -> bool
    ensures { IsTrue result ↔ (statement.now ≡ stmt.Less to (register left) (register right)) }
{
    match statement {
        Stmt::Less {
            to: t,
            left: l,
            right: r,
        } => *t == to && is_register(l, left) && is_register(r, right),
        _ => false,
    }
}

// Whether a statement puts in register `to` whether slots `left` and `right` name one object, or
// are both null.
pub(crate) fn is_same(statement: &Stmt, to: u8, left: u8, right: u8) -> bool
    ensures { IsTrue result ↔ (statement.now ≡ stmt.Same to left right) }
{
    match statement {
        Stmt::Same {
            to: t,
            left: l,
            right: r,
        } => *t == to && *l == left && *r == right,
        _ => false,
    }
}

// Whether a statement puts a cell's number in register `to`.
pub(crate) fn is_load(statement: &Stmt, to: u8, cell: u8) -> bool
    ensures { IsTrue result ↔ (statement.now ≡ stmt.Load to cell) }
{
    match statement {
        Stmt::Load { to: t, cell: c } => *t == to && *c == cell,
        _ => false,
    }
}

// Whether a statement puts the number of register `from` in a cell.
pub(crate) fn is_store(statement: &Stmt, cell: u8, from: u8) -> bool
    ensures { IsTrue result ↔ (statement.now ≡ stmt.Store cell (register from)) }
{
    match statement {
        Stmt::Store { cell: c, from: f } => *c == cell && is_register(f, from),
        _ => false,
    }
}

// Whether a statement puts 0 in a cell.
pub(crate) fn is_store_zero(statement: &Stmt, cell: u8) -> bool
    ensures { IsTrue result ↔ (statement.now ≡ stmt.Store cell (int 0)) }
{
    match statement {
        Stmt::Store { cell: c, from } => *c == cell && is_number(from, 0),
        _ => false,
    }
}

// Whether a statement passes over exactly `count` statements, whatever the registers hold.
pub(crate) fn is_skip(statement: &Stmt, count: u32) -> bool
    ensures { IsTrue result ↔ (statement.now ≡ stmt.Skip count) }
{
    match statement {
        Stmt::Skip { count: n } => *n == count,
        _ => false,
    }
}

// Whether a statement passes over `count` statements where this register is 0.
pub(crate) fn is_skip_zero(statement: &Stmt, register: u8, count: u32) -> bool
    ensures { IsTrue result ↔ (statement.now ≡ stmt.SkipZero register count) }
{
    match statement {
        Stmt::SkipZero {
            register: r,
            count: n,
        } => *r == register && *n == count,
        _ => false,
    }
}

// Whether a statement puts the reference at place `from` also at place `to`.
pub(crate) fn is_copy(statement: &Stmt, to: Place, from: Place) -> bool
    ensures { IsTrue result ↔ (statement.now ≡ stmt.Copy to from) }
{
    match statement {
        Stmt::Copy { to: t, from: f } => *t == to && *f == from,
        _ => false,
    }
}

// Whether a statement gives up the reference at this place.
pub(crate) fn is_release(statement: &Stmt, place: Place) -> bool
    ensures { IsTrue result ↔ (statement.now ≡ stmt.Release place) }
{
    match statement {
        Stmt::Release { place: p } => *p == place,
        _ => false,
    }
}

// Whether a statement ends the body with this HRESULT and no result.
pub(crate) fn is_leave(statement: &Stmt, answer: HResult) -> bool
    ensures { IsTrue result ↔ (statement.now ≡ leave_with answer given_of.Nothing) }
{
    match statement {
        Stmt::Leave {
            answer: Code::Literal(a),
            given: Given::Nothing,
        } => *a == answer,
        _ => false,
    }
}

// Whether a statement ends the body with S_OK and this register as its result.
pub(crate) fn is_leave_register(statement: &Stmt, number: u8) -> bool
    ensures { IsTrue result ↔ (statement.now ≡ leave_register number) }
{
    match statement {
        Stmt::Leave {
            answer: Code::Literal(HResult(0)),
            given: Given::Op(op),
        } => is_register(op, number),
        _ => false,
    }
}

// Whether a call has one argument, the value of this register.
fn is_one_register(args: &[Arg], number: u8) -> bool
    ensures { IsTrue result ↔ (args.now ≡ arg.Op (register number) ∷ []) }
{
    match args {
        [Arg::Op(op)] => is_register(op, number),
        _ => false,
    }
}

// The call that brings an event to a sink: `ICounter.add` with one argument.
pub(crate) fn is_event_call(statement: &Stmt) -> bool
    ensures { IsTrue result ↔ (statement.now
        ≡ stmt.Call 0 1 0 (arg.Op (register 0) ∷ []) (destination.Register 7)) }
{
    match statement {
        Stmt::Call {
            slot: 0,
            iface: 1,
            method: 0,
            args,
            destination: Destination::Register(7),
        } => is_one_register(args.as_slice(), 0),
        _ => false,
    }
}
