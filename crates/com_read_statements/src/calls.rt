//! The statement `call`: its method, its arguments and where its result goes.

ghost use Rattle.std.specs.Prelude.{◌≡◌, ◌<◌, ◌^◌, [], IfOk, IfSome, All, length};
ghost use Rattle.std.specs.Option.{option_copied};
ghost use Rattle.com_base.specs.declared.limits.TheConstants.{SLOT_COUNT};
ghost use Rattle.com_body.specs.Bodies.{IsArg, IsDestination, IsInRange};
ghost use Rattle.com_read_operands.specs.Operands.{IsOperand};
ghost use Rattle.com_read_operands.specs.Reading.{Gives};
ghost use Rattle.com_read_statements.specs.Calls.{dot_of, target_at, numbered_of, named_of, method_at};
ghost use Rattle.com_read_statements.specs.Calls.{argument_at, arguments_on, landing_of, destination_at};
ghost use Rattle.com_read_statements.specs.Calls.{call_of, call_at, method_number, method_of};

use crate::names::{Names, method_position};
use com_base::{Kind, Rows};
use com_body::{Arg, Destination, Stmt};
use com_classes::{Interface, Method};
use com_read_operands::{
    Fault, Operand, ScenarioError, end, fault, is_name, literal, number_of, number_of_name,
    operand_of, slot, stands, unfit, word,
};
use com_text::Word;
use std::alloc::Global;

// The greatest number of a method.
const LAST_METHOD: u64 = 0xffff;

/// A method by its interface's number and its own.
#[derive(Clone, Copy, Debug, PartialEq, Eq)]
pub struct MethodNumber {
    /// The number of the interface.
    pub iface: u16,
    /// The number of the method in its table, from 0.
    pub method: u16,
}

/// The method of a call.
#[derive(Clone, Copy, Debug, PartialEq, Eq)]
pub enum Target {
    /// A method of the interface's table, by its name.
    Named(MethodNumber),
    /// A method by its number, in the table or not.
    Numbered(MethodNumber),
}

// The index of the first dot.
fn dot_of(bytes: &[u8]) -> Option<usize>
    ensures value { result ≡ dot_of bytes.now }
    ensures within { IfSome result (λ n. n < length bytes.now) }
{
    for (i, byte) in bytes.iter().enumerate() {
        if *byte == b'.' {
            return Some(i);
        }
    }
    None
}

// The number of the method that an interface's table has by a name.
fn method_number(tables: &[Interface], iface: u16, name: &[u8]) -> Option<u16>
    ensures { result ≡ method_number tables.now iface name.now }
{
    let table = tables.get(iface as usize)?;
    let number = method_position(table.methods.as_slice(), name)?;
    u16::try_from(number).ok()
}

/// The method of a call: an interface's name, a dot, and a method's name or `#` and a number of 16 bits. A
/// word of another form is fault `UNEXPECTED`, a wrong number `NUMBER`, and a name that is not declared
/// `UNDECLARED`.
#[tactic(auto, unfolding(crate::specs::Calls::target_at))]
pub fn target_at(names: &Names, line: &[Word], index: usize) -> Result<Target, ScenarioError>
    ensures { Gives (λ t. t) result (target_at names.now line.now index) }
{
    let word = word(line, index)?;
    let Some(dot) = dot_of(word.bytes) else {
        return Err(fault(Fault::UNEXPECTED, word));
    };
    let front = &word.bytes[..dot];
    let back = &word.bytes[dot + 1..];
    if !is_name(front) {
        return Err(fault(Fault::UNEXPECTED, word));
    }
    if let [b'#', digits @ ..] = back {
        return method_by_number(names, word, front, digits);
    }
    Ok(Target::Named(method_by_name(names, word, front, back)?))
}

// A method by its name.
#[tactic(auto, unfolding(crate::specs::Calls::named_of))]
fn method_by_name(
    names: &Names,
    word: &Word,
    front: &[u8],
    back: &[u8],
) -> Result<MethodNumber, ScenarioError>
    ensures { Gives (λ m. m) result (named_of names.now word.now front.now back.now) }
{
    if !is_name(back) {
        return Err(fault(Fault::UNEXPECTED, word));
    }
    let Some(iface) = number_of_name(names.interfaces.as_slice(), front) else {
        return Err(fault(Fault::UNDECLARED, word));
    };
    match method_number(names.tables.as_slice(), iface, back) {
        Some(method) => Ok(MethodNumber { iface, method }),
        None => Err(fault(Fault::UNDECLARED, word)),
    }
}

/// The method that a body is for: an interface's name, a dot and a method's name. A word of another
/// form is fault `UNEXPECTED`, and a name that is not declared is fault `UNDECLARED`.
#[tactic(auto, unfolding(crate::specs::Calls::method_at))]
pub fn method_at(names: &Names, line: &[Word], index: usize) -> Result<MethodNumber, ScenarioError>
    ensures { Gives (λ m. m) result (method_at names.now line.now index) }
{
    let word = word(line, index)?;
    let Some(dot) = dot_of(word.bytes) else {
        return Err(fault(Fault::UNEXPECTED, word));
    };
    let front = &word.bytes[..dot];
    if !is_name(front) {
        return Err(fault(Fault::UNEXPECTED, word));
    }
    method_by_name(names, word, front, &word.bytes[dot + 1..])
}

// A method by its number.
#[tactic(auto, unfolding(crate::specs::Calls::numbered_of))]
fn method_by_number(
    names: &Names,
    word: &Word,
    front: &[u8],
    digits: &[u8],
) -> Result<Target, ScenarioError>
    ensures { Gives (λ t. t) result (numbered_of names.now word.now front.now digits.now) }
{
    let method = match number_of(digits) {
        Some(number) if number <= LAST_METHOD => number as u16,
        _ => return Err(fault(Fault::NUMBER, word)),
    };
    match number_of_name(names.interfaces.as_slice(), front) {
        Some(iface) => Ok(Target::Numbered(MethodNumber { iface, method })),
        None => Err(fault(Fault::UNDECLARED, word)),
    }
}

/// An argument for a parameter: a slot or `null` for an interface, else a register or a literal.
#[tactic(auto, unfolding(crate::specs::Calls::argument_at))]
pub fn argument(
    alloc: Global,
    kind: Kind,
    line: &[Word],
    index: usize,
) -> Result<Arg, ScenarioError>
    ensures value { Gives (λ a. a) result (argument_at kind line.now index) }
    ensures range { IfOk result IsArg }
{
    let word = word(line, index)?;
    let operand = operand_of(word);
    match kind {
        Kind::Ref(_) => match operand {
            Operand::Slot(number) => Ok(Arg::Slot(number)),
            Operand::Null => Ok(Arg::Null),
            Operand::Wrong(number) => Err(fault(number, word)),
            _ => Err(fault(Fault::UNFIT, word)),
        },
        _ => match operand {
            Operand::Null => Err(fault(Fault::UNFIT, word)),
            _ => Ok(Arg::Op(literal(alloc, word, operand)?)),
        },
    }
}

/// The arguments for a method's parameters, from the fourth word of the line on.
pub fn arguments(alloc: Global, params: &[Kind], line: &[Word]) -> Result<Rows<Arg>, ScenarioError>
    ensures value { Gives (λ a. a) result (arguments_on [] params.now line.now 3) }
    ensures range { IfOk result (λ r. All IsArg r) }
{
    let mut arguments = Vec::new(alloc);
    for (i, kind) in params.iter().enumerate() {
        arguments.push(argument(alloc, *kind, line, 3 + i)?)?;
    }
    Ok(Rows::from_vec(arguments))
}

// A call's result at a destination's word.
#[tactic(auto, unfolding(crate::specs::Calls::landing_of))]
fn landing(kind: Option<Kind>, word: &Word, operand: Operand) -> Result<Destination, ScenarioError>
    requires { IsOperand operand }
    ensures value { Gives (λ d. d) result (landing_of kind word.now operand) }
    ensures range { IfOk result IsDestination }
{
    match kind {
        Some(Kind::Ref(_)) => match operand {
            Operand::Slot(number) => Ok(Destination::Slot(number)),
            _ => Err(fault(unfit(operand), word)),
        },
        Some(_) => match operand {
            Operand::Register(number) => Ok(Destination::Register(number)),
            _ => Err(fault(unfit(operand), word)),
        },
        None => Err(fault(unfit(operand), word)),
    }
}

/// Where a call's result of a kind goes: nowhere, or behind `->` a slot for an interface and a
/// register for another kind. A destination for a method without result is fault `UNFIT`.
#[tactic(auto, unfolding(crate::specs::Calls::destination_at))]
pub fn destination(
    kind: Option<Kind>,
    line: &[Word],
    index: usize,
) -> Result<Destination, ScenarioError>
    requires { index < 2 ^ 63 }
    ensures value { Gives (λ d. d) result (destination_at kind line.now index) }
    ensures range { IfOk result IsDestination }
{
    if !stands(line, index)? {
        return Ok(Destination::Nowhere);
    }
    let arrow = word(line, index)?;
    if arrow.bytes != b"->".as_slice() {
        return Err(fault(Fault::UNEXPECTED, arrow));
    }
    let word = word(line, index + 1)?;
    let destination = landing(kind, word, operand_of(word))?;
    end(line, index + 2)?;
    Ok(destination)
}

// The call of a method by name, with its arguments and destination.
#[tactic(auto, unfolding(crate::specs::Calls::call_of))]
fn call_of(
    alloc: Global,
    slot: u8,
    number: MethodNumber,
    method: &Method,
    line: &[Word],
) -> Result<Stmt, ScenarioError>
    requires { slot < SLOT_COUNT }
    ensures value { Gives (λ s. s) result (call_of slot number method.now line.now) }
    ensures range { IfOk result IsInRange }
{
    let params = method.params.as_slice();
    let args = arguments(alloc, params, line)?;
    let destination = destination(method.result, line, 3 + params.len())?;
    Ok(Stmt::Call {
        slot,
        iface: number.iface,
        method: number.method,
        args,
        destination,
    })
}

// The method with a number, where the interface's table has it.
fn signature(tables: &[Interface], number: MethodNumber) -> Option<&Method>
    ensures { option_copied result ≡ method_of tables.now number.iface number.method }
{
    tables
        .get(number.iface as usize)?
        .methods
        .as_slice()
        .get(number.method as usize)
}

/// The call that a line spells.
#[tactic(auto, unfolding(crate::specs::Calls::call_at))]
pub fn call(alloc: Global, names: &Names, line: &[Word]) -> Result<Stmt, ScenarioError>
    ensures value { Gives (λ s. s) result (call_at names.now line.now) }
    ensures range { IfOk result IsInRange }
{
    let slot = slot(line, 1)?;
    match target_at(names, line, 2)? {
        Target::Numbered(number) => {
            end(line, 3)?;
            Ok(Stmt::Call {
                slot,
                iface: number.iface,
                method: number.method,
                args: Rows::new(alloc),
                destination: Destination::Nowhere,
            })
        }
        Target::Named(number) => match signature(names.tables.as_slice(), number) {
            Some(method) => call_of(alloc, slot, number, method, line),
            None => Err(fault(Fault::UNDECLARED, word(line, 2)?)),
        },
    }
}
