//! An `invoke` statement from its line.

ghost use Rattle.std.specs.Prelude.{◌<◌, ◌^◌, [], IfOk, IfSome, All, drop};
ghost use Rattle.com_body.specs.Bodies.{IsDestination};
ghost use Rattle.com_dispatch.specs.Ranges.{IsDispArg};
ghost use Rattle.com_read_operands.specs.Operands.{IsOperand};
ghost use Rattle.com_read_operands.specs.Reading.{Gives};
ghost use Rattle.com_read_operands.specs.declared.operands.Operand.TheVariants as operands;
ghost use Rattle.com_dispatch.specs.Invoking.{as_member, member_at, as_given, item_at, arguments_on};
ghost use Rattle.com_dispatch.specs.Invoking.{landing_of};
ghost use Rattle.com_dispatch.specs.Invoking.{destination_at, invocation_at, IsInvocation};

use crate::invoke::Invocation;
use crate::{DispArg, Member};
use com_base::{ByteList, Rows, Value};
use com_body::{Destination, Op};
use com_read_operands::{
    Fault, Operand, ScenarioError, declared_name, end, fault, literal, number_of, operand_of, slot,
    stands, unfit, word,
};
use com_text::Word;
use std::alloc::Global;

// The greatest number of a member.
const MEMBER_LIMIT: u64 = 0x7fff_ffff;

// A member: a text literal, or a decimal number from 0 to 2,147,483,647. A number that is out of range or
// has a sign is fault `NUMBER`, and another operand is fault `UNFIT`.
#[tactic(auto, unfolding(crate::specs::Invoking::member_at))]
fn member(alloc: Global, line: &[Word], index: usize) -> Result<Member, ScenarioError>
    ensures { Gives (λ m. m) result (member_at line.now index) }
{
    let word = word(line, index)?;
    match operand_of(word) {
        Operand::Text => name(alloc, word),
        Operand::Number(_) => match number_of(word.bytes) {
            Some(number) if number <= MEMBER_LIMIT => Ok(Member::Number(number as u32)),
            _ => Err(fault(Fault::NUMBER, word)),
        },
        other => Err(fault(unfit(other), word)),
    }
}

// A member's name at a text literal.
fn name(alloc: Global, word: &Word) -> Result<Member, ScenarioError>
    ensures { Gives (λ m. m) result (as_member word.now operands.Text) }
{
    match literal(alloc, word, Operand::Text)? {
        Op::Literal(Value::Text(name)) => Ok(Member::Name(name)),
        _ => Err(fault(Fault::UNFIT, word)),
    }
}

// An argument: a slot, `null` or a literal. Another operand, as a register, is fault `UNFIT`.
fn argument(alloc: Global, word: &Word, operand: Operand) -> Result<DispArg, ScenarioError>
    requires { IsOperand operand }
    ensures value { Gives (λ a. a) result (as_given word.now operand) }
    ensures range { IfOk result IsDispArg }
{
    match operand {
        Operand::Slot(number) => Ok(DispArg::Slot(number)),
        Operand::Null => Ok(DispArg::Null),
        other => match literal(alloc, word, other)? {
            Op::Literal(value) => Ok(DispArg::Literal(value)),
            Op::Register(_) => Err(fault(Fault::UNFIT, word)),
        },
    }
}

// What stands at an index where the line may end: an argument, or none at `->`.
#[tactic(auto, unfolding(crate::specs::Invoking::item_at))]
fn item(alloc: Global, line: &[Word], index: usize) -> Result<Option<DispArg>, ScenarioError>
    ensures value { Gives (λ o. o) result (item_at line.now index) }
    ensures range { IfOk result (λ o. IfSome o IsDispArg) }
{
    stands(line, index)?;
    let word = word(line, index)?;
    if word.bytes == b"->".as_slice() {
        return Ok(None);
    }
    Ok(Some(argument(alloc, word, operand_of(word))?))
}

// The arguments from the fifth word on, and the index behind them: that of `->`, or of the line's end.
#[tactic(auto, using(crate::proofs::Lines::arguments_more))]
fn arguments(alloc: Global, line: &[Word]) -> Result<(Rows<DispArg>, usize), ScenarioError>
    ensures value { Gives (λ r. record { args = r.0; index = r.1 }) result
        (arguments_on [] line.now 4 (drop 4 line.now)) }
    ensures range { IfOk result (λ r. All IsDispArg r.0) }
    ensures index { IfOk result (λ r. r.1 < 2 ^ 63) }
{
    let mut arguments = Vec::new(alloc);
    for index in 4..line.len() {
        let Some(arg) = item(alloc, line, index)? else {
            return Ok((Rows::from_vec(arguments), index));
        };
        arguments.push(arg)?;
    }
    Ok((Rows::from_vec(arguments), line.len().max(4)))
}

// A destination at its word.
fn landing(word: &Word, operand: Operand) -> Result<Destination, ScenarioError>
    requires { IsOperand operand }
    ensures value { Gives (λ d. d) result (landing_of word.now operand) }
    ensures range { IfOk result IsDestination }
{
    match operand {
        Operand::Register(number) => Ok(Destination::Register(number)),
        Operand::Slot(number) => Ok(Destination::Slot(number)),
        other => Err(fault(unfit(other), word)),
    }
}

// Where the result goes: nowhere where the line ends, else to the register or the slot behind the word at
// the index.
#[tactic(auto, unfolding(crate::specs::Invoking::destination_at))]
fn destination(line: &[Word], index: usize) -> Result<Destination, ScenarioError>
    requires { index < 2 ^ 63 }
    ensures value { Gives (λ d. d) result (destination_at line.now index) }
    ensures range { IfOk result IsDestination }
{
    if !stands(line, index)? {
        return Ok(Destination::Nowhere);
    }
    let word = word(line, index + 1)?;
    let destination = landing(word, operand_of(word))?;
    end(line, index + 2)?;
    Ok(destination)
}

/// The `invoke` statement that a line spells behind its first word, or the first fault of its words. The
/// interface is one of those that are declared above.
#[tactic(auto, unfolding(crate::specs::Invoking::invocation_at))]
pub fn read_invoke(
    alloc: Global,
    interfaces: &[ByteList],
    line: &[Word],
) -> Result<Invocation, ScenarioError>
    ensures value { Gives (λ i. i) result (invocation_at interfaces.now line.now) }
    ensures range { IfOk result IsInvocation }
{
    let slot = slot(line, 1)?;
    let iface = declared_name(interfaces, line, 2)?;
    let member = member(alloc, line, 3)?;
    let (args, index) = arguments(alloc, line)?;
    let destination = destination(line, index)?;
    Ok(Invocation {
        slot,
        iface,
        member,
        args,
        destination,
    })
}
