//! Operands.

ghost use Rattle.std.specs.Prelude.{◌≡◌, ◌<◌, IfOk, IfSome};
ghost use Rattle.hex.specs.Hex.{hex_digit_value};
ghost use Rattle.com_base.specs.declared.limits.TheConstants.{BUFFER_COUNT, CELL_COUNT, REGISTER_COUNT, SLOT_COUNT};
ghost use Rattle.com_body.specs.Bodies.{IsOp, IsPlace, IsCode, IsGiven};
ghost use Rattle.com_read_operands.specs.Reading.{Gives};
ghost use Rattle.com_read_operands.specs.Operands.{IsOperand, small_of, lettered, numeric_of, plain_of};
ghost use Rattle.com_read_operands.specs.Operands.{inner, operand_of, unfit, text_literal, bytes_literal};
ghost use Rattle.com_read_operands.specs.Operands.{hex_word_of, hex_on, register_at, slot_at, cell_at};
ghost use Rattle.com_read_operands.specs.Operands.{buffer_at, place_at, literal_of, op_at, hresult_of};
ghost use Rattle.com_read_operands.specs.Literals.{guid_of};
ghost use Rattle.com_read_operands.specs.Operands.{braced};
ghost use Rattle.com_read_operands.specs.Operands.{begins_hex, code_at, given_at, mode_at, marshal_mode_at};

use crate::faults::{Fault, ScenarioError};
use crate::fields::{fault, stands, word};
use crate::literals::{are_pairs, guid_of, text_of, unhex};
use crate::numbers::signed_of;
use com_base::{
    BUFFER_COUNT, ByteList, CELL_COUNT, Guid, HResult, LINK_COUNT, LITERAL_LIMIT, MarshalMode,
    Mode, REGISTER_COUNT, SLOT_COUNT, Value,
};
use com_body::{Code, Given, Op, Place};
use com_text::{Sort, Word};
use std::alloc::Global;

/// What an operand's word says by its form alone.
#[derive(Clone, Copy, Debug, PartialEq, Eq)]
pub enum Operand {
    /// `r0` to `r15`.
    Register(u8),
    /// `s0` to `s7`.
    Slot(u8),
    /// `c0` to `c7`.
    Cell(u8),
    /// `k0` to `k3`.
    Link(u8),
    /// `p0` to `p63`.
    Buffer(u8),
    /// A whole number of 64 bits.
    Number(i64),
    /// `true` or `false`.
    Bool(bool),
    /// A text literal.
    Text,
    /// A bytes literal of pairs of hexadecimal digits.
    Bytes,
    /// A GUID in braces.
    Guid(Guid),
    /// `null`.
    Null,
    /// No operand: the fault's number.
    Wrong(u8),
}

// A number below 100 in one or two digits, without a needless zero.
#[tactic(auto, unfolding(crate::specs::Operands::small_of))]
fn small_of(bytes: &[u8]) -> Option<u8>
    ensures { result ≡ small_of bytes.now }
{
    match bytes {
        [a] if a.is_ascii_digit() => Some(*a - b'0'),
        [a, b] if a.is_ascii_digit() && *a != b'0' && b.is_ascii_digit() => {
            Some(10 * (*a - b'0') + (*b - b'0'))
        }
        _ => None,
    }
}

// A register, slot, cell, link or buffer by its letter and number.
#[tactic(auto, unfolding(crate::specs::Operands::lettered))]
fn operand_by(letter: u8, number: Option<u8>) -> Operand
    ensures value { result ≡ lettered letter number }
    ensures range { IsOperand result }
{
    match number {
        None => Operand::Wrong(Fault::UNEXPECTED),
        Some(number) => {
            if letter == b'r' && number < REGISTER_COUNT {
                Operand::Register(number)
            } else if letter == b's' && number < SLOT_COUNT {
                Operand::Slot(number)
            } else if letter == b'c' && number < CELL_COUNT {
                Operand::Cell(number)
            } else if letter == b'k' && number < LINK_COUNT {
                Operand::Link(number)
            } else if letter == b'p' && number < BUFFER_COUNT {
                Operand::Buffer(number)
            } else {
                Operand::Wrong(Fault::UNEXPECTED)
            }
        }
    }
}

// A word that begins as a number does.
#[tactic(auto, unfolding(crate::specs::Operands::numeric_of))]
fn numeric_of(bytes: &[u8]) -> Operand
    ensures value { result ≡ numeric_of bytes.now }
    ensures range { IsOperand result }
{
    match signed_of(bytes) {
        None => Operand::Wrong(Fault::NUMBER),
        Some(number) => Operand::Number(number),
    }
}

// A word that begins with a brace. It stands apart, so that other words take no room for a GUID.
#[inline(never)]
fn braced_of(bytes: &[u8]) -> Operand
    ensures value { result ≡ braced (guid_of bytes.now) }
    ensures range { IsOperand result }
{
    match guid_of(bytes) {
        None => Operand::Wrong(Fault::GUID),
        Some(guid) => Operand::Guid(guid),
    }
}

// A word that is no literal in quotation marks.
#[tactic(auto, unfolding(crate::specs::Operands::plain_of))]
fn plain_of(bytes: &[u8]) -> Operand
    ensures value { result ≡ plain_of bytes.now }
    ensures range { IsOperand result }
{
    if bytes == b"true".as_slice() {
        return Operand::Bool(true);
    }
    if bytes == b"false".as_slice() {
        return Operand::Bool(false);
    }
    if bytes == b"null".as_slice() {
        return Operand::Null;
    }
    match bytes {
        [] => Operand::Wrong(Fault::UNEXPECTED),
        [b'{', ..] => braced_of(bytes),
        [b'-', second, ..] if second.is_ascii_digit() => numeric_of(bytes),
        [first, rest @ ..] => {
            if first.is_ascii_digit() {
                numeric_of(bytes)
            } else {
                operand_by(*first, small_of(rest))
            }
        }
    }
}

// What stands between the marks of a bytes literal.
fn inner(bytes: &[u8]) -> &[u8]
    ensures { result.now ≡ inner bytes.now }
{
    if bytes.len() < 3 {
        &[]
    } else {
        &bytes[2..bytes.len() - 1]
    }
}

/// An operand's word by its form alone.
#[tactic(auto, unfolding(crate::specs::Operands::operand_of))]
pub fn operand_of(word: &Word) -> Operand
    ensures value { result ≡ operand_of word.now }
    ensures range { IsOperand result }
{
    match word.sort() {
        Sort::Plain => plain_of(word.bytes),
        Sort::Text => Operand::Text,
        Sort::Bytes => {
            if are_pairs(inner(word.bytes)) {
                Operand::Bytes
            } else {
                Operand::Wrong(Fault::UNEXPECTED)
            }
        }
        _ => Operand::Wrong(Fault::UNEXPECTED),
    }
}

/// The fault of an operand that may not stand where it does.
pub fn unfit(operand: Operand) -> u8
    ensures { result ≡ unfit operand }
{
    match operand {
        Operand::Wrong(number) => number,
        Operand::Null => Fault::UNEXPECTED,
        _ => Fault::UNFIT,
    }
}

/// A register's number, 0 to 15. An operand of another sort is fault `UNFIT`, `null` fault `UNEXPECTED`, a
/// word that is no operand the fault of its form (`UNEXPECTED`, `NUMBER` or `GUID`), and what `word` refuses
/// has the fault that it has there.
#[tactic(auto, unfolding(crate::specs::Operands::register_at))]
pub fn register(line: &[Word], index: usize) -> Result<u8, ScenarioError>
    ensures value { Gives (λ n. n) result (register_at line.now index) }
    ensures range { IfOk result (λ n. n < REGISTER_COUNT) }
{
    let word = word(line, index)?;
    match operand_of(word) {
        Operand::Register(number) => Ok(number),
        other => Err(fault(unfit(other), word)),
    }
}

/// A slot's number, 0 to 7. Faults are as at a register.
#[tactic(auto, unfolding(crate::specs::Operands::slot_at))]
pub fn slot(line: &[Word], index: usize) -> Result<u8, ScenarioError>
    ensures value { Gives (λ n. n) result (slot_at line.now index) }
    ensures range { IfOk result (λ n. n < SLOT_COUNT) }
{
    let word = word(line, index)?;
    match operand_of(word) {
        Operand::Slot(number) => Ok(number),
        other => Err(fault(unfit(other), word)),
    }
}

/// A cell's number, 0 to 7, where `cells` allows one. Where it does not, a cell is fault `UNFIT`, and
/// faults are else as at a register.
#[tactic(auto, unfolding(crate::specs::Operands::cell_at))]
pub fn cell(cells: bool, line: &[Word], index: usize) -> Result<u8, ScenarioError>
    ensures value { Gives (λ n. n) result (cell_at cells line.now index) }
    ensures range { IfOk result (λ n. n < CELL_COUNT) }
{
    let word = word(line, index)?;
    match operand_of(word) {
        Operand::Cell(number) if cells => Ok(number),
        other => Err(fault(unfit(other), word)),
    }
}

/// A packet buffer's number, 0 to 63. Faults are as at a register.
#[tactic(auto, unfolding(crate::specs::Operands::buffer_at))]
pub fn buffer(line: &[Word], index: usize) -> Result<u8, ScenarioError>
    ensures value { Gives (λ n. n) result (buffer_at line.now index) }
    ensures range { IfOk result (λ n. n < BUFFER_COUNT) }
{
    let word = word(line, index)?;
    match operand_of(word) {
        Operand::Buffer(number) => Ok(number),
        other => Err(fault(unfit(other), word)),
    }
}

/// A slot, or where `links` allows it a link. Where it does not, a link is fault `UNFIT`, and faults are
/// else as at a register.
#[tactic(auto, unfolding(crate::specs::Operands::place_at))]
pub fn place(links: bool, line: &[Word], at: usize) -> Result<Place, ScenarioError>
    ensures value { Gives (λ n. n) result (place_at links line.now at) }
    ensures range { IfOk result IsPlace }
{
    let word = word(line, at)?;
    match operand_of(word) {
        Operand::Slot(number) => Ok(Place::Slot(number)),
        Operand::Link(number) if links => Ok(Place::Link(number)),
        other => Err(fault(unfit(other), word)),
    }
}

// A text literal's value: at most `LITERAL_LIMIT` bytes, or fault `LIMIT`.
#[tactic(auto, unfolding(crate::specs::Operands::text_literal))]
fn text_literal(alloc: Global, word: &Word) -> Result<Value, ScenarioError>
    ensures { Gives (λ v. v) result (text_literal word.now) }
{
    let length = word.bytes.len();
    if length < 2 || length > LITERAL_LIMIT + 2 {
        return Err(fault(Fault::LIMIT, word));
    }
    let text = &word.bytes[1..length - 1];
    Ok(Value::Text(ByteList::from_slice(alloc, text)?))
}

// A bytes literal's value: at most `LITERAL_LIMIT` bytes, or fault `LIMIT`.
#[tactic(auto, unfolding(crate::specs::Operands::bytes_literal))]
fn bytes_literal(alloc: Global, word: &Word) -> Result<Value, ScenarioError>
    ensures { Gives (λ v. v) result (bytes_literal word.now) }
{
    let digits = inner(word.bytes);
    if digits.len() > 2 * LITERAL_LIMIT {
        return Err(fault(Fault::LIMIT, word));
    }
    match unhex(alloc, digits)? {
        Some(bytes) => Ok(Value::Bytes(bytes)),
        None => Err(fault(Fault::UNEXPECTED, word)),
    }
}

/// The operand of a word as a register or a literal. A text or bytes literal of more than 256 bytes is fault
/// `LIMIT`, and faults are else as at a register. `Memory` comes where a literal's bytes find no memory.
#[tactic(auto, unfolding(crate::specs::Operands::literal_of))]
pub fn literal(alloc: Global, word: &Word, operand: Operand) -> Result<Op, ScenarioError>
    requires { IsOperand operand }
    ensures value { Gives (λ o. o) result (literal_of word.now operand) }
    ensures range { IfOk result IsOp }
{
    match operand {
        Operand::Register(number) => Ok(Op::Register(number)),
        Operand::Number(number) => Ok(Op::Literal(Value::Int(number))),
        Operand::Bool(yes) => Ok(Op::Literal(Value::Bool(yes))),
        Operand::Guid(guid) => Ok(Op::Literal(Value::Guid(guid))),
        Operand::Text => Ok(Op::Literal(text_literal(alloc, word)?)),
        Operand::Bytes => Ok(Op::Literal(bytes_literal(alloc, word)?)),
        other => Err(fault(unfit(other), word)),
    }
}

/// A register or a literal, with the faults of `literal` and of `word`.
#[tactic(auto, unfolding(crate::specs::Operands::op_at))]
pub fn op(alloc: Global, line: &[Word], index: usize) -> Result<Op, ScenarioError>
    ensures value { Gives (λ o. o) result (op_at line.now index) }
    ensures range { IfOk result IsOp }
{
    let word = word(line, index)?;
    literal(alloc, word, operand_of(word))
}

// The number that eight hexadecimal digits behind `0x` spell.
#[tactic(auto, unfolding(crate::specs::Operands::hex_word_of))]
fn hex_word_of(bytes: &[u8]) -> Option<u32>
    ensures { result ≡ hex_word_of bytes.now }
{
    match bytes {
        [b'0', b'x', digits @ ..] if digits.len() == 8 => eight_of(digits),
        _ => None,
    }
}

// The number of 32 bits that hexadecimal digits spell.
fn eight_of(digits: &[u8]) -> Option<u32>
    ensures { result ≡ hex_on (Some 0) digits.now }
{
    let mut number: u32 = 0;
    for digit in digits {
        let value = hex_digit(*digit)?;
        number = number.checked_mul(16)?.checked_add(value)?;
    }
    Some(number)
}

// The value of a hexadecimal digit of either case.
fn hex_digit(byte: u8) -> Option<u32>
    ensures value { result ≡ hex_digit_value byte }
    ensures small { IfSome result (λ n. n < 16) }
{
    match byte {
        b'0'..=b'9' => Some(u32::from(byte - b'0')),
        b'a'..=b'f' => Some(u32::from(byte - b'a') + 10),
        b'A'..=b'F' => Some(u32::from(byte - b'A') + 10),
        _ => None,
    }
}

/// The HRESULT that a word spells: `0x` and eight digits, or a name of the table.
#[tactic(auto, unfolding(crate::specs::Operands::hresult_of))]
pub fn hresult_of(bytes: &[u8]) -> Option<HResult>
    ensures { result ≡ hresult_of bytes.now }
{
    match hex_word_of(bytes) {
        Some(number) => Some(HResult(number)),
        None => HResult::from_name(text_of(bytes)?),
    }
}

// Whether a word begins with `0x`.
fn begins_hex(bytes: &[u8]) -> bool
    ensures { result ≡ begins_hex bytes.now }
{
    matches!(bytes, [b'0', b'x', ..])
}

/// The HRESULT of `leave`: `0x` and eight digits, a name, or a register. Another word that begins with `0x`
/// is fault `UNEXPECTED`, though it would be a bad number, `NUMBER`, where an operand stands.
#[tactic(auto, unfolding(crate::specs::Operands::code_at))]
pub fn code(line: &[Word], index: usize) -> Result<Code, ScenarioError>
    ensures value { Gives (λ c. c) result (code_at line.now index) }
    ensures range { IfOk result IsCode }
{
    let word = word(line, index)?;
    if let Some(answer) = hresult_of(word.bytes) {
        return Ok(Code::Literal(answer));
    }
    if begins_hex(word.bytes) {
        return Err(fault(Fault::UNEXPECTED, word));
    }
    match operand_of(word) {
        Operand::Register(number) => Ok(Code::Register(number)),
        other => Err(fault(unfit(other), word)),
    }
}

/// The result of `leave`: none, a register, a literal or a slot, with the faults of `literal`.
#[tactic(auto, unfolding(crate::specs::Operands::given_at))]
pub fn leave_result(alloc: Global, line: &[Word], index: usize) -> Result<Given, ScenarioError>
    ensures value { Gives (λ g. g) result (given_at line.now index) }
    ensures range { IfOk result IsGiven }
{
    if !stands(line, index)? {
        return Ok(Given::Nothing);
    }
    let word = word(line, index)?;
    match operand_of(word) {
        Operand::Slot(number) => Ok(Given::Slot(number)),
        other => Ok(Given::Op(literal(alloc, word, other)?)),
    }
}

/// `sta` or `mta`. Every other word is fault `UNEXPECTED`.
#[tactic(auto, unfolding(crate::specs::Operands::mode_at))]
pub fn mode(line: &[Word], index: usize) -> Result<Mode, ScenarioError>
    ensures { Gives (λ m. m) result (mode_at line.now index) }
{
    let word = word(line, index)?;
    if word.bytes == b"sta".as_slice() {
        Ok(Mode::Sta)
    } else if word.bytes == b"mta".as_slice() {
        Ok(Mode::Mta)
    } else {
        Err(fault(Fault::UNEXPECTED, word))
    }
}

/// `normal`, `strong` or `weak`. Every other word is fault `UNEXPECTED`.
#[tactic(auto, unfolding(crate::specs::Operands::marshal_mode_at))]
pub fn marshal_mode(line: &[Word], index: usize) -> Result<MarshalMode, ScenarioError>
    ensures { Gives (λ m. m) result (marshal_mode_at line.now index) }
{
    let word = word(line, index)?;
    if word.bytes == b"normal".as_slice() {
        Ok(MarshalMode::Normal)
    } else if word.bytes == b"strong".as_slice() {
        Ok(MarshalMode::Strong)
    } else if word.bytes == b"weak".as_slice() {
        Ok(MarshalMode::Weak)
    } else {
        Err(fault(Fault::UNEXPECTED, word))
    }
}
