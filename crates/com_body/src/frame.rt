//! Frames, cells and what a step takes and gives.

ghost use Rattle.std.specs.Prelude.{◌≡◌, ◌<◌, ◌≤◌, ◌+◌, Option, [], ◌∷◌, ◌++◌, IfOk};
ghost use Rattle.std.specs.Prelude.{OnOk, length, slice_set, vec_len, vec_capacity};
ghost use Rattle.com_base.specs.declared.limits.TheConstants.{ANSWER_REGISTER, PARAMETER_LIMIT, REGISTER_COUNT};
ghost use Rattle.com_base.specs.declared.limits.TheConstants.{SLOT_COUNT};
ghost use Rattle.com_base.specs.declared.value.Value.{Value};
ghost use Rattle.com_body.specs.Frames.{entered, padded, plain_values, references, with_register};
ghost use Rattle.com_body.specs.Frames.{with_slot};
ghost use Rattle.com_body.specs.Operands.{new_cells, register_of, slot_of};

use crate::actions::Action;
use com_base::{ANSWER_REGISTER, CELL_COUNT, LINK_COUNT, Memory, RefValue, SLOT_COUNT, Value};
use std::alloc::Global;
use std::marker::Model;

/// Where a body or a script stands: its program counter, which is the index of the next statement, its
/// registers and its slots.
///
/// Contracts see a frame as the record of these three: the program counter, which is called `place` here, the
/// list of values and the list of references.
#[derive(Debug, Drop)]
pub struct Frame {
    place: u32,
    // Only the registers up to the last that was set of those before the answer's, with room for all of them.
    registers: Vec<Value>,
    // The last register, in which a call puts its HRESULT. It stands apart, since it is set most often: a copy
    // would have to copy all registers for it.
    answer: Value,
    // The Int 0, which each register holds that was not set.
    zero: Value,
    slots: [Option<RefValue>; SLOT_COUNT as usize],
}

impl Model for Frame {
    ghost use Rattle.std.specs.Prelude.{◌≡◌, ◌≤◌, length, vec_len, vec_capacity};
    ghost use Rattle.com_base.specs.declared.limits.TheConstants.{ANSWER_REGISTER, SLOT_COUNT};
    ghost use Rattle.com_body.specs.Frames.{FrameView, no_number, padded};

    ghost Value = { FrameView };

    ghost view = { λ a. record {
      place = a.place;
      registers = padded a.registers.items a.answer;
      slots = a.slots;
    } };

    ghost invariant = { λ a. (vec_len a.registers ≤ ANSWER_REGISTER)
        × (ANSWER_REGISTER ≤ vec_capacity a.registers)
        × (a.zero ≡ no_number) × (length a.slots ≡ SLOT_COUNT) };
}

impl Frame {
    /// The frame with which a body or a script begins. The program counter is 0. The values that are no
    /// references stand in the registers from the first on, in their order, and the references in the slots
    /// from the first on. All other registers are the Int 0, and all other slots are null. The only error is
    /// want of memory.
    #[tactic(auto, using(crate::proofs::Entries::entered_count, crate::proofs::Entries::padded_entered))]
    pub fn enter(alloc: Global, values: &[Value]) -> Result<Frame, Memory>
        requires { length values.now ≤ PARAMETER_LIMIT }
        ensures { IfOk result (λ frame. frame ≡ entered values.now) }
    {
        Ok(Frame {
            place: 0,
            registers: entered_registers(alloc, values)?,
            answer: Value::Int(0),
            zero: Value::Int(0),
            slots: entered_slots(values),
        })
    }

    /// A frame has all of its registers and slots at any time. This call says so and does nothing.
    #[inline]
    #[tactic(auto, using(crate::proofs::Entries::padded_length))]
    pub fn has_shape(&self)
        ensures registers { length self.now.registers ≡ REGISTER_COUNT }
        ensures slots { length self.now.slots ≡ SLOT_COUNT }
    {
        let _registers = &self.registers;
    }

    /// The program counter: the index of the next statement, from 0. At the end of a body it is the number of
    /// its statements.
    #[inline]
    pub fn place(&self) -> u32
        ensures { result ≡ self.now.place }
    {
        self.place
    }

    /// Sets the program counter, which makes another statement the next one, and leaves all else.
    #[inline]
    pub fn set_place(&mut self, place: u32)
        ensures { self.new ≡ record self.old { place = place } }
    {
        self.place = place;
    }

    /// The value in a register.
    #[inline]
    #[tactic(auto, using(crate::proofs::Entries::read_answer, crate::proofs::Entries::read_set, crate::proofs::Entries::read_unset))]
    pub fn register(&self, number: u8) -> &Value
        requires { number < REGISTER_COUNT }
        ensures { result.now ≡ register_of self.now number }
    {
        if number == ANSWER_REGISTER {
            return &self.answer;
        }
        match self.registers.get(number as usize) {
            Some(value) => value,
            None => &self.zero,
        }
    }

    /// The reference in a slot, or None for null.
    #[inline]
    pub fn slot(&self, number: u8) -> Option<RefValue>
        requires { number < SLOT_COUNT }
        ensures { result ≡ slot_of self.now number }
    {
        let slots = self.slots.as_slice();
        slots[number as usize]
    }

    /// Puts a value in a register, and leaves all else.
    #[inline]
    #[tactic(auto, using(crate::proofs::Entries::padded_answered))]
    pub fn set_register(&mut self, number: u8, value: Value)
        requires { number < REGISTER_COUNT }
        ensures { self.new ≡ with_register self.old number value }
    {
        if number == ANSWER_REGISTER {
            self.answer = value;
            return;
        }
        set(&mut self.registers, number as usize, value);
    }

    /// Puts a reference, or null, in a slot, and leaves all else.
    #[inline]
    #[tactic(auto, using(crate::proofs::Entries::set_count))]
    pub fn set_slot(&mut self, number: u8, held: Option<RefValue>)
        requires { number < SLOT_COUNT }
        ensures { self.new ≡ with_slot self.old number held }
    {
        self.slots[number as usize] = held;
    }

    /// An equal frame. The only error is want of memory.
    pub fn copy(&self, alloc: Global) -> Result<Frame, Memory>
        ensures { IfOk result (λ frame. frame ≡ self.now) }
    {
        let mut frame = Frame {
            place: self.place,
            registers: Vec::with_capacity(alloc, ANSWER_REGISTER as usize)?,
            answer: Value::Int(0),
            zero: Value::Int(0),
            slots: self.slots,
        };
        append_copies(&mut frame.registers, self.registers.as_slice())?;
        copy_over(&mut frame.answer, &self.answer)?;
        Ok(frame)
    }

    /// Makes a frame equal to another, in the memory that it has. The only error is want of memory for a value
    /// that takes some: then it is some frame.
    pub fn copy_from(&mut self, other: &Frame) -> Result<(), Memory>
        ensures { OnOk result (self.new ≡ other.now) }
    {
        self.place = other.place;
        self.slots = other.slots;
        self.registers.clear();
        append_copies(&mut self.registers, other.registers.as_slice())?;
        copy_over(&mut self.answer, &other.answer)
    }
}

// Puts an equal value in place of another.
#[inline(always)]
fn copy_over(place: &mut Value, value: &Value) -> Result<(), Memory>
    ensures { OnOk result (place.new ≡ value.now) }
{
    match value {
        Value::Int(number) => *place = Value::Int(*number),
        _ => *place = value.copy()?,
    }
    Ok(())
}

// Appends equal values, for which there is room.
fn append_copies(registers: &mut Vec<Value>, values: &[Value]) -> Result<(), Memory>
    requires { vec_len registers.old + length values.now ≤ vec_capacity registers.old }
    ensures items { OnOk result (registers.new.items ≡ registers.old.items ++ values.now) }
    ensures len { vec_len registers.new ≤ vec_len registers.old + length values.now }
    ensures room { vec_capacity registers.new ≡ vec_capacity registers.old }
{
    for value in values {
        append_copy(registers, value)?;
    }
    Ok(())
}

// Appends an equal value. Most registers hold numbers, and a number is put there at once: a value that comes
// in a `Result` goes through memory.
#[inline(always)]
fn append_copy(registers: &mut Vec<Value>, value: &Value) -> Result<(), Memory>
    requires { vec_len registers.old < vec_capacity registers.old }
    ensures items { OnOk result (registers.new.items ≡ registers.old.items ++ value.now ∷ []) }
    ensures len { OnOk result (vec_len registers.new ≡ vec_len registers.old + 1) }
    ensures most { vec_len registers.new ≤ vec_len registers.old + 1 }
    ensures room { vec_capacity registers.new ≡ vec_capacity registers.old }
{
    match value {
        Value::Int(number) => registers.push_reserved(Value::Int(*number)),
        _ => registers.push_reserved(value.copy()?),
    }
    Ok(())
}

// Appends the value, if it is no reference.
fn append_plain(registers: &mut Vec<Value>, value: &Value) -> Result<(), Memory>
    requires { vec_len registers.old < vec_capacity registers.old }
    ensures items { OnOk result (registers.new.items ≡ registers.old.items ++ plain_values (value.now ∷ [])) }
    ensures len { vec_len registers.new ≤ vec_len registers.old + 1 }
    ensures room { vec_capacity registers.new ≡ vec_capacity registers.old }
{
    match value {
        Value::Ref(_) => {}
        _ => registers.push_reserved(value.copy()?),
    }
    Ok(())
}

// The values in the registers at Enter, with room for all.
#[tactic(auto, using(crate::proofs::Entries::plain_more))]
fn entered_registers(alloc: Global, values: &[Value]) -> Result<Vec<Value>, Memory>
    requires { length values.now ≤ PARAMETER_LIMIT }
    ensures list { IfOk result (λ registers. registers.items ≡ plain_values values.now) }
    ensures count { IfOk result (λ registers. vec_len registers ≤ PARAMETER_LIMIT) }
    ensures room { IfOk result (λ registers. vec_capacity registers ≡ ANSWER_REGISTER) }
{
    let mut registers = Vec::with_capacity(alloc, ANSWER_REGISTER as usize)?;
    for value in values {
        append_plain(&mut registers, value)?;
    }
    Ok(registers)
}

// Appends the Int 0 until there are `count` values.
#[tactic(auto, using(crate::proofs::Entries::padded_more))]
fn fill(registers: &mut Vec<Value>, count: usize)
    requires within { (vec_len registers.old ≤ count) × (count ≤ ANSWER_REGISTER) }
    requires room { ANSWER_REGISTER ≤ vec_capacity registers.old }
    ensures list { (a : Value) → padded registers.new.items a ≡ padded registers.old.items a }
    ensures count { vec_len registers.new ≡ count }
    ensures room { vec_capacity registers.new ≡ vec_capacity registers.old }
{
    for _ in registers.len()..count {
        registers.push_reserved(Value::Int(0));
    }
}

// Appends the Int 0 until the register with this number is there.
#[inline]
fn reach(registers: &mut Vec<Value>, number: usize)
    requires within { (vec_len registers.old ≤ ANSWER_REGISTER) × (number < ANSWER_REGISTER) }
    requires room { ANSWER_REGISTER ≤ vec_capacity registers.old }
    ensures list { (a : Value) → padded registers.new.items a ≡ padded registers.old.items a }
    ensures there { (number < vec_len registers.new) × (vec_len registers.new ≤ ANSWER_REGISTER) }
    ensures room { vec_capacity registers.new ≡ vec_capacity registers.old }
{
    if number >= registers.len() {
        fill(registers, number + 1);
    }
}

// Puts a value in the register with this number, which is none of the answer's.
#[inline]
#[tactic(auto, using(crate::proofs::Entries::padded_set))]
fn set(registers: &mut Vec<Value>, number: usize, value: Value)
    requires within { (vec_len registers.old ≤ ANSWER_REGISTER) × (number < ANSWER_REGISTER) }
    requires room { ANSWER_REGISTER ≤ vec_capacity registers.old }
    ensures list { (a : Value) → padded registers.new.items a
        ≡ slice_set (padded registers.old.items a) number value }
    ensures there { vec_len registers.new ≤ ANSWER_REGISTER }
    ensures room { vec_capacity registers.new ≡ vec_capacity registers.old }
{
    reach(registers, number);
    registers[number] = value;
}

// The slots at Enter.
fn entered_slots(values: &[Value]) -> [Option<RefValue>; SLOT_COUNT as usize]
    requires { length values.now ≤ PARAMETER_LIMIT }
    ensures { result ≡ (entered values.now).slots }
{
    let mut slots = [None; SLOT_COUNT as usize];
    let mut taken = 0;
    for value in values {
        taken = put_reference(&mut slots, taken, value);
    }
    slots
}

// Puts the value into the slot with this number, if it is a reference, and answers the number of the next
// slot.
fn put_reference(
    slots: &mut [Option<RefValue>; SLOT_COUNT as usize],
    taken: usize,
    value: &Value,
) -> usize
    requires { taken < SLOT_COUNT }
    ensures none { references (value.now ∷ []) ≡ [] → (slots.new ≡ slots.old) × (result ≡ taken) }
    ensures some { (held : Option RefValue) → references (value.now ∷ []) ≡ held ∷ [] →
        (slots.new ≡ slice_set slots.old taken held) × (result ≡ taken + 1) }
{
    match value {
        Value::Ref(held) => {
            slots[taken] = *held;
            taken + 1
        }
        _ => taken,
    }
}

/// What an object keeps between calls: numbers, and links, which are references to other objects.
#[derive(Debug, Clone, Copy, PartialEq, Eq)]
pub struct Cells {
    /// The cells, of which `c0` is the first.
    pub numbers: [i64; CELL_COUNT as usize],
    /// The links, of which `k0` is the first, each None for null.
    pub links: [Option<RefValue>; LINK_COUNT as usize],
}

impl Cells {
    /// The cells of a new object: zeros and nulls.
    pub fn new() -> Cells
        ensures { result ≡ new_cells }
    {
        Cells {
            numbers: [0; CELL_COUNT as usize],
            links: [None; LINK_COUNT as usize],
        }
    }
}

/// Which code steps the bodies of a class: statements, or one of the built-in bodies.
#[derive(Debug, Clone, Copy, PartialEq, Eq)]
pub enum Native {
    /// The class has bodies of statements.
    Bodies,
    /// The built-in counter, with the methods of `ICounter`.
    Counter,
    /// The built-in relay, with the methods of `IRelay`.
    Relay,
    /// The built-in latch, with the methods of `ILatch`.
    Latch,
}

/// The work of one step: which body runs, by its class, interface and method, and on which frame and cells.
#[derive(Debug, Drop)]
pub struct Job {
    /// Which code steps the body: the class's statements, or a built-in body.
    pub kind: Native,
    /// The class's number, from 1.
    pub class: u32,
    /// The number of the interface that was called, from 0.
    pub iface: u16,
    /// The number of its method, from 0.
    pub method: u16,
    /// The frame of the body as it stands.
    pub frame: Frame,
    /// What the object keeps, as the body finds it.
    pub cells: Cells,
}

/// What a step gives: the frame and cells afterwards, and one action.
#[derive(Debug, Drop)]
pub struct Outcome {
    /// The frame after the step. Its next statement is the one behind the action, if there is one.
    pub frame: Frame,
    /// What the object keeps after the step.
    pub cells: Cells,
    /// What the body does next, with the values of its operands.
    pub action: Action,
}
