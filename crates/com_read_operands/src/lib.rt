//! What may stand in a line of scenario text: numbers, operands, names and fixed words.
//!
//! Each reader takes a line's words and an index among them, and answers what stands there or the
//! fault. Readers are called from left to right, so the first fault that is met is the first by
//! position; a fault stands at the word that it speaks of, or behind the line's last word.
#![tactic(auto)]

mod faults;
mod fields;
mod literals;
mod names;
mod numbers;
mod operands;

pub use com_base::Memory;
pub use faults::{Fault, ScenarioError};
pub use fields::{end, fault, first, number, stands, word};
pub use literals::{are_pairs, guid, guid_of, text_of, unhex};
pub use names::{asked_name, declared_name, is_name, name, number_of_name, position_of};
pub use numbers::{number_of, signed_of};
pub use operands::{
    Operand, buffer, cell, code, hresult_of, leave_result, literal, marshal_mode, mode, op,
    operand_of, place, register, slot, unfit,
};
