//! Operands of statements as they are written: each is appended as a word that is read as the same operand.
mod fields;
mod numbers;
mod values;

pub use com_base::Memory;
pub use fields::{
    name_at, push_arg, push_asked, push_code, push_destination, push_given, push_marshal_mode,
    push_mode, push_name, push_op, push_place,
};
pub use numbers::{
    push_buffer, push_cell, push_decimal, push_link, push_register, push_signed, push_slot,
    push_word,
};
pub use values::{push_guid, push_hex, push_hresult, push_value};
