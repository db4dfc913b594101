//! Lines by the sorts of their operands.

ghost use Rattle.std.specs.Prelude.{◌≡◌, ◌++◌, ◌∷◌, [], OnOk, decimal};
ghost use Rattle.hex.specs.Hex.{encode_lower};
ghost use Rattle.com_print.specs.Spelled.{plain, words_text};
ghost use Rattle.com_print.specs.Words.{register_word, slot_word, cell_word, buffer_word};
ghost use Rattle.com_print.specs.Words.{place_word, op_word, code_word, given_words, asked_word};
ghost use Rattle.com_print.specs.Words.{marshal_mode_word};
ghost use Rattle.com_print.specs.Ranges.{AreBytes, FitsOp, FitsAsked, FitsCode, FitsGiven};

use crate::operands::{
    push_asked, push_buffer, push_cell, push_code, push_decimal, push_given, push_hex,
    push_marshal_mode, push_op, push_place, push_register, push_slot,
};
use com_base::{ByteList, MarshalMode, Memory};
use com_body::{Asked, Code, Given, Op, Place};

// A register and an operand.
pub(crate) fn register_op(
    out: &mut ByteList,
    keyword: &[u8],
    register: u8,
    op: &Op,
) -> Result<(), Memory>
    ensures ok { OnOk result (out.new ≡ out.old
        ++ words_text (plain keyword.now ∷ register_word register ∷ op_word op.now ∷ [])) }
    ensures fits { OnOk result (FitsOp op.now) }
{
    out.push_all(keyword)?;
    push_register(out, register)?;
    push_op(out, op)
}

// A register and two operands.
pub(crate) fn register_ops(
    out: &mut ByteList,
    keyword: &[u8],
    register: u8,
    left: &Op,
    right: &Op,
) -> Result<(), Memory>
    ensures ok { OnOk result (out.new ≡
        out.old ++ words_text (plain keyword.now ∷ register_word register ∷ op_word left.now
        ∷ op_word right.now ∷ [])) }
    ensures fits { OnOk result (FitsOp left.now × FitsOp right.now) }
{
    register_op(out, keyword, register, left)?;
    push_op(out, right)
}

// A register and two slots.
pub(crate) fn register_slots(
    out: &mut ByteList,
    keyword: &[u8],
    register: u8,
    left: u8,
    right: u8,
) -> Result<(), Memory>
    ensures { OnOk result (out.new ≡
        out.old ++ words_text (plain keyword.now ∷ register_word register ∷ slot_word left ∷ slot_word right
        ∷ [])) }
{
    register_slot(out, keyword, register, left)?;
    push_slot(out, right)
}

// A register and a slot.
pub(crate) fn register_slot(
    out: &mut ByteList,
    keyword: &[u8],
    register: u8,
    slot: u8,
) -> Result<(), Memory>
    ensures { OnOk result (out.new ≡ out.old
        ++ words_text (plain keyword.now ∷ register_word register ∷ slot_word slot ∷ [])) }
{
    out.push_all(keyword)?;
    push_register(out, register)?;
    push_slot(out, slot)
}

// A register and a cell.
pub(crate) fn register_cell(
    out: &mut ByteList,
    keyword: &[u8],
    register: u8,
    cell: u8,
) -> Result<(), Memory>
    ensures { OnOk result (out.new ≡ out.old
        ++ words_text (plain keyword.now ∷ register_word register ∷ cell_word cell ∷ [])) }
{
    out.push_all(keyword)?;
    push_register(out, register)?;
    push_cell(out, cell)
}

// A cell and an operand.
pub(crate) fn cell_op(out: &mut ByteList, keyword: &[u8], cell: u8, op: &Op) -> Result<(), Memory>
    ensures ok { OnOk result (out.new ≡ out.old
        ++ words_text (plain keyword.now ∷ cell_word cell ∷ op_word op.now ∷ [])) }
    ensures fits { OnOk result (FitsOp op.now) }
{
    out.push_all(keyword)?;
    push_cell(out, cell)?;
    push_op(out, op)
}

// A number.
pub(crate) fn number(out: &mut ByteList, keyword: &[u8], number: u32) -> Result<(), Memory>
    ensures { OnOk result (out.new ≡ out.old
        ++ words_text (plain keyword.now ∷ plain (decimal number) ∷ [])) }
{
    out.push_all(keyword)?;
    push_decimal(out, number as u64)
}

// A register and a number.
pub(crate) fn register_number(
    out: &mut ByteList,
    keyword: &[u8],
    register: u8,
    number: u32,
) -> Result<(), Memory>
    ensures { OnOk result (out.new ≡ out.old
        ++ words_text (plain keyword.now ∷ register_word register ∷ plain (decimal number) ∷ [])) }
{
    out.push_all(keyword)?;
    push_register(out, register)?;
    push_decimal(out, number as u64)
}

// A slot.
pub(crate) fn one_slot(out: &mut ByteList, keyword: &[u8], slot: u8) -> Result<(), Memory>
    ensures { OnOk result (out.new ≡ out.old ++ words_text (plain keyword.now ∷ slot_word slot ∷ [])) }
{
    out.push_all(keyword)?;
    push_slot(out, slot)
}

// A slot, a class and an interface.
pub(crate) fn slot_class_interface(
    out: &mut ByteList,
    classes: &[ByteList],
    interfaces: &[ByteList],
    keyword: &[u8],
    slot: u8,
    class: Asked,
    iface: Asked,
) -> Result<(), Memory>
    ensures ok { OnOk result (out.new ≡ out.old ++ words_text (plain keyword.now ∷ slot_word slot
        ∷ asked_word classes.now 1 class ∷ asked_word interfaces.now 0 iface ∷ [])) }
    ensures fits { OnOk result (FitsAsked class × FitsAsked iface) }
{
    one_slot(out, keyword, slot)?;
    push_asked(out, classes, 1, class)?;
    push_asked(out, interfaces, 0, iface)
}

// Two slots and an interface.
pub(crate) fn slots_interface(
    out: &mut ByteList,
    interfaces: &[ByteList],
    keyword: &[u8],
    to: u8,
    from: u8,
    iface: Asked,
) -> Result<(), Memory>
    ensures ok { OnOk result (out.new ≡ out.old
        ++ words_text (plain keyword.now ∷ slot_word to ∷ slot_word from
        ∷ asked_word interfaces.now 0 iface ∷ [])) }
    ensures fits { OnOk result (FitsAsked iface) }
{
    one_slot(out, keyword, to)?;
    push_slot(out, from)?;
    push_asked(out, interfaces, 0, iface)
}

// A place.
pub(crate) fn one_place(out: &mut ByteList, keyword: &[u8], place: Place) -> Result<(), Memory>
    ensures { OnOk result (out.new ≡ out.old ++ words_text (plain keyword.now ∷ place_word place ∷ [])) }
{
    out.push_all(keyword)?;
    push_place(out, place)
}

// Two places.
pub(crate) fn two_places(
    out: &mut ByteList,
    keyword: &[u8],
    to: Place,
    from: Place,
) -> Result<(), Memory>
    ensures { OnOk result (out.new ≡ out.old
        ++ words_text (plain keyword.now ∷ place_word to ∷ place_word from ∷ [])) }
{
    one_place(out, keyword, to)?;
    push_place(out, from)
}

// A buffer.
pub(crate) fn one_buffer(out: &mut ByteList, keyword: &[u8], buffer: u8) -> Result<(), Memory>
    ensures { OnOk result (out.new ≡ out.old ++ words_text (plain keyword.now ∷ buffer_word buffer ∷ [])) }
{
    out.push_all(keyword)?;
    push_buffer(out, buffer)
}

// A buffer, a slot and what the packet is for.
pub(crate) fn buffer_slot_mode(
    out: &mut ByteList,
    keyword: &[u8],
    buffer: u8,
    slot: u8,
    mode: MarshalMode,
) -> Result<(), Memory>
    ensures { OnOk result (out.new ≡
        out.old ++ words_text (plain keyword.now ∷ buffer_word buffer ∷ slot_word slot
        ∷ marshal_mode_word mode ∷ [])) }
{
    one_buffer(out, keyword, buffer)?;
    push_slot(out, slot)?;
    push_marshal_mode(out, mode)
}

// A slot and a buffer.
pub(crate) fn slot_buffer(
    out: &mut ByteList,
    keyword: &[u8],
    slot: u8,
    buffer: u8,
) -> Result<(), Memory>
    ensures { OnOk result (out.new ≡ out.old
        ++ words_text (plain keyword.now ∷ slot_word slot ∷ buffer_word buffer ∷ [])) }
{
    one_slot(out, keyword, slot)?;
    push_buffer(out, buffer)
}

// A buffer and bytes in digits.
pub(crate) fn buffer_bytes(
    out: &mut ByteList,
    keyword: &[u8],
    buffer: u8,
    bytes: &ByteList,
) -> Result<(), Memory>
    ensures ok { OnOk result (out.new ≡
        out.old ++ words_text (plain keyword.now ∷ buffer_word buffer ∷ plain (encode_lower bytes.now)
        ∷ [])) }
    ensures fits { OnOk result (AreBytes bytes.now) }
{
    one_buffer(out, keyword, buffer)?;
    push_hex(out, bytes.as_slice())
}

// A slot and an operand.
pub(crate) fn slot_op(out: &mut ByteList, keyword: &[u8], slot: u8, op: &Op) -> Result<(), Memory>
    ensures ok { OnOk result (out.new ≡ out.old
        ++ words_text (plain keyword.now ∷ slot_word slot ∷ op_word op.now ∷ [])) }
    ensures fits { OnOk result (FitsOp op.now) }
{
    one_slot(out, keyword, slot)?;
    push_op(out, op)
}

// An operand.
pub(crate) fn one_op(out: &mut ByteList, keyword: &[u8], op: &Op) -> Result<(), Memory>
    ensures ok { OnOk result (out.new ≡ out.old ++ words_text (plain keyword.now ∷ op_word op.now ∷ [])) }
    ensures fits { OnOk result (FitsOp op.now) }
{
    out.push_all(keyword)?;
    push_op(out, op)
}

// Two operands.
pub(crate) fn two_ops(
    out: &mut ByteList,
    keyword: &[u8],
    left: &Op,
    right: &Op,
) -> Result<(), Memory>
    ensures ok { OnOk result (out.new ≡ out.old
        ++ words_text (plain keyword.now ∷ op_word left.now ∷ op_word right.now ∷ [])) }
    ensures fits { OnOk result (FitsOp left.now × FitsOp right.now) }
{
    one_op(out, keyword, left)?;
    push_op(out, right)
}

// An HRESULT and a result.
pub(crate) fn code_given(
    out: &mut ByteList,
    keyword: &[u8],
    answer: Code,
    given: &Given,
) -> Result<(), Memory>
    ensures ok { OnOk result (out.new ≡ out.old
        ++ words_text (plain keyword.now ∷ code_word answer ∷ given_words given.now)) }
    ensures fits { OnOk result (FitsCode answer × FitsGiven given.now) }
{
    out.push_all(keyword)?;
    push_code(out, answer)?;
    push_given(out, given)
}
