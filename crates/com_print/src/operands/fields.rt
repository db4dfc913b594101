//! What stands behind the keyword of a statement.

ghost use Rattle.std.specs.Prelude.{◌≡◌, ◌++◌, ◌∷◌, [], OnOk};
ghost use Rattle.com_print.specs.Spelled.{plain, more_text};
ghost use Rattle.com_print.specs.Words.{place_word, op_word, arg_word, code_word, given_words};
ghost use Rattle.com_print.specs.Words.{destination_words, mode_word, marshal_mode_word, name_at};
ghost use Rattle.com_print.specs.Words.{asked_word};
ghost use Rattle.com_print.specs.Ranges.{FitsOp, FitsArg, FitsAsked, FitsCode, FitsGiven};

use crate::operands::numbers::{push_link, push_register, push_slot, push_word};
use crate::operands::values::{push_guid, push_hresult, push_value};
use com_base::{ByteList, MarshalMode, Memory, Mode};
use com_body::{Arg, Asked, Code, Destination, Given, Op, Place};

/// Appends a slot or a link.
pub fn push_place(out: &mut ByteList, place: Place) -> Result<(), Memory>
    ensures { OnOk result (out.new ≡ out.old ++ more_text (place_word place ∷ [])) }
{
    match place {
        Place::Slot(number) => push_slot(out, number),
        Place::Link(number) => push_link(out, number),
    }
}

/// Appends a register or a literal.
pub fn push_op(out: &mut ByteList, op: &Op) -> Result<(), Memory>
    ensures ok { OnOk result (out.new ≡ out.old ++ more_text (op_word op.now ∷ [])) }
    ensures fits { FitsOp op.now }
{
    match op {
        Op::Register(number) => push_register(out, *number),
        Op::Literal(value) => push_value(out, value),
    }
}

/// Appends an argument: a register, a literal, a slot or `null`.
pub fn push_arg(out: &mut ByteList, arg: &Arg) -> Result<(), Memory>
    ensures ok { OnOk result (out.new ≡ out.old ++ more_text (arg_word arg.now ∷ [])) }
    ensures fits { FitsArg arg.now }
{
    match arg {
        Arg::Op(op) => push_op(out, op),
        Arg::Slot(number) => push_slot(out, *number),
        Arg::Null => push_word(out, b"null"),
    }
}

/// Appends the HRESULT of a body's end, by its name or in digits, or a register.
pub fn push_code(out: &mut ByteList, code: Code) -> Result<(), Memory>
    ensures ok { OnOk result (out.new ≡ out.old ++ more_text (code_word code ∷ [])) }
    ensures fits { FitsCode code }
{
    match code {
        Code::Literal(answer) => push_hresult(out, answer),
        Code::Register(number) => push_register(out, number),
    }
}

/// Appends the result that a body gives, and nothing where it gives none.
pub fn push_given(out: &mut ByteList, given: &Given) -> Result<(), Memory>
    ensures ok { OnOk result (out.new ≡ out.old ++ more_text (given_words given.now)) }
    ensures fits { FitsGiven given.now }
{
    match given {
        Given::Nothing => Ok(()),
        Given::Op(op) => push_op(out, op),
        Given::Slot(number) => push_slot(out, *number),
    }
}

/// Appends where a call's result goes: `->` and a register or a slot, and nothing where it is not kept.
pub fn push_destination(out: &mut ByteList, destination: Destination) -> Result<(), Memory>
    ensures { OnOk result (out.new ≡ out.old ++ more_text (destination_words destination)) }
{
    match destination {
        Destination::Nowhere => Ok(()),
        Destination::Register(number) => {
            push_word(out, b"->")?;
            push_register(out, number)
        }
        Destination::Slot(number) => {
            push_word(out, b"->")?;
            push_slot(out, number)
        }
    }
}

/// Appends `sta` or `mta`.
pub fn push_mode(out: &mut ByteList, mode: Mode) -> Result<(), Memory>
    ensures { OnOk result (out.new ≡ out.old ++ more_text (mode_word mode ∷ [])) }
{
    match mode {
        Mode::Sta => push_word(out, b"sta"),
        Mode::Mta => push_word(out, b"mta"),
    }
}

/// Appends `normal`, `strong` or `weak`.
pub fn push_marshal_mode(out: &mut ByteList, mode: MarshalMode) -> Result<(), Memory>
    ensures { OnOk result (out.new ≡ out.old ++ more_text (marshal_mode_word mode ∷ [])) }
{
    match mode {
        MarshalMode::Normal => push_word(out, b"normal"),
        MarshalMode::Strong => push_word(out, b"strong"),
        MarshalMode::Weak => push_word(out, b"weak"),
    }
}

/// The bytes of the name with a number, and none where there is no such name.
pub fn name_at(names: &[ByteList], number: usize) -> &[u8]
    ensures { result.now ≡ name_at names.now number }
{
    match names.get(number) {
        Some(name) => name.as_slice(),
        None => b"",
    }
}

/// Appends the name with a number.
pub fn push_name(out: &mut ByteList, names: &[ByteList], number: usize) -> Result<(), Memory>
    ensures { OnOk result (out.new ≡ out.old ++ more_text (plain (name_at names.now number) ∷ [])) }
{
    push_word(out, name_at(names, number))
}

/// Appends a class or an interface that a statement asks for: its name, where the names count from `low`, or
/// its GUID.
pub fn push_asked(
    out: &mut ByteList,
    names: &[ByteList],
    low: u32,
    asked: Asked,
) -> Result<(), Memory>
    ensures ok { OnOk result (out.new ≡ out.old ++ more_text (asked_word names.now low asked ∷ [])) }
    ensures fits { FitsAsked asked }
{
    match asked {
        Asked::Number(number) => push_name(out, names, number.saturating_sub(low) as usize),
        Asked::Guid(guid) => push_guid(out, guid),
    }
}
