//! One statement as its line.

ghost use Rattle.std.specs.Prelude.{◌≡◌, ◌++◌, ◌∷◌, [], OnOk, codes};
ghost use Rattle.com_print.specs.Spelled.{plain, words_text, line_text};
ghost use Rattle.com_print.specs.Words.{mode_word};
ghost use Rattle.com_print.specs.Ranges.{Fits};
ghost use Rattle.com_print.specs.StatementWords.{statement_words, filter_word};

use crate::operands::{push_mode, push_name, push_word};
use crate::statements::calling::call;
use crate::statements::shapes::{
    buffer_bytes, buffer_slot_mode, cell_op, code_given, number, one_buffer, one_op, one_place,
    one_slot, register_cell, register_number, register_op, register_ops, register_slot,
    register_slots, slot_buffer, slot_class_interface, slot_op, slots_interface, two_ops,
    two_places,
};
use crate::words::push_end;
use com_base::{ByteList, Memory, Mode};
use com_body::Stmt;
use com_read_statements::Names;

/// Appends the line of a statement: its words with single spaces between them, and the line's end. Classes,
/// interfaces, methods and filters are written by their names, and nothing stands for one that is not
/// declared. The only error is want of memory. Where the line was written, each number of the statement is
/// one that its type has.
pub fn write_statement(names: &Names, statement: &Stmt, out: &mut ByteList) -> Result<(), Memory>
    ensures ok { OnOk result (out.new ≡ out.old ++ line_text (statement_words names.now statement.now)) }
    ensures fits { OnOk result (Fits statement.now) }
{
    write_words(out, names, statement)?;
    push_end(out)
}

// Appends the words of a statement with single spaces between them, and no end of the line.
fn write_words(out: &mut ByteList, names: &Names, statement: &Stmt) -> Result<(), Memory>
    ensures ok { OnOk result (out.new ≡ out.old ++ words_text (statement_words names.now statement.now)) }
    ensures fits { OnOk result (Fits statement.now) }
{
    let classes = names.classes.as_slice();
    let interfaces = names.interfaces.as_slice();
    match statement {
        Stmt::Set { to, from } => register_op(out, b"set", *to, from),
        Stmt::Add { to, from } => register_op(out, b"add", *to, from),
        Stmt::Sub { to, from } => register_op(out, b"sub", *to, from),
        Stmt::Less { to, left, right } => register_ops(out, b"less", *to, left, right),
        Stmt::Same { to, left, right } => register_slots(out, b"same", *to, *left, *right),
        Stmt::Load { to, cell } => register_cell(out, b"load", *to, *cell),
        Stmt::Store { cell, from } => cell_op(out, b"store", *cell, from),
        Stmt::Skip { count } => number(out, b"skip", *count),
        Stmt::SkipZero { register, count } => register_number(out, b"skipz", *register, *count),
        Stmt::Create { slot, class, iface } => {
            slot_class_interface(out, classes, interfaces, b"create", *slot, *class, *iface)
        }
        Stmt::Query { to, from, iface } => {
            slots_interface(out, interfaces, b"query", *to, *from, *iface)
        }
        Stmt::Copy { to, from } => two_places(out, b"copy", *to, *from),
        Stmt::Release { place } => one_place(out, b"release", *place),
        Stmt::Call {
            slot,
            iface,
            method,
            args,
            destination,
        } => {
            call(
                out,
                names,
                *slot,
                *iface,
                *method,
                args.as_slice(),
                *destination,
            )
        }
        Stmt::Marshal { buffer, slot, mode } => {
            buffer_slot_mode(out, b"marshal", *buffer, *slot, *mode)
        }
        Stmt::Unmarshal { slot, buffer } => slot_buffer(out, b"unmarshal", *slot, *buffer),
        Stmt::Drop { buffer } => one_buffer(out, b"drop", *buffer),
        Stmt::Raw { buffer, bytes } => buffer_bytes(out, b"raw", *buffer, bytes),
        Stmt::Register { to, slot } => register_slot(out, b"register", *to, *slot),
        Stmt::Get { slot, cookie } => slot_op(out, b"get", *slot, cookie),
        Stmt::Revoke { cookie } => one_op(out, b"revoke", cookie),
        Stmt::Disconnect { slot } => one_slot(out, b"disconnect", *slot),
        Stmt::Post { lane, word } => two_ops(out, b"post", lane, word),
        Stmt::Quit { lane } => one_op(out, b"quit", lane),
        Stmt::Leave { answer, given } => code_given(out, b"leave", *answer, given),
        Stmt::Init { mode } => init(out, *mode),
        Stmt::Uninit => out.push_all(b"uninit"),
        Stmt::SetFilter { filter } => set_filter(out, names, *filter),
        Stmt::Pump { bound } => number(out, b"pump", *bound),
    }
}

// Appends the words of an `init`: the keyword and the mode.
fn init(out: &mut ByteList, mode: Mode) -> Result<(), Memory>
    ensures { OnOk result (out.new ≡ out.old ++ words_text (plain (codes "init") ∷ mode_word mode ∷ [])) }
{
    out.push_all(b"init")?;
    push_mode(out, mode)
}

// Filters count from 1.
fn set_filter(out: &mut ByteList, names: &Names, filter: Option<u32>) -> Result<(), Memory>
    ensures { OnOk result (out.new ≡ out.old
        ++ words_text (plain (codes "setfilter") ∷ filter_word names.now filter ∷ [])) }
{
    out.push_all(b"setfilter")?;
    match filter {
        None => push_word(out, b"none"),
        Some(number) => push_name(
            out,
            names.filters.as_slice(),
            number.saturating_sub(1) as usize,
        ),
    }
}
