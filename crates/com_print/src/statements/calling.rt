//! The line of a call.

ghost use Rattle.std.specs.Prelude.{◌≡◌, ◌++◌, ◌∷◌, ◌<◌, ◌^◌, [], OnOk, All, map, decimal, codes};
ghost use Rattle.com_print.specs.Spelled.{plain, words_text, more_text};
ghost use Rattle.com_print.specs.Words.{slot_word, arg_word, destination_words};
ghost use Rattle.com_print.specs.Ranges.{FitsArg};
ghost use Rattle.com_read_statements.specs.Calls.{method_of};
ghost use Rattle.com_print.specs.StatementWords.{name_of, takes_nothing, alone_text, target_word};

use crate::operands::{name_at, push_arg, push_destination};
use crate::statements::shapes::one_slot;
use com_base::{ByteList, Memory};
use com_body::{Arg, Destination};
use com_classes::Interface;
use com_read_statements::Names;
use itoa::Buffer;

// Appends the arguments of a call, each behind a space.
#[tactic(auto, using(crate::proofs::StatementPieces::args_in_two, crate::proofs::StatementPieces::fits_more))]
fn push_args(out: &mut ByteList, args: &[Arg]) -> Result<(), Memory>
    ensures ok { OnOk result (out.new ≡ out.old ++ more_text (map arg_word args.now)) }
    ensures fits { OnOk result (All FitsArg args.now) }
{
    let mut rest = args;
    'given: while let Some((next, others)) = rest.split_first() {
        push_arg(out, next)?;
        rest = others;
    }
    Ok(())
}

/// The name of a method by its interface's number and its own, and no bytes where the tables lack it.
pub fn method_name(tables: &[Interface], iface: u16, method: u16) -> &[u8]
    ensures { result.now ≡ name_of (method_of tables.now iface method) }
{
    let Some(table) = tables.get(iface as usize) else {
        return b"";
    };
    match table.methods.as_slice().get(method as usize) {
        Some(method) => method.name.as_slice(),
        None => b"",
    }
}

// Appends a method by its number: a dot, a `#` and the number in decimal digits.
fn push_numbered(out: &mut ByteList, method: u16) -> Result<(), Memory>
    ensures { OnOk result (out.new ≡ out.old ++ 46 ∷ 35 ∷ decimal method) }
{
    let mut digits = Buffer::new();
    out.push_all(b".#")?;
    out.push_all(digits.format(method).as_bytes())
}

// Appends a method by its name: a dot and the name.
fn push_named(out: &mut ByteList, name: &[u8]) -> Result<(), Memory>
    ensures { OnOk result (out.new ≡ out.old ++ 46 ∷ name.now) }
{
    out.push(b'.')?;
    out.push_all(name)
}

// Whether the tables have the method, and it has no parameters.
fn has_no_parameters(tables: &[Interface], iface: u16, method: u16) -> bool
    ensures { result ≡ takes_nothing (method_of tables.now iface method) }
{
    let Some(table) = tables.get(iface as usize) else {
        return false;
    };
    match table.methods.as_slice().get(method as usize) {
        Some(method) => method.params.len() == 0,
        None => false,
    }
}

// Appends the method of a call that gives nothing and keeps no result: by its name where it takes nothing, so
// that the name is read as this call.
fn push_alone(
    out: &mut ByteList,
    tables: &[Interface],
    iface: u16,
    method: u16,
) -> Result<(), Memory>
    ensures { OnOk result (out.new ≡
        out.old ++ 46 ∷ alone_text method (method_of tables.now iface method)) }
{
    if has_no_parameters(tables, iface, method) {
        return push_named(out, method_name(tables, iface, method));
    }
    push_numbered(out, method)
}

// Appends a space, the interface's name, a dot and the method.
fn push_target(
    out: &mut ByteList,
    names: &Names,
    iface: u16,
    method: u16,
    args: &[Arg],
    destination: Destination,
) -> Result<(), Memory>
    ensures { OnOk result (out.new ≡ out.old
        ++ more_text (target_word names.now iface method args.now destination ∷ [])) }
{
    out.push(b' ')?;
    out.push_all(name_at(names.interfaces.as_slice(), iface as usize))?;
    match (args, destination) {
        ([], Destination::Nowhere) => push_alone(out, names.tables.as_slice(), iface, method),
        _ => push_named(out, method_name(names.tables.as_slice(), iface, method)),
    }
}

// A slot, a method, arguments and where the result goes.
#[tactic(auto, using(crate::proofs::StatementPieces::both_texts))]
pub(crate) fn call(
    out: &mut ByteList,
    names: &Names,
    slot: u8,
    iface: u16,
    method: u16,
    args: &[Arg],
    destination: Destination,
) -> Result<(), Memory>
    ensures ok { OnOk result (out.new ≡ out.old ++ words_text (plain (codes "call") ∷ slot_word slot
        ∷ target_word names.now iface method args.now destination
        ∷ (map arg_word args.now ++ destination_words destination))) }
    ensures fits { OnOk result ((method < 2 ^ 16) × All FitsArg args.now) }
{
    one_slot(out, b"call", slot)?;
    push_target(out, names, iface, method, args, destination)?;
    push_args(out, args)?;
    push_destination(out, destination)
}
