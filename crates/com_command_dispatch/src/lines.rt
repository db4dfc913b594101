//! The lines that say what each late-bound call of a text is bound to.

ghost use Rattle.std.specs.Prelude.{◌≡◌, ◌++◌, [], OnOk, IfOk, unwrap_or};
ghost use Rattle.com_base.specs.HResults.{name_of};
ghost use Rattle.com_print.specs.Words.{value_word};
ghost use Rattle.com_command_dispatch.specs.Lines.{arg_text, later_arg_text, later_args_text, args_text};
ghost use Rattle.com_command_dispatch.specs.Lines.{outcome_text, binding_text, bindings_text};

use com_base::{ByteList, HResult, Memory, Value};
use com_commands::push_number;
use com_dispatch::{BindOutcome, Binding, DispArg};
use com_print::operands::push_value;
use std::alloc::Global;

// Appends a literal as the language writes it.
#[tactic(auto, using(crate::proofs::Pieces::behind_space))]
fn push_literal(alloc: Global, out: &mut ByteList, value: &Value) -> Result<(), Memory>
    ensures { OnOk result (out.new ≡ out.old ++ (value_word value.now).bytes) }
{
    let mut word = ByteList::new(alloc);
    push_value(&mut word, value)?;
    match word.as_slice() {
        [_, literal @ ..] => out.push_all(literal),
        [] => Ok(()),
    }
}

// Appends an argument: a literal, a slot as `s` and its number, or `null`.
fn push_arg(alloc: Global, out: &mut ByteList, arg: &DispArg) -> Result<(), Memory>
    ensures { OnOk result (out.new ≡ out.old ++ arg_text arg.now) }
{
    match arg {
        DispArg::Literal(value) => push_literal(alloc, out, value),
        DispArg::Slot(slot) => {
            out.push_all(b"s")?;
            push_number(out, *slot as u64)
        }
        DispArg::Null => out.push_all(b"null"),
    }
}

// Appends an argument behind a comma.
fn push_later_arg(alloc: Global, out: &mut ByteList, arg: &DispArg) -> Result<(), Memory>
    ensures { OnOk result (out.new ≡ out.old ++ later_arg_text arg.now) }
{
    out.push_all(b",")?;
    push_arg(alloc, out, arg)
}

// Appends arguments with a comma before each.
fn push_later(alloc: Global, out: &mut ByteList, args: &[DispArg]) -> Result<(), Memory>
    ensures { OnOk result (out.new ≡ out.old ++ later_args_text args.now) }
{
    let mut rest = args;
    'each: while let Some((next, others)) = rest.split_first() {
        push_later_arg(alloc, out, next)?;
        rest = others;
    }
    Ok(())
}

// Appends arguments with a comma between each two.
fn push_args(alloc: Global, out: &mut ByteList, args: &[DispArg]) -> Result<(), Memory>
    ensures { OnOk result (out.new ≡ out.old ++ args_text args.now) }
{
    match args.split_first() {
        None => Ok(()),
        Some((first, rest)) => {
            push_arg(alloc, out, first)?;
            push_later(alloc, out, rest)
        }
    }
}

// Appends the name of an HRESULT, and nothing where it has none.
fn push_name(out: &mut ByteList, hr: HResult) -> Result<(), Memory>
    ensures { OnOk result (out.new ≡ out.old ++ unwrap_or (name_of hr.0) []) }
{
    match hr.name() {
        Some(name) => out.push_all(name.as_bytes()),
        None => Ok(()),
    }
}

// Appends what a call is bound to: the numbers of the interface and the method, and the arguments;
// or else the name of its refusal.
fn push_outcome(
    alloc: Global,
    out: &mut ByteList,
    iface: u16,
    outcome: &BindOutcome,
) -> Result<(), Memory>
    ensures { OnOk result (out.new ≡ out.old ++ outcome_text iface outcome.now) }
{
    match outcome {
        BindOutcome::Bound(bound) => {
            out.push_all(b"I")?;
            push_number(out, iface as u64)?;
            out.push_all(b".")?;
            push_number(out, bound.method as u64)?;
            out.push_all(b" (")?;
            push_args(alloc, out, bound.args.as_slice())?;
            out.push_all(b")")
        }
        BindOutcome::Refused(hr) => push_name(out, *hr),
    }
}

// Appends the line of a binding: `bind`, its number among the bindings, and its outcome.
fn push_binding(
    alloc: Global,
    out: &mut ByteList,
    number: u64,
    binding: &Binding,
) -> Result<(), Memory>
    ensures { OnOk result (out.new ≡ out.old ++ binding_text number binding.now) }
{
    out.push_all(b"bind ")?;
    push_number(out, number)?;
    out.push_all(b" ")?;
    push_outcome(alloc, out, binding.iface, &binding.outcome)?;
    out.push_all(b"\n")
}

// The lines of bindings, numbered from 1. The only error is want of memory.
#[tactic(auto, using(crate::proofs::Pieces::bindings_in_two), unfolding(crate::specs::Lines::bindings_text))]
pub(crate) fn bindings_text(alloc: Global, bindings: &[Binding]) -> Result<ByteList, Memory>
    ensures { IfOk result (λ text. text ≡ bindings_text bindings.now) }
{
    let mut out = ByteList::new(alloc);
    let mut number: u64 = 1;
    let mut rest = bindings;
    'each: while let Some((next, others)) = rest.split_first() {
        push_binding(alloc, &mut out, number, next)?;
        number += 1;
        rest = others;
    }
    Ok(out)
}
