//! Interfaces and their methods as lines.

ghost use Rattle.std.specs.Prelude.{◌≡◌, ◌++◌, ◌∷◌, [], OnOk, All, map};
ghost use Rattle.com_print.specs.Ranges.{IsGuid};
ghost use Rattle.com_print.specs.Spelled.{plain, words_text, more_text, line_text, text_of};
ghost use Rattle.com_print_scenario.specs.Printed.{kind_word, result_words, method_words, interface_words};
ghost use Rattle.com_print_scenario.specs.Printed.{interface_lines};
ghost use Rattle.com_print_scenario.specs.Ranges.{FitsInterface};

use com_base::{ByteList, Kind, Memory};
use com_classes::{Interface, Method};
use com_print::operands::{push_guid, push_name, push_word};
use com_print::words::push_end;

// Appends a type: a word of the language, or an interface's name.
fn push_kind(out: &mut ByteList, names: &[ByteList], kind: Kind) -> Result<(), Memory>
    ensures { OnOk result (out.new ≡ out.old ++ more_text (kind_word names.now kind ∷ [])) }
{
    match kind {
        Kind::Int => push_word(out, b"int"),
        Kind::Bool => push_word(out, b"bool"),
        Kind::Text => push_word(out, b"text"),
        Kind::Bytes => push_word(out, b"bytes"),
        Kind::Guid => push_word(out, b"guid"),
        Kind::Ref(number) => push_name(out, names, number as usize),
    }
}

// Appends the types of a method's parameters, in their order.
#[tactic(auto, using(crate::proofs::Pieces::kind_first))]
fn push_kinds(out: &mut ByteList, names: &[ByteList], kinds: &[Kind]) -> Result<(), Memory>
    ensures { OnOk result (out.new ≡ out.old ++ more_text (map (kind_word names.now) kinds.now)) }
{
    let mut rest = kinds;
    'kinds: while let Some((kind, others)) = rest.split_first() {
        push_kind(out, names, *kind)?;
        rest = others;
    }
    Ok(())
}

// Appends `->` and the type of a method's result, or nothing where it has no result.
fn push_result(out: &mut ByteList, names: &[ByteList], kind: Option<Kind>) -> Result<(), Memory>
    ensures { OnOk result (out.new ≡ out.old ++ more_text (result_words names.now kind)) }
{
    match kind {
        None => Ok(()),
        Some(kind) => {
            push_word(out, b"->")?;
            push_kind(out, names, kind)
        }
    }
}

// Appends the word that opens a line, and a name.
fn push_named(out: &mut ByteList, keyword: &[u8], name: &[u8]) -> Result<(), Memory>
    ensures { OnOk result (out.new ≡ out.old ++ words_text (plain keyword.now ∷ plain name.now ∷ [])) }
{
    out.push_all(keyword)?;
    push_word(out, name)
}

// Appends a method's line.
fn push_method(out: &mut ByteList, names: &[ByteList], method: &Method) -> Result<(), Memory>
    ensures { OnOk result (out.new ≡ out.old ++ line_text (method_words names.now method.now)) }
{
    push_named(out, b"method", method.name.as_slice())?;
    push_kinds(out, names, method.params.as_slice())?;
    push_result(out, names, method.result)?;
    push_end(out)
}

// Appends a line for each method, in the order of their numbers.
#[tactic(auto, using(crate::proofs::Pieces::method_first))]
fn push_methods(out: &mut ByteList, names: &[ByteList], methods: &[Method]) -> Result<(), Memory>
    ensures { OnOk result (out.new ≡ out.old ++ text_of (map (method_words names.now) methods.now)) }
{
    let mut rest = methods;
    'methods: while let Some((method, others)) = rest.split_first() {
        push_method(out, names, method)?;
        rest = others;
    }
    Ok(())
}

// Appends the line that opens an interface: its name and its IID.
fn push_interface_head(out: &mut ByteList, interface: &Interface) -> Result<(), Memory>
    ensures ok { OnOk result (out.new ≡ out.old ++ line_text (interface_words interface.now)) }
    ensures fits { OnOk result (IsGuid interface.now.iid) }
{
    push_named(out, b"interface", interface.name.as_slice())?;
    push_guid(out, interface.iid)?;
    push_end(out)
}

// Appends an interface's line and those of its methods.
fn push_interface(
    out: &mut ByteList,
    names: &[ByteList],
    interface: &Interface,
) -> Result<(), Memory>
    ensures ok { OnOk result (out.new ≡
        out.old ++ (line_text (interface_words interface.now)
        ++ text_of (map (method_words names.now) interface.now.methods))) }
    ensures fits { OnOk result (IsGuid interface.now.iid) }
{
    push_interface_head(out, interface)?;
    push_methods(out, names, interface.methods.as_slice())
}

// Appends interfaces, each with its methods.
#[tactic(auto, using(crate::proofs::Pieces::interface_first, crate::proofs::Pieces::interfaces_fit))]
pub(crate) fn push_interfaces(
    out: &mut ByteList,
    names: &[ByteList],
    interfaces: &[Interface],
) -> Result<(), Memory>
    ensures ok { OnOk result (out.new ≡ out.old ++ text_of (interface_lines names.now interfaces.now)) }
    ensures fits { OnOk result (All FitsInterface interfaces.now) }
{
    let mut rest = interfaces;
    'interfaces: while let Some((interface, others)) = rest.split_first() {
        push_interface(out, names, interface)?;
        rest = others;
    }
    Ok(())
}
