//! Classes and natives as lines, and the statements of bodies and scripts.

ghost use Rattle.std.specs.Prelude.{◌≡◌, ◌≤◌, ◌++◌, ◌∷◌, [], OnOk, All, codes, length, map};
ghost use Rattle.com_base.specs.declared.limits.TheConstants.{CLASS_LIMIT};
ghost use Rattle.com_body.specs.declared.frame.Native.TheVariants as natives;
ghost use Rattle.com_print.specs.Ranges.{IsGuid};
ghost use Rattle.com_print.specs.Spelled.{plain, words_text, more_text, line_text, text_of};
ghost use Rattle.com_print_scenario.specs.Printed.{program_lines, body_words, bodies_lines, class_head};
ghost use Rattle.com_print_scenario.specs.Printed.{interface_name, class_lines, classes_lines, model_word};
ghost use Rattle.com_print_scenario.specs.Ranges.{FitsProgram, FitsBodies, FitsClass};

use com_base::{ByteList, Memory};
use com_body::{Native, Stmt};
use com_classes::{Class, Classes, MethodBody, ThreadingModel};
use com_print::operands::{name_at, push_guid, push_name, push_word};
use com_print::statements::{method_name, write_statement};
use com_print::words::push_end;
use com_read_statements::Names;

// Appends statements, each in its line, and the line that ends them.
#[tactic(auto, using(crate::proofs::Pieces::statement_first, crate::proofs::Pieces::statements_fit))]
pub(crate) fn push_program(
    out: &mut ByteList,
    names: &Names,
    statements: &[Stmt],
) -> Result<(), Memory>
    ensures ok { OnOk result (out.new ≡ out.old ++ text_of (program_lines names.now statements.now)) }
    ensures fits { OnOk result (FitsProgram statements.now) }
{
    let mut rest = statements;
    'program: while let Some((statement, others)) = rest.split_first() {
        write_statement(names, statement, out)?;
        rest = others;
    }
    out.push_all(b"end\n")
}

// Appends the line that opens a method's body.
fn push_body_head(out: &mut ByteList, names: &Names, body: &MethodBody) -> Result<(), Memory>
    ensures { OnOk result (out.new ≡ out.old ++ line_text (body_words names.now body.now)) }
{
    out.push_all(b"body ")?;
    out.push_all(name_at(names.interfaces.as_slice(), body.iface as usize))?;
    out.push(b'.')?;
    out.push_all(method_name(names.tables.as_slice(), body.iface, body.method))?;
    push_end(out)
}

// Appends bodies, and the line that ends their class.
#[tactic(auto, using(crate::proofs::Pieces::body_first, crate::proofs::Pieces::bodies_fit))]
fn push_bodies(out: &mut ByteList, names: &Names, bodies: &[MethodBody]) -> Result<(), Memory>
    ensures ok { OnOk result (out.new ≡ out.old ++ text_of (bodies_lines names.now bodies.now)) }
    ensures fits { OnOk result (FitsBodies bodies.now) }
{
    let mut rest = bodies;
    'bodies: while let Some((body, others)) = rest.split_first() {
        push_body_head(out, names, body)?;
        push_program(out, names, body.body.statements())?;
        rest = others;
    }
    out.push_all(b"end\n")
}

// Appends the word of a threading model.
fn push_model(out: &mut ByteList, model: ThreadingModel) -> Result<(), Memory>
    ensures { OnOk result (out.new ≡ out.old ++ more_text (model_word model ∷ [])) }
{
    match model {
        ThreadingModel::Nothing => push_word(out, b"none"),
        ThreadingModel::Apartment => push_word(out, b"Apartment"),
        ThreadingModel::Free => push_word(out, b"Free"),
        ThreadingModel::Both => push_word(out, b"Both"),
        ThreadingModel::Neutral => push_word(out, b"Neutral"),
        ThreadingModel::Agile => push_word(out, b"Agile"),
    }
}

// Appends the name, the CLSID and the model of a class.
fn push_class_head(out: &mut ByteList, keyword: &[u8], class: &Class) -> Result<(), Memory>
    ensures ok { OnOk result (out.new ≡ out.old ++ words_text (class_head keyword.now class.now [])) }
    ensures fits { OnOk result (IsGuid class.now.clsid) }
{
    out.push_all(keyword)?;
    push_word(out, class.name.as_slice())?;
    push_guid(out, class.clsid)?;
    push_model(out, class.model)
}

// Appends the names of the interfaces that a class lists, in its order.
#[tactic(auto, using(crate::proofs::Pieces::listed_first))]
fn push_listed(out: &mut ByteList, names: &Names, interfaces: &[u16]) -> Result<(), Memory>
    ensures { OnOk result (out.new ≡ out.old ++ more_text (map (interface_name names.now) interfaces.now)) }
{
    let mut rest = interfaces;
    'listed: while let Some((interface, others)) = rest.split_first() {
        push_name(out, names.interfaces.as_slice(), *interface as usize)?;
        rest = others;
    }
    Ok(())
}

// Appends a class's first line.
fn push_class_line(out: &mut ByteList, names: &Names, class: &Class) -> Result<(), Memory>
    ensures ok { OnOk result (out.new ≡ out.old
        ++ line_text (class_head (codes "class") class.now
        (map (interface_name names.now) class.now.interfaces))) }
    ensures fits { OnOk result (IsGuid class.now.clsid) }
{
    push_class_head(out, b"class", class)?;
    push_listed(out, names, class.interfaces.as_slice())?;
    push_end(out)
}

// Appends a native's line.
fn push_native(out: &mut ByteList, class: &Class, kind: &[u8]) -> Result<(), Memory>
    ensures ok { OnOk result (out.new ≡ out.old
        ++ line_text (class_head (codes "native") class.now (plain kind.now ∷ []))) }
    ensures fits { OnOk result (IsGuid class.now.clsid) }
{
    push_class_head(out, b"native", class)?;
    push_word(out, kind)?;
    push_end(out)
}

// Appends a class with its bodies.
fn push_bodied(out: &mut ByteList, names: &Names, class: &Class) -> Result<(), Memory>
    ensures ok { OnOk result (out.new ≡ out.old ++ text_of (class_lines names.now class.now natives.Bodies)) }
    ensures fits { OnOk result (FitsClass class.now) }
{
    push_class_line(out, names, class)?;
    push_bodies(out, names, class.bodies.as_slice())
}

// Appends a class or a native. A native has no bodies of its own.
fn push_class(out: &mut ByteList, names: &Names, class: &Class) -> Result<(), Memory>
    ensures ok { OnOk result (out.new ≡ out.old
        ++ text_of (class_lines names.now class.now class.now.native)) }
    ensures fits { OnOk result (FitsClass class.now) }
{
    match class.native {
        Native::Bodies => push_bodied(out, names, class),
        Native::Counter => push_native(out, class, b"counter"),
        Native::Relay => push_native(out, class, b"relay"),
        Native::Latch => push_native(out, class, b"latch"),
    }
}

// Appends the classes and natives, in the order of their declaration.
#[tactic(auto, using(crate::proofs::Pieces::class_first, crate::proofs::Pieces::classes_done, crate::proofs::Pieces::classes_fit, crate::proofs::Pieces::classes_fit_all, crate::proofs::Lists::class_there))]
pub(crate) fn push_classes(
    out: &mut ByteList,
    names: &Names,
    classes: &Classes,
) -> Result<(), Memory>
    requires { length classes.now.classes ≤ CLASS_LIMIT }
    ensures ok { OnOk result (out.new ≡ out.old ++ text_of (classes_lines names.now classes.now.classes)) }
    ensures fits { OnOk result (All FitsClass classes.now.classes) }
{
    let mut number = 0;
    'classes: while let Some(class) = classes.class(number + 1) {
        push_class(out, names, class)?;
        number += 1;
    }
    Ok(())
}
