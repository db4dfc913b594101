//! What stands for apartments, objects, classes, interfaces and methods.
ghost use Rattle.std.specs.Prelude.{◌≡◌, ◌++◌, OnOk};
ghost use Rattle.std.specs.Fmt.{signed_decimal};
ghost use Rattle.com_classes.specs.Lookups.{class_at, interface_at};
ghost use Rattle.com_draw_words.specs.Escapes.{escaped};
ghost use Rattle.com_model.specs.Deeds.{object_in};
ghost use Rattle.com_model.specs.Text.{named};
ghost use Rattle.com_draw_names.specs.Names.{called_words, class_name, class_words, interface_name};
ghost use Rattle.com_draw_names.specs.Names.{interface_words, method_words, object_text, place_at};
ghost use Rattle.com_draw_names.specs.Names.{place_text, shown_called, shown_method};

use crate::contexts::Caller;
use com_base::{ByteList, Memory, RefValue};
use com_body::Asked;
use com_classes::Classes;
use com_draw_words::{push_escaped, push_word_and_number};
use itoa::Buffer;

/// Appends a signed number in decimal digits. The only error is want of memory.
pub fn push_signed(out: &mut ByteList, number: i64) -> Result<(), Memory>
    ensures { OnOk result (out.new ≡ out.old ++ signed_decimal number) }
{
    let mut digits = Buffer::new();
    out.push_all(digits.format(number).as_bytes())
}

/// Appends a number behind its letters, or a dash where there is none. The only error is want of memory.
pub fn push_named(out: &mut ByteList, letters: &[u8], number: Option<u32>) -> Result<(), Memory>
    ensures { OnOk result (out.new ≡ out.old ++ named letters.now number) }
{
    match number {
        None => out.push_all(b"-"),
        Some(number) => push_word_and_number(out, letters, number),
    }
}

/// Appends an apartment by its sort and its number. The only error is want of memory.
pub fn push_place(out: &mut ByteList, apartment: u32) -> Result<(), Memory>
    ensures { OnOk result (out.new ≡ out.old ++ place_text apartment) }
{
    match apartment {
        0 => out.push_all(b"NTA a0"),
        1 => out.push_all(b"MTA a1"),
        2 => out.push_all(b"host STA a2"),
        _ => push_word_and_number(out, b"STA a", apartment),
    }
}

/// Appends an apartment, or a dash where there is none. The only error is want of memory.
pub fn push_place_at(out: &mut ByteList, apartment: Option<u32>) -> Result<(), Memory>
    ensures { OnOk result (out.new ≡ out.old ++ place_at apartment) }
{
    match apartment {
        None => out.push_all(b"-"),
        Some(apartment) => push_place(out, apartment),
    }
}

/// The object of a reference.
pub fn object_in(held: Option<RefValue>) -> Option<u32>
    ensures { result ≡ object_in held }
{
    match held {
        None => None,
        Some(held) => Some(held.object),
    }
}

/// Appends an object, or that it is null. The only error is want of memory.
pub fn push_object(out: &mut ByteList, object: Option<u32>) -> Result<(), Memory>
    ensures { OnOk result (out.new ≡ out.old ++ object_text object) }
{
    match object {
        None => out.push_all(b"null"),
        Some(object) => push_word_and_number(out, b"o", object),
    }
}

// The name of a class.
fn class_name<'a>(classes: &'a Classes, class: u32) -> &'a [u8]
    ensures { result.now ≡ class_name (class_at classes.now class) }
{
    match classes.class(class) {
        None => &[],
        Some(class) => class.name.as_slice(),
    }
}

// The name of an interface.
fn interface_name<'a>(classes: &'a Classes, iface: u16) -> &'a [u8]
    ensures { result.now ≡ interface_name (interface_at classes.now iface) }
{
    match classes.interface(iface) {
        None => &[],
        Some(interface) => interface.name.as_slice(),
    }
}

/// Appends the name of a class, or its GUID, as they are. The only error is want of memory.
pub fn push_class(out: &mut ByteList, classes: &Classes, class: &Asked) -> Result<(), Memory>
    ensures { OnOk result (out.new ≡ out.old ++ class_words classes.now class.now) }
{
    match class {
        Asked::Number(number) => out.push_all(class_name(classes, *number)),
        Asked::Guid(guid) => out.push_all(&guid.text()),
    }
}

/// Appends the escaped name of a class, or its GUID. The only error is want of memory.
pub fn push_shown_class(out: &mut ByteList, classes: &Classes, class: &Asked) -> Result<(), Memory>
    ensures { OnOk result (out.new ≡ out.old ++ escaped (class_words classes.now class.now)) }
{
    match class {
        Asked::Number(number) => push_escaped(out, class_name(classes, *number)),
        Asked::Guid(guid) => push_escaped(out, &guid.text()),
    }
}

/// Appends the name of an interface, or its GUID, as they are. The only error is want of memory.
pub fn push_interface(out: &mut ByteList, classes: &Classes, iface: &Asked) -> Result<(), Memory>
    ensures { OnOk result (out.new ≡ out.old ++ interface_words classes.now iface.now) }
{
    match iface {
        Asked::Number(number) => {
            if *number < 65536 {
                return out.push_all(interface_name(classes, *number as u16));
            }
            Ok(())
        }
        Asked::Guid(guid) => out.push_all(&guid.text()),
    }
}

/// Appends the escaped name of an interface, or its GUID. The only error is want of memory.
pub fn push_shown_interface(
    out: &mut ByteList,
    classes: &Classes,
    iface: &Asked,
) -> Result<(), Memory>
    ensures { OnOk result (out.new ≡ out.old ++ escaped (interface_words classes.now iface.now)) }
{
    match iface {
        Asked::Number(number) => {
            if *number < 65536 {
                return push_escaped(out, interface_name(classes, *number as u16));
            }
            Ok(())
        }
        Asked::Guid(guid) => push_escaped(out, &guid.text()),
    }
}

/// Appends the name of a method as it is, or its number where there is no such method. The only error is want
/// of memory.
pub fn push_method(
    out: &mut ByteList,
    classes: &Classes,
    iface: u16,
    method: u16,
) -> Result<(), Memory>
    ensures { OnOk result (out.new ≡ out.old ++ method_words classes.now iface method) }
{
    match classes.method(iface, method) {
        None => push_word_and_number(out, b"#", method as u32),
        Some(method) => out.push_all(method.name.as_slice()),
    }
}

/// Appends the escaped name of a method, or its number where there is no such method. The only error is want
/// of memory.
pub fn push_shown_method(
    out: &mut ByteList,
    classes: &Classes,
    iface: u16,
    method: u16,
) -> Result<(), Memory>
    ensures { OnOk result (out.new ≡ out.old ++ shown_method classes.now iface method) }
{
    match classes.method(iface, method) {
        None => push_word_and_number(out, b"#", method as u32),
        Some(method) => push_escaped(out, method.name.as_slice()),
    }
}

/// Appends the method that a caller called, by its name as it is; nothing where nobody waits for the call.
/// The only error is want of memory.
pub fn push_called(
    out: &mut ByteList,
    classes: &Classes,
    caller: Option<Caller>,
) -> Result<(), Memory>
    ensures { OnOk result (out.new ≡ out.old ++ called_words classes.now caller) }
{
    match caller {
        None => Ok(()),
        Some(caller) => push_method(out, classes, caller.iface, caller.method),
    }
}

/// Appends the escaped name of the method that a caller called; nothing where nobody waits for the call. The
/// only error is want of memory.
pub fn push_shown_called(
    out: &mut ByteList,
    classes: &Classes,
    caller: Option<Caller>,
) -> Result<(), Memory>
    ensures { OnOk result (out.new ≡ out.old ++ shown_called classes.now caller) }
{
    match caller {
        None => Ok(()),
        Some(caller) => push_shown_method(out, classes, caller.iface, caller.method),
    }
}
