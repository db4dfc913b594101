//! What the command `objref` shows of a text of hexadecimal digits: the fields of the OBJREF that it spells,
//! or the first fault.
#![tactic(auto)]

ghost use Rattle.std.specs.Prelude.{◌≡◌, ◌++◌, IfOk, OnOk, length, position, decimal, not, false};
ghost use Rattle.std.specs.Char.{is_ascii_hexdigit};
ghost use Rattle.objref.specs.Grammar.{reference_of};
ghost use Rattle.objref.specs.Reading.{objref_of};
ghost use Rattle.com_objref.specs.Shown.{hex32, hex64, fields_text, strings_text, custom_text, described};
ghost use Rattle.com_objref.specs.Shown.{fault_text, without_newline, wrong_position, shown_as, shown_of};

pub use com_base::Memory;
use com_base::{ByteList, Guid, StdFields};
use com_read_operands::unhex;
use itoa::Buffer;
use objref::{ObjRef, RefFault, decode};
use std::alloc::Global;

// The number of the fault of a text that is no pairs of hexadecimal digits. The faults of bytes have
// other numbers: those of `RefFault` begin at 1.
const NO_DIGITS: u8 = 0;

/// What is shown of a text, and whether that is an OBJREF: else it is the line of a fault.
#[derive(Debug, Drop)]
pub struct Shown {
    /// Whether the text spells an OBJREF.
    pub is_found: bool,
    /// The lines of its fields, or the line of the first fault.
    pub text: ByteList,
}

/// Reads hexadecimal digits of either case, behind which one line end may stand, as an OBJREF, and shows its
/// fields, a line each; or the line `fault <number> <byte>` of the first fault. Where the text is no pairs of
/// digits the number is 0, with the position of the first character that is wrong, or the length if the
/// number of digits is odd. The only error is want of memory. Source: MS-DCOM 2.2.18, "OBJREF".
#[tactic(auto, unfolding(crate::specs::Shown::shown_of))]
pub fn show(alloc: Global, text: &[u8]) -> Result<Shown, Memory>
    ensures { IfOk result (λ shown. shown ≡ shown_of text.now) }
{
    let digits = without_newline(text);
    match unhex(alloc, digits)? {
        Some(bytes) => show_bytes(alloc, bytes.as_slice()),
        None => show_fault(
            alloc,
            RefFault {
                number: NO_DIGITS,
                at: wrong_position(digits),
            },
        ),
    }
}

// What is shown of bytes: the fields of the OBJREF that they are, or the line of their first fault.
// The only error is want of memory.
fn show_bytes(alloc: Global, bytes: &[u8]) -> Result<Shown, Memory>
    ensures { IfOk result (λ shown. shown ≡ shown_as (objref_of bytes.now)) }
{
    match decode(bytes) {
        Ok(found) => Ok(Shown {
            is_found: true,
            text: describe(alloc, &found)?,
        }),
        Err(fault) => show_fault(alloc, fault),
    }
}

// The line of a fault: its number and its position. The only error is want of memory.
#[tactic(auto, unfolding(crate::specs::Shown::fault_text))]
fn show_fault(alloc: Global, fault: RefFault) -> Result<Shown, Memory>
    ensures { IfOk result (λ shown. shown ≡ record { is_found = false; text = fault_text fault }) }
{
    let mut text = ByteList::new(alloc);
    text.push_all(b"fault ")?;
    push_number(&mut text, fault.number as u64)?;
    text.push_all(b" ")?;
    push_number(&mut text, fault.at as u64)?;
    text.push_all(b"\n")?;
    Ok(Shown {
        is_found: false,
        text,
    })
}

/// The lines that show an OBJREF. The only error is want of memory.
pub fn describe(alloc: Global, found: &ObjRef) -> Result<ByteList, Memory>
    ensures { IfOk result (λ text. text ≡ described (reference_of found.now)) }
{
    let mut text = ByteList::new(alloc);
    match found {
        ObjRef::Standard {
            fields,
            flags,
            entries,
            security,
            ..
        } => {
            text.push_all(b"kind standard\n")?;
            push_fields(&mut text, fields, *flags)?;
            push_strings(&mut text, *entries, *security)?;
            Ok(text)
        }
        ObjRef::Handler {
            fields,
            flags,
            clsid,
            entries,
            security,
            ..
        } => {
            text.push_all(b"kind handler\n")?;
            push_fields(&mut text, fields, *flags)?;
            text.push_all(b"clsid ")?;
            text.push_all(&clsid.text())?;
            text.push_all(b"\n")?;
            push_strings(&mut text, *entries, *security)?;
            Ok(text)
        }
        ObjRef::Custom {
            iid,
            clsid,
            extension,
            payload,
            ..
        } => {
            push_custom(&mut text, iid, clsid, *extension, payload.len())?;
            Ok(text)
        }
    }
}

// Appends the lines of the fields that a standard and a handler reference share. The only error is
// want of memory.
#[tactic(auto, unfolding(crate::specs::Shown::fields_text))]
fn push_fields(text: &mut ByteList, fields: &StdFields, flags: u32) -> Result<(), Memory>
    ensures { OnOk result (text.new ≡ fields_text text.old fields.now flags) }
{
    text.push_all(b"iid ")?;
    text.push_all(&fields.iid.text())?;
    text.push_all(b"\nflags ")?;
    push_hex32(text, flags)?;
    text.push_all(b"\nrefs ")?;
    push_number(text, fields.refs as u64)?;
    text.push_all(b"\noxid ")?;
    push_hex64(text, fields.oxid)?;
    text.push_all(b"\noid ")?;
    push_hex64(text, fields.oid)?;
    text.push_all(b"\nipid ")?;
    text.push_all(&fields.ipid.text())?;
    text.push_all(b"\n")
}

// Appends the line of the string array: how many values it has, and where the security bindings
// begin. The only error is want of memory.
#[tactic(auto, unfolding(crate::specs::Shown::strings_text))]
fn push_strings(text: &mut ByteList, entries: u16, security: u16) -> Result<(), Memory>
    ensures { OnOk result (text.new ≡ strings_text text.old entries security) }
{
    text.push_all(b"entries ")?;
    push_number(text, entries as u64)?;
    text.push_all(b" security ")?;
    push_number(text, security as u64)?;
    text.push_all(b"\n")
}

// Puts the lines of a reference by custom marshalling into an empty text: of its data the length
// alone. The only error is want of memory.
#[tactic(auto, unfolding(crate::specs::Shown::custom_text))]
fn push_custom(
    text: &mut ByteList,
    iid: &Guid,
    clsid: &Guid,
    extension: u32,
    data_length: usize,
) -> Result<(), Memory>
    requires { length text.old ≡ 0 }
    ensures { OnOk result (text.new ≡ custom_text iid.now clsid.now extension data_length) }
{
    text.clear();
    text.push_all(b"kind custom\niid ")?;
    text.push_all(&iid.text())?;
    text.push_all(b"\nclsid ")?;
    text.push_all(&clsid.text())?;
    text.push_all(b"\nextension ")?;
    push_number(text, extension as u64)?;
    text.push_all(b"\ndata ")?;
    push_number(text, data_length as u64)?;
    text.push_all(b"\n")
}

// Appends a number in decimal digits. The only error is want of memory.
fn push_number(text: &mut ByteList, number: u64) -> Result<(), Memory>
    ensures { OnOk result (text.new ≡ text.old ++ decimal number) }
{
    let mut buffer = Buffer::new();
    text.push_all(buffer.format(number).as_bytes())
}

// Appends a number as eight lower-case hexadecimal digits. The only error is want of memory.
fn push_hex32(text: &mut ByteList, number: u32) -> Result<(), Memory>
    ensures { OnOk result (text.new ≡ text.old ++ hex32 number) }
{
    let mut digits = [0u8; 8];
    match hex::encode_to_slice(number.to_be_bytes(), &mut digits) {
        Ok(()) => text.push_all(&digits),
        Err(_) => unreachable!(),
    }
}

// Appends a number as sixteen lower-case hexadecimal digits. The only error is want of memory.
fn push_hex64(text: &mut ByteList, number: u64) -> Result<(), Memory>
    ensures { OnOk result (text.new ≡ text.old ++ hex64 number) }
{
    let mut digits = [0u8; 16];
    match hex::encode_to_slice(number.to_be_bytes(), &mut digits) {
        Ok(()) => text.push_all(&digits),
        Err(_) => unreachable!(),
    }
}

// A text without a line end at its very end.
fn without_newline(text: &[u8]) -> &[u8]
    ensures { result.now ≡ without_newline text.now }
{
    match text.last() {
        Some(b'\n') => &text[..text.len() - 1],
        _ => text,
    }
}

// Where a text stops being hexadecimal digits: its first other character, or its end.
fn wrong_position(digits: &[u8]) -> usize
    ensures { result ≡ wrong_position digits.now }
{
    match first_wrong(digits) {
        Some(position) => position,
        None => digits.len(),
    }
}

// The position of the first character that is no hexadecimal digit. None where each is one.
fn first_wrong(digits: &[u8]) -> Option<usize>
    ensures { result ≡ position (λ b. not (is_ascii_hexdigit b)) digits.now }
{
    digits.iter().position(|byte| !byte.is_ascii_hexdigit())
}
