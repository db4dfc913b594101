//! Reading OBJREFs. Nothing here takes memory.
ghost use Rattle.std.specs.Prelude.{◌≡◌, ◌≤◌, IfOk, Ok};
ghost use Rattle.objref.specs.Grammar.{Reference, IsObjRef, reference_of};
ghost use Rattle.objref.specs.Reading.{Gives, whole, standard_at, strings_at, strings_of, standard_ref};
ghost use Rattle.objref.specs.Reading.{handler_ref, custom_ref, objref_of};

use com_base::{Guid, StdFields};
use com_wire::{guid_at, u16_at, u32_at, u64_at};

/// What an OBJREF says. The bytes that are passed on unread are borrowed from the input.
/// Source: MS-DCOM 2.2.18, "OBJREF".
#[derive(Debug, Clone, Copy, PartialEq, Eq)]
pub enum ObjRef<'a> {
    /// A reference by standard marshalling: the fields, the flags of STDOBJREF, and the bindings of the
    /// resolver: how many values, where the security bindings begin among them, and the values' bytes.
    Standard {
        fields: StdFields,
        flags: u32,
        entries: u16,
        security: u16,
        strings: &'a [u8],
    },
    /// A reference by standard marshalling, and the class of a handler that the client makes.
    Handler {
        fields: StdFields,
        flags: u32,
        clsid: Guid,
        entries: u16,
        security: u16,
        strings: &'a [u8],
    },
    /// A reference by custom marshalling: the class that unmarshals it, and its data, which goes to the
    /// end of the bytes.
    Custom {
        iid: Guid,
        clsid: Guid,
        extension: u32,
        unread: u32,
        payload: &'a [u8],
    },
}

/// Why bytes are no OBJREF: the first fault in the order of reading, and its position in the bytes.
#[derive(Debug, Clone, Copy, PartialEq, Eq)]
pub struct RefFault {
    /// 1 a field is not whole, 2 another signature, 3 flags of none of the three cases, 4 the security
    /// bindings begin behind the end of the values, 5 bytes behind a standard or a handler body.
    pub number: u8,
    /// For 1 the length of the bytes, for 2 position 0, for 3 position 4, for 4 the offset's position, for 5
    /// the position of the first byte behind the body.
    pub at: usize,
}

impl RefFault {
    // A field is not whole.
    pub(crate) const SHORT: u8 = 1;

    // Another signature than "MEOW".
    pub(crate) const SIGNATURE: u8 = 2;

    // Flags of none of the three cases.
    pub(crate) const FLAGS: u8 = 3;

    // The security bindings begin behind the end of the values.
    pub(crate) const OFFSET: u8 = 4;

    // Bytes stand behind a standard or a handler body.
    pub(crate) const TRAILING: u8 = 5;
}

// "MEOW" in the order of the bytes.
pub(crate) const SIGNATURE: u32 = 0x574f_454d;

// The flags of an OBJREF by standard marshalling.
pub(crate) const STANDARD: u32 = 1;

// The flags of an OBJREF by standard marshalling with a handler.
const HANDLER: u32 = 2;

// The flags of an OBJREF by custom marshalling.
const CUSTOM: u32 = 4;

// The value of a field that is whole, or the fault that the bytes end in it.
fn whole<T: Drop>(bytes: &[u8], field: Option<T>) -> Result<T, RefFault>
    ensures { result ≡ whole bytes.now field }
{
    match field {
        Some(value) => Ok(value),
        None => Err(RefFault {
            number: RefFault::SHORT,
            at: bytes.len(),
        }),
    }
}

// The fields of a reference with this IID and the flags, from the STDOBJREF at position 24.
#[tactic(auto, unfolding(crate::specs::Reading::standard_at))]
fn standard_at(bytes: &[u8], iid: Guid) -> Result<(StdFields, u32), RefFault>
    ensures { result ≡ standard_at bytes.now iid }
{
    let flags = whole(bytes, u32_at(bytes, 24))?;
    let refs = whole(bytes, u32_at(bytes, 28))?;
    let oxid = whole(bytes, u64_at(bytes, 32))?;
    let oid = whole(bytes, u64_at(bytes, 40))?;
    let ipid = whole(bytes, guid_at(bytes, 48))?;
    let fields = StdFields {
        iid,
        refs,
        oxid,
        oid,
        ipid,
    };
    Ok((fields, flags))
}

// A DUALSTRINGARRAY from a position to the end of the bytes.
struct Strings<'a> {
    entries: u16,
    security: u16,
    values: &'a [u8],
}

// The DUALSTRINGARRAY from a position to the end of the bytes.
#[tactic(auto, unfolding(crate::specs::Reading::strings_at))]
fn strings_at(bytes: &[u8], position: usize) -> Result<Strings<'_>, RefFault>
    requires { position ≤ 80 }
    ensures { Gives strings_of result (strings_at bytes.now position) }
{
    let entries = whole(bytes, u16_at(bytes, position))?;
    let security = whole(bytes, u16_at(bytes, position + 2))?;
    if security > entries {
        return Err(RefFault {
            number: RefFault::OFFSET,
            at: position + 2,
        });
    }
    let end = position + 4 + 2 * entries as usize;
    if bytes.len() < end {
        return Err(RefFault {
            number: RefFault::SHORT,
            at: bytes.len(),
        });
    }
    if end < bytes.len() {
        return Err(RefFault {
            number: RefFault::TRAILING,
            at: end,
        });
    }
    Ok(Strings {
        entries,
        security,
        values: &bytes[position + 4..],
    })
}

// What an OBJREF by standard marshalling says, whose signature and flags were read.
#[tactic(auto, unfolding(crate::specs::Reading::standard_ref))]
fn standard(bytes: &[u8]) -> Result<ObjRef<'_>, RefFault>
    ensures { Gives reference_of result (standard_ref bytes.now) }
{
    let iid = whole(bytes, guid_at(bytes, 8))?;
    let (fields, flags) = standard_at(bytes, iid)?;
    let Strings {
        entries,
        security,
        values,
    } = strings_at(bytes, 64)?;
    Ok(ObjRef::Standard {
        fields,
        flags,
        entries,
        security,
        strings: values,
    })
}

// What an OBJREF with a handler says, whose signature and flags were read.
#[tactic(auto, unfolding(crate::specs::Reading::handler_ref))]
fn handler(bytes: &[u8]) -> Result<ObjRef<'_>, RefFault>
    ensures { Gives reference_of result (handler_ref bytes.now) }
{
    let iid = whole(bytes, guid_at(bytes, 8))?;
    let (fields, flags) = standard_at(bytes, iid)?;
    let clsid = whole(bytes, guid_at(bytes, 64))?;
    let Strings {
        entries,
        security,
        values,
    } = strings_at(bytes, 80)?;
    Ok(ObjRef::Handler {
        fields,
        flags,
        clsid,
        entries,
        security,
        strings: values,
    })
}

// What an OBJREF by custom marshalling says, whose signature and flags were read.
#[tactic(auto, unfolding(crate::specs::Reading::custom_ref))]
fn custom(bytes: &[u8]) -> Result<ObjRef<'_>, RefFault>
    ensures { Gives reference_of result (custom_ref bytes.now) }
{
    let iid = whole(bytes, guid_at(bytes, 8))?;
    let clsid = whole(bytes, guid_at(bytes, 24))?;
    let extension = whole(bytes, u32_at(bytes, 40))?;
    let unread = whole(bytes, u32_at(bytes, 44))?;
    let (_, payload) = bytes.split_at(48);
    Ok(ObjRef::Custom {
        iid,
        clsid,
        extension,
        unread,
        payload,
    })
}

// What an OBJREF of any of the three cases says, or the first fault from the front.
#[tactic(auto, unfolding(crate::specs::Reading::objref_of))]
fn any(bytes: &[u8]) -> Result<ObjRef<'_>, RefFault>
    ensures { Gives reference_of result (objref_of bytes.now) }
{
    if whole(bytes, u32_at(bytes, 0))? != SIGNATURE {
        return Err(RefFault {
            number: RefFault::SIGNATURE,
            at: 0,
        });
    }
    match whole(bytes, u32_at(bytes, 4))? {
        STANDARD => standard(bytes),
        HANDLER => handler(bytes),
        CUSTOM => custom(bytes),
        _ => Err(RefFault {
            number: RefFault::FLAGS,
            at: 4,
        }),
    }
}

/// What the bytes say, all of them, or their first fault from the front. It takes no memory.
/// Source: MS-DCOM 2.2.18, "OBJREF".
pub fn decode(bytes: &[u8]) -> Result<ObjRef<'_>, RefFault>
    // What is read is spelled so, each byte of it.
    ensures found { IfOk result (λ said. IsObjRef bytes.now (reference_of said)) }
    // What is spelled so is read.
    ensures only { (said : Reference) → IsObjRef bytes.now said → Gives reference_of result (Ok said) }
    // Which fault it is.
    ensures exact { Gives reference_of result (objref_of bytes.now) }
{
    any(bytes)
}
