//! The headers that stand before the arguments of a request and before a reply.
//! Source: MS-DCOM 2.2.13, "ORPC Call Conventions": ORPCTHIS and ORPCTHAT.
#![tactic(auto)]

ghost use Rattle.std.specs.Prelude.{◌≡◌, ◌+◌, ◌<◌, ◌≤◌, ◌^◌, List, ℕ, [], ◌++◌, OnOk, OnErr, IfOk, Ok, length};
ghost use Rattle.com_base.specs.declared.guid.Guid.{Guid};
ghost use Rattle.com_wire.specs.Fields.{IsGuid};
ghost use Rattle.orpc.specs.Headers.{This, IsThis, this_text, this_of, that_text, whole, request_of};
ghost use Rattle.orpc.specs.Headers.{reply_of};

use com_base::{ByteList, Guid, Memory, Reserved};
use com_wire::{guid_at, put, u16_at, u32_at};

/// Why bytes are no header: the first fault in the order of reading, and its position in the bytes.
#[derive(Debug, Clone, Copy, PartialEq, Eq)]
pub struct OrpcFault {
    /// 1 a field is not whole, 2 another major version than 5, 3 there are extensions.
    pub number: u8,
    /// For 1 the length of the bytes, for 2 position 0, for 3 the position of the pointer to the extensions:
    /// 28 in a request, 4 in a reply.
    pub at: usize,
}

impl OrpcFault {
    // A field is not whole.
    pub(crate) const SHORT: u8 = 1;

    // Another major version than 5.
    pub(crate) const VERSION: u8 = 2;

    // There are extensions.
    pub(crate) const EXTENSION: u8 = 3;
}

// The major number of COM's version on the wire, which a reader insists on.
const MAJOR: u16 = 5;

// The minor number of the version that the writer says. A reader takes any.
const MINOR: u16 = 7;

// How many bytes the header of a request has.
const REQUEST: usize = 32;

// How many bytes the header of a reply has.
const REPLY: usize = 8;

// The bytes of a request's header.
fn this(cause: &Guid) -> [u8; REQUEST]
    ensures { result ≡ this_text (this_of cause.now) }
{
    let mut bytes = [0; REQUEST];
    put(&mut bytes, 0, &MAJOR.to_le_bytes());
    put(&mut bytes, 2, &MINOR.to_le_bytes());
    put(&mut bytes, 12, &cause.to_wire());
    bytes
}

/// Appends the 32 bytes of a request's header: version 5.7, no flags, the causality, no extensions. The
/// only error is want of memory, and then the list is as before. Source: MS-DCOM 2.2.13.3, "ORPCTHIS".
pub fn request(cause: &Guid, out: &mut ByteList) -> Result<(), Memory>
    ensures ok { OnOk result (out.new ≡ out.old ++ this_text (this_of cause.now)) }
    ensures err { OnErr result (out.new ≡ out.old) }
{
    let room = out.reserve(REQUEST)?;
    request_reserved(cause, room);
    Ok(())
}

/// What `request` appends, to a list that has room for it. It takes no memory.
pub fn request_reserved(cause: &Guid, out: &mut Reserved)
    requires room { 32 ≤ out.old.spare }
    ensures items { out.new.items ≡ out.old.items ++ this_text (this_of cause.now) }
    ensures spare { out.old.spare ≤ out.new.spare + 32 }
    ensures length { length out.new.items ≡ length out.old.items + 32 }
{
    out.push_all(&this(cause));
}

/// Appends the 8 bytes of a reply's header: no flags and no extensions. The only error is want of
/// memory, and then the list is as before. Source: MS-DCOM 2.2.13.4, "ORPCTHAT".
pub fn reply(out: &mut ByteList) -> Result<(), Memory>
    ensures ok { OnOk result (out.new ≡ out.old ++ that_text 0) }
    ensures err { OnErr result (out.new ≡ out.old) }
{
    let room = out.reserve(REPLY)?;
    reply_reserved(room);
    Ok(())
}

/// What `reply` appends, to a list that has room for it. It takes no memory.
#[tactic(auto, unfolding(crate::specs::Headers::that_text, com_wire::specs::Fields::number))]
pub fn reply_reserved(out: &mut Reserved)
    requires room { 8 ≤ out.old.spare }
    ensures items { out.new.items ≡ out.old.items ++ that_text 0 }
    ensures spare { out.old.spare ≤ out.new.spare + 8 }
    ensures length { length out.new.items ≡ length out.old.items + 8 }
{
    out.push_all(&[0; REPLY]);
}

// The value of a field that is whole, or the fault that the bytes end in it.
fn whole<T: Drop>(bytes: &[u8], field: Option<T>) -> Result<T, OrpcFault>
    ensures { result ≡ whole bytes.now field }
{
    match field {
        Some(value) => Ok(value),
        None => Err(OrpcFault {
            number: OrpcFault::SHORT,
            at: bytes.len(),
        }),
    }
}

// The causality that a request's header says, or the first fault from the front.
#[tactic(auto, unfolding(crate::specs::Headers::request_of))]
fn cause_of(bytes: &[u8]) -> Result<Guid, OrpcFault>
    ensures { result ≡ request_of bytes.now }
{
    if whole(bytes, u16_at(bytes, 0))? != MAJOR {
        return Err(OrpcFault {
            number: OrpcFault::VERSION,
            at: 0,
        });
    }
    let _minor = whole(bytes, u16_at(bytes, 2))?;
    let _flags = whole(bytes, u32_at(bytes, 4))?;
    let _reserved = whole(bytes, u32_at(bytes, 8))?;
    let cause = whole(bytes, guid_at(bytes, 12))?;
    if whole(bytes, u32_at(bytes, 28))? != 0 {
        return Err(OrpcFault {
            number: OrpcFault::EXTENSION,
            at: 28,
        });
    }
    Ok(cause)
}

/// The causality of the request's header that stands in front, or the first fault from the front. Any
/// minor version, flags and reserved number are taken. Nobody looks at the bytes behind the header, and
/// it takes no memory. Source: MS-DCOM 2.2.13.3, "ORPCTHIS".
pub fn read_request(bytes: &[u8]) -> Result<Guid, OrpcFault>
    // What is read is spelled so, in the first 32 bytes.
    ensures found { IfOk result (λ cause. (h : This) × (rest : List ℕ) × IsThis h × (h.cause ≡ cause)
        × (bytes.now ≡ this_text h ++ rest)) }
    // What is spelled so is read, whatever stands behind it.
    ensures only { (h : This) (rest : List ℕ) → IsThis h → bytes.now ≡ this_text h ++ rest
        → result ≡ Ok h.cause }
    // Which fault it is.
    ensures exact { result ≡ request_of bytes.now }
{
    cause_of(bytes)
}

// Whether the header of a reply stands in front, or the first fault from the front.
#[tactic(auto, unfolding(crate::specs::Headers::reply_of))]
fn that_at(bytes: &[u8]) -> Result<(), OrpcFault>
    ensures { result ≡ reply_of bytes.now }
{
    let _flags = whole(bytes, u32_at(bytes, 0))?;
    if whole(bytes, u32_at(bytes, 4))? != 0 {
        return Err(OrpcFault {
            number: OrpcFault::EXTENSION,
            at: 4,
        });
    }
    Ok(())
}

/// Whether a reply's header stands in front, or the first fault from the front. Any flags are taken.
/// Nobody looks at the bytes behind the header, and it takes no memory.
/// Source: MS-DCOM 2.2.13.4, "ORPCTHAT".
pub fn read_reply(bytes: &[u8]) -> Result<(), OrpcFault>
    // What is read is spelled so, in the first 8 bytes.
    ensures found { OnOk result ((flags : ℕ) × (rest : List ℕ) × (flags < 2 ^ 32)
        × (bytes.now ≡ that_text flags ++ rest)) }
    // What is spelled so is read, whatever stands behind it.
    ensures only { (flags : ℕ) (rest : List ℕ) → flags < 2 ^ 32 → bytes.now ≡ that_text flags ++ rest
        → result ≡ Ok tt }
    // Which fault it is.
    ensures exact { result ≡ reply_of bytes.now }
{
    that_at(bytes)
}

/// What the writers write is a header, and is read again whatever stands behind it.
pub fn written_is_read()
    ensures grammar { (cause : Guid) → IsGuid cause → IsThis (this_of cause) }
    ensures request { (cause : Guid) (rest : List ℕ) → IsGuid cause
        → request_of (this_text (this_of cause) ++ rest) ≡ Ok cause }
    ensures reply { (rest : List ℕ) → reply_of (that_text 0 ++ rest) ≡ Ok tt }
    ensures request_size { (cause : Guid) → IsGuid cause → length (this_text (this_of cause)) ≡ 32 }
    ensures reply_size { length (that_text 0) ≡ 8 }
{}

/// No header is the front of another one, so each tells where it ends.
pub fn no_front_is_whole()
    ensures request { (front whole : This) (more : List ℕ) → IsThis front → IsThis whole
        → this_text front ++ more ≡ this_text whole → (front ≡ whole) × (more ≡ []) }
    ensures reply { (front whole : ℕ) (more : List ℕ) → front < 2 ^ 32 → whole < 2 ^ 32
        → that_text front ++ more ≡ that_text whole → (front ≡ whole) × (more ≡ []) }
{}
