//! Writing OBJREFs, by standard marshalling.
ghost use Rattle.std.specs.Prelude.{◌≡◌, ◌+◌, ◌≤◌, ◌++◌, length, OnOk, OnErr};
ghost use Rattle.objref.specs.Grammar.{written_of};

use crate::decoding::{SIGNATURE, STANDARD};
use com_base::{ByteList, Memory, Reserved, StdFields};
use com_wire::put;

// How many bytes the writer makes.
const LENGTH: usize = 72;

// The flags of STDOBJREF.
const NO_FLAGS: u32 = 0;

// The string array of the writer: two zero values, the end of the string bindings and the end of the
// security bindings.
const ENTRIES: u16 = 2;

// Where the security bindings begin among the two values.
const SECURITY: u16 = 1;

// The bytes of a standard reference without flags.
fn bytes_of(fields: &StdFields) -> [u8; LENGTH]
    ensures { result ≡ written_of fields.now }
{
    let mut bytes = [0; LENGTH];
    put(&mut bytes, 0, &SIGNATURE.to_le_bytes());
    put(&mut bytes, 4, &STANDARD.to_le_bytes());
    put(&mut bytes, 8, &fields.iid.to_wire());
    put(&mut bytes, 24, &NO_FLAGS.to_le_bytes());
    put(&mut bytes, 28, &fields.refs.to_le_bytes());
    put(&mut bytes, 32, &fields.oxid.to_le_bytes());
    put(&mut bytes, 40, &fields.oid.to_le_bytes());
    put(&mut bytes, 48, &fields.ipid.to_wire());
    put(&mut bytes, 64, &ENTRIES.to_le_bytes());
    put(&mut bytes, 66, &SECURITY.to_le_bytes());
    bytes
}

/// Appends the 72 bytes of a standard reference with these fields: no flags, and a string array of two
/// zero values whose security bindings begin at the second. The only error is want of memory, and then
/// the list is as before. Source: MS-DCOM 2.2.18, "OBJREF".
pub fn encode(fields: &StdFields, out: &mut ByteList) -> Result<(), Memory>
    ensures ok { OnOk result (out.new ≡ out.old ++ written_of fields.now) }
    ensures err { OnErr result (out.new ≡ out.old) }
{
    let room = out.reserve(LENGTH)?;
    encode_reserved(fields, room);
    Ok(())
}

/// What `encode` appends, to a list that has room for it. It takes no memory.
pub fn encode_reserved(fields: &StdFields, out: &mut Reserved)
    requires room { 72 ≤ out.old.spare }
    ensures items { out.new.items ≡ out.old.items ++ written_of fields.now }
    ensures spare { out.old.spare ≤ out.new.spare + 72 }
    ensures length { length out.new.items ≡ length out.old.items + 72 }
{
    out.push_all(&bytes_of(fields));
}
