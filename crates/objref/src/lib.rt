//! OBJREF, the bytes of a marshalled reference. Source: MS-DCOM 2.2.18, "OBJREF".
#![tactic(auto)]

mod decoding;
mod encoding;
mod laws;

pub use decoding::{ObjRef, RefFault, decode};
pub use encoding::{encode, encode_reserved};
pub use laws::{no_front_is_whole, written_is_read};
