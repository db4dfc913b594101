//! The bytes of the arguments of a call, after the rules of NDR in this project's profile.
//! Source: C706, chapter 14, "Transfer Syntax NDR"; MS-DCOM 2.2.14, "MInterfacePointer".
#![tactic(auto)]

mod laws;
mod reading;
mod wire;
mod writing;

pub use laws::{no_front_is_whole, written_has_its_length, written_is_read};
pub use reading::read_args;
pub use wire::{ArgError, ArgFault, Wire};
pub use writing::{args_length, write_args, write_args_reserved};
