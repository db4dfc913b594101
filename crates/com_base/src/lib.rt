//! The plain values that every other crate speaks of: GUIDs, HRESULTs, the values that calls carry,
//! and two small list types whose contracts see the list alone. Beside them the numbers that are written
//! once: apartments, built-in interfaces and the language's limits.
#![tactic(auto)]

mod apartments;
mod built_ins;
mod bytes;
mod guid;
mod hresult;
mod laws;
mod limits;
mod room;
mod rows;
mod standard;
mod value;

pub use apartments::{FIRST_STA, HOST_STA, MTA, NEUTRAL};
pub use built_ins::{BUILT_IN_COUNT, ICOUNTER, ILATCH, IRELAY, IUNKNOWN};
pub use bytes::ByteList;
pub use guid::Guid;
pub use hresult::HResult;
pub use laws::{forms_are_inverse, names_are_inverse};
pub use limits::{
    ANSWER_REGISTER, BODY_LIMIT, BUFFER_COUNT, CELL_COUNT, CLASS_LIMIT, ENTRY_1_LIMIT,
    ENTRY_2_LIMIT, FILTER_LIMIT, INTERFACE_LIMIT, LAST_MS, LINK_COUNT, LISTED_LIMIT, LITERAL_LIMIT,
    METHOD_LIMIT, NAME_LIMIT, OPENER_LIMIT, PARAMETER_LIMIT, POOL_LIMIT, PUBLIC_REFERENCES,
    PUMP_LIMIT, RAW_LIMIT, REGISTER_COUNT, RULE_LIMIT, SCRIPT_LIMIT, SKIP_LIMIT, SLOT_COUNT,
    TEXT_1_LIMIT, TEXT_2_LIMIT, THREAD_LIMIT,
};
pub use room::Reserved;
pub use rows::Rows;
pub use standard::{
    IID_ICLASS_FACTORY, IID_IGLOBAL_INTERFACE_TABLE, IID_IMESSAGE_FILTER, IID_IUNKNOWN, StdFields,
};
pub use value::{Kind, MarshalMode, Mode, RefValue, Value};

/// Want of memory: std's own error, under the name that every crate here uses.
pub use std::alloc::AllocError as Memory;
