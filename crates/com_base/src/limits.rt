//! The limits of the scenario language, each named for what it limits. A limit itself is still allowed, but where
//! a constant counts: registers, slots, cells, links and buffers are numbered from 0 to below their count.

/// The most interfaces of a scenario, with the four that are built in.
pub const INTERFACE_LIMIT: usize = 64;

/// The most methods of an interface.
pub const METHOD_LIMIT: usize = 32;

/// The most parameters of a method.
pub const PARAMETER_LIMIT: usize = 4;

/// The most classes of a scenario, with its natives.
pub const CLASS_LIMIT: usize = 64;

/// The most interfaces that a class may list.
pub const LISTED_LIMIT: usize = 16;

/// The most filters of a scenario.
pub const FILTER_LIMIT: usize = 16;

/// The most rules of a filter.
pub const RULE_LIMIT: usize = 32;

/// The most threads of a scenario.
pub const THREAD_LIMIT: usize = 16;

/// The most lanes of the pool.
pub const POOL_LIMIT: u32 = 8;

/// The most statements of a method's body.
pub const BODY_LIMIT: usize = 200;

/// The most statements of a thread's script.
pub const SCRIPT_LIMIT: usize = 2_000;

/// The most bytes of a name.
pub const NAME_LIMIT: usize = 32;

/// The most statements that a `skip` or a `skipz` passes over.
pub const SKIP_LIMIT: u32 = 2_000;

/// The greatest bound that a `pump` names.
pub const PUMP_LIMIT: u32 = 1_000;

/// How many registers a frame has.
pub const REGISTER_COUNT: u8 = 16;

/// The register that an action's HRESULT goes into.
pub const ANSWER_REGISTER: u8 = 15;

/// How many slots for references a frame has.
pub const SLOT_COUNT: u8 = 8;

/// How many cells for numbers an object has.
pub const CELL_COUNT: u8 = 8;

/// How many links to objects an object has.
pub const LINK_COUNT: u8 = 4;

/// How many packet buffers a scenario has.
pub const BUFFER_COUNT: u8 = 64;

/// The last number of virtual milliseconds that a rule of a message filter may name.
pub const LAST_MS: u32 = 2_147_483_647;

/// The most bytes of a text literal or a bytes literal.
pub const LITERAL_LIMIT: usize = 256;

/// The most bytes that a `raw` statement may list.
pub const RAW_LIMIT: usize = 4_096;

/// The most bytes of a scenario's text whose first line with words is not `scenario 2`.
pub const TEXT_1_LIMIT: usize = 1_048_576;

/// The most bytes of a scenario's text whose first line with words is `scenario 2`.
pub const TEXT_2_LIMIT: usize = 16_777_216;

/// The most entries of a history in version 1 of the language.
pub const ENTRY_1_LIMIT: u32 = 200_000;

/// The most entries of a history in version 2 of the language.
pub const ENTRY_2_LIMIT: u32 = 1_000_000;

/// A lane that has this many calls, pumps and bodies open admits no further call.
pub const OPENER_LIMIT: usize = 256;

/// The public references that a proxy is given at a time, and that a new normal packet carries.
pub const PUBLIC_REFERENCES: u32 = 5;
