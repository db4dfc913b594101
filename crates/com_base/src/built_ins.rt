//! The numbers of the interfaces that every scenario begins with.

/// How many interfaces are built in. The first that a text declares has this number.
pub const BUILT_IN_COUNT: usize = 4;

/// IUnknown's number.
pub const IUNKNOWN: u16 = 0;

/// ICounter's number.
pub const ICOUNTER: u16 = 1;

/// IRelay's number.
pub const IRELAY: u16 = 2;

/// ILatch's number.
pub const ILATCH: u16 = 3;
