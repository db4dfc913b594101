//! The numbers of the apartments that every scenario has, and of the first that a thread makes.
//!
//! An apartment is where an object lives and where its bodies run. The kinds are those of the documentation's
//! pages "Processes, Threads, and Apartments" and "Single-Threaded and Multithreaded Communication"; the
//! numbers are this project's.

/// The neutral apartment. It has no lane of its own: a call there runs in the lane of its caller.
pub const NEUTRAL: u32 = 0;

/// The multithreaded apartment (MTA), which the pool's lanes serve.
pub const MTA: u32 = 1;

/// The host's single-threaded apartment (STA), which the host's lane serves, and which never ends. No STA has
/// a lower number.
pub const HOST_STA: u32 = 2;

/// The first single-threaded apartment that a thread makes. Those made later have the numbers behind it.
pub const FIRST_STA: u32 = 3;
