//! What a scenario's text says.

ghost use Rattle.std.specs.Prelude.{◌≡◌, ◌+◌, ◌<◌, ◌≤◌, ◌^◌, IfNone, IfSome, length};
ghost use Rattle.com_model.specs.Ends.{limit};
ghost use Rattle.com_model.specs.Tables.{lanes};

use com_base::{ENTRY_1_LIMIT, ENTRY_2_LIMIT, Rows};
use com_body::Body;
use com_classes::Classes;
use com_filter::Filter;

// The number of threads from which on no lanes are counted. A text declares far fewer: at most
// `THREAD_LIMIT`.
const UNCOUNTED_THREADS: usize = 0x1000_0000;

/// A scenario: the version of its language, 1 or 2, the number of pool lanes, the classes and interfaces, the
/// filters in order, each thread's script, and the lanes that the schedule tries first.
#[derive(Drop)]
pub struct Scenario {
    /// The version of the language, 1 or 2. It says how long a history may be, and how an HRESULT is printed.
    pub version: u8,
    /// How many lanes serve the multithreaded apartment.
    pub pool: u32,
    /// The interfaces, the built-in ones first, and the classes.
    pub classes: Classes,
    /// The message filters, numbered from 1.
    pub filters: Rows<Filter>,
    /// The script of each thread; lane n runs the n-th.
    pub threads: Rows<Body>,
    /// The lanes that the schedule tries first, each once.
    pub picks: Rows<u32>,
}

impl Scenario {
    /// How many entries a history of the scenario may have: `ENTRY_1_LIMIT` in version 1 of the language,
    /// `ENTRY_2_LIMIT` in version 2.
    pub fn limit(&self) -> u32
        ensures { result ≡ limit self.now }
    {
        if self.version == 2 {
            ENTRY_2_LIMIT
        } else {
            ENTRY_1_LIMIT
        }
    }

    /// How many lanes the scenario has beside the clock's: one for each thread, the host's, and the pool's.
    /// `None` only where it has 268,435,456 threads or more, or where 32 bits do not hold the number; a text
    /// declares at most 16 threads.
    pub fn lanes(&self) -> Option<u32>
        ensures lanes { IfSome result (λ count. count ≡ lanes self.now) }
        ensures threads { IfSome result (λ count. length self.now.threads + 2 < 2 ^ 32) }
        ensures none { IfNone result (length self.now.threads < UNCOUNTED_THREADS → 2 ^ 32 ≤ lanes self.now) }
    {
        let threads = self.threads.len();
        if threads >= UNCOUNTED_THREADS {
            return None;
        }
        let lanes = threads as u64 + 1 + self.pool as u64;
        if lanes > 0xFFFF_FFFF {
            return None;
        }
        Some(lanes as u32)
    }
}
