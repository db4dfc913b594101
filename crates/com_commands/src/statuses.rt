//! The exit statuses.
ghost use Rattle.std.specs.Prelude.{◌≡◌};
ghost use Rattle.com_commands.specs.Statuses.{code_of, status_at};

use com_base::ByteList;
use com_model::Ended;

/// The number of the exit status where all went well.
pub const DONE_CODE: u8 = 0;

/// The number of the exit status where the words are none of the usage.
pub const USAGE_CODE: u8 = 1;

/// The number of the exit status where the input is refused.
pub const REFUSED_CODE: u8 = 2;

/// The number of the exit status where a read failed.
pub const READ_FAULT_CODE: u8 = 3;

/// The number of the exit status where a write failed.
pub const WRITE_FAULT_CODE: u8 = 4;

/// The number of the exit status where the history is stuck.
pub const STUCK_CODE: u8 = 5;

/// The number of the exit status where the history has as many entries as it may have.
pub const BUDGET_CODE: u8 = 6;

/// The number of the exit status where a line of the trace differs.
pub const DIFFERS_CODE: u8 = 7;

/// The number of the exit status where want of memory came.
pub const MEMORY_CODE: u8 = 9;

/// How a command ended.
#[derive(Debug, Clone, Copy, PartialEq, Eq)]
pub enum Status {
    /// The input was read to its end, and the whole text was written; the history of a scenario is finished.
    Done,
    /// The words are none of the usage.
    Usage,
    /// The input is too long, or no scenario; or no OBJREF.
    Refused,
    /// A read failed.
    ReadFault,
    /// A write failed.
    WriteFault,
    /// The whole text was written, and its history is stuck: no lane can step, no call waits for a time, and
    /// not all is done.
    Stuck,
    /// The whole text was written, and its history has as many entries as it may have, and is neither
    /// finished nor stuck.
    Budget,
    /// A line of the trace differs from the only legal one.
    Differs,
    /// Want of memory.
    Memory,
}

impl Status {
    /// The number of the exit status.
    pub fn code(self) -> u8
        ensures { result ≡ code_of self }
    {
        match self {
            Status::Done => DONE_CODE,
            Status::Usage => USAGE_CODE,
            Status::Refused => REFUSED_CODE,
            Status::ReadFault => READ_FAULT_CODE,
            Status::WriteFault => WRITE_FAULT_CODE,
            Status::Stuck => STUCK_CODE,
            Status::Budget => BUDGET_CODE,
            Status::Differs => DIFFERS_CODE,
            Status::Memory => MEMORY_CODE,
        }
    }
}

/// The status of a replay whose history has ended so.
pub fn status_at(ended: Ended) -> Status
    ensures { result ≡ status_at ended }
{
    match ended {
        Ended::Ok => Status::Done,
        Ended::Stuck => Status::Stuck,
        Ended::Budget => Status::Budget,
    }
}

/// An exit status, and the text that goes with it.
#[derive(Debug, Drop)]
pub struct Reply {
    /// The exit status.
    pub status: Status,
    /// The text, in bytes.
    pub text: ByteList,
}
