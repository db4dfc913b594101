//! What a core keeps of a lane's openers, of calls, objects and words: a row for each.

use crate::deeds::Route;
use com_base::{HResult, Value};
use com_filter::Verdict;

/// A pump, an outgoing call or an incoming call that has not ended in its lane.
#[derive(Debug, Clone, Copy)]
pub enum Opener {
    /// A pump, with its bound or 0.
    Pumps {
        bound: u32,
    },
    /// A call that is waited for.
    Waits {
        call: u32,
    },
    /// A body that runs for a call, on an object, in an apartment.
    Enters {
        call: u32,
        object: u32,
        apartment: u32,
    },
}

/// What the Out entry of a call says.
#[derive(Debug, Clone, Copy)]
pub struct Issue {
    /// The number of the call, from 1.
    pub call: u32,
    /// The lane that made it.
    pub lane: u32,
    /// The object that it was made to. `None` for a null slot.
    pub object: Option<u32>,
    /// The number of the interface that the statement names.
    pub iface: u16,
    /// The number of the method in the interface's table, from 0.
    pub method: u16,
    /// How the call goes, or `Route::Refused` where it was refused at its issue.
    pub route: Route,
    /// The number of its causality, from 1.
    pub cause: u32,
}

/// What the Enter entry of a call says.
#[derive(Debug, Clone, Copy)]
pub struct Admission {
    /// The number of the call.
    pub call: u32,
    /// The lane in which its body runs.
    pub lane: u32,
    /// The apartment in which its body runs.
    pub apartment: u32,
}

/// What the Leave entry of a call says.
#[derive(Debug, Drop)]
pub struct Leaving {
    /// The number of the call.
    pub call: u32,
    /// The body's HRESULT.
    pub hr: HResult,
    /// The result, where the HRESULT is a success and the method declares one.
    pub value: Option<Value>,
}

/// The making of an object: the apartment and the class that its Made entry names.
#[derive(Debug, Clone, Copy)]
pub struct Making {
    /// The number of the object, from 1.
    pub object: u32,
    /// The apartment that owns it; 0, the neutral one, for an agile object.
    pub apartment: u32,
    /// The number of its class, from 1.
    pub class: u32,
}

/// What fixed a call's answer.
#[derive(Debug, Drop)]
pub enum Ending {
    /// Its Out, which says that it was refused.
    AtIssue,
    /// Its Refuse, with the HRESULT that stands there.
    AtAdmission(HResult),
    /// A Verdict on it, where its caller's lane has no filter.
    ByVerdict(Verdict),
    /// A Retry below 0, by which its caller's filter gave it up.
    ByRetry,
    /// A Pending with answer 0, by which its caller's filter cancelled it.
    ByCancel,
    /// The disconnection of its target, by a Disconnect or by the end of its STA, before it was
    /// entered.
    ByDisconnection,
    /// The Leave of its body, with the HRESULT and the value that stand there.
    ByLeave(HResult, Option<Value>),
}

/// Where a call stands since its last posting.
#[derive(Debug, Clone, Copy)]
pub enum Phase {
    /// It was never posted.
    Unposted,
    /// It was posted, and no Verdict on it came since.
    Queued,
    /// This Verdict turned it away, and no Retry came since.
    Judged(Verdict),
    /// A Retry lets it wait until this time, in milliseconds. An Again then posts it.
    Delayed { until: u64 },
    /// A Retry below 0 gave it up.
    GivenUp,
}

/// A word that was posted to a lane, with its number among these from 1.
#[derive(Debug, Clone, Copy)]
pub struct Word {
    /// Its number among the words that were posted to the lane, from 1.
    pub number: u64,
    /// The word itself.
    pub word: i64,
}

/// The number of the word that an Out was last asked about.
#[derive(Debug, Clone, Copy)]
pub struct Mark {
    /// The number of the call whose Out it is.
    pub call: u32,
    /// The number of the last word of the lane that the Out was asked about; 0 before the first.
    pub number: u64,
}
