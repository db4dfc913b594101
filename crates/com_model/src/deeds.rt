//! Entries of a history.

ghost use Rattle.std.specs.Prelude.{◌≡◌};
ghost use Rattle.com_model.specs.Calls.{is_marshalled};
ghost use Rattle.com_model.specs.Frames.{answer_in};

use com_base::{ByteList, HResult, MarshalMode, Mode, RefValue, Rows, Value};
use com_body::Asked;
use com_filter::Verdict;

/// How a call reaches its target.
#[derive(Debug, Clone, Copy, PartialEq, Eq)]
pub enum Route {
    /// The owner of the target is the caller's running apartment.
    Direct,
    /// The caller's own lane enters the target's apartment: the neutral one, or the lane's home.
    Switch,
    /// The call goes to the end of the owner's inbox.
    Post,
    /// The call is refused at its issue, and takes no route.
    Refused,
}

impl Route {
    /// Whether the arguments and the result of a call travel as bytes: on the routes by switch and by post.
    pub fn is_marshalled(self) -> bool
        ensures { result ≡ is_marshalled self }
    {
        match self {
            Route::Switch | Route::Post => true,
            Route::Direct | Route::Refused => false,
        }
    }
}

/// What one entry of a history says was done.
///
/// Apartments, objects, calls, packets and cookies are their numbers, and `None` stands for what is absent. A
/// class or interface is its number wherever it is declared. A filter is its number from 1. `hr` is the
/// HRESULT that was answered.
#[derive(Debug, Drop)]
pub enum Deed {
    /// A lane was initialised. `home` is its apartment afterwards.
    Init {
        mode: Mode,
        home: u32,
        hr: HResult,
    },
    /// A lane was uninitialised. `home` is its apartment before, and `count` what is left of its
    /// initialisations.
    Uninit {
        home: Option<u32>,
        count: u32,
    },
    /// An object was made, and `apartment` is its owner; both are `None` on refusal.
    Made {
        object: Option<u32>,
        apartment: Option<u32>,
        class: Asked,
        iface: Asked,
        hr: HResult,
    },
    /// A reference was asked for an interface.
    Query {
        object: Option<u32>,
        iface: Asked,
        hr: HResult,
    },
    /// A reference was copied, or null.
    Copy {
        held: Option<RefValue>,
    },
    /// A reference was given up, or null.
    Release {
        held: Option<RefValue>,
    },
    /// A reference was written as a packet. `refs` is how many public references the packet holds.
    Marshal {
        packet: Option<u32>,
        mode: MarshalMode,
        held: Option<RefValue>,
        refs: u32,
        hr: HResult,
        bytes: Option<ByteList>,
    },
    /// A packet was read as a reference. `refs` is how many public references the proxy gained.
    Unmarshal {
        packet: Option<u32>,
        held: Option<RefValue>,
        refs: u32,
        hr: HResult,
    },
    /// A packet was given up.
    DropPacket {
        packet: Option<u32>,
        hr: HResult,
    },
    /// Bytes, as many as `length`, were put in a buffer.
    Raw {
        buffer: u8,
        length: u32,
    },
    /// A reference was put in the global interface table.
    Register {
        cookie: Option<u32>,
        held: Option<RefValue>,
        hr: HResult,
    },
    /// A reference was taken from the table. `refs` is how many public references the proxy gained.
    Get {
        cookie: i64,
        held: Option<RefValue>,
        refs: u32,
        hr: HResult,
    },
    /// A cookie was ended.
    Revoke {
        cookie: i64,
        hr: HResult,
    },
    /// A message filter was named for the lane's STA, or none.
    SetFilter {
        filter: Option<u32>,
        hr: HResult,
    },
    /// A word was posted to a lane.
    Post {
        lane: i64,
        word: i64,
        hr: HResult,
    },
    /// A lane's pump was asked to end.
    Quit {
        lane: i64,
        hr: HResult,
    },
    /// A pump opened. It ends after `bound` bodies, or has no bound where that is 0.
    Pump {
        bound: u32,
    },
    /// A pump closed.
    EndPump,
    /// A pump took a word from the lane's queue.
    Word {
        word: i64,
    },
    /// A call was issued. `bytes` is the request, where the call was marshalled.
    Out {
        call: u32,
        object: Option<u32>,
        iface: u16,
        method: u16,
        route: Route,
        cause: u32,
        bytes: Option<ByteList>,
    },
    /// A filter turned a call away, with the call type that it was asked with. No entry of a legal
    /// history carries `Verdict::Handled`: a call that a filter lets in gets no Verdict.
    Verdict {
        call: u32,
        call_type: u8,
        verdict: Verdict,
    },
    /// A call was refused at its admission.
    Refuse {
        call: u32,
        hr: HResult,
    },
    /// A body was entered in this apartment with these argument values. `call_type` is there for a call
    /// posted to an STA.
    Enter {
        call: u32,
        object: u32,
        apartment: u32,
        call_type: Option<u8>,
        values: Rows<Value>,
    },
    /// A body left. `bytes` is the reply, where the call was marshalled and is still waited for.
    Leave {
        call: u32,
        hr: HResult,
        value: Option<Value>,
        bytes: Option<ByteList>,
    },
    /// A caller's filter said what to do after a verdict.
    Retry {
        call: u32,
        answer: i64,
    },
    /// A call was posted again after a wait.
    Again {
        call: u32,
    },
    /// A call came back to its caller.
    Back {
        call: u32,
        hr: HResult,
        value: Option<Value>,
    },
    /// A waiting caller's filter was asked about a word: 0 cancels the call, 1 leaves the word, 2 takes it
    /// away.
    Pending {
        call: u32,
        word: i64,
        answer: u8,
    },
    /// An object was disconnected from all other apartments.
    Disconnect {
        object: Option<u32>,
        hr: HResult,
    },
    /// An object ended.
    Final {
        object: u32,
    },
    /// The clock went on to this time, in milliseconds.
    Tick {
        clock: u64,
    },
    /// A thread's lane ended.
    End,
}

impl Deed {
    /// The HRESULT that whoever acts is given by the entry: the one in it, and S_OK where the action is never
    /// refused.
    pub fn answer(&self) -> HResult
        ensures { result ≡ answer_in self.now }
    {
        match self {
            Deed::Init { hr, .. }
            | Deed::Made { hr, .. }
            | Deed::Query { hr, .. }
            | Deed::Marshal { hr, .. }
            | Deed::Unmarshal { hr, .. }
            | Deed::DropPacket { hr, .. }
            | Deed::Register { hr, .. }
            | Deed::Get { hr, .. }
            | Deed::Revoke { hr, .. }
            | Deed::SetFilter { hr, .. }
            | Deed::Post { hr, .. }
            | Deed::Quit { hr, .. }
            | Deed::Disconnect { hr, .. } => *hr,
            _ => HResult::S_OK,
        }
    }
}

/// One entry of a history: the lane that made it, or 0 for the clock, and what was done.
#[derive(Debug, Drop)]
pub struct Entry {
    /// The lane that made it, from 1, or 0 for the clock.
    pub lane: u32,
    /// What was done.
    pub deed: Deed,
}
