//! Message filters: lists of rules that answer what a call and a waiting caller ask.
#![tactic(auto)]

ghost use Rattle.std.specs.Prelude.{◌≡◌};
ghost use Rattle.com_filter.specs.Answers.{is_for_type, is_for_verdict, same_verdict, incoming_by, retry_by};
ghost use Rattle.com_filter.specs.Answers.{pending_by, incoming_answer, retry_answer, pending_answer};

use std::marker::Model;

/// From this answer of a retry rule on a call waits for so many milliseconds before it is made again; from 0 to
/// below it the call is made again at once. Source: IMessageFilter::RetryRejectedCall.
pub const LEAST_DELAY_MS: u32 = 100;

/// The answer to an incoming call.
#[derive(Debug, Clone, Copy, PartialEq, Eq)]
pub enum Verdict {
    /// SERVERCALL_ISHANDLED, 0: the call is entered.
    Handled,
    /// SERVERCALL_REJECTED, 1.
    Rejected,
    /// SERVERCALL_RETRYLATER, 2.
    Later,
}

/// One rule of a filter. Times are in milliseconds, and a rule matches from its time on.
#[derive(Debug, Clone, Copy, PartialEq, Eq)]
pub enum Rule {
    /// Answers an incoming call of this type, 1, 2 or 4, or of any type where it is `None`.
    Incoming {
        call_type: Option<u8>,
        ms: u32,
        verdict: Verdict,
    },
    /// Answers a caller that got this verdict, or either where it is `None`: below 0 gives up, 0 to 99 calls
    /// again at once, and 100 and more waits for that many milliseconds.
    Retry {
        verdict: Option<Verdict>,
        ms: u32,
        answer: i64,
    },
    /// Answers a waiting caller that has a word: PENDINGMSG_CANCELCALL 0, WAITNOPROCESS 1 or WAITDEFPROCESS
    /// 2.
    Pending {
        ms: u32,
        answer: u8,
    },
}

/// A message filter (IMessageFilter), seen as its list of rules.
#[derive(Debug, Drop)]
pub struct Filter {
    rules: Vec<Rule>,
}

impl Model for Filter {
    ghost use Rattle.std.specs.Prelude.{List};
    ghost use Rattle.com_filter.specs.declared.Rule.{Rule};

    ghost Value = { List Rule };

    ghost view = { λ a. a.rules.items };
}

impl Filter {
    /// The filter of these rules. It takes no memory.
    pub fn new(rules: Vec<Rule>) -> Filter
        ensures { result ≡ rules.items }
    {
        Filter { rules }
    }

    /// The rules, in their order.
    pub fn rules(&self) -> &[Rule]
        ensures { result.now ≡ self.now }
    {
        self.rules.as_slice()
    }

    /// The answer to an incoming call (IMessageFilter::HandleInComingCall) of call type 1, 2 or 4, where
    /// `elapsed` is in milliseconds: that of the first rule for incoming calls that is for this type and
    /// whose time has come. With no such rule the call is handled.
    pub fn incoming(&self, call_type: u8, elapsed: u64) -> Verdict
        ensures { result ≡ incoming_answer self.now call_type elapsed }
    {
        for rule in self.rules() {
            if let Some(verdict) = rule.incoming(call_type, elapsed) {
                return verdict;
            }
        }
        Verdict::Handled
    }

    /// The answer to a caller that got this verdict (IMessageFilter::RetryRejectedCall), `elapsed`
    /// milliseconds after its call: that of the first rule for retries that is for this verdict and whose
    /// time has come. With no such rule it is
    /// -1. Below 0 gives up, 0 to 99 calls again at once, and 100 and more waits for so many milliseconds.
    pub fn retry(&self, verdict: Verdict, elapsed: u64) -> i64
        ensures { result ≡ retry_answer self.now verdict elapsed }
    {
        for rule in self.rules() {
            if let Some(answer) = rule.retry(verdict, elapsed) {
                return answer;
            }
        }
        -1
    }

    /// The answer to a waiting caller that has a word (IMessageFilter::MessagePending), `elapsed`
    /// milliseconds after its call: that of the first rule for pending words whose time has come. With no
    /// such rule it is PENDINGMSG_WAITDEFPROCESS, 2. PENDINGMSG_CANCELCALL is 0 and WAITNOPROCESS 1.
    pub fn pending(&self, elapsed: u64) -> u8
        ensures { result ≡ pending_answer self.now elapsed }
    {
        for rule in self.rules() {
            if let Some(answer) = rule.pending(elapsed) {
                return answer;
            }
        }
        2
    }
}

impl Rule {
    // The answer of a rule for incoming calls to a call of this type, after so many milliseconds,
    // where it is for the type and its time has come; else None.
    fn incoming(&self, call_type: u8, elapsed: u64) -> Option<Verdict>
        ensures { result ≡ incoming_by self.now call_type elapsed }
    {
        match *self {
            Rule::Incoming {
                call_type: wanted,
                ms,
                verdict,
            } => {
                let matches = is_for_type(wanted, call_type) && ms as u64 <= elapsed;
                if matches { Some(verdict) } else { None }
            }
            _ => None,
        }
    }

    // The answer of a rule for retries to a caller that got this verdict, so many milliseconds
    // after its call, where it is for this verdict and its time has come; else None.
    fn retry(&self, verdict: Verdict, elapsed: u64) -> Option<i64>
        ensures { result ≡ retry_by self.now verdict elapsed }
    {
        match *self {
            Rule::Retry {
                verdict: wanted,
                ms,
                answer,
            } => {
                let matches = is_for_verdict(wanted, verdict) && ms as u64 <= elapsed;
                if matches { Some(answer) } else { None }
            }
            _ => None,
        }
    }

    // The answer of a rule for pending words, so many milliseconds after the call, where its time
    // has come; else None.
    fn pending(&self, elapsed: u64) -> Option<u8>
        ensures { result ≡ pending_by self.now elapsed }
    {
        match *self {
            Rule::Pending { ms, answer } => if ms as u64 <= elapsed {
                Some(answer)
            } else {
                None
            },
            _ => None,
        }
    }
}

// Whether a rule for this call type, or for any, is for the type that is asked about.
fn is_for_type(wanted: Option<u8>, call_type: u8) -> bool
    ensures { result ≡ is_for_type wanted call_type }
{
    match wanted {
        None => true,
        Some(wanted) => wanted == call_type,
    }
}

// Whether a rule for this verdict, or for any, is for the verdict that is asked about.
fn is_for_verdict(wanted: Option<Verdict>, verdict: Verdict) -> bool
    ensures { result ≡ is_for_verdict wanted verdict }
{
    match wanted {
        None => true,
        Some(wanted) => same_verdict(wanted, verdict),
    }
}

// Whether two answers to an incoming call are equal.
fn same_verdict(left: Verdict, right: Verdict) -> bool
    ensures { result ≡ same_verdict left right }
{
    match (left, right) {
        (Verdict::Handled, Verdict::Handled) => true,
        (Verdict::Rejected, Verdict::Rejected) => true,
        (Verdict::Later, Verdict::Later) => true,
        _ => false,
    }
}
