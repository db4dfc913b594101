//! What fixes a call's answer, and what the questions of filters are answered.

ghost use Rattle.std.specs.Prelude.{◌≡◌, [], Some, IfNone, IfSome};
ghost use Rattle.com_filter.specs.Answers.{incoming_answer, retry_answer, pending_answer};
ghost use Rattle.com_model.specs.Clock.{rules_of, is_handled};
ghost use Rattle.com_model.specs.Calls.{is_post};
ghost use Rattle.com_model.specs.Endings.{answer_of, verdict_answer};

use com_base::HResult;
use com_filter::{Filter, Verdict};
use com_model::{Ending, Route, Scenario};

// The filter with this number, from 1. None where none is named, or no such one is declared.
fn filter_under(scenario: &Scenario, filter: Option<u32>) -> Option<&Filter>
    ensures none { IfNone result (rules_of scenario.now filter ≡ []) }
    ensures some { IfSome result (λ found. found.now ≡ rules_of scenario.now filter) }
{
    let place = filter?.checked_sub(1)?;
    scenario.filters.as_slice().get(place as usize)
}

/// The answer to an incoming call of this call type, after so many milliseconds, of the filter with this
/// number; a lane without filter handles each call (IMessageFilter::HandleInComingCall).
pub fn incoming(scenario: &Scenario, filter: Option<u32>, call_type: u8, elapsed: u64) -> Verdict
    ensures { result ≡ incoming_answer (rules_of scenario.now filter) call_type elapsed }
{
    match filter_under(scenario, filter) {
        None => Verdict::Handled,
        Some(filter) => filter.incoming(call_type, elapsed),
    }
}

/// The answer to a caller that got this verdict, so many milliseconds after its call; -1 of a lane without
/// filter (IMessageFilter::RetryRejectedCall).
pub fn retry_answer(scenario: &Scenario, filter: Option<u32>, verdict: Verdict, elapsed: u64) -> i64
    ensures { result ≡ retry_answer (rules_of scenario.now filter) verdict elapsed }
{
    match filter_under(scenario, filter) {
        None => -1,
        Some(filter) => filter.retry(verdict, elapsed),
    }
}

/// The answer to a waiting caller that has a word, so many milliseconds after its call;
/// PENDINGMSG_WAITDEFPROCESS, 2, of a lane without filter (IMessageFilter::MessagePending).
pub fn pending(scenario: &Scenario, filter: Option<u32>, elapsed: u64) -> u8
    ensures { result ≡ pending_answer (rules_of scenario.now filter) elapsed }
{
    match filter_under(scenario, filter) {
        None => 2,
        Some(filter) => filter.pending(elapsed),
    }
}

/// Whether a call with this answer is let in.
pub fn is_handled(verdict: Verdict) -> bool
    ensures { result ≡ is_handled verdict }
{
    match verdict {
        Verdict::Handled => true,
        Verdict::Rejected | Verdict::Later => false,
    }
}

/// Whether the route is by post.
pub fn is_post(route: Route) -> bool
    ensures { result ≡ is_post route }
{
    match route {
        Route::Post => true,
        Route::Direct | Route::Switch | Route::Refused => false,
    }
}

// The answer that a verdict gives a caller without filter.
fn verdict_answer(verdict: Verdict) -> HResult
    ensures { result ≡ verdict_answer verdict }
{
    match verdict {
        Verdict::Later => HResult::RPC_E_SERVERCALL_RETRYLATER,
        Verdict::Handled | Verdict::Rejected => HResult::RPC_E_CALL_REJECTED,
    }
}

/// The HRESULT of a call's answer, by what fixed it. `refusal` is that of the call's issue.
pub fn answer_code(ending: &Ending, refusal: HResult) -> HResult
    ensures { result ≡ (answer_of refusal ending.now).hr }
{
    match ending {
        Ending::AtIssue => refusal,
        Ending::AtAdmission(hr) => *hr,
        Ending::ByVerdict(verdict) => verdict_answer(*verdict),
        Ending::ByRetry => HResult::RPC_E_CALL_REJECTED,
        Ending::ByCancel => HResult::RPC_E_CALL_CANCELED,
        Ending::ByDisconnection => HResult::RPC_E_DISCONNECTED,
        Ending::ByLeave(hr, _) => *hr,
    }
}
