//! The admission of a call in a lane.

ghost use Rattle.std.specs.Prelude.{◌≡◌, ◌==◌};
ghost use Rattle.std.specs.List.{list_any};
ghost use Rattle.com_model.specs.Calls.{cause_of, object_of};
ghost use Rattle.com_model.specs.Clock.{waited};
ghost use Rattle.com_model.specs.Openers.{open_calls};
ghost use Rattle.com_model.specs.Rules.{call_sort, posted_to_sta, verdict_on};
ghost use Rattle.com_state.specs.Parts.{issue_at, openers_at};
ghost use Rattle.com_view.specs.Seen.{bare};
ghost use Rattle.com_view.specs.Opened.{type_among};

use crate::view::View;
use com_base::HOST_STA;
use com_cause::{NESTED, TOP_LEVEL, TOP_LEVEL_CALL_PENDING};
use com_deeds::{incoming, number_or_zero};
use com_filter::Verdict;

impl<'a> View<'a> {
    /// The causality of a call, and 0 where it was not issued.
    pub fn cause_of(&self, call: u32) -> u32
        ensures { result ≡ cause_of (issue_at self.now.calls.tables call) }
    {
        match self.calls.issue(call) {
            Some(issue) => issue.cause,
            None => 0,
        }
    }

    /// The target of a call, and 0 where it has none.
    pub fn object_of(&self, call: u32) -> u32
        ensures { result ≡ object_of (issue_at self.now.calls.tables call) }
    {
        match self.calls.issue(call) {
            Some(issue) => number_or_zero(issue.object),
            None => 0,
        }
    }

    /// Whether a call goes by post to an STA, whose message filter is asked then.
    pub fn posted_to_sta(&self, call: u32) -> bool
        ensures { result ≡ posted_to_sta (bare self.now) call }
    {
        if !self.is_posted(call) {
            return false;
        }
        self.objects.owner(self.object_of(call)) >= HOST_STA
    }

    // Whether one of the calls has the causality.
    fn is_caused(&self, calls: &[u32], cause: u32) -> bool
        ensures { result ≡ list_any (λ d. cause_of (issue_at self.now.calls.tables d) == cause) calls.now }
    {
        calls.iter().any(|call| self.cause_of(*call) == cause)
    }

    // The call type of a call of this causality, where these calls are open: top-level without any,
    // nested where one of them has the causality, else top-level with a call pending.
    fn type_among(&self, calls: &[u32], cause: u32) -> u8
        ensures { result ≡ type_among (λ d. cause_of (issue_at self.now.calls.tables d)) calls.now cause }
    {
        if calls.is_empty() {
            return TOP_LEVEL;
        }
        if self.is_caused(calls, cause) {
            NESTED
        } else {
            TOP_LEVEL_CALL_PENDING
        }
    }

    /// The call type of a call in a lane, over the causalities of the lane's open calls (CALLTYPE of
    /// IMessageFilter).
    pub fn call_sort(&self, lane: u32, call: u32) -> u8
        ensures { result ≡ call_sort (bare self.now) lane call }
    {
        let cause = self.cause_of(call);
        self.type_among(self.lanes.open_calls(lane), cause)
    }

    /// How many milliseconds a lane's innermost open call has waited, and 0 where none is open.
    #[tactic(auto, using(crate::proofs::Causes::waited_none, crate::proofs::Causes::waited_last))]
    pub fn waiting_time(&self, lane: u32) -> u64
        ensures { result ≡ waited (bare self.now).issued_at self.now.clock (open_calls
            (openers_at self.now.lanes lane)) }
    {
        let open = self.lanes.open_calls(lane);
        if open.len() == 0 {
            return 0;
        }
        let call = open[open.len() - 1];
        self.since_out(call)
    }

    /// The answer of a lane's message filter to a call (IMessageFilter::HandleInComingCall).
    pub fn verdict_on(&self, lane: u32, call: u32) -> Verdict
        ensures { result ≡ verdict_on self.now.scenario (bare self.now) lane call }
    {
        let filter = self.filter(lane);
        let sort = self.call_sort(lane, call);
        incoming(self.scenario, filter, sort, self.waiting_time(lane))
    }
}
