//! Whether the lanes of a core can go on.

ghost use Rattle.std.specs.Prelude.{◌≡◌};
ghost use Rattle.com_refs_books.specs.Changes.{Books};
ghost use Rattle.com_model.specs.Rules.{can_step, no_lane_can, tick_time, time_of};
ghost use Rattle.com_model.specs.Tables.{lanes};
ghost use Rattle.com_view.specs.Seen.{bare, sight_by};
ghost use Rattle.com_view.specs.Times.{sooner};

use crate::view::View;
use com_model::Phase;

impl<'a> View<'a> {
    /// Whether a lane makes an entry. It is asked of each lane that waits.
    #[inline(always)]
    pub fn can_step(&self, lane: u32) -> bool
        ensures { (b : Books) → result ≡ can_step self.now.scenario (sight_by self.now b) lane }
    {
        if self.is_in_body(lane) {
            return true;
        }
        self.has_entry(lane)
    }

    /// Whether no lane makes an entry, of as many as are given, which are those of the scenario.
    pub fn no_lane_can(&self, count: u32) -> bool
        requires { count ≡ lanes self.now.scenario }
        ensures { (b : Books) → result ≡ no_lane_can self.now.scenario (sight_by self.now b) }
    {
        for before in 0..count {
            if self.can_step(before + 1) {
                return false;
            }
        }
        true
    }

    // The time later than the clock that a call without answer waits for.
    fn time_of(&self, call: u32) -> Option<u64>
        ensures { result ≡ time_of (bare self.now) call }
    {
        if self.is_answered(call) {
            return None;
        }
        match self.calls.phase(call) {
            Phase::Delayed { until } => {
                if self.clock < until {
                    Some(until)
                } else {
                    None
                }
            }
            _ => None,
        }
    }

    /// The least time later than the clock that a call without answer waits for, in milliseconds.
    #[tactic(auto, using(crate::proofs::Any::times_more))]
    pub fn tick_time(&self) -> Option<u64>
        ensures { result ≡ tick_time (bare self.now) }
    {
        let mut soonest = None;
        let calls = self.calls.len();
        for before in 0..calls {
            soonest = sooner(self.time_of(before + 1), soonest);
        }
        soonest
    }
}

// The lesser of two times, where there are any.
fn sooner(left: Option<u64>, right: Option<u64>) -> Option<u64>
    ensures { result ≡ sooner left right }
{
    match left {
        None => right,
        Some(time) => match right {
            None => Some(time),
            Some(other) => Some(time.min(other)),
        },
    }
}
