//! What a lane does next, without its entry.

ghost use Rattle.std.specs.Prelude.{◌≡◌, is_some};
ghost use Rattle.com_refs_books.specs.Changes.{Books};
ghost use Rattle.com_model.specs.Openers.{is_body};
ghost use Rattle.com_model.specs.Rules.{ruled, top};
ghost use Rattle.com_model.specs.Tables.{lane_sort};
ghost use Rattle.com_view.specs.Nexts.{has_come, has_moved, has_posted, idle_has, kind_of, pump_has, stirs, wait_has};
ghost use Rattle.com_view.specs.Seen.{bare, sight_by};

use crate::sorts::Sort;
use crate::view::View;
use com_base::{HOST_STA, MTA};
use com_deeds::in_sta;
use com_model::{Opener, Phase};

/// What a lane does next.
#[derive(Debug, Clone, Copy, PartialEq, Eq)]
pub enum Next {
    /// Its innermost body acts.
    Body,
    /// It makes an entry by one of the rules.
    Own,
    /// It makes no entry as things stand.
    Wait,
    /// It has ended.
    Over,
}

impl<'a> View<'a> {
    /// Whether a body is innermost in a lane.
    pub fn is_in_body(&self, lane: u32) -> bool
        ensures { result ≡ is_body (top (bare self.now) lane) }
    {
        match self.lanes.top(lane) {
            Some(Opener::Enters { .. }) => true,
            _ => false,
        }
    }

    /// Whether a call's answer is fixed.
    pub fn is_answered(&self, call: u32) -> bool
        ensures { result ≡ is_some ((bare self.now).ending call) }
    {
        self.calls.is_answered(call)
    }

    // Whether a call is posted in an STA's inbox, where the home is one.
    #[inline(always)]
    fn has_posted(&self, home: Option<u32>) -> bool
        ensures { result ≡ has_posted (bare self.now) home }
    {
        match home {
            Some(home) => {
                if home < HOST_STA {
                    return false;
                }
                self.calls.first_posted(home).is_some()
            }
            None => false,
        }
    }

    // Whether a rule gives an entry to a lane in which nothing is open, where no Final comes first: a thread's
    // script acts until its lane is over, and the lanes of the host and of the pool let in what is posted.
    #[inline(always)]
    fn idle_has(&self, lane: u32) -> bool
        ensures { result ≡ idle_has (bare self.now) (lane_sort self.now.scenario lane) lane }
    {
        match self.sort(lane) {
            Sort::Thread => !self.lanes.is_over(lane),
            Sort::Host => self.calls.first_posted(HOST_STA).is_some(),
            Sort::Pool => self.calls.first_posted(MTA).is_some(),
            Sort::NoLane => false,
        }
    }

    // Whether a rule gives an entry to a lane that pumps, where no Final comes first: a word or a quit stands,
    // its bound is reached, or its inbox has a call.
    #[inline(always)]
    fn pump_has(&self, lane: u32) -> bool
        ensures { result ≡ pump_has (bare self.now) lane }
    {
        if self.lanes.first_word(lane).is_some() {
            return true;
        }
        if self.lanes.quit_stands(lane) {
            return true;
        }
        if self.lanes.bound_is_reached(lane) {
            return true;
        }
        self.has_posted(self.home(lane))
    }

    // Whether a call was judged, so that its caller's filter is asked, or waits for a time that has come.
    pub(crate) fn has_moved(&self, call: u32) -> bool
        ensures { result ≡ has_moved (bare self.now) ((bare self.now).phase call) }
    {
        match self.calls.phase(call) {
            Phase::Judged(_) => true,
            Phase::Delayed { until } => until <= self.clock,
            _ => false,
        }
    }

    // Whether something comes to a lane that waits in an STA for a posted call: another call, or a word that its
    // filter was not asked about.
    #[inline(always)]
    fn has_come(&self, lane: u32, call: u32) -> bool
        ensures { result ≡ has_come (bare self.now) lane call }
    {
        let home = self.home(lane);
        if !in_sta(home) {
            return false;
        }
        if self.has_posted(home) {
            return true;
        }
        self.lanes.word_not_asked(lane, call).is_some()
    }

    // Whether a rule gives an entry to a lane that waits for a call, where no Final comes first.
    #[inline(always)]
    fn wait_has(&self, lane: u32, call: u32) -> bool
        ensures { result ≡ wait_has (bare self.now) lane call }
    {
        if self.is_answered(call) {
            return true;
        }
        if self.has_moved(call) {
            return true;
        }
        if self.is_posted(call) {
            return self.has_come(lane, call);
        }
        self.calls.admission(call).is_none()
    }

    // Whether a rule gives an entry to a lane, where no Final comes first, by what is innermost in it.
    #[inline(always)]
    fn stirs(&self, lane: u32) -> bool
        ensures { result ≡ stirs (bare self.now) (lane_sort self.now.scenario lane) lane
            (top (bare self.now) lane) }
    {
        match self.lanes.top(lane) {
            Some(Opener::Waits { call }) => self.wait_has(lane, call),
            Some(Opener::Pumps { .. }) => self.pump_has(lane),
            Some(Opener::Enters { .. }) => false,
            None => self.idle_has(lane),
        }
    }

    /// Whether one of the rules gives the lane an entry. What is innermost in a lane says which of them can. It is
    /// asked of each lane that waits.
    #[inline(always)]
    #[tactic(auto, using(crate::proofs::ByTop::ruled_final, crate::proofs::ByTop::ruled_stirs))]
    pub fn has_entry(&self, lane: u32) -> bool
        ensures { (b : Books) → result ≡ is_some (ruled self.now.scenario (sight_by self.now b) lane) }
    {
        if self.dying(lane).is_some() {
            return true;
        }
        self.stirs(lane)
    }

    /// What a lane does next: its body acts where one is innermost; else it makes an entry by the rules,
    /// where one gives it one; else it has ended, or waits.
    pub fn next(&self, lane: u32) -> Next
        ensures { (b : Books) → result
            ≡ kind_of (is_body (top (sight_by self.now b) lane)) (is_some (ruled self.now.scenario
            (sight_by self.now b) lane)) ((sight_by self.now b).over lane) }
    {
        if self.is_in_body(lane) {
            return Next::Body;
        }
        if self.has_entry(lane) {
            return Next::Own;
        }
        if self.lanes.is_over(lane) {
            Next::Over
        } else {
            Next::Wait
        }
    }
}
