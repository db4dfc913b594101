//! What the rules read of a lane and of a call.

ghost use Rattle.std.specs.Prelude.{◌≡◌};
ghost use Rattle.com_model.specs.Calls.{is_post, route_of};
ghost use Rattle.com_model.specs.Rules.{since_out};
ghost use Rattle.com_model.specs.Tables.{lane_sort};
ghost use Rattle.com_view.specs.Seen.{bare, home_seen, running_seen, filter_seen};
ghost use Rattle.com_view.specs.Sorts.{sort_as};

use crate::sorts::{Sort, sort_of};
use crate::view::View;
use com_base::{HOST_STA, MTA};
use com_deeds::is_post;

impl<'a> View<'a> {
    /// What a lane is for.
    #[inline(always)]
    pub fn sort(&self, lane: u32) -> Sort
        ensures { sort_as result ≡ lane_sort self.now.scenario lane }
    {
        sort_of(self.scenario, lane)
    }

    /// The home of a lane: the apartment that a thread initialised, the host's STA for the host's lane, and
    /// the multithreaded one for a lane of the pool.
    #[inline(always)]
    pub fn home(&self, lane: u32) -> Option<u32>
        ensures { result ≡ home_seen self.now lane }
    {
        match self.sort(lane) {
            Sort::Thread => self.lanes.home(lane),
            Sort::Host => Some(HOST_STA),
            Sort::Pool => Some(MTA),
            Sort::NoLane => None,
        }
    }

    /// The apartment that a lane runs in: that of its innermost body, else its home.
    pub fn running(&self, lane: u32) -> Option<u32>
        ensures { result ≡ running_seen self.now lane }
    {
        match self.lanes.running_apartment(lane) {
            Some(apartment) => Some(apartment),
            None => self.home(lane),
        }
    }

    /// The message filter of a lane whose home is an STA that a thread made.
    pub fn filter(&self, lane: u32) -> Option<u32>
        ensures { result ≡ filter_seen self.now lane }
    {
        let home = self.home(lane)?;
        if home > HOST_STA {
            self.lanes.filter(lane)
        } else {
            None
        }
    }

    /// How many milliseconds ago a call was issued.
    pub fn since_out(&self, call: u32) -> u64
        ensures { result ≡ since_out (bare self.now) call }
    {
        self.clock.saturating_sub(self.calls.issued_at(call))
    }

    /// Whether a call goes by post.
    pub fn is_posted(&self, call: u32) -> bool
        ensures { result ≡ is_post (route_of ((bare self.now).issue call)) }
    {
        match self.calls.issue(call) {
            Some(issue) => is_post(issue.route),
            None => false,
        }
    }
}
