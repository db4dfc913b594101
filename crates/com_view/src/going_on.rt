//! Whether a core can go on: which lanes can step, whether a call waits for a time, and whether all is done.
ghost use Rattle.std.specs.Prelude.{◌≡◌, ◌+◌, ◌≤◌, ◌^◌, is_some, length};
ghost use Rattle.com_refs_books.specs.Changes.{Books};
ghost use Rattle.com_refs_books.specs.Counting.{numbers_from};
ghost use Rattle.com_view.specs.Standings.{is_quiet, is_unasked, over_at, standing_by};
ghost use Rattle.com_model.specs.Ends.{finished_by};
ghost use Rattle.com_model.specs.Lists.{each_of, one_to};
ghost use Rattle.com_model.specs.Rules.{tick_time};
ghost use Rattle.com_model.specs.Tables.{lanes, threads};
ghost use Rattle.com_view.specs.Seen.{sight_by};

use crate::View;
use com_runtime::Standing;

// Whether each of so many threads has ended.
fn are_over(view: &View<'_>, threads: u32) -> bool
    ensures { result ≡ each_of (over_at view.now.lanes) (one_to threads) }
{
    for before in 0..threads {
        if !view.lanes.is_over(before + 1) {
            return false;
        }
    }
    true
}

// Whether a lane has nothing open, and no dying object to end.
#[tactic(auto, using(crate::proofs::Each::not_first, crate::proofs::Each::not_second, crate::proofs::Each::none_first))]
fn is_quiet(view: &View<'_>, lane: u32) -> bool
    ensures { result ≡ is_quiet view.now lane }
{
    if view.lanes.top(lane).is_some() {
        return false;
    }
    view.dying(lane).is_none()
}

// Whether each of so many lanes, from lane 1 on, has nothing open and no dying object to end.
fn are_quiet(view: &View<'_>, count: u32) -> bool
    ensures { result ≡ each_of (is_quiet view.now) (one_to count) }
{
    for before in 0..count {
        if !is_quiet(view, before + 1) {
            return false;
        }
    }
    true
}

// Whether no call waits in the inbox of an apartment.
#[tactic(auto, using(crate::proofs::Each::none_first))]
fn is_unasked(view: &View<'_>, apartment: u32) -> bool
    ensures { result ≡ is_unasked view.now.calls apartment }
{
    view.calls.first_posted(apartment).is_none()
}

// Whether no call waits in the inboxes of so many apartments.
fn are_empty(view: &View<'_>, apartments: u32) -> bool
    ensures { result ≡ each_of (is_unasked view.now.calls) (numbers_from 0 apartments) }
{
    for apartment in 0..apartments {
        if !is_unasked(view, apartment) {
            return false;
        }
    }
    true
}

// Whether all is done: every thread ended, and nothing is open, posted or dying.
fn is_finished(view: &View<'_>, scripts: u32, count: u32) -> bool
    requires stas { length view.now.lanes.stas + 4 ≤ 2 ^ 32 }
    requires threads { scripts ≡ threads view.now.scenario }
    requires lanes { count ≡ lanes view.now.scenario }
    ensures { (b : Books) → result ≡ finished_by view.now.scenario (sight_by view.now b) }
{
    if !are_over(view, scripts) {
        return false;
    }
    if !are_quiet(view, count) {
        return false;
    }
    are_empty(view, view.lanes.next_sta())
}

// Whether a call waits for a time later than the clock.
#[tactic(auto, using(crate::proofs::Timed::time_is_due))]
fn is_due(view: &View<'_>) -> bool
    ensures { (b : Books) → result ≡ is_some (tick_time (sight_by view.now b)) }
{
    view.calls.next_time(view.clock).is_some()
}

/// How a core of so many scripts and lanes stands between two entries.
pub fn standing_of(view: &View<'_>, scripts: u32, count: u32) -> Standing
    requires stas { length view.now.lanes.stas + 4 ≤ 2 ^ 32 }
    requires threads { scripts ≡ threads view.now.scenario }
    requires lanes { count ≡ lanes view.now.scenario }
    ensures { (b : Books) → result ≡ standing_by view.now.scenario (sight_by view.now b) }
{
    if is_finished(view, scripts, count) {
        return Standing::Finished;
    }
    if !view.no_lane_can(count) {
        return Standing::Runs;
    }
    if is_due(view) {
        Standing::Ticks
    } else {
        Standing::Stuck
    }
}
