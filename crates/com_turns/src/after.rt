//! What of the lanes an entry's change rests on: who acts after it, and whether a caller has a message
//! filter.

ghost use Rattle.std.specs.Prelude.{◌≡◌, ◌<◌, ◌^◌, is_some, length};
ghost use Rattle.com_model.specs.Calls.{lane_of};
ghost use Rattle.com_model.specs.Frames.{actor};
ghost use Rattle.com_model.specs.Lists.{first, without_first};
ghost use Rattle.com_model.specs.Openers.{effect, opened};
ghost use Rattle.com_model.specs.Tables.{lane_sort};
ghost use Rattle.com_scene.specs.Actors.{acting_of};
ghost use Rattle.com_state.specs.After.{filtered_by};
ghost use Rattle.com_state.specs.Parts.{issue_at, openers_at};
ghost use Rattle.com_turns.specs.Turns.{actor_above, actor_later};
ghost use Rattle.com_view.specs.Seen.{filter_seen};

use com_lanes::Lanes;
use com_model::{Deed, Opener};
use com_scene::Actor;
use com_view::{Sort, View};

// The opener below the innermost one of a lane.
#[tactic(auto, using(crate::proofs::Openings::second_of, crate::proofs::Openings::none_below))]
fn below(lanes: &Lanes, lane: u32) -> Option<Opener>
    ensures { length (openers_at lanes.now.tables lane) < 2 ^ 32 →
        result ≡ first (without_first (openers_at lanes.now.tables lane)) }
{
    let depth = lanes.depth(lane);
    if depth < 2 {
        return None;
    }
    if depth > 0xFFFF_FFFF {
        return None;
    }
    lanes.at(lane, (depth - 2) as u32)
}

// Who acts where this opener is innermost in a lane, or none is open.
fn actor_at(view: &View<'_>, lane: u32, top: Option<Opener>) -> Actor
    ensures { acting_of result ≡ actor_above (lane_sort view.now.scenario lane) lane top }
{
    match top {
        Some(Opener::Enters { call, object, .. }) => Actor::Body { call, object },
        Some(_) => Actor::Nobody,
        None => match view.sort(lane) {
            Sort::Thread => Actor::Script { lane },
            _ => Actor::Nobody,
        },
    }
}

// Who acts in a lane after an entry of it.
#[tactic(auto, using(crate::proofs::Openings::actor_is))]
fn actor_then(view: &View<'_>, lane: u32, deed: &Deed) -> Actor
    ensures { length (openers_at view.now.lanes lane) < 2 ^ 32 →
        acting_of result ≡ actor (lane_sort view.now.scenario lane) lane
        (opened (effect deed.now) (openers_at view.now.lanes lane)) }
{
    match deed {
        Deed::Pump { .. } | Deed::Out { .. } => Actor::Nobody,
        Deed::Enter { call, object, .. } => Actor::Body {
            call: *call,
            object: *object,
        },
        Deed::EndPump | Deed::Back { .. } | Deed::Leave { .. } => {
            actor_at(view, lane, below(view.lanes, lane))
        }
        _ => actor_at(view, lane, view.lanes.top(lane)),
    }
}

/// Who acts in a lane after an entry of it, by the lane's openers before it, where these are fewer than
/// 2 ^ 32 and the lane has a row of its own.
#[tactic(auto, using(crate::proofs::Openings::later_is))]
pub fn actor_after(view: &View<'_>, lane: u32, deed: &Deed) -> Actor
    ensures opened { length (openers_at view.now.lanes lane) < 2 ^ 32 →
        acting_of result ≡ actor (lane_sort view.now.scenario lane) lane
        (opened (effect deed.now) (openers_at view.now.lanes lane)) }
    ensures later { length (openers_at view.now.lanes lane) < 2 ^ 32 →
        lane < length view.now.lanes.openers → acting_of result ≡ actor_later view.now lane deed.now }
{
    actor_then(view, lane, deed)
}

// The lane that issued a call, and 0 where it was not issued.
fn caller(view: &View<'_>, call: u32) -> u32
    ensures { result ≡ lane_of (issue_at view.now.calls.tables call) }
{
    match view.calls.issue(call) {
        Some(issue) => issue.lane,
        None => 0,
    }
}

/// Whether the lane of the caller has a message filter, where an entry is the Verdict of a call. Of other
/// entries it is false.
pub fn is_filtered(view: &View<'_>, deed: &Deed) -> bool
    ensures { result ≡ filtered_by
        (λ c. is_some (filter_seen view.now (lane_of (issue_at view.now.calls.tables c)))) deed.now }
{
    match deed {
        Deed::Verdict { call, .. } => view.filter(caller(view, *call)).is_some(),
        _ => false,
    }
}
