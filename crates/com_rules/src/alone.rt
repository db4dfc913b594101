//! The entries of the actions that send no values and make or read no packet: nine that are on the lane, on a
//! place or on a buffer, and six that are on an object or a cookie.

ghost use Rattle.std.specs.Prelude.{◌≡◌, ◌+◌, ◌<◌, ◌≤◌, ◌^◌, ◌↔◌, length, IfSome, IsSome};
ghost use Rattle.com_refs_books.specs.Changes.{Books};
ghost use Rattle.com_model.specs.Deeds.{deed_of};
ghost use Rattle.com_view.specs.Seen.{sight_by};
ghost use Rattle.com_view.specs.Connected.{Says};
ghost use Rattle.com_rules.specs.Fits.{FitsAction, IsOnLane, IsOnObject};

use crate::deeds::{
    create_deed, disconnect_deed, filter_deed, get_deed, init_deed, post_deed, query_deed,
    quit_deed, register_deed, revoke_deed,
};
use com_base::RefValue;
use com_body::Action;
use com_model::Deed;
use com_view::{References, View};

/// Whether the object of a reference is connected, and false of null.
pub fn is_connected<R: References>(refs: &R, held: Option<RefValue>) -> bool
    ensures { Says (R.books refs.now) held result }
{
    match held {
        Some(held) => refs.is_connected(held.object),
        None => false,
    }
}

/// The entry of `init`, `uninit`, `setfilter` and `pump`, on the lane itself; of `post` and `quit`, to a
/// lane; of `copy` and `release`, on a place; and of `raw`, on a buffer. It is the same whatever the books
/// are: none asks whether an object is connected, nor what the row of a cookie or of a packet is. `None` of
/// every other action.
pub fn deed_on_lane(view: &View<'_>, lane: u32, action: &Action) -> Option<Deed>
    requires stas { length view.now.lanes.stas + 4 ≤ 2 ^ 32 }
    requires threads { length view.now.scenario.threads < 2 ^ 32 }
    requires fits { FitsAction action.now }
    ensures deed { (b : Books) → IfSome result (λ deed. deed
        ≡ deed_of view.now.scenario (sight_by view.now b) lane action.now) }
    ensures made { IsSome result ↔ IsOnLane action.now }
{
    match action {
        Action::Init { mode } => Some(init_deed(view, lane, *mode)),
        Action::Uninit => Some(view.uninit_deed(lane)),
        Action::SetFilter { filter } => Some(filter_deed(view, lane, *filter)),
        Action::Pump { bound } => Some(Deed::Pump { bound: *bound }),
        Action::Post { lane: to, word } => Some(post_deed(view, *to, *word)),
        Action::Quit { lane: to } => Some(quit_deed(view, *to)),
        Action::Copy { held, .. } => Some(Deed::Copy { held: *held }),
        Action::Release { held, .. } => Some(Deed::Release { held: *held }),
        Action::Raw { buffer, bytes } => Some(Deed::Raw {
            buffer: *buffer,
            length: bytes.len() as u32,
        }),
        _ => None,
    }
}

/// The entry of `create`, which makes an object; of `query`, `disconnect` and `register`, on the object of a
/// reference; and of `get` and `revoke`, on a cookie. All but `create` ask the books: whether the object is
/// connected, or what the row of the cookie is. `None` of every other action.
pub fn deed_on_object<R: References>(
    view: &View<'_>,
    refs: &R,
    lane: u32,
    action: &Action,
) -> Option<Deed>
    requires objects { length view.now.objects.makings + 1 < 2 ^ 32 }
    requires cookies { length (R.books refs.now).cookies + 1 < 2 ^ 32 }
    requires fits { FitsAction action.now }
    ensures deed { IfSome result (λ deed. deed
        ≡ deed_of view.now.scenario (sight_by view.now (R.books refs.now)) lane action.now) }
    ensures made { IsSome result ↔ IsOnObject action.now }
{
    match action {
        Action::Create { class, iface, .. } => Some(create_deed(view, lane, *class, *iface)),
        Action::Query { held, iface, .. } => {
            let is_live = is_connected(refs, *held);
            Some(query_deed(view, lane, *held, *iface, is_live))
        }
        Action::Disconnect { held } => {
            let is_live = is_connected(refs, *held);
            Some(disconnect_deed(view, lane, *held, is_live))
        }
        Action::Register { held, .. } => {
            let is_live = is_connected(refs, *held);
            Some(register_deed(view, lane, *held, is_live, refs.cookies()))
        }
        Action::Get { cookie, .. } => {
            let kept = refs.cookie(*cookie);
            let is_live = refs.is_connected(kept.object);
            Some(get_deed(view, lane, *cookie, kept, is_live))
        }
        Action::Revoke { cookie } => Some(revoke_deed(view, lane, *cookie, refs.cookie(*cookie))),
        _ => None,
    }
}
