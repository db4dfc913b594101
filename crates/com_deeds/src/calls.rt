//! The issue of a call: its refusal, its route, and its entry.

ghost use Rattle.std.specs.Prelude.{◌≡◌, ℕ, ◌+◌, ◌<◌, ◌^◌};
ghost use Rattle.com_model.specs.Sight.{Sight};
ghost use Rattle.com_model.specs.Calls.{route_for};
ghost use Rattle.com_model.specs.Deeds.{route_to, object_in};
ghost use Rattle.com_model.specs.Issue.{call_refusal, or_ok};
ghost use Rattle.com_model.specs.declared.deeds.Deed.TheVariants as deed;
ghost use Rattle.com_deeds.specs.Seen.{Sees};

use crate::activation::object_in;
use crate::target::Target;
use com_base::{ByteList, HResult, NEUTRAL, RefValue};
use com_model::{Deed, Route, Scenario};

/// Why a call is refused at its issue, if it is: CO_E_NOTINITIALIZED where the lane has no home, E_POINTER on
/// null, E_NOINTERFACE where the reference is of another interface than the call names, RPC_E_INVALIDMETHOD
/// where the interface has no such method, RPC_E_DISCONNECTED where the reference is a proxy's and the object
/// is not connected; the first that applies.
pub fn call_refusal(
    scenario: &Scenario,
    home: Option<u32>,
    held: Option<RefValue>,
    iface: u16,
    method: u16,
    target: Target,
) -> Option<HResult>
    ensures { (v : Sight) (l : ℕ) → Sees v l held target
        → result ≡ call_refusal scenario.now home (v.running l) v.owns v.books.live held iface method }
{
    if home.is_none() {
        return Some(HResult::CO_E_NOTINITIALIZED);
    }
    let Some(held) = held else {
        return Some(HResult::E_POINTER);
    };
    if held.iface != iface {
        return Some(HResult::E_NOINTERFACE);
    }
    if scenario.classes.method(iface, method).is_none() {
        return Some(HResult::RPC_E_INVALIDMETHOD);
    }
    if !target.is_owned && !target.is_connected {
        return Some(HResult::RPC_E_DISCONNECTED);
    }
    None
}

/// The refusal, or S_OK where there is none.
pub fn refusal_or_ok(refusal: Option<HResult>) -> HResult
    ensures { result ≡ or_ok refusal }
{
    match refusal {
        None => HResult::S_OK,
        Some(hr) => hr,
    }
}

// The route of a call that is not refused.
fn route_for(direct: bool, owner: u32, home: Option<u32>) -> Route
    ensures { result ≡ route_for direct owner home }
{
    if direct {
        return Route::Direct;
    }
    if owner == NEUTRAL {
        return Route::Switch;
    }
    match home {
        None => Route::Post,
        Some(home) => if owner == home {
            Route::Switch
        } else {
            Route::Post
        },
    }
}

/// The route of a call to the reference: direct where the lane's running apartment owns the object; a switch
/// where the owner is the neutral apartment or the lane's home; else by post. To null it takes none.
pub fn route_to(held: Option<RefValue>, home: Option<u32>, target: Target) -> Route
    ensures { (v : Sight) (l : ℕ) → v.home l ≡ home → Sees v l held target → result ≡ route_to v l held }
{
    match held {
        None => Route::Refused,
        Some(_) => route_for(target.is_owned, target.owner, home),
    }
}

/// The entry of a call's issue with these parts, where so many calls were issued so far. `bytes` is the
/// request on the routes that marshal.
pub fn out(
    calls: u32,
    held: Option<RefValue>,
    iface: u16,
    method: u16,
    route: Route,
    cause: u32,
    bytes: Option<ByteList>,
) -> Deed
    requires { calls + 1 < 2 ^ 32 }
    ensures { result ≡ deed.Out (calls + 1) (object_in held) iface method route cause bytes }
{
    Deed::Out {
        call: calls + 1,
        object: object_in(held),
        iface,
        method,
        route,
        cause,
        bytes,
    }
}
