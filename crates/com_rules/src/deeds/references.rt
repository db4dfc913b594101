//! The entries of actions on objects and references, where what their holders say is handed in.

ghost use Rattle.std.specs.Prelude.{◌≡◌, ◌+◌, ◌<◌, ◌^◌, ℕ, length};
ghost use Rattle.com_body.specs.declared.actions.Action.TheVariants as action;
ghost use Rattle.com_refs_books.specs.Changes.{Books, packet, cookie};
ghost use Rattle.com_deeds.specs.Seen.{FitsNumber};
ghost use Rattle.com_deeds.specs.Naming.{named_as};
ghost use Rattle.com_deeds.specs.declared.holders.Named.TheVariants as named;
ghost use Rattle.com_model.specs.Deeds.{cookie_number, deed_of, next_cause, route_to, unmarshalled};
ghost use Rattle.com_model.specs.Issue.{call_refusal};
ghost use Rattle.com_view.specs.Seen.{bare, sight_by, home_seen};
ghost use Rattle.com_view.specs.Connected.{Says};

use com_base::{HResult, RefValue};
use com_body::Asked;
use com_deeds::{Named, hold_refusal, route_to};
use com_model::{Deed, Route};
use com_refs_books::{Cookie, Packet};
use com_view::View;

/// The entry of `create` (CoCreateInstance).
pub fn create_deed(view: &View<'_>, lane: u32, class: Asked, iface: Asked) -> Deed
    requires number { FitsNumber iface }
    requires room { length view.now.objects.makings + 1 < 2 ^ 32 }
    ensures { (b : Books) (slot : ℕ)
        → result ≡ deed_of view.now.scenario (sight_by view.now b) lane (action.Create slot class iface) }
{
    let home = view.home(lane);
    let running = view.running(lane);
    let main_sta = view.lanes.main_sta();
    let objects = view.objects.len();
    com_deeds::create_deed(
        view.scenario,
        class,
        iface,
        home,
        running,
        main_sta,
        objects,
    )
}

/// The entry of `query` of a reference whose object is connected or is not (IUnknown::QueryInterface).
pub fn query_deed(
    view: &View<'_>,
    lane: u32,
    held: Option<RefValue>,
    iface: Asked,
    is_connected: bool,
) -> Deed
    requires { FitsNumber iface }
    ensures { (b : Books) (to : ℕ) → Says b held is_connected
        → result ≡ deed_of view.now.scenario (sight_by view.now b) lane (action.Query to held iface) }
{
    let home = view.home(lane);
    let target = view.target_of(lane, held, is_connected);
    com_deeds::query_deed(view.scenario, held, iface, home, target)
}

/// The entry of `disconnect` of a reference whose object is connected or is not (CoDisconnectObject).
pub fn disconnect_deed(
    view: &View<'_>,
    lane: u32,
    held: Option<RefValue>,
    is_connected: bool,
) -> Deed
    ensures { (b : Books) → Says b held is_connected
        → result ≡ deed_of view.now.scenario (sight_by view.now b) lane (action.Disconnect held) }
{
    let home = view.home(lane);
    let target = view.target_of(lane, held, is_connected);
    com_deeds::disconnect_deed(held, home, target)
}

/// The entry of `register` of a reference whose object is connected or is not, where so many cookies were
/// given so far (IGlobalInterfaceTable::RegisterInterfaceInGlobal).
pub fn register_deed(
    view: &View<'_>,
    lane: u32,
    held: Option<RefValue>,
    is_connected: bool,
    cookies: u32,
) -> Deed
    requires { cookies + 1 < 2 ^ 32 }
    ensures { (b : Books) (to : ℕ) → length b.cookies ≡ cookies → Says b held is_connected
        → result ≡ deed_of view.now.scenario (sight_by view.now b) lane (action.Register to held) }
{
    let refusal = hold_refusal(view.home(lane), held, is_connected);
    com_deeds::register_deed(held, refusal, cookies)
}

/// The entry of `get` of a cookie whose row is `kept`, where that row's object is connected or is not
/// (IGlobalInterfaceTable::GetInterfaceFromGlobal).
pub fn get_deed(view: &View<'_>, lane: u32, number: i64, kept: Cookie, is_connected: bool) -> Deed
    ensures { (b : Books) (slot : ℕ) → cookie b (cookie_number number) ≡ kept
        → b.live kept.object ≡ is_connected
        → result ≡ deed_of view.now.scenario (sight_by view.now b) lane (action.Get slot number) }
{
    let home = view.home(lane);
    let target = view.target(lane, kept.object, is_connected);
    com_deeds::get_deed(number, home, kept, target)
}

/// The entry of `revoke` of a cookie whose row is `kept`
/// (IGlobalInterfaceTable::RevokeInterfaceFromGlobal).
pub fn revoke_deed(view: &View<'_>, lane: u32, number: i64, kept: Cookie) -> Deed
    ensures { (b : Books) → cookie b (cookie_number number) ≡ kept
        → result ≡ deed_of view.now.scenario (sight_by view.now b) lane (action.Revoke number) }
{
    com_deeds::revoke_deed(number, view.home(lane), kept)
}

/// The entry of `unmarshal` of bytes that name a packet whose row is `kept`, where that row's object is
/// connected or is not (CoUnmarshalInterface).
pub fn unmarshal_deed(
    view: &View<'_>,
    lane: u32,
    found: Named,
    kept: Packet,
    is_connected: bool,
) -> Deed
    ensures { (b : Books) → b.live kept.object ≡ is_connected → ((p : ℕ) → found ≡ named.Packet p
        → packet b p ≡ kept) → result ≡ unmarshalled (sight_by view.now b) lane (named_as found) }
{
    let target = view.target(lane, kept.object, is_connected);
    com_deeds::unmarshal_deed(found, kept, target)
}

/// Why a call to a reference is refused, if it is, where its object is connected or is not.
pub fn call_refusal(
    view: &View<'_>,
    lane: u32,
    held: Option<RefValue>,
    iface: u16,
    method: u16,
    is_connected: bool,
) -> Option<HResult>
    ensures { (b : Books) → Says b held is_connected
        → result ≡ call_refusal view.now.scenario (home_seen view.now lane)
        ((sight_by view.now b).running lane) (sight_by view.now b).owns b.live held iface method }
{
    let home = view.home(lane);
    let target = view.target_of(lane, held, is_connected);
    com_deeds::call_refusal(view.scenario, home, held, iface, method, target)
}

/// The route of a call to a reference that is not refused.
pub fn route(view: &View<'_>, lane: u32, held: Option<RefValue>) -> Route
    ensures { (b : Books) → result ≡ route_to (sight_by view.now b) lane held }
{
    let home = view.home(lane);
    let target = view.target_of(lane, held, false);
    route_to(held, home, target)
}

/// The causality of the next call of a lane: that of its innermost body, else a new one ([MS-DCOM]
/// 2.2.13.3, ORPCTHIS).
pub fn next_cause(view: &View<'_>, lane: u32) -> u32
    requires { view.now.calls.tables.causes + 1 < 2 ^ 32 }
    ensures { result ≡ next_cause (bare view.now) lane }
{
    match view.lanes.running_call(lane) {
        Some(call) => view.cause_of(call),
        None => view.calls.causes() + 1,
    }
}
