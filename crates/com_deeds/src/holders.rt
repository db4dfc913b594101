//! The entries of actions on packets and cookies.

ghost use Rattle.std.specs.Prelude.{◌≡◌, ℕ, ◌+◌, ◌<◌, ◌^◌, Some, None, length, if◌then◌else◌};
ghost use Rattle.com_model.specs.Answers.{S_OK, E_INVALIDARG};
ghost use Rattle.com_base.specs.declared.value.RefValue.{RefValue};
ghost use Rattle.com_refs_books.specs.Changes.{packet, cookie};
ghost use Rattle.com_model.specs.Sight.{Sight};
ghost use Rattle.com_model.specs.Deeds.{hold_refusal, registered, cookie_number, got};
ghost use Rattle.com_model.specs.Deeds.{revoked, unmarshalled, dropped, disconnect_answer};
ghost use Rattle.com_model.specs.Deeds.{object_in, gained_refs};
ghost use Rattle.com_model.specs.declared.deeds.Deed.TheVariants as deed;
ghost use Rattle.com_deeds.specs.Seen.{Sees, SeesObject};
ghost use Rattle.com_deeds.specs.Naming.{named_as};
ghost use Rattle.com_deeds.specs.declared.holders.Named.TheVariants as named;

use crate::activation::object_in;
use crate::target::Target;
use com_base::{HResult, MarshalMode, PUBLIC_REFERENCES, RefValue};
use com_model::Deed;
use com_refs_books::{Cookie, Packet};

/// Why a reference is not marshalled or registered, if it is not: CO_E_NOTINITIALIZED without home, E_POINTER
/// for null, CO_E_OBJNOTCONNECTED where the object is not connected; the first that applies.
pub fn hold_refusal(
    home: Option<u32>,
    held: Option<RefValue>,
    is_connected: bool,
) -> Option<HResult>
    ensures { (v : Sight) → ((r : RefValue) → held ≡ Some r → v.books.live r.object ≡ is_connected)
        → result ≡ hold_refusal v home held }
{
    if home.is_none() {
        return Some(HResult::CO_E_NOTINITIALIZED);
    }
    if held.is_none() {
        return Some(HResult::E_POINTER);
    }
    if is_connected {
        None
    } else {
        Some(HResult::CO_E_OBJNOTCONNECTED)
    }
}

/// The entry of `register`, where so many cookies were given so far
/// (IGlobalInterfaceTable::RegisterInterfaceInGlobal).
pub fn register_deed(held: Option<RefValue>, refusal: Option<HResult>, cookies: u32) -> Deed
    requires { cookies + 1 < 2 ^ 32 }
    ensures { (v : Sight) → length v.books.cookies ≡ cookies → result ≡ registered v held refusal }
{
    match refusal {
        Some(hr) => Deed::Register {
            cookie: None,
            held,
            hr,
        },
        None => Deed::Register {
            cookie: Some(cookies + 1),
            held,
            hr: HResult::S_OK,
        },
    }
}

// What the apartment's proxy gains of a packet of this mode that holds so many references.
fn gained_refs(mode: MarshalMode, is_owned: bool, refs: u32) -> u32
    ensures { result ≡ gained_refs mode is_owned refs }
{
    if is_owned {
        return 0;
    }
    match mode {
        MarshalMode::Normal => refs,
        MarshalMode::Strong | MarshalMode::Weak => PUBLIC_REFERENCES,
    }
}

/// The entry of `get`, where the cookie's row is `kept` and `target` is what the lane finds of its object. It
/// is refused, by the first that applies, with CO_E_NOTINITIALIZED without home, E_INVALIDARG where there is
/// no such cookie or it was revoked, and CO_E_OBJNOTCONNECTED where the object is not connected
/// (IGlobalInterfaceTable::GetInterfaceFromGlobal).
pub fn get_deed(number: i64, home: Option<u32>, kept: Cookie, target: Target) -> Deed
    ensures { (v : Sight) (l : ℕ) → cookie v.books (cookie_number number) ≡ kept
        → SeesObject v l kept.object target → result ≡ got v l number home }
{
    if home.is_none() {
        return not_got(number, HResult::CO_E_NOTINITIALIZED);
    }
    if kept.is_revoked {
        return not_got(number, HResult::E_INVALIDARG);
    }
    if !target.is_connected {
        return not_got(number, HResult::CO_E_OBJNOTCONNECTED);
    }
    Deed::Get {
        cookie: number,
        held: Some(RefValue {
            object: kept.object,
            iface: kept.iface,
        }),
        refs: gained_refs(MarshalMode::Strong, target.is_owned, 0),
        hr: HResult::S_OK,
    }
}

// The entry of a `get` that is refused: it gives no reference, and no proxy gains any.
fn not_got(number: i64, hr: HResult) -> Deed
    ensures { result ≡ deed.Get number None 0 hr }
{
    Deed::Get {
        cookie: number,
        held: None,
        refs: 0,
        hr,
    }
}

/// The entry of `revoke`, where the cookie's row is `kept`: CO_E_NOTINITIALIZED without home, else
/// E_INVALIDARG where there is no such cookie or it was revoked
/// (IGlobalInterfaceTable::RevokeInterfaceFromGlobal).
pub fn revoke_deed(number: i64, home: Option<u32>, kept: Cookie) -> Deed
    ensures { (v : Sight) → cookie v.books (cookie_number number) ≡ kept → result ≡ revoked v number home }
{
    let hr = match home {
        None => HResult::CO_E_NOTINITIALIZED,
        Some(_) => revoke_answer(kept.is_revoked),
    };
    Deed::Revoke { cookie: number, hr }
}

// The answer of a `revoke` in a lane with a home: E_INVALIDARG where the cookie is revoked or was
// never given, else S_OK.
fn revoke_answer(is_revoked: bool) -> HResult
    ensures { result ≡ (if is_revoked then E_INVALIDARG else S_OK) }
{
    if is_revoked {
        HResult::E_INVALIDARG
    } else {
        HResult::S_OK
    }
}

/// The packet that bytes name, or why they name none.
#[derive(Debug, Clone, Copy, PartialEq, Eq)]
pub enum Named {
    /// The number of an outstanding packet, from 1.
    Packet(u32),
    /// The refusal.
    Refused(HResult),
}

/// The entry of `unmarshal`, where the named packet's row is `kept` and `target` is what the lane finds of
/// its object (CoUnmarshalInterface).
pub fn unmarshal_deed(found: Named, kept: Packet, target: Target) -> Deed
    ensures { (v : Sight) (l : ℕ) → ((p : ℕ) → found ≡ named.Packet p → (packet v.books p ≡ kept)
        × SeesObject v l kept.object target) → result ≡ unmarshalled v l (named_as found) }
{
    match found {
        Named::Refused(hr) => Deed::Unmarshal {
            packet: None,
            held: None,
            refs: 0,
            hr,
        },
        Named::Packet(number) => Deed::Unmarshal {
            packet: Some(number),
            held: Some(RefValue {
                object: kept.object,
                iface: kept.iface,
            }),
            refs: gained_refs(kept.mode, target.is_owned, kept.refs),
            hr: HResult::S_OK,
        },
    }
}

/// The entry of `drop` (CoReleaseMarshalData).
pub fn drop_deed(found: Named) -> Deed
    ensures { result ≡ dropped (named_as found) }
{
    match found {
        Named::Refused(hr) => Deed::DropPacket { packet: None, hr },
        Named::Packet(number) => Deed::DropPacket {
            packet: Some(number),
            hr: HResult::S_OK,
        },
    }
}

/// The entry of `disconnect`: CO_E_NOTINITIALIZED without home, E_POINTER for null, E_INVALIDARG where the
/// lane's running apartment does not own the object; the first that applies (CoDisconnectObject).
pub fn disconnect_deed(held: Option<RefValue>, home: Option<u32>, target: Target) -> Deed
    ensures { (v : Sight) (l : ℕ) → Sees v l held target
        → result ≡ deed.Disconnect (object_in held) (disconnect_answer v l home held) }
{
    Deed::Disconnect {
        object: object_in(held),
        hr: disconnect_answer(held, home, target),
    }
}

// The answer of a `disconnect`: the first refusal that applies, as `disconnect_deed` orders them,
// else S_OK.
fn disconnect_answer(held: Option<RefValue>, home: Option<u32>, target: Target) -> HResult
    ensures { (v : Sight) (l : ℕ) → Sees v l held target → result ≡ disconnect_answer v l home held }
{
    if home.is_none() {
        return HResult::CO_E_NOTINITIALIZED;
    }
    if held.is_none() {
        return HResult::E_POINTER;
    }
    if target.is_owned {
        HResult::S_OK
    } else {
        HResult::E_INVALIDARG
    }
}
