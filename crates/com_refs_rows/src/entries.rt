//! The rows of entries that make, ask for, marshal, unmarshal, register or get a reference.
ghost use Rattle.std.specs.Prelude.{◌≡◌, ◌+◌, ◌<◌, ◌≤◌, ◌^◌, ℕ, true, OnErr, OnOk, List, Option};
ghost use Rattle.std.specs.Prelude.{length, vec_len, vec_capacity};
ghost use Rattle.com_base.specs.declared.hresult.HResult.{HResult};
ghost use Rattle.com_base.specs.declared.value.RefValue.{RefValue};
ghost use Rattle.com_refs_holders.specs.Tables.{offers};
ghost use Rattle.com_model.specs.declared.deeds.Deed.TheVariants as deed;
ghost use Rattle.com_model.specs.Answers.{is_S_OK};
ghost use Rattle.com_model.specs.Books.{back_rows};
ghost use Rattle.com_model.specs.Objects.{makes};
ghost use Rattle.com_reference_moves.specs.declared.moves.Move.{Move};
ghost use Rattle.com_refs_rows.specs.Books.{Gained, KeepsHeld};
ghost use Rattle.com_refs_rows.specs.Calls.{number_of};
ghost use Rattle.com_refs_rows.specs.Entries.{RowsOf, MakesOrNone};
ghost use Rattle.com_refs_rows.specs.Fits.{IsAsked, IsGotten, IsHeld, IsMaking};
ghost use Rattle.com_refs_rows.specs.Moving.{HoldsMore};
ghost use Rattle.com_refs_rows.specs.Owners.{OffersMore};
ghost use Rattle.com_scene.specs.Ranges.{HasInterface};

use crate::making::{Instance, make};
use crate::rows::{get, marshal, query, register, unmarshal};
use com_base::{HResult, MarshalMode, Memory, RefValue};
use com_body::Asked;
use com_classes::Classes;
use com_reference_moves::Move;
use com_refs::{MOST_ISSUED, Refs};

// A reference by an interface that has a number of 16 bits.
fn reference(object: u32, iface: u32) -> RefValue
    requires { iface < 2 ^ 16 }
    ensures { result ≡ record { object = object; iface = iface } }
{
    let iface = iface as u16;
    RefValue { object, iface }
}

/// An activation, as its Made entry says it: what was asked for, and the object that was made, if one was.
#[derive(Debug, Clone, Copy)]
pub struct Activation {
    /// The number of the object that was made. `None` where the activation is refused.
    pub object: Option<u32>,
    /// The apartment that owns the object; 0, the neutral one, for an agile object. `None` where none was
    /// made.
    pub owner: Option<u32>,
    /// The class that was asked for.
    pub class: Asked,
    /// The interface that was asked for.
    pub iface: Asked,
}

/// The row of a new object. The only error is want of memory.
pub fn enter_made(
    refs: &mut Refs,
    brought: &mut Vec<Move>,
    set: &mut Vec<u16>,
    classes: &Classes,
    apartment: u32,
    activation: &Activation,
) -> Result<(), Memory>
    requires making { IsMaking classes.now (length refs.old.objects) activation.now.object activation.now.owner
        activation.now.class activation.now.iface }
    requires iface { HasInterface activation.now.object activation.now.iface }
    requires few { refs.old.issued + 1 < MOST_ISSUED }
    requires place { vec_len brought.old < vec_capacity brought.old }
    requires room { 0 < refs.old.spare }
    ensures row { OnOk result
        (MakesOrNone classes.now apartment activation.now.object activation.now.owner activation.now.class
        activation.now.iface refs.old refs.new brought.old.items brought.new.items) }
    ensures more { OnOk result (KeepsHeld apartment refs.old refs.new) }
    ensures err { OnErr result (refs.new ≡ refs.old) }
    ensures offers { OnOk result ((hr : HResult)
        → OffersMore classes.now (makes (deed.Made activation.now.object activation.now.owner
        activation.now.class activation.now.iface hr)) refs.old refs.new) }
    ensures issued { refs.new.issued ≤ refs.old.issued + 2 }
    ensures spare { refs.old.spare ≤ refs.new.spare + 1 }
    ensures len { vec_len brought.new ≤ vec_len brought.old + 1 }
{
    let Activation {
        object,
        owner,
        class,
        iface,
    } = *activation;
    let Some(object) = object else {
        return Ok(());
    };
    let Some(owner) = owner else { unreachable!() };
    let Asked::Number(class) = class else {
        unreachable!()
    };
    let Asked::Number(iface) = iface else {
        unreachable!()
    };
    let held = reference(object, iface);
    let instance = Instance { held, owner, class };
    make(refs, brought, set, classes, apartment, &instance)
}

/// The row of a reference that was asked for an interface.
pub fn enter_query(
    refs: &mut Refs,
    brought: &mut Vec<Move>,
    apartment: u32,
    object: Option<u32>,
    iface: Asked,
    hr: HResult,
)
    requires asked { IsAsked refs.old apartment object iface (is_S_OK hr) }
    requires iface { HasInterface object iface }
    requires few { refs.old.issued < MOST_ISSUED }
    requires room { 0 < refs.old.spare }
    requires place { vec_len brought.old < vec_capacity brought.old }
    ensures row { RowsOf apartment
        (deed.Query object iface hr) refs.old refs.new brought.old.items brought.new.items }
    ensures more { HoldsMore refs.old refs.new }
    ensures offers { (x j : ℕ) → offers refs.new x j ≡ offers refs.old x j }
    ensures issued { refs.new.issued ≤ refs.old.issued + 1 }
    ensures spare { refs.old.spare ≤ refs.new.spare + 1 }
    ensures len { vec_len brought.new ≤ vec_len brought.old + 1 }
{
    let Some(object) = object else {
        return;
    };
    let Asked::Number(iface) = iface else {
        return;
    };
    if hr.0 != 0 {
        return;
    }
    let held = reference(object, iface);
    query(refs, brought, apartment, held);
}

/// The row of a packet that was read.
pub fn enter_unmarshal(
    refs: &mut Refs,
    brought: &mut Vec<Move>,
    apartment: u32,
    packet: Option<u32>,
)
    requires few { refs.old.issued < MOST_ISSUED }
    requires place { vec_len brought.old < vec_capacity brought.old }
    requires room { 0 < refs.old.spare }
    ensures row { (held : Option RefValue) (n : ℕ) (hr : HResult)
        → RowsOf apartment
        (deed.Unmarshal packet held n hr) refs.old refs.new brought.old.items brought.new.items }
    ensures more { HoldsMore refs.old refs.new }
    ensures offers { (x j : ℕ) → offers refs.new x j ≡ offers refs.old x j }
    ensures issued { refs.new.issued ≤ refs.old.issued + 1 }
    ensures spare { refs.old.spare ≤ refs.new.spare + 1 }
    ensures len { vec_len brought.new ≤ vec_len brought.old + 1 }
{
    match packet {
        None => {}
        Some(packet) => unmarshal(refs, brought, apartment, packet),
    }
}

/// The row of a packet of a reference.
pub fn enter_marshal(
    refs: &mut Refs,
    apartment: u32,
    packet: Option<u32>,
    mode: MarshalMode,
    held: Option<RefValue>,
)
    requires held { IsHeld refs.old held }
    requires few { refs.old.issued < MOST_ISSUED }
    requires room { 0 < refs.old.spare }
    ensures row { (n : ℕ) (hr : HResult) (bytes : Option (List ℕ)) (brought : List Move)
        → RowsOf apartment (deed.Marshal packet mode held n hr bytes) refs.old refs.new brought brought }
    ensures more { HoldsMore refs.old refs.new }
    ensures offers { (x j : ℕ) → offers refs.new x j ≡ offers refs.old x j }
    ensures issued { refs.new.issued ≤ refs.old.issued + 1 }
    ensures spare { refs.old.spare ≤ refs.new.spare + 1 }
{
    let Some(_) = packet else {
        return;
    };
    match held {
        None => {}
        Some(held) => marshal(refs, apartment, held, mode),
    }
}

/// The row of a cookie of a reference.
pub fn enter_register(refs: &mut Refs, cookie: Option<u32>, held: Option<RefValue>)
    requires held { IsHeld refs.old held }
    requires few { refs.old.issued < MOST_ISSUED }
    requires room { 0 < refs.old.spare }
    ensures row { (a : ℕ) (hr : HResult) (brought : List Move)
        → RowsOf a (deed.Register cookie held hr) refs.old refs.new brought brought }
    ensures more { HoldsMore refs.old refs.new }
    ensures offers { (x j : ℕ) → offers refs.new x j ≡ offers refs.old x j }
    ensures issued { refs.new.issued ≤ refs.old.issued + 1 }
    ensures spare { refs.old.spare ≤ refs.new.spare + 1 }
{
    let Some(_) = cookie else {
        return;
    };
    match held {
        None => {}
        Some(held) => register(refs, held),
    }
}

/// The row of a cookie whose reference was taken.
pub fn enter_get(
    refs: &mut Refs,
    brought: &mut Vec<Move>,
    apartment: u32,
    cookie: &i64,
    held: Option<RefValue>,
)
    requires kept { IsGotten refs.old.cookies refs.old.stubs cookie.now held }
    requires few { refs.old.issued < MOST_ISSUED }
    requires room { 0 < refs.old.spare }
    requires place { vec_len brought.old < vec_capacity brought.old }
    ensures row { (n : ℕ) (hr : HResult)
        → RowsOf apartment
        (deed.Get cookie.now held n hr) refs.old refs.new brought.old.items brought.new.items }
    ensures more { HoldsMore refs.old refs.new }
    ensures offers { (x j : ℕ) → offers refs.new x j ≡ offers refs.old x j }
    ensures issued { refs.new.issued ≤ refs.old.issued + 1 }
    ensures spare { refs.old.spare ≤ refs.new.spare + 1 }
    ensures len { vec_len brought.new ≤ vec_len brought.old + 1 }
{
    match held {
        None => {}
        Some(held) => get(refs, brought, apartment, *cookie, held),
    }
}

/// The row of a result's packet that is read: its call's answer is its body's Leave.
pub fn enter_back(refs: &mut Refs, brought: &mut Vec<Move>, apartment: u32, number: u32)
    requires few { refs.old.issued < MOST_ISSUED }
    requires place { vec_len brought.old < vec_capacity brought.old }
    requires room { 0 < refs.old.spare }
    ensures row { Gained apartment (back_rows apartment true
        (number_of number)) refs.old refs.new brought.old.items brought.new.items }
    ensures more { HoldsMore refs.old refs.new }
    ensures offers { (x j : ℕ) → offers refs.new x j ≡ offers refs.old x j }
    ensures issued { refs.new.issued ≤ refs.old.issued + 1 }
    ensures spare { refs.old.spare ≤ refs.new.spare + 1 }
    ensures len { vec_len brought.new ≤ vec_len brought.old + 1 }
{
    if number == 0 {
        return;
    }
    unmarshal(refs, brought, apartment, number);
}
