//! The entry of an action, and what goes with it.

ghost use Rattle.std.specs.Prelude.{◌≡◌, IfOk};
ghost use Rattle.com_calls.specs.Enclosures.{HasAnswer};
ghost use Rattle.com_model.specs.Deeds.{deed_of};
ghost use Rattle.com_rules.specs.Acts.{Issues, carried_by};
ghost use Rattle.com_rules.specs.Fits.{FitsAction, IsSilent};
ghost use Rattle.com_rules.specs.Room.{HasRoom};
ghost use Rattle.com_view.specs.Seen.{sight_by};

use crate::alone::{deed_on_lane, deed_on_object};
use crate::asking::Found;
use crate::making::marshalled_packet;
use crate::naming::{drop_packet, unmarshal_packet};
use crate::sending::{Callee, call, leave};
use com_base::{Memory, RefValue, Rows};
use com_body::Action;
use com_calls::Enclosed;
use com_model::Deed;
use com_view::View;
use std::alloc::Global;

/// What an action makes: its entry, and what goes with it.
#[derive(Debug, Drop)]
pub struct Doing {
    /// The entry's deed.
    pub deed: Deed,
    /// What the calls are given with it: what an Out issues, or what a Leave answers with. With every other entry
    /// there is nothing.
    pub enclosed: Enclosed,
    /// The references that a marshalled request or reply carries, one packet each, in their order.
    pub carried: Rows<RefValue>,
}

// The entry of an action that sends no values. The only error is want of memory.
fn silent_deed<B: Found>(
    view: &View<'_>,
    books: &B,
    alloc: Global,
    lane: u32,
    action: &Action,
) -> Result<Deed, Memory>
    requires room { HasRoom view.now (B.books books.now) }
    requires fits { FitsAction action.now }
    requires silent { IsSilent action.now }
    ensures { IfOk result (λ made. made
        ≡ deed_of view.now.scenario (sight_by view.now (B.books books.now)) lane action.now) }
{
    if let Some(deed) = deed_on_lane(view, lane, action) {
        return Ok(deed);
    }
    if let Some(deed) = deed_on_object(view, books, lane, action) {
        return Ok(deed);
    }
    match action {
        Action::Marshal { held, mode, .. } => {
            marshalled_packet(view, books, alloc, lane, *held, *mode)
        }
        Action::Unmarshal { buffer, .. } => Ok(unmarshal_packet(view, books, lane, *buffer)),
        Action::Drop { buffer } => Ok(drop_packet(view, books, lane, *buffer)),
        _ => unreachable!(),
    }
}

// The deed of an action, with nothing that goes with it.
fn silent_doing<B: Found>(
    view: &View<'_>,
    books: &B,
    alloc: Global,
    lane: u32,
    action: &Action,
) -> Result<Doing, Memory>
    requires room { HasRoom view.now (B.books books.now) }
    requires fits { FitsAction action.now }
    requires silent { IsSilent action.now }
    ensures deed { IfOk result (λ made. made.deed
        ≡ deed_of view.now.scenario (sight_by view.now (B.books books.now)) lane action.now) }
    ensures issued { IfOk result (λ made. Issues view.now.scenario (sight_by view.now
        (B.books books.now)) lane action.now made.deed made.enclosed) }
    ensures answer { IfOk result (λ made. HasAnswer made.deed made.enclosed) }
    ensures carried { IfOk result (λ made. made.carried
        ≡ carried_by view.now.scenario (B.books books.now) action.now made.deed) }
{
    let deed = silent_deed(view, books, alloc, lane, action)?;
    Ok(Doing {
        deed,
        enclosed: Enclosed::Nothing,
        carried: Rows::new(alloc),
    })
}

/// The entry of an action of a lane, with what goes with it. The only error is want of memory.
pub fn act<B: Found>(
    view: &View<'_>,
    books: &B,
    alloc: Global,
    lane: u32,
    action: &Action,
) -> Result<Doing, Memory>
    requires room { HasRoom view.now (B.books books.now) }
    requires fits { FitsAction action.now }
    ensures deed { IfOk result (λ made. made.deed
        ≡ deed_of view.now.scenario (sight_by view.now (B.books books.now)) lane action.now) }
    ensures issued { IfOk result (λ made. Issues view.now.scenario (sight_by view.now
        (B.books books.now)) lane action.now made.deed made.enclosed) }
    ensures answer { IfOk result (λ made. HasAnswer made.deed made.enclosed) }
    ensures carried { IfOk result (λ made. made.carried
        ≡ carried_by view.now.scenario (B.books books.now) action.now made.deed) }
{
    match action {
        Action::Call {
            target,
            iface,
            method,
            args,
            ..
        } => {
            let callee = Callee {
                target: *target,
                iface: *iface,
                method: *method,
            };
            let made = call(view, books, alloc, lane, &callee, args.as_slice())?;
            Ok(made)
        }
        Action::Leave { answer, value } => leave(view, books, alloc, lane, *answer, value.as_ref()),
        _ => silent_doing(view, books, alloc, lane, action),
    }
}
