//! The reference that an action's entry writes for whoever acts.
ghost use Rattle.std.specs.Prelude.{◌≡◌};
ghost use Rattle.com_scene.specs.Ranges.{FitsDeed};
ghost use Rattle.com_reference_moves.specs.Steps.{place_write, at_slot};

use com_base::RefValue;
use com_body::{Action, Place};
use com_model::Deed;
use com_scene::given_reference;

/// A reference, or null, that comes to a slot or a link.
#[derive(Debug, Clone, Copy)]
pub struct Written {
    /// The slot or link.
    pub place: Place,
    /// The reference, or None for null.
    pub held: Option<RefValue>,
}

/// The reference that the entry of an action writes for whoever acts, where it writes one.
pub fn written_by(action: &Action, deed: &Deed) -> Option<Written>
    requires { FitsDeed deed.now }
    ensures { result ≡ place_write action.now deed.now }
{
    match action {
        Action::Create { slot, .. } => at_slot(*slot, given_reference(deed)),
        Action::Query { to, .. } => at_slot(*to, given_reference(deed)),
        Action::Copy { to, held } => Some(Written {
            place: *to,
            held: *held,
        }),
        Action::Release { place, .. } => Some(Written {
            place: *place,
            held: None,
        }),
        Action::Unmarshal { slot, .. } => at_slot(*slot, given_reference(deed)),
        Action::Get { slot, .. } => at_slot(*slot, given_reference(deed)),
        _ => None,
    }
}

// A reference, or null, that comes to the slot of this number.
fn at_slot(number: u8, held: Option<RefValue>) -> Option<Written>
    ensures { result ≡ at_slot number held }
{
    Some(Written {
        place: Place::Slot(number),
        held,
    })
}
