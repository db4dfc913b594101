//! Which entries move no reference, have no row in the books, and begin and end no body.

ghost use Rattle.std.specs.Prelude.{◌≡◌, None};
ghost use Rattle.com_core.specs.Quiet.{comes_bare, is_alone, is_slot, is_still, left_held, moves_nothing};
ghost use Rattle.com_core.specs.Quiet.{writes_by, writes_reference};
ghost use Rattle.com_state.specs.SceneParts.{destination_at};

use crate::running::Running;
use com_body::{Action, Destination, Outcome};
use com_model::Deed;
use com_parts::is_calls_alone;

// Whether an action writes a reference, or null, at a slot or a link.
fn writes_reference(action: &Action) -> bool
    ensures { result ≡ writes_reference action.now }
{
    match action {
        Action::Create { .. } => true,
        Action::Query { .. } => true,
        Action::Copy { .. } => true,
        Action::Release { .. } => true,
        Action::Unmarshal { .. } => true,
        Action::Get { .. } => true,
        _ => false,
    }
}

// Whether the step of whoever makes an entry does so, where a step makes it.
fn writes_by(outcome: &Option<Outcome>) -> bool
    ensures { result ≡ writes_by outcome.now }
{
    match outcome {
        None => false,
        Some(outcome) => writes_reference(&outcome.action),
    }
}

// Whether a call's result goes to a slot, and not to a register or nowhere.
fn is_slot(destination: Destination) -> bool
    ensures { result ≡ is_slot destination }
{
    match destination {
        Destination::Slot(_) => true,
        _ => false,
    }
}

/// Whether an entry changes nothing but the calls, and nobody's step makes it.
pub fn is_alone(outcome: &Option<Outcome>, deed: &Deed) -> bool
    ensures { result ≡ is_alone outcome.now deed.now }
{
    match outcome {
        None => is_calls_alone(deed),
        Some(_) => false,
    }
}

impl Running {
    // Whether the result of a call goes to a slot.
    fn goes_to_slot(&self, call: u32) -> bool
        ensures { result ≡ is_slot (destination_at self.now.parts.scene call) }
    {
        is_slot(self.parts.scene().destination(call))
    }

    // Whether the body of a call left with a reference that is not null.
    fn left_held(&self, call: u32) -> bool
        ensures { result ≡ left_held self.now.parts call }
    {
        self.parts.calls().left_reference(call).is_some()
    }

    // Whether a call comes back without a reference: its result goes to no slot, its body left with no
    // reference, and no packet carries the result.
    fn comes_bare(&self, call: u32) -> bool
        ensures { result ≡ comes_bare self.now.parts self.now.ledger call }
    {
        !self.goes_to_slot(call) && !self.left_held(call) && !self.ledger.has_result(call)
    }

    // Whether a deed moves no reference, has no row in the books, and begins and ends no body.
    fn moves_nothing(&self, deed: &Deed) -> bool
        ensures { result ≡ moves_nothing self.now.parts self.now.ledger deed.now }
    {
        match deed {
            Deed::Raw { .. } => true,
            Deed::SetFilter { .. } => true,
            Deed::Post { .. } => true,
            Deed::Quit { .. } => true,
            Deed::Pump { .. } => true,
            Deed::EndPump => true,
            Deed::Word { .. } => true,
            Deed::Verdict { .. } => true,
            Deed::Refuse { .. } => true,
            Deed::Retry { .. } => true,
            Deed::Again { .. } => true,
            Deed::Pending { .. } => true,
            Deed::Tick { .. } => true,
            Deed::End => true,
            Deed::Out {
                call,
                bytes: None,
                ..
            } => !self.ledger.has_arguments(*call),
            Deed::Back { call, .. } => self.comes_bare(*call),
            _ => false,
        }
    }

    /// Whether an entry moves no reference, has no row in the books, and begins and ends no body: its deed does
    /// nothing of that, and the step of whoever makes it writes no reference.
    pub fn is_still(&self, outcome: &Option<Outcome>, deed: &Deed) -> bool
        ensures { result ≡ is_still self.now.parts self.now.ledger outcome.now deed.now }
    {
        self.moves_nothing(deed) && !writes_by(outcome)
    }
}
