//! What is open in one lane.
ghost use Rattle.std.specs.Prelude.{◌≡◌, [], ◌∷◌, IsOk, OnOk, length, reverse, slice_get};
ghost use Rattle.com_model.specs.Lists.{first, without_first};
ghost use Rattle.com_model.specs.Openers.{running_call, running_object, entered_apartment, open_calls};
ghost use Rattle.com_lane_lists.specs.Bodies.{is_one_pump};
ghost use Rattle.com_lane_lists.specs.Rooms.{HasSlot};

use crate::stack::Stack;
use com_base::Memory;
use com_model::Opener;
use std::alloc::Global;
use std::marker::Model;

/// A body that was entered and has not left.
#[derive(Debug, Clone, Copy)]
pub struct Body {
    /// The number of the call that entered it, from 1.
    pub call: u32,
    /// The number of its object, from 1.
    pub object: u32,
    /// The number of the apartment that it runs in.
    pub apartment: u32,
}

/// The openers of a lane, seen as a list with the innermost first, and for how many there is room. Beside
/// them stand those that are bodies, and the calls that are waited for, so that the innermost of each is
/// known without a walk.
#[derive(Debug, Drop)]
pub struct Openers {
    openers: Stack<Opener>,
    bodies: Stack<Body>,
    waits: Stack<u32>,
}

impl Model for Openers {
    ghost use Rattle.std.specs.Prelude.{◌≡◌};
    ghost use Rattle.com_lane_lists.specs.Rooms.{OpenerRows};

    ghost Value = { OpenerRows };

    ghost use Rattle.com_model.specs.Openers.{open_calls};
    ghost use Rattle.com_lane_lists.specs.Bodies.{bodies_of};

    ghost view = { λ a. record {
      openers = a.openers.rows;
      room = a.openers.room;
      bodies = a.bodies.room;
      waits = a.waits.room;
    } };

    ghost invariant = { λ a. (bodies_of a.openers.rows ≡ a.bodies.rows)
        × (open_calls a.openers.rows ≡ a.waits.rows) };
}

impl Openers {
    /// Nothing is open. It takes no memory.
    pub fn new(alloc: Global) -> Openers
        ensures { result.openers ≡ [] }
    {
        Openers {
            openers: Stack::new(alloc),
            bodies: Stack::new(alloc),
            waits: Stack::new(alloc),
        }
    }

    /// Makes room for one opener more, of whatever kind. The only error is want of memory.
    pub fn reserve(&mut self) -> Result<(), Memory>
        ensures openers { self.new.openers ≡ self.old.openers }
        ensures slot { OnOk result (HasSlot self.new) }
        ensures succeeds { HasSlot self.old → IsOk result }
    {
        self.openers.reserve()?;
        self.bodies.reserve()?;
        self.waits.reserve()
    }

    /// Opens one more.
    pub fn push(&mut self, opener: Opener)
        requires slot { HasSlot self.old }
        ensures openers { self.new.openers ≡ opener ∷ self.old.openers }
    {
        match opener {
            Opener::Pumps { .. } => self.openers.push(opener),
            Opener::Waits { call } => {
                self.waits.push(call);
                self.openers.push(opener);
            }
            Opener::Enters {
                call,
                object,
                apartment,
            } => {
                self.bodies.push(Body {
                    call,
                    object,
                    apartment,
                });
                self.openers.push(opener);
            }
        }
    }

    /// Closes the innermost.
    #[tactic(auto, using(crate::proofs::Bodies::pop_pump, crate::proofs::Bodies::pop_wait, crate::proofs::Bodies::pop_body, crate::proofs::Bodies::pop_none))]
    pub fn pop(&mut self)
        ensures { self.new.openers ≡ without_first self.old.openers }
    {
        match self.openers.top() {
            Some(Opener::Enters { .. }) => {
                self.openers.pop();
                self.bodies.pop();
            }
            Some(Opener::Waits { .. }) => {
                self.openers.pop();
                self.waits.pop();
            }
            Some(Opener::Pumps { .. }) => self.openers.pop(),
            None => {}
        }
    }

    /// The innermost.
    pub fn top(&self) -> Option<Opener>
        ensures { result ≡ first self.now.openers }
    {
        self.openers.top()
    }

    /// How many are open.
    pub fn len(&self) -> usize
        ensures { result ≡ length self.now.openers }
    {
        self.openers.len()
    }

    /// The opener at a place, counted from the outermost.
    pub fn at(&self, place: u32) -> Option<Opener>
        ensures { result ≡ slice_get (reverse self.now.openers) place }
    {
        self.openers.at(place)
    }

    /// The call of the innermost body.
    #[tactic(auto, using(crate::proofs::Bodies::call_of_first))]
    pub fn running_call(&self) -> Option<u32>
        ensures { result ≡ running_call self.now.openers }
    {
        match self.bodies.top() {
            Some(body) => Some(body.call),
            None => None,
        }
    }

    /// The object of the innermost body.
    #[tactic(auto, using(crate::proofs::Bodies::object_of_first))]
    pub fn running_object(&self) -> Option<u32>
        ensures { result ≡ running_object self.now.openers }
    {
        match self.bodies.top() {
            Some(body) => Some(body.object),
            None => None,
        }
    }

    /// The apartment of the innermost body.
    #[tactic(auto, using(crate::proofs::Bodies::apartment_of_first))]
    pub fn entered_apartment(&self) -> Option<u32>
        ensures { result ≡ entered_apartment self.now.openers }
    {
        match self.bodies.top() {
            Some(body) => Some(body.apartment),
            None => None,
        }
    }

    /// The calls that are waited for, the outermost first.
    pub fn open_calls(&self) -> &[u32]
        ensures { result.now ≡ reverse (open_calls self.now.openers) }
    {
        self.waits.as_slice()
    }

    /// Whether a pump alone is open.
    pub fn is_one_pump(&self) -> bool
        ensures { result ≡ is_one_pump self.now.openers }
    {
        self.openers.len() == 1 && matches!(self.openers.top(), Some(Opener::Pumps { .. }))
    }
}
