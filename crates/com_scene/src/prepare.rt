//! The memory that an entry takes.
ghost use Rattle.std.specs.Prelude.{◌≡◌, ◌≤◌, IfOk, IsErr, MatchResult, OnOk, [], false, length};
ghost use Rattle.std.specs.Prelude.{slice_index_or};
ghost use Rattle.com_base.specs.declared.limits.TheConstants.{PARAMETER_LIMIT};
ghost use Rattle.com_body.specs.Frames.{entered};
ghost use Rattle.com_scene.specs.Actors.{acting_of};
ghost use Rattle.com_scene.specs.Prepared.{HasBody, HasRowFor, HasSeatAfter, IsPrepared, IsTaken};
ghost use Rattle.com_scene.specs.Prepared.{packet_in, result_in};
ghost use Rattle.com_scene.specs.Ranges.{FitsDeed};
ghost use Rattle.com_scene.specs.Rooms.{room_of};
ghost use Rattle.com_scene.specs.Seen.{seat_of, seats_of, seen, HasSeat, HasSeatFor};

use crate::actor::Actor;
use crate::tables::{Seat, Tables};
use com_base::{ByteList, Memory, Value};
use com_body::Frame;
use com_model::Deed;
use std::alloc::Global;

/// What was taken for the entry that comes. It stays where it is until an entry uses it or takes anew, and an
/// entry uses only what it has taken itself.
#[derive(Drop)]
pub struct Taken {
    /// A spare frame, where a body makes the entry by its step that has none of its own.
    pub acting: Option<Seat>,
    /// The packet that the entry made.
    pub packet: Option<ByteList>,
    /// A spare frame, where the entry writes for a body that has none of its own.
    pub after: Option<Seat>,
    /// The frame of a body that begins.
    pub body: Option<Seat>,
    /// The value with which a call comes back.
    pub value: Option<Value>,
}

impl Taken {
    /// Nothing was taken.
    pub fn nothing() -> Taken
        ensures acting { result.acting ≡ None }
        ensures packet { result.packet ≡ None }
        ensures after { result.after ≡ None }
        ensures body { result.body ≡ None }
        ensures value { result.value ≡ None }
    {
        Taken {
            acting: None,
            packet: None,
            after: None,
            body: None,
            value: None,
        }
    }
}

// Keeps what was made at its place. The only error is that for which it was not made.
fn keep<T: Drop>(made: Result<T, Memory>, place: &mut Option<T>) -> Result<(), Memory>
    ensures { MatchResult made (λ value. place.new ≡ Some value) (λ _. IsErr result) }
{
    *place = Some(made?);
    Ok(())
}

// Takes a copy of the packet that an entry made. The only error is want of memory.
fn take_packet(deed: &Deed, packet: &mut Option<ByteList>) -> Result<(), Memory>
    ensures { OnOk result (IsTaken (packet_in deed.now) packet.new) }
{
    match deed {
        Deed::Marshal {
            bytes: Some(bytes),
            ..
        } => keep(bytes.copy(), packet),
        _ => Ok(()),
    }
}

// Takes a copy of the value with which a call comes back. The only error is want of memory.
fn take_value(deed: &Deed, value: &mut Option<Value>) -> Result<(), Memory>
    ensures { OnOk result (IsTaken (result_in deed.now) value.new) }
{
    match deed {
        Deed::Back {
            value: Some(result),
            ..
        } => keep(result.copy(), value),
        _ => Ok(()),
    }
}

// A frame with values, on the heap. The only error is want of memory.
fn new_seat(alloc: Global, values: &[Value]) -> Result<Seat, Memory>
    requires { length values.now ≤ PARAMETER_LIMIT }
    ensures { IfOk result (λ seat. seat ≡ entered values.now) }
{
    let frame = Frame::enter(alloc, values)?;
    Seat::new(alloc, frame)
}

// Takes the frame of a body that begins. The only error is want of memory.
fn take_body(alloc: Global, deed: &Deed, body: &mut Option<Seat>) -> Result<(), Memory>
    requires { FitsDeed deed.now }
    ensures { OnOk result (HasBody deed.now body.new) }
{
    match deed {
        Deed::Enter { values, .. } => keep(new_seat(alloc, values.as_slice()), body),
        _ => Ok(()),
    }
}

impl Tables {
    // Whether a call has a frame of its own.
    #[tactic(auto, using(crate::proofs::RowLemmas::map_get, crate::proofs::RowLemmas::get_beyond, crate::proofs::RowLemmas::map_length))]
    fn is_seated(&self, call: u32) -> bool
        ensures { result ≡ slice_index_or (seats_of self.now.calls.items) call false }
    {
        if (call as usize) < self.calls.len() {
            return self.calls[call as usize].is_seated();
        }
        false
    }

    // Takes a spare frame for the body of a call, where it has none. There is no spare frame yet. The only
    // error is want of memory.
    fn take_seat(&self, call: u32, spare: &mut Option<Seat>) -> Result<(), Memory>
        requires { spare.old ≡ None }
        ensures seat { OnOk result (HasSeat (seats_of self.now.calls.items) call spare.new) }
        ensures fresh { OnOk result (seat_of spare.new ≡ entered []) }
    {
        if self.is_seated(call) {
            return Ok(());
        }
        keep(new_seat(*self.calls.allocator(), &[]), spare)
    }

    // Takes a spare frame for an actor, where it is a body that has none. The only error is want of memory.
    fn take_seat_for(&self, actor: Actor, spare: &mut Option<Seat>) -> Result<(), Memory>
        ensures seat { OnOk result
            (HasSeatFor (seats_of self.now.calls.items) (acting_of actor) spare.new) }
        ensures fresh { OnOk result (seat_of spare.new ≡ entered []) }
    {
        *spare = None;
        match actor {
            Actor::Body { call, .. } => self.take_seat(call, spare),
            _ => Ok(()),
        }
    }

    // Takes a spare frame for whoever acts after an entry, where the entry writes for it. The only error is
    // want of memory.
    fn take_after(&self, after: Actor, deed: &Deed, spare: &mut Option<Seat>) -> Result<(), Memory>
        ensures seat { OnOk result
            (HasSeatAfter (seats_of self.now.calls.items) (acting_of after) deed.now spare.new) }
        ensures fresh { OnOk result (seat_of spare.new ≡ entered []) }
    {
        match deed {
            Deed::Back { .. } => self.take_seat_for(after, spare),
            Deed::EndPump => self.take_seat_for(after, spare),
            _ => {
                *spare = None;
                Ok(())
            }
        }
    }

    // Makes room for the row that an entry brings. The only error is want of memory.
    fn reserve(&mut self, deed: &Deed) -> Result<(), Memory>
        ensures same { seen self.new ≡ seen self.old }
        ensures seats { (room_of self.new).seats ≡ (room_of self.old).seats }
        ensures row { OnOk result (HasRowFor (room_of self.new) deed.now) }
    {
        match deed {
            Deed::Out { .. } => self.calls.reserve(1),
            Deed::Made { .. } => self.cells.reserve(1),
            _ => Ok(()),
        }
    }

    /// Takes all memory that an entry needs. The tables stay as they are, but for room. The only error is
    /// want of memory.
    pub fn prepare(
        &mut self,
        acting: Actor,
        after: Actor,
        deed: &Deed,
        taken: &mut Taken,
    ) -> Result<(), Memory>
        requires { FitsDeed deed.now }
        ensures same { seen self.new ≡ seen self.old }
        ensures ready { OnOk result (IsPrepared (acting_of acting) (acting_of after) deed.now
            (room_of self.new) taken.new) }
    {
        take_packet(deed, &mut taken.packet)?;
        take_value(deed, &mut taken.value)?;
        take_body(*self.calls.allocator(), deed, &mut taken.body)?;
        self.take_seat_for(acting, &mut taken.acting)?;
        self.take_after(after, deed, &mut taken.after)?;
        self.reserve(deed)
    }
}
