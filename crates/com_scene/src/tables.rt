//! The tables of the scene: a row for each lane, call, object and buffer.
ghost use Rattle.std.specs.Prelude.{◌≡◌, ◌<◌, IfOk, Some, None, IsSome, [], ◌∷◌, fold, is_some, replicate};
ghost use Rattle.com_base.specs.declared.limits.TheConstants.{SLOT_COUNT};
ghost use Rattle.com_body.specs.Bodies.{IsDestination};
ghost use Rattle.com_body.specs.Frames.{entered};
ghost use Rattle.com_model.specs.Frames.{to_answer, to_destination};
ghost use Rattle.com_state.specs.SceneParts.{with_body, with_script, with_cells};
ghost use Rattle.com_scene.specs.Kept.{HasSlots};
ghost use Rattle.com_scene.specs.Rooms.{room_of};
ghost use Rattle.com_scene.specs.Seen.{seen, seat_of, seats_of, own_or, HasSeat, KeepsSeats};
ghost use Rattle.com_scene.specs.Steps.{frame_with, with_bytes, with_wanted, with_call, with_object};

use crate::writes::{Bytes, Wanted};
use com_base::{ANSWER_REGISTER, ByteList, HResult, Memory, Value};
use com_body::{Cells, Destination, Frame};
use std::alloc::Global;
use std::marker::Model;
use std::mem;

/// A frame is given an HRESULT, and the result of a call: a destination register takes a value, and stays
/// where there is none; a slot takes a reference, or null.
pub fn receive(frame: &mut Frame, hr: HResult, to: Destination, value: Option<Value>)
    requires { IsDestination to }
    ensures { frame.new ≡ fold frame_with frame.old (to_answer hr ∷ to_destination to value) }
{
    frame.set_register(ANSWER_REGISTER, Value::Int(hr.0 as i64));
    match to {
        Destination::Nowhere => {}
        Destination::Register(number) => {
            if let Some(value) = value {
                frame.set_register(number, value);
            }
        }
        Destination::Slot(number) => {
            let held = match value {
                Some(Value::Ref(held)) => held,
                _ => None,
            };
            frame.set_slot(number, held);
        }
    }
}

/// Makes the slots of a frame null.
#[tactic(auto, using(crate::proofs::RowLemmas::nulls_more, crate::proofs::RowLemmas::nulls_all))]
pub fn clear_slots(frame: &mut Frame)
    requires { HasSlots frame.old }
    ensures { frame.new ≡ record frame.old { slots = replicate SLOT_COUNT None } }
{
    for number in 0u8..8 {
        frame.set_slot(number, None);
    }
}

/// A frame of a body that has begun, on the heap.
#[derive(Drop)]
pub struct Seat {
    frame: Box<Frame>,
}

impl Model for Seat {
    ghost use Rattle.com_body.specs.Frames.{FrameView};

    ghost Value = { FrameView };

    ghost view = { λ a. a.frame.value };
}

impl Seat {
    /// The frame, on the heap. The only error is want of memory.
    pub fn new(alloc: Global, frame: Frame) -> Result<Seat, Memory>
        ensures { IfOk result (λ seat. seat ≡ frame) }
    {
        Ok(Seat {
            frame: Box::new(alloc, frame)?,
        })
    }

    /// The frame.
    pub fn frame(&self) -> &Frame
        ensures { result.now ≡ self.now }
    {
        &self.frame
    }

    /// Puts another frame in place of this one, and this one in place of the other.
    pub fn swap(&mut self, frame: &mut Frame)
        ensures { self.new ≡ frame.old }
    {
        mem::swap(&mut *self.frame, frame);
    }

    // The frame gets the HRESULT of a call, and the result where the call was to put it.
    fn receive(&mut self, hr: HResult, to: Destination, value: Option<Value>)
        requires { IsDestination to }
        ensures { self.new ≡ fold frame_with self.old (to_answer hr ∷ to_destination to value) }
    {
        receive(&mut self.frame, hr, to, value);
    }
}

/// What is kept of a call: the frame of its body, where it has begun and not left, and where its result goes.
#[derive(Drop)]
pub struct CallRow {
    pub frame: Option<Seat>,
    pub destination: Destination,
}

impl CallRow {
    /// Whether the body of the call has a frame of its own.
    pub fn is_seated(&self) -> bool
        ensures { result ≡ is_some self.now.frame }
    {
        self.frame.is_some()
    }

    // Gives the body of the call a spare frame, where it has none of its own.
    fn sit(&mut self, spare: &mut Option<Seat>)
        ensures frame { self.new.frame ≡ own_or self.old.frame spare.old }
        ensures destination { self.new.destination ≡ self.old.destination }
    {
        if self.frame.is_none() {
            self.frame = spare.take();
        }
    }

    // Gives the body of the call another frame, and takes the one that it had, or the spare one.
    fn place(&mut self, frame: &mut Frame, spare: &mut Option<Seat>)
        requires seat { IsSome (own_or self.old.frame spare.old) }
        ensures frame { self.new.frame ≡ Some frame.old }
        ensures destination { self.new.destination ≡ self.old.destination }
        ensures seated { IsSome self.new.frame }
    {
        self.sit(spare);
        let Some(seat) = &mut self.frame else {
            return;
        };
        seat.swap(frame);
    }

    // The body of the call ends, and has no frame.
    fn leave(&mut self)
        ensures frame { seat_of self.new.frame ≡ entered [] }
        ensures destination { self.new.destination ≡ self.old.destination }
    {
        self.frame = None;
    }

    // The body of the call begins with the frame that was taken for it.
    fn enter(&mut self, body: &mut Option<Seat>)
        ensures frame { self.new.frame ≡ body.old }
        ensures destination { self.new.destination ≡ self.old.destination }
    {
        self.frame = body.take();
    }

    /// The body of the call is given an HRESULT, and the result of a call of its own, in its own frame, or in
    /// the spare one.
    #[tactic(auto, using(crate::proofs::SeatLemmas::own_view))]
    pub fn receive(
        &mut self,
        hr: HResult,
        to: Destination,
        value: Option<Value>,
        spare: &mut Option<Seat>,
    )
        requires seat { IsSome (own_or self.old.frame spare.old) }
        requires fresh { seat_of spare.old ≡ entered [] }
        requires to { IsDestination to }
        ensures frame { seat_of self.new.frame
            ≡ fold frame_with (seat_of self.old.frame) (to_answer hr ∷ to_destination to value) }
        ensures destination { self.new.destination ≡ self.old.destination }
    {
        self.sit(spare);
        let Some(seat) = &mut self.frame else {
            return;
        };
        seat.receive(hr, to, value);
    }

    // The result of the call is to go to this destination, in the frame of whoever calls.
    fn want(&mut self, destination: Destination)
        ensures frame { self.new.frame ≡ self.old.frame }
        ensures destination { self.new.destination ≡ destination }
        ensures seated { IsSome self.old.frame → IsSome self.new.frame }
    {
        self.destination = destination;
    }
}

/// The frames of scripts by lane, the calls from 0, the cells of objects from 0, and the packet buffers.
#[derive(Drop)]
pub struct Tables {
    pub scripts: Vec<Frame>,
    pub calls: Vec<CallRow>,
    pub cells: Vec<Cells>,
    pub buffers: Vec<ByteList>,
}

#[tactic(auto, using(crate::proofs::RowLemmas::set_beyond, crate::proofs::RowLemmas::map_set, crate::proofs::RowLemmas::map_kept, crate::proofs::RowLemmas::map_length))]
impl Tables {
    /// Gives the body of a call another frame, and takes the one that it had, or the spare one.
    pub fn place(&mut self, call: u32, frame: &mut Frame, spare: &mut Option<Seat>)
        requires seat { HasSeat (seats_of self.old.calls.items) call spare.old }
        ensures tables { seen self.new ≡ with_body (seen self.old) call frame.old }
        ensures seats { KeepsSeats (seats_of self.old.calls.items) (seats_of self.new.calls.items) }
    {
        if (call as usize) < self.calls.len() {
            let row = &mut self.calls[call as usize];
            row.place(frame, spare);
        }
    }

    /// Puts another frame in place of a script's, and that one in place of the other.
    pub fn set_script(&mut self, lane: u32, frame: &mut Frame)
        ensures tables { seen self.new ≡ with_script (seen self.old) lane frame.old }
        ensures calls { self.new.calls ≡ self.old.calls }
    {
        if (lane as usize) < self.scripts.len() {
            mem::swap(&mut self.scripts[lane as usize], frame);
        }
    }

    /// Puts other cells in place of an object's.
    pub fn set_cells(&mut self, object: u32, cells: Cells)
        ensures tables { seen self.new ≡ with_cells (seen self.old) object cells }
        ensures calls { self.new.calls ≡ self.old.calls }
    {
        if (object as usize) < self.cells.len() {
            self.cells[object as usize] = cells;
        }
    }

    /// Puts bytes in a buffer, where there are any to put.
    pub fn set_bytes(&mut self, bytes: Option<Bytes>)
        ensures tables { seen self.new ≡ with_bytes bytes (seen self.old) }
        ensures calls { self.new.calls ≡ self.old.calls }
    {
        let Some(Bytes { buffer, bytes }) = bytes else {
            return;
        };
        if (buffer as usize) < self.buffers.len() {
            self.buffers[buffer as usize] = bytes;
        }
    }

    /// Keeps where the result of a call is to go.
    pub fn want(&mut self, wanted: Option<Wanted>)
        ensures tables { seen self.new ≡ with_wanted wanted (seen self.old) }
        ensures seats { KeepsSeats (seats_of self.old.calls.items) (seats_of self.new.calls.items) }
    {
        let Some(Wanted { call, destination }) = wanted else {
            return;
        };
        if (call as usize) < self.calls.len() {
            let row = &mut self.calls[call as usize];
            row.want(destination);
        }
    }

    /// The body of a call ends.
    pub fn leave(&mut self, call: u32)
        ensures { seen self.new ≡ with_body (seen self.old) call (entered []) }
    {
        if (call as usize) < self.calls.len() {
            let row = &mut self.calls[call as usize];
            row.leave();
        }
    }

    /// The body of a call begins with the frame that was taken for it.
    pub fn enter(&mut self, call: u32, body: &mut Option<Seat>)
        ensures { seen self.new ≡ with_body (seen self.old) call (seat_of body.old) }
    {
        if (call as usize) < self.calls.len() {
            let row = &mut self.calls[call as usize];
            row.enter(body);
        }
    }

    /// A row for a call that is issued, for which there is room.
    #[tactic(auto, using(crate::proofs::RowLemmas::map_append))]
    pub fn add_call(&mut self)
        requires room { 0 < (room_of self.old).calls }
        ensures tables { seen self.new ≡ with_call (seen self.old) }
        ensures seats { KeepsSeats (seats_of self.old.calls.items) (seats_of self.new.calls.items) }
    {
        self.calls.push_reserved(CallRow {
            frame: None,
            destination: Destination::Nowhere,
        });
    }

    /// A row for an object that is made, for which there is room.
    pub fn add_object(&mut self)
        requires room { 0 < (room_of self.old).objects }
        ensures tables { seen self.new ≡ with_object (seen self.old) }
        ensures calls { self.new.calls ≡ self.old.calls }
    {
        self.cells.push_reserved(Cells::new());
    }
}
