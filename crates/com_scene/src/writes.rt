//! What an entry writes for whoever acts.
ghost use Rattle.std.specs.Prelude.{◌≡◌, ◌<◌, ◌^◌, ℕ, List, [], ◌∷◌, Some, fold};
ghost use Rattle.com_body.specs.Bodies.{IsPlace};
ghost use Rattle.com_model.specs.Frames.{taken_in, reference, cookie_in, marshalled_in, writes, to_place};
ghost use Rattle.com_model.specs.Frames.{ToBuffer};
ghost use Rattle.com_scene.specs.Prepared.{packet_in, IsTaken};
ghost use Rattle.com_scene.specs.Ranges.{FitsDeed, WritesInRange, IsInRange};
ghost use Rattle.com_scene.specs.Steps.{IsMoreInRange, writing_of, listed, more_writes, raw_writes};
ghost use Rattle.com_scene.specs.Steps.{frame_with, writes_of};
ghost use Rattle.com_scene.specs.Steps.{cells_with, bytes_of, wanted_of};

use com_base::{ANSWER_REGISTER, ByteList, HResult, RefValue, Value};
use com_body::{Action, Asked, Cells, Destination, Frame, Place};
use com_model::Deed;
use std::mem;

/// One write: in a register or a slot of a frame, in a link of an object, or in a packet buffer.
#[derive(Drop)]
pub enum Write {
    /// A register, 0 to 15.
    Register(u8, Value),
    /// A slot, 0 to 7.
    Slot(u8, Option<RefValue>),
    /// A link, 0 to 3.
    Link(u8, Option<RefValue>),
    /// A buffer, 0 to 63.
    Buffer(u8, ByteList),
}

/// All that an entry writes for whoever acts: first its HRESULT, where it gives one, and then what the
/// destination takes.
#[derive(Drop)]
pub struct Writes {
    pub answer: Option<HResult>,
    pub more: Option<Write>,
}

/// Bytes for a buffer, 0 to 63.
#[derive(Drop)]
pub struct Bytes {
    pub buffer: u8,
    pub bytes: ByteList,
}

/// Where the result of a call is to go.
#[derive(Drop)]
pub struct Wanted {
    pub call: u32,
    pub destination: Destination,
}

/// Where the result of a call that an entry issues is to go, and nothing at all other entries.
pub fn wanted_by(action: &Action, deed: &Deed) -> Option<Wanted>
    ensures { result ≡ wanted_of action.now deed.now }
{
    match (action, deed) {
        (Action::Call { destination, .. }, Deed::Out { call, .. }) => Some(Wanted {
            call: *call,
            destination: *destination,
        }),
        _ => None,
    }
}

/// The reference that an entry gives to whoever acts: that of an object that it made, asked for, unmarshalled
/// or got from the global table; null where it gives none.
pub fn given_reference(deed: &Deed) -> Option<RefValue>
    requires { FitsDeed deed.now }
    ensures { result ≡ taken_in deed.now }
{
    match deed {
        Deed::Made {
            object: Some(object),
            iface: Asked::Number(iface),
            ..
        } => reference(*object, *iface),
        Deed::Query {
            object: Some(object),
            iface: Asked::Number(iface),
            hr,
        } => {
            if *hr == HResult::S_OK {
                reference(*object, *iface)
            } else {
                None
            }
        }
        Deed::Unmarshal { held, .. } => *held,
        Deed::Get { held, .. } => *held,
        _ => None,
    }
}

// A reference to an object, by an interface that is numbered in 16 bits.
fn reference(object: u32, iface: u32) -> Option<RefValue>
    requires { iface < 2 ^ 16 }
    ensures { result ≡ Some (reference object iface) }
{
    let iface = iface as u16;
    Some(RefValue { object, iface })
}

// The cookie that an entry gives to whoever acts, and 0 where it gives none.
fn cookie(deed: &Deed) -> u32
    ensures { result ≡ cookie_in deed.now }
{
    match deed {
        Deed::Register {
            cookie: Some(cookie),
            ..
        } => *cookie,
        _ => 0,
    }
}

// The write of a reference, or of null, at a place.
fn at_place(place: Place, held: Option<RefValue>) -> Write
    requires { IsPlace place }
    ensures write { writing_of result ≡ to_place place held }
    ensures in_range { IsInRange (writing_of result) }
{
    match place {
        Place::Slot(number) => Write::Slot(number, held),
        Place::Link(number) => Write::Link(number, held),
    }
}

// The write of a packet to a buffer.
fn put_packet(buffer: u8, packet: Option<ByteList>) -> Option<Write>
    ensures writes { (bytes : List ℕ) → packet ≡ Some bytes
        → listed None result ≡ ToBuffer buffer bytes ∷ [] }
    ensures in_range { IsMoreInRange result }
{
    match packet {
        Some(bytes) => Some(Write::Buffer(buffer, bytes)),
        None => None,
    }
}

// The write of the packet that an entry made to a buffer, where it made one.
fn packet_write(buffer: u8, deed: &Deed, packet: &mut Option<ByteList>) -> Option<Write>
    requires { IsTaken (packet_in deed.now) packet.old }
    ensures writes { listed None result ≡ marshalled_in buffer deed.now }
    ensures in_range { IsMoreInRange result }
{
    match deed {
        Deed::Marshal { bytes: Some(_), .. } => put_packet(buffer, packet.take()),
        _ => None,
    }
}

// What a `raw` puts in a buffer. Its bytes are moved out of the action.
fn raw_write(action: &mut Action) -> Option<Write>
    requires { WritesInRange action.old }
    ensures writes { listed None result ≡ raw_writes action.old }
    ensures in_range { IsMoreInRange result }
{
    match mem::replace(action, Action::Uninit) {
        Action::Raw { buffer, bytes } => Some(Write::Buffer(buffer, bytes)),
        _ => None,
    }
}

// What the destination of an action takes, by the entry that does the action. The packet is what the entry
// made.
fn taken_write(action: &mut Action, deed: &Deed, packet: &mut Option<ByteList>) -> Option<Write>
    requires deed { FitsDeed deed.now }
    requires action { WritesInRange action.old }
    requires packet { IsTaken (packet_in deed.now) packet.old }
    ensures writes { listed None result ≡ more_writes action.old deed.now }
    ensures in_range { IsMoreInRange result }
{
    match action {
        Action::Create { slot, .. } => Some(Write::Slot(*slot, given_reference(deed))),
        Action::Query { to, .. } => Some(Write::Slot(*to, given_reference(deed))),
        Action::Copy { to, held } => Some(at_place(*to, *held)),
        Action::Release { place, .. } => Some(at_place(*place, None)),
        Action::Marshal { buffer, .. } => packet_write(*buffer, deed, packet),
        Action::Unmarshal { slot, .. } => Some(Write::Slot(*slot, given_reference(deed))),
        Action::Raw { .. } => raw_write(action),
        Action::Register { to, .. } => Some(Write::Register(*to, Value::Int(cookie(deed) as i64))),
        Action::Get { slot, .. } => Some(Write::Slot(*slot, given_reference(deed))),
        _ => None,
    }
}

impl Writes {
    /// What the entry of an action writes for whoever acts. The packet is what the entry made. What is left
    /// of the action has no use any more.
    pub fn of(action: &mut Action, deed: &Deed, packet: &mut Option<ByteList>) -> Writes
        requires deed { FitsDeed deed.now }
        requires action { WritesInRange action.old }
        requires packet { IsTaken (packet_in deed.now) packet.old }
        ensures writes { writes_of result ≡ writes action.old deed.now }
        ensures in_range { IsMoreInRange result.more }
    {
        match action {
            Action::Call { .. } | Action::Leave { .. } | Action::Pump { .. } => Writes {
                answer: None,
                more: None,
            },
            _ => Writes {
                answer: Some(deed.answer()),
                more: taken_write(action, deed, packet),
            },
        }
    }

    /// Does the writes to the frame and the cells of whoever acts, and gives what is to go to a buffer.
    pub fn put(self, frame: &mut Frame, cells: &mut Cells) -> Option<Bytes>
        requires { IsMoreInRange self.more }
        ensures frame { frame.new ≡ fold frame_with frame.old (writes_of self) }
        ensures cells { cells.new ≡ fold cells_with cells.old (writes_of self) }
        ensures bytes { result ≡ bytes_of self.more }
    {
        let Writes { answer, more } = self;
        if let Some(answer) = answer {
            frame.set_register(ANSWER_REGISTER, Value::Int(answer.0 as i64));
        }
        put_more(more, frame, cells)
    }
}

// Does the write that an action's destination takes, to the frame or the cells, and gives the
// bytes where it is for a buffer.
fn put_more(more: Option<Write>, frame: &mut Frame, cells: &mut Cells) -> Option<Bytes>
    requires { IsMoreInRange more }
    ensures frame { frame.new ≡ fold frame_with frame.old (listed None more) }
    ensures cells { cells.new ≡ fold cells_with cells.old (listed None more) }
    ensures bytes { result ≡ bytes_of more }
{
    match more {
        None => None,
        Some(Write::Register(number, value)) => {
            frame.set_register(number, value);
            None
        }
        Some(Write::Slot(number, held)) => {
            frame.set_slot(number, held);
            None
        }
        Some(Write::Link(number, held)) => {
            cells.links[number as usize] = held;
            None
        }
        Some(Write::Buffer(buffer, bytes)) => Some(Bytes { buffer, bytes }),
    }
}
