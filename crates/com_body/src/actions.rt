//! The actions that a step gives.

use crate::operands::{Asked, Destination, Place};
use com_base::{ByteList, HResult, MarshalMode, Mode, RefValue, Rows, Value};

/// One action with its operands' values, as it goes to the runtime.
///
/// A slot or link that is only read has become the reference in it, `None` for null. Slots, links and buffers
/// that the action changes keep their numbers, since the runtime changes them when the action takes effect.
#[derive(Debug, Drop)]
pub enum Action {
    /// Makes an object of the class, for the slot.
    Create {
        slot: u8,
        class: Asked,
        iface: Asked,
    },
    /// Asks the reference for another interface, for the slot `to`.
    Query {
        to: u8,
        held: Option<RefValue>,
        iface: Asked,
    },
    /// Puts the reference at the place.
    Copy {
        to: Place,
        held: Option<RefValue>,
    },
    /// Gives up the reference at the place, which is `held`.
    Release {
        place: Place,
        held: Option<RefValue>,
    },
    /// Calls the method on the target.
    Call {
        target: Option<RefValue>,
        iface: u16,
        method: u16,
        args: Rows<Value>,
        destination: Destination,
    },
    /// Writes the reference as a packet into the buffer.
    Marshal {
        buffer: u8,
        held: Option<RefValue>,
        mode: MarshalMode,
    },
    /// Reads the packet in the buffer as a reference for the slot.
    Unmarshal {
        slot: u8,
        buffer: u8,
    },
    /// Gives up the packet in the buffer.
    Drop {
        buffer: u8,
    },
    /// Puts these very bytes in the buffer.
    Raw {
        buffer: u8,
        bytes: ByteList,
    },
    /// Puts the reference in the global interface table, and its cookie in the register `to`.
    Register {
        to: u8,
        held: Option<RefValue>,
    },
    /// Takes the reference with this cookie, for the slot.
    Get {
        slot: u8,
        cookie: i64,
    },
    /// Ends the cookie.
    Revoke {
        cookie: i64,
    },
    /// Disconnects the object from all callers.
    Disconnect {
        held: Option<RefValue>,
    },
    /// Posts the word to the lane.
    Post {
        lane: i64,
        word: i64,
    },
    /// Asks the lane's pump to end.
    Quit {
        lane: i64,
    },
    /// Ends the body with the HRESULT, and with the value where one was given. In a script it means that the
    /// script is over.
    Leave {
        answer: HResult,
        value: Option<Value>,
    },
    /// Initialises the lane's apartment.
    Init {
        mode: Mode,
    },
    /// Takes one initialisation back.
    Uninit,
    /// Names the message filter of the lane's STA by its number from 1, or none.
    SetFilter {
        filter: Option<u32>,
    },
    /// Serves calls and words until `bound` bodies have left, or without bound where it is 0.
    Pump {
        bound: u32,
    },
}
