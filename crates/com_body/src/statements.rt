//! The statements of a body or a script.

use crate::operands::{Arg, Asked, Code, Destination, Given, Op, Place};
use com_base::{ByteList, MarshalMode, Mode, Rows};

/// One statement, as it is written.
///
/// Registers, slots, cells, links and packet buffers are numbered from 0 to below their count. The first nine are
/// local: they change only the frame and the cells. All others are actions.
#[derive(Debug, Drop)]
pub enum Stmt {
    /// The register takes the value.
    Set {
        to: u8,
        from: Op,
    },
    /// The register takes the sum of its number and the operand's, wrapped to 64 bits.
    Add {
        to: u8,
        from: Op,
    },
    /// The register takes its number less the operand's, wrapped to 64 bits.
    Sub {
        to: u8,
        from: Op,
    },
    /// The register takes 1 where the left number is smaller than the right one, else 0.
    Less {
        to: u8,
        left: Op,
        right: Op,
    },
    /// The register takes 1 where both slots name one object or both are null, else 0.
    Same {
        to: u8,
        left: u8,
        right: u8,
    },
    /// The register takes the cell's number.
    Load {
        to: u8,
        cell: u8,
    },
    /// The cell takes the operand's number.
    Store {
        cell: u8,
        from: Op,
    },
    /// Passes over the next `count` statements.
    Skip {
        count: u32,
    },
    /// Passes over the next `count` statements where the register's number is 0.
    SkipZero {
        register: u8,
        count: u32,
    },
    /// Makes an object of the class and puts its reference of the interface in the slot.
    Create {
        slot: u8,
        class: Asked,
        iface: Asked,
    },
    /// Asks the reference in slot `from` for another interface, for slot `to`.
    Query {
        to: u8,
        from: u8,
        iface: Asked,
    },
    /// Puts the reference at `from` also at `to`.
    Copy {
        to: Place,
        from: Place,
    },
    /// Gives up the reference at the place.
    Release {
        place: Place,
    },
    /// Calls the method on the reference in the slot. A method that is given by number alone has no arguments
    /// here.
    Call {
        slot: u8,
        iface: u16,
        method: u16,
        args: Rows<Arg>,
        destination: Destination,
    },
    /// Writes the reference in the slot as a packet into the buffer.
    Marshal {
        buffer: u8,
        slot: u8,
        mode: MarshalMode,
    },
    /// Reads the packet in the buffer as a reference for the slot.
    Unmarshal {
        slot: u8,
        buffer: u8,
    },
    /// Gives up the packet in the buffer.
    Drop {
        buffer: u8,
    },
    /// Puts these very bytes in the buffer.
    Raw {
        buffer: u8,
        bytes: ByteList,
    },
    /// Puts the reference in the slot in the global interface table, and its cookie in the register.
    Register {
        to: u8,
        slot: u8,
    },
    /// Takes the reference with this cookie from the global interface table, for the slot.
    Get {
        slot: u8,
        cookie: Op,
    },
    /// Ends the cookie.
    Revoke {
        cookie: Op,
    },
    /// Disconnects the object in the slot from all callers.
    Disconnect {
        slot: u8,
    },
    /// Posts a word to a lane.
    Post {
        lane: Op,
        word: Op,
    },
    /// Asks a lane's pump to end.
    Quit {
        lane: Op,
    },
    /// Ends the body with an HRESULT and a result.
    Leave {
        answer: Code,
        given: Given,
    },
    /// Initialises the lane's apartment.
    Init {
        mode: Mode,
    },
    /// Takes one initialisation back.
    Uninit,
    /// Names the message filter of the lane's STA by its number from 1, or none.
    SetFilter {
        filter: Option<u32>,
    },
    /// Serves calls and words until `bound` bodies have left, or without bound where it is 0.
    Pump {
        bound: u32,
    },
}
