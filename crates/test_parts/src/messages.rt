//! Requests, replies and their arguments.
//! Source: MS-DCOM 2.2.13, "ORPC Call Conventions"; C706, chapter 14, "Transfer Syntax NDR".
ghost use Rattle.std.specs.Prelude.{IfOk, length, ◌≤◌};
ghost use Rattle.ndr_args.specs.Written.{CanSend, HasKind};

use crate::worked::{FIELDS, STANDARD};
use com_base::{ByteList, Guid, Kind, Memory};
use ndr_args::{Wire, read_args, write_args};
use orpc::{read_reply, read_request, reply, request};
use std::alloc::Global;
use std::test::*;

const CAUSE_1: Guid = Guid {
    data1: 1,
    data2: 0,
    data3: 0,
    data4: [0; 8],
};

// The header of a request with causality 1.
const REQUEST_1: [u8; 32] = [
    5, 0, 7, 0, 0, 0, 0, 0, 0, 0, 0, 0, 1, 0, 0, 0, 0, 0, 0, 0, 0, 0, 0, 0, 0, 0, 0, 0, 0, 0, 0, 0,
];

// The text ab and the number 5.
const TEXT_AND_NUMBER: [u8; 16] = [2, 0, 0, 0, 0x61, 0x62, 0, 0, 5, 0, 0, 0, 0, 0, 0, 0];

// What stands before the first OBJREF of a stream: its referent and both counts.
const COUNTS: [u8; 12] = [0, 0, 2, 0, 0x48, 0, 0, 0, 0x48, 0, 0, 0];

fn text(alloc: Global, text: &str) -> Result<Wire, Memory>
    requires { length text.now ≤ 65536 }
    ensures kind { IfOk result (HasKind Kind.Text) }
    ensures sent { IfOk result CanSend }
{
    Ok(Wire::Text(ByteList::from_slice(alloc, text.as_bytes())?))
}

#[test]
fn worked_headers_are_written_and_read(rt: HostRuntime) -> Result<(), Fail> {
    let mut out = ByteList::new(rt.alloc());
    request(&CAUSE_1, &mut out)?;
    assert_eq!(rt; out.as_slice(), REQUEST_1.as_slice());
    assert!(rt; read_request(&REQUEST_1) == Ok(CAUSE_1));
    let mut out = ByteList::new(rt.alloc());
    reply(&mut out)?;
    assert_eq!(rt; out.as_slice(), [0; 8].as_slice());
    assert!(rt; read_reply(&[0; 8]) == Ok(()));
    Ok(())
}

#[test]
fn worked_arguments_are_written_and_read(rt: HostRuntime) -> Result<(), Fail> {
    let kinds = [Kind::Text, Kind::Int];
    let mut out = ByteList::new(rt.alloc());
    let sent = [text(rt.alloc(), "ab")?, Wire::Int(5)];
    write_args(&kinds, &sent, &mut out)?;
    assert_eq!(rt; out.as_slice(), TEXT_AND_NUMBER.as_slice());
    let values = read_args(rt.alloc(), &kinds, &TEXT_AND_NUMBER)
        .ok()
        .ok_or("the bytes are arguments")?;
    assert!(rt;
        matches!(
            values.as_slice(),
            [Wire::Text(text), Wire::Int(5)] if text.as_slice() == b"ab".as_slice()
        )
    );
    Ok(())
}

#[test]
fn a_worked_reference_travels_behind_its_counts(rt: HostRuntime) -> Result<(), Fail> {
    let kinds = [Kind::Ref(2)];
    let bytes = [COUNTS.as_slice(), STANDARD.as_slice()].concat(rt.alloc())?;
    let mut out = ByteList::new(rt.alloc());
    write_args(&kinds, &[Wire::Ref(Some(FIELDS))], &mut out)?;
    assert_eq!(rt; out.as_slice(), bytes.as_slice());
    let values = read_args(rt.alloc(), &kinds, bytes.as_slice())
        .ok()
        .ok_or("the bytes are arguments")?;
    assert!(rt; matches!(values.as_slice(), [Wire::Ref(Some(fields))] if *fields == FIELDS));
    let values = read_args(rt.alloc(), &kinds, &[0; 4])
        .ok()
        .ok_or("the bytes are arguments")?;
    assert!(rt; matches!(values.as_slice(), [Wire::Ref(None)]));
    Ok(())
}
