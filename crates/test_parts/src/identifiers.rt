//! Documented identifiers: their texts, their wire bytes and their names.

use crate::worked::FIELDS;
use com_base::{
    Guid, HResult, IID_ICLASS_FACTORY, IID_IGLOBAL_INTERFACE_TABLE, IID_IMESSAGE_FILTER,
    IID_IUNKNOWN,
};
use std::test::*;

#[test]
fn a_guid_is_read_in_either_case_and_printed_in_upper_case(rt: HostRuntime) -> Result<(), Fail> {
    let read = Guid::parse("{5c0B0001-0000-4000-8000-000000000001}").ok_or("no GUID")?;
    assert!(rt; read == FIELDS.iid);
    assert_eq!(rt;
        read.text().as_slice(),
        b"{5C0B0001-0000-4000-8000-000000000001}".as_slice()
    );
    assert!(rt; Guid::parse("5C0B0001-0000-4000-8000-000000000001").is_none());
    assert!(rt; Guid::parse("{5C0B0001-0000-4000-8000-00000000000g}").is_none());
    Ok(())
}

#[test]
fn documented_interfaces_have_their_identifiers(rt: HostRuntime) {
    for (iid, text) in [
        (IID_IUNKNOWN, b"{00000000-0000-0000-C000-000000000046}"),
        (
            IID_ICLASS_FACTORY,
            b"{00000001-0000-0000-C000-000000000046}",
        ),
        (
            IID_IMESSAGE_FILTER,
            b"{00000016-0000-0000-C000-000000000046}",
        ),
        (
            IID_IGLOBAL_INTERFACE_TABLE,
            b"{00000146-0000-0000-C000-000000000046}",
        ),
    ] {
        assert_eq!(rt; iid.text().as_slice(), text.as_slice());
    }
    assert_eq!(rt;
        IID_IMESSAGE_FILTER.to_wire(),
        [0x16, 0, 0, 0, 0, 0, 0, 0, 0xc0, 0, 0, 0, 0, 0, 0, 0x46]
    );
}

#[test]
fn hresults_have_their_documented_names(rt: HostRuntime) {
    for (number, name) in [
        (0x0000_0001, "S_FALSE"),
        (0x8000_4002, "E_NOINTERFACE"),
        (0x8000_FFFF, "E_UNEXPECTED"),
        (0x8007_0057, "E_INVALIDARG"),
        (0x8004_0154, "REGDB_E_CLASSNOTREG"),
        (0x8004_01F0, "CO_E_NOTINITIALIZED"),
        (0x8001_0001, "RPC_E_CALL_REJECTED"),
        (0x8001_0106, "RPC_E_CHANGED_MODE"),
        (0x8001_0108, "RPC_E_DISCONNECTED"),
        (0x8001_010A, "RPC_E_SERVERCALL_RETRYLATER"),
        (0x8002_0005, "DISP_E_TYPEMISMATCH"),
    ] {
        assert_eq!(rt; HResult(number).name(), Some(name));
    }
    let invalid = HResult::E_INVALIDARG;
    assert!(rt; invalid.is_failure());
    assert_eq!(rt; invalid.facility(), 7);
    assert_eq!(rt; invalid.code(), 0x57);
    assert_eq!(rt; invalid.digits(), *b"80070057");
    assert!(rt; HResult::from_name("E_INVALIDARG") == Some(invalid));
    assert!(rt; HResult::from_name("s_ok").is_none());
}
