//! The identifiers that the documentation fixes, and the fields of a standard reference on the wire.
use crate::guid::Guid;

// IUnknown's last eight bytes, which Microsoft's own interfaces share.
const MICROSOFT: [u8; 8] = [0xc0, 0, 0, 0, 0, 0, 0, 0x46];

/// IUnknown. Source: the documentation of IUnknown.
pub const IID_IUNKNOWN: Guid = Guid {
    data1: 0,
    data2: 0,
    data3: 0,
    data4: MICROSOFT,
};

/// IClassFactory, which a scenario may not declare. Source: the documentation of IClassFactory.
pub const IID_ICLASS_FACTORY: Guid = Guid {
    data1: 1,
    data2: 0,
    data3: 0,
    data4: MICROSOFT,
};

/// IMessageFilter, which a scenario may not declare. Source: the documentation of IMessageFilter.
pub const IID_IMESSAGE_FILTER: Guid = Guid {
    data1: 0x16,
    data2: 0,
    data3: 0,
    data4: MICROSOFT,
};

/// IGlobalInterfaceTable, which a scenario may not declare.
/// Source: the documentation of IGlobalInterfaceTable.
pub const IID_IGLOBAL_INTERFACE_TABLE: Guid = Guid {
    data1: 0x146,
    data2: 0,
    data3: 0,
    data4: MICROSOFT,
};

/// What a marshalled reference says. Source: MS-DCOM 2.2.18, "OBJREF", and "STDOBJREF".
#[derive(Debug, Clone, Copy, PartialEq, Eq)]
pub struct StdFields {
    /// The identifier of the interface.
    pub iid: Guid,
    /// How many public references the packet carries.
    pub refs: u32,
    /// The OXID: the exporter, which is the apartment that owns the object.
    pub oxid: u64,
    /// The OID: the object, at its exporter.
    pub oid: u64,
    /// The IPID: the interface of the object, at its exporter.
    pub ipid: Guid,
}
