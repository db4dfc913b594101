//! Small lists.

ghost use Rattle.std.specs.Prelude.{◌≡◌};
ghost use Rattle.com_read_lines.specs.Tables.{guid_eq, has_guid};

use com_base::Guid;

// Whether two GUIDs are equal, field by field.
fn same_guid(left: &Guid, right: &Guid) -> bool
    ensures { result ≡ guid_eq left.now right.now }
{
    left.data1 == right.data1
        && left.data2 == right.data2
        && left.data3 == right.data3
        && left.data4.as_slice() == right.data4.as_slice()
}

// Whether a GUID is among those that are declared.
pub(crate) fn has_guid(guids: &[Guid], guid: &Guid) -> bool
    ensures { result ≡ has_guid guids.now guid.now }
{
    for declared in guids {
        if same_guid(declared, guid) {
            return true;
        }
    }
    false
}
