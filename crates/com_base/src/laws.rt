//! Laws of the forms: functions that do nothing, whose contracts are the laws.
ghost use Rattle.std.specs.Prelude.{◌≡◌, ◌↔◌, List, ℕ, Some, length};
ghost use Rattle.com_base.specs.declared.guid.Guid.{Guid};
ghost use Rattle.com_base.specs.declared.hresult.HResult.{HResult};
ghost use Rattle.com_base.specs.Guids.{IsBytes, IsGuid, wire_of, guid_of_wire, text_of, guid_of_text};
ghost use Rattle.com_base.specs.HResults.{name_of, hresult_named};

/// Each form of a GUID is read again as that GUID, and 16 bytes are written again by the GUID that they
/// are on the wire.
pub fn forms_are_inverse()
    ensures wire { (guid : Guid) → IsGuid guid → guid_of_wire (wire_of guid) ≡ guid }
    ensures bytes { (bytes : List ℕ) → length bytes ≡ 16 → IsBytes bytes
        → wire_of (guid_of_wire bytes) ≡ bytes }
    ensures text { (guid : Guid) → IsGuid guid → guid_of_text (text_of guid) ≡ Some guid }
{}

/// The table of HRESULTs has one name for each of its values, and one value for each of its names.
pub fn names_are_inverse()
    ensures { (value : HResult) (name : List ℕ)
        → (name_of value.0 ≡ Some name) ↔ (hresult_named name ≡ Some value) }
{}
