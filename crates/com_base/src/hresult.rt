//! HRESULTs: their parts and the names that a text may use.
ghost use Rattle.std.specs.Prelude.{◌≡◌, ◌^◌, ◌<◌, ◌≤◌, IsTrue, ◌↔◌, slice_index};
ghost use Rattle.std.specs.Option.{option_copied};
ghost use Rattle.hex.specs.Hex.{upper_digits};
ghost use Rattle.com_base.specs.HResults.{name_of, facility_of, code_of, eight_digits, hresult_named};

/// An HRESULT by its 32 bits. Bit 31 tells a failure, bits 16 to 26 are the facility and bits 0 to 15
/// the code. Source: MS-ERREF, "HRESULT".
#[derive(Debug, Clone, Copy, PartialEq, Eq)]
pub struct HResult(pub u32);

// The upper-case hexadecimal digit of a number below 16.
fn upper_digit(number: u32) -> u8
    requires { number < 16 }
    ensures { result ≡ slice_index upper_digits number }
{
    b"0123456789ABCDEF"[number as usize]
}

impl HResult {
    /// Success.
    pub const S_OK: HResult = HResult(0x0000_0000);
    /// Success, with nothing done or with the answer no.
    pub const S_FALSE: HResult = HResult(0x0000_0001);
    /// The method has no body, or the form is not supported.
    pub const E_NOTIMPL: HResult = HResult(0x8000_4001);
    /// The object does not have the interface.
    pub const E_NOINTERFACE: HResult = HResult(0x8000_4002);
    /// A reference that is needed is null.
    pub const E_POINTER: HResult = HResult(0x8000_4003);
    /// An unspecified failure.
    pub const E_FAIL: HResult = HResult(0x8000_4005);
    /// A failure that nobody foresaw.
    pub const E_UNEXPECTED: HResult = HResult(0x8000_FFFF);
    /// An argument that is not allowed.
    pub const E_INVALIDARG: HResult = HResult(0x8007_0057);
    /// The class is not declared.
    pub const REGDB_E_CLASSNOTREG: HResult = HResult(0x8004_0154);
    /// The thread is in no apartment.
    pub const CO_E_NOTINITIALIZED: HResult = HResult(0x8004_01F0);
    /// The object is no longer connected.
    pub const CO_E_OBJNOTCONNECTED: HResult = HResult(0x8004_01FD);
    /// The callee's message filter rejected the call.
    pub const RPC_E_CALL_REJECTED: HResult = HResult(0x8001_0001);
    /// The caller's message filter cancelled the call.
    pub const RPC_E_CALL_CANCELED: HResult = HResult(0x8001_0002);
    /// The caller could not read the result.
    pub const RPC_E_CLIENT_CANTUNMARSHAL_DATA: HResult = HResult(0x8001_000C);
    /// The callee could not read the arguments.
    pub const RPC_E_SERVER_CANTUNMARSHAL_DATA: HResult = HResult(0x8001_000E);
    /// The thread holds too many open calls.
    pub const RPC_E_OUT_OF_RESOURCES: HResult = HResult(0x8001_0101);
    /// The thread is in an apartment of the other mode.
    pub const RPC_E_CHANGED_MODE: HResult = HResult(0x8001_0106);
    /// The interface has no method of that number.
    pub const RPC_E_INVALIDMETHOD: HResult = HResult(0x8001_0107);
    /// The object has disconnected from its clients.
    pub const RPC_E_DISCONNECTED: HResult = HResult(0x8001_0108);
    /// The callee is busy; the call may be made again.
    pub const RPC_E_SERVERCALL_RETRYLATER: HResult = HResult(0x8001_010A);
    /// The bytes are no marshalled reference.
    pub const RPC_E_INVALID_OBJREF: HResult = HResult(0x8001_011D);
    /// No member has that number.
    pub const DISP_E_MEMBERNOTFOUND: HResult = HResult(0x8002_0003);
    /// An argument cannot be coerced to its parameter's type.
    pub const DISP_E_TYPEMISMATCH: HResult = HResult(0x8002_0005);
    /// No member has that name.
    pub const DISP_E_UNKNOWNNAME: HResult = HResult(0x8002_0006);
    /// The arguments are not as many as the parameters.
    pub const DISP_E_BADPARAMCOUNT: HResult = HResult(0x8002_000E);

    /// Whether it tells a failure: bit 31.
    pub fn is_failure(self) -> bool
        ensures { IsTrue result ↔ (2 ^ 31 ≤ self.0) }
    {
        self.0 >= 0x8000_0000
    }

    /// The facility: bits 16 to 26.
    pub fn facility(self) -> u16
        ensures { result ≡ facility_of self.0 }
    {
        ((self.0 / 0x1_0000) % 0x800) as u16
    }

    /// The code: bits 0 to 15.
    pub fn code(self) -> u16
        ensures { result ≡ code_of self.0 }
    {
        (self.0 % 0x1_0000) as u16
    }

    /// Its value in eight upper-case hexadecimal digits, the highest first, as the documentation's tables
    /// write it behind `0x`.
    pub fn digits(self) -> [u8; 8]
        ensures { result ≡ eight_digits self.0 }
    {
        let HResult(number) = self;
        [
            upper_digit(number / 0x1000_0000 % 16),
            upper_digit(number / 0x100_0000 % 16),
            upper_digit(number / 0x10_0000 % 16),
            upper_digit(number / 0x1_0000 % 16),
            upper_digit(number / 0x1000 % 16),
            upper_digit(number / 0x100 % 16),
            upper_digit(number / 0x10 % 16),
            upper_digit(number % 16),
        ]
    }

    /// The name in the table of HRESULTs that a scenario and a history may use. None exactly where the
    /// table has no name for it.
    pub fn name(self) -> Option<&'static str>
        ensures { option_copied result ≡ name_of self.0 }
    {
        match self.0 {
            0x0000_0000 => Some("S_OK"),
            0x0000_0001 => Some("S_FALSE"),
            0x8000_4001 => Some("E_NOTIMPL"),
            0x8000_4002 => Some("E_NOINTERFACE"),
            0x8000_4003 => Some("E_POINTER"),
            0x8000_4005 => Some("E_FAIL"),
            0x8000_FFFF => Some("E_UNEXPECTED"),
            0x8007_0057 => Some("E_INVALIDARG"),
            0x8004_0154 => Some("REGDB_E_CLASSNOTREG"),
            0x8004_01F0 => Some("CO_E_NOTINITIALIZED"),
            0x8004_01FD => Some("CO_E_OBJNOTCONNECTED"),
            0x8001_0001 => Some("RPC_E_CALL_REJECTED"),
            0x8001_0002 => Some("RPC_E_CALL_CANCELED"),
            0x8001_000C => Some("RPC_E_CLIENT_CANTUNMARSHAL_DATA"),
            0x8001_000E => Some("RPC_E_SERVER_CANTUNMARSHAL_DATA"),
            0x8001_0101 => Some("RPC_E_OUT_OF_RESOURCES"),
            0x8001_0106 => Some("RPC_E_CHANGED_MODE"),
            0x8001_0107 => Some("RPC_E_INVALIDMETHOD"),
            0x8001_0108 => Some("RPC_E_DISCONNECTED"),
            0x8001_010A => Some("RPC_E_SERVERCALL_RETRYLATER"),
            0x8001_011D => Some("RPC_E_INVALID_OBJREF"),
            0x8002_0003 => Some("DISP_E_MEMBERNOTFOUND"),
            0x8002_0005 => Some("DISP_E_TYPEMISMATCH"),
            0x8002_0006 => Some("DISP_E_UNKNOWNNAME"),
            0x8002_000E => Some("DISP_E_BADPARAMCOUNT"),
            _ => None,
        }
    }

    /// The HRESULT that has this name in the table. None exactly for another text.
    pub fn from_name(name: &str) -> Option<HResult>
        ensures { result ≡ hresult_named name.now }
    {
        match name {
            "S_OK" => Some(HResult::S_OK),
            "S_FALSE" => Some(HResult::S_FALSE),
            "E_NOTIMPL" => Some(HResult::E_NOTIMPL),
            "E_NOINTERFACE" => Some(HResult::E_NOINTERFACE),
            "E_POINTER" => Some(HResult::E_POINTER),
            "E_FAIL" => Some(HResult::E_FAIL),
            "E_UNEXPECTED" => Some(HResult::E_UNEXPECTED),
            "E_INVALIDARG" => Some(HResult::E_INVALIDARG),
            "REGDB_E_CLASSNOTREG" => Some(HResult::REGDB_E_CLASSNOTREG),
            "CO_E_NOTINITIALIZED" => Some(HResult::CO_E_NOTINITIALIZED),
            "CO_E_OBJNOTCONNECTED" => Some(HResult::CO_E_OBJNOTCONNECTED),
            "RPC_E_CALL_REJECTED" => Some(HResult::RPC_E_CALL_REJECTED),
            "RPC_E_CALL_CANCELED" => Some(HResult::RPC_E_CALL_CANCELED),
            "RPC_E_CLIENT_CANTUNMARSHAL_DATA" => Some(HResult::RPC_E_CLIENT_CANTUNMARSHAL_DATA),
            "RPC_E_SERVER_CANTUNMARSHAL_DATA" => Some(HResult::RPC_E_SERVER_CANTUNMARSHAL_DATA),
            "RPC_E_OUT_OF_RESOURCES" => Some(HResult::RPC_E_OUT_OF_RESOURCES),
            "RPC_E_CHANGED_MODE" => Some(HResult::RPC_E_CHANGED_MODE),
            "RPC_E_INVALIDMETHOD" => Some(HResult::RPC_E_INVALIDMETHOD),
            "RPC_E_DISCONNECTED" => Some(HResult::RPC_E_DISCONNECTED),
            "RPC_E_SERVERCALL_RETRYLATER" => Some(HResult::RPC_E_SERVERCALL_RETRYLATER),
            "RPC_E_INVALID_OBJREF" => Some(HResult::RPC_E_INVALID_OBJREF),
            "DISP_E_MEMBERNOTFOUND" => Some(HResult::DISP_E_MEMBERNOTFOUND),
            "DISP_E_TYPEMISMATCH" => Some(HResult::DISP_E_TYPEMISMATCH),
            "DISP_E_UNKNOWNNAME" => Some(HResult::DISP_E_UNKNOWNNAME),
            "DISP_E_BADPARAMCOUNT" => Some(HResult::DISP_E_BADPARAMCOUNT),
            _ => None,
        }
    }
}
