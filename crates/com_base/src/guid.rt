//! GUIDs, their wire form and their text.
ghost use Rattle.std.specs.Prelude.{◌≡◌};
ghost use Rattle.com_base.specs.Guids.{wire_of, guid_of_wire, text_of, guid_of_text, reading_order_of};

use uuid::Uuid;

/// A globally unique identifier, by its four fields.
/// Source: the GUID structure of the documentation, and MS-DTYP, "GUID".
#[derive(Debug, Clone, Copy, PartialEq, Eq)]
pub struct Guid {
    /// The first eight hexadecimal digits of the text.
    pub data1: u32,
    /// The next four digits.
    pub data2: u16,
    /// The four digits behind those.
    pub data3: u16,
    /// The last sixteen digits, by bytes as they stand in the text.
    pub data4: [u8; 8],
}

impl Guid {
    /// The GUID whose fields are all zero.
    pub const ZERO: Guid = Guid {
        data1: 0,
        data2: 0,
        data3: 0,
        data4: [0, 0, 0, 0, 0, 0, 0, 0],
    };

    /// The GUID on the wire: the first three fields little-endian, then the eight bytes of the fourth as
    /// they are. Source: MS-DTYP, "GUID--Packet Representation".
    pub fn to_wire(&self) -> [u8; 16]
        ensures { result ≡ wire_of self.now }
    {
        let [a0, a1, a2, a3] = self.data1.to_le_bytes();
        let [b0, b1] = self.data2.to_le_bytes();
        let [c0, c1] = self.data3.to_le_bytes();
        let [d0, d1, d2, d3, d4, d5, d6, d7] = self.data4;
        [
            a0, a1, a2, a3, b0, b1, c0, c1, d0, d1, d2, d3, d4, d5, d6, d7,
        ]
    }

    /// The GUID that these wire bytes are.
    pub fn from_wire(bytes: &[u8; 16]) -> Guid
        ensures { result ≡ guid_of_wire bytes.now }
    {
        Guid::of_fields(Uuid::from_bytes(*bytes).to_fields_le())
    }

    /// The text in braces, in upper case: `{5C0B0001-0000-4000-8000-000000000001}`.
    /// Source: StringFromGUID2.
    pub fn text(&self) -> [u8; 38]
        ensures { result ≡ text_of self.now }
    {
        let uuid = self.uuid();
        let mut buffer = [0u8; 38];
        let written = uuid.braced().encode_upper(&mut buffer).as_bytes();
        let mut text = [0u8; 38];
        text.copy_from_slice(written);
        text
    }

    /// The GUID of a text of 8, 4, 4, 4 and 12 hexadecimal digits in either case, with hyphens between
    /// and braces around. None exactly for a text of another form.
    pub fn parse(text: &str) -> Option<Guid>
        ensures { result ≡ guid_of_text text.now }
    {
        if text.len() != 38 {
            return None;
        }
        match Uuid::parse_str(text) {
            Ok(uuid) => Some(Guid::of_fields(uuid.as_fields())),
            Err(_) => None,
        }
    }

    // The GUID as the kit's type, whose sixteen bytes are in the order in which the text shows them: each
    // field from its high byte down.
    #[tactic(auto, using(crate::proofs::Lengths::turned))]
    fn uuid(&self) -> Uuid
        ensures { result ≡ reading_order_of self.now }
    {
        Uuid::from_bytes_le(self.to_wire())
    }

    // The GUID with these four fields, in their order.
    fn of_fields(fields: (u32, u16, u16, [u8; 8])) -> Guid
        ensures { result ≡ record { data1 = fields.0; data2 = fields.1; data3 = fields.2; data4 = fields.3 } }
    {
        let (data1, data2, data3, data4) = fields;
        Guid {
            data1,
            data2,
            data3,
            data4,
        }
    }
}
