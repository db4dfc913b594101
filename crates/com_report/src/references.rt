//! The rows of actions on apartments, objects and references. Each writes what stands behind the front of the
//! line. A row without a version is the same in every version.
ghost use Rattle.std.specs.Prelude.{◌≡◌, ◌++◌, ◌+◌, ◌≤◌, [], length, drop, decimal, codes};
ghost use Rattle.com_model.specs.Text.{deed_line, mode_text, marshal_mode_text, hresult_text};
ghost use Rattle.com_model.specs.Text.{named, held_text, asked_text, bytes_text};
ghost use Rattle.com_report.specs.Width.{bytes_width};

use crate::pieces::{
    bytes, class_or_interface, hresult, letter_and_number, reference, signed_after, word,
    word_and_number,
};
use com_base::{ByteList, HResult, MarshalMode, Mode, RefValue};
use com_body::Asked;
use com_model::Deed;

/// How a thread entered its apartment.
pub fn init(room: &mut [u8], end: usize, version: u8, mode: Mode, home: u32, hr: HResult) -> usize
    requires { (160 ≤ end) × (end ≤ length room.old) }
    ensures taken { (result ≤ end) × (end ≤ result + 160) }
    ensures written { drop result room.new ≡ deed_line version [] (Deed.Init mode home hr) ++ drop end room.old }
{
    let at = hresult(room, end, version, hr);
    let at = word_and_number(room, at, b" a", home as u64);
    let at = mode_word(room, at, mode);
    word(room, at, b" init")
}

// Writes behind a space which kind of apartment a thread asked for.
fn mode_word(room: &mut [u8], end: usize, mode: Mode) -> usize
    requires { (4 ≤ end) × (end ≤ length room.old) }
    ensures taken { (result ≤ end) × (end ≤ result + 4) }
    ensures written { drop result room.new ≡ codes " " ++ mode_text mode ++ drop end room.old }
{
    match mode {
        Mode::Sta => word(room, end, b" sta"),
        Mode::Mta => word(room, end, b" mta"),
    }
}

/// How a thread left its apartment.
pub fn uninit(room: &mut [u8], end: usize, home: Option<u32>, count: u32) -> usize
    requires { (160 ≤ end) × (end ≤ length room.old) }
    ensures taken { (result ≤ end) × (end ≤ result + 160) }
    ensures written { drop result room.new ≡ deed_line 1 [] (Deed.Uninit home count) ++ drop end room.old }
{
    let at = word_and_number(room, end, b" ", count as u64);
    let at = letter_and_number(room, at, b"a", home);
    word(room, at, b" uninit")
}

/// Which object was made, and where.
pub fn create(room: &mut [u8], end: usize, object: Option<u32>, apartment: Option<u32>) -> usize
    requires { (50 ≤ end) × (end ≤ length room.old) }
    ensures taken { (result ≤ end) × (end ≤ result + 50) }
    ensures written { drop result room.new ≡ codes " made " ++ named (codes "o") object ++ codes " " ++ named (codes "a") apartment ++ drop end room.old }
{
    let at = letter_and_number(room, end, b"a", apartment);
    let at = letter_and_number(room, at, b"o", object);
    word(room, at, b" made")
}

/// Of which class and interface an object was to be made, and the answer.
pub fn create_asked(
    room: &mut [u8],
    end: usize,
    version: u8,
    class: &Asked,
    iface: &Asked,
    hr: HResult,
) -> usize
    requires { (110 ≤ end) × (end ≤ length room.old) }
    ensures taken { (result ≤ end) × (end ≤ result + 110) }
    ensures written { drop result room.new ≡ codes " " ++ asked_text (codes "C") class.now ++ codes " " ++ asked_text (codes "I") iface.now ++ codes " " ++ hresult_text version hr ++ drop end room.old }
{
    let at = hresult(room, end, version, hr);
    let at = class_or_interface(room, at, b'I', iface);
    class_or_interface(room, at, b'C', class)
}

/// For which interface an object was asked.
pub fn query(
    room: &mut [u8],
    end: usize,
    version: u8,
    object: Option<u32>,
    iface: &Asked,
    hr: HResult,
) -> usize
    requires { (160 ≤ end) × (end ≤ length room.old) }
    ensures taken { (result ≤ end) × (end ≤ result + 160) }
    ensures written { drop result room.new ≡ deed_line version [] (Deed.Query object iface.now hr) ++ drop end room.old }
{
    let at = hresult(room, end, version, hr);
    let at = class_or_interface(room, at, b'I', iface);
    let at = letter_and_number(room, at, b"o", object);
    word(room, at, b" query")
}

/// Which reference was copied. That never fails.
pub fn copy(room: &mut [u8], end: usize, version: u8, held: Option<RefValue>) -> usize
    requires { (160 ≤ end) × (end ≤ length room.old) }
    ensures taken { (result ≤ end) × (end ≤ result + 160) }
    ensures written { drop result room.new ≡ deed_line version [] (Deed.Copy held) ++ drop end room.old }
{
    let at = hresult(room, end, version, HResult::S_OK);
    let at = reference(room, at, held);
    word(room, at, b" copy")
}

/// Which reference was given up.
pub fn release(room: &mut [u8], end: usize, held: Option<RefValue>) -> usize
    requires { (160 ≤ end) × (end ≤ length room.old) }
    ensures taken { (result ≤ end) × (end ≤ result + 160) }
    ensures written { drop result room.new ≡ deed_line 1 [] (Deed.Release held) ++ drop end room.old }
{
    let at = reference(room, end, held);
    word(room, at, b" release")
}

/// Which reference was marshalled, and how.
pub fn marshal(
    room: &mut [u8],
    end: usize,
    packet: Option<u32>,
    mode: MarshalMode,
    held: Option<RefValue>,
) -> usize
    requires { (90 ≤ end) × (end ≤ length room.old) }
    ensures taken { (result ≤ end) × (end ≤ result + 90) }
    ensures written { drop result room.new ≡ codes " marshal " ++ named (codes "pk") packet ++ codes " " ++ marshal_mode_text mode ++ codes " " ++ held_text held ++ drop end room.old }
{
    let at = reference(room, end, held);
    let at = marshal_word(room, at, mode);
    let at = letter_and_number(room, at, b"pk", packet);
    word(room, at, b" marshal")
}

/// What a reference was marshalled to.
pub fn marshal_answer(
    room: &mut [u8],
    end: usize,
    version: u8,
    refs: u32,
    hr: HResult,
    packet: &Option<ByteList>,
) -> usize
    requires { (bytes_width packet.now + 60 ≤ end) × (end ≤ length room.old) }
    ensures taken { (result ≤ end) × (end ≤ result + (bytes_width packet.now + 60)) }
    ensures written { drop result room.new ≡ codes " " ++ decimal refs ++ codes " " ++ hresult_text version hr ++ codes " " ++ bytes_text packet.now ++ drop end room.old }
{
    let at = bytes(room, end, packet);
    let at = hresult(room, at, version, hr);
    word_and_number(room, at, b" ", refs as u64)
}

// Writes behind a space whether a packet is normal, strong or weak.
fn marshal_word(room: &mut [u8], end: usize, mode: MarshalMode) -> usize
    requires { (7 ≤ end) × (end ≤ length room.old) }
    ensures taken { (result ≤ end) × (end ≤ result + 7) }
    ensures written { drop result room.new ≡ codes " " ++ marshal_mode_text mode ++ drop end room.old }
{
    match mode {
        MarshalMode::Normal => word(room, end, b" normal"),
        MarshalMode::Strong => word(room, end, b" strong"),
        MarshalMode::Weak => word(room, end, b" weak"),
    }
}

/// How a packet was unmarshalled.
pub fn unmarshal(
    room: &mut [u8],
    end: usize,
    version: u8,
    packet: Option<u32>,
    held: Option<RefValue>,
    refs: u32,
    hr: HResult,
) -> usize
    requires { (160 ≤ end) × (end ≤ length room.old) }
    ensures taken { (result ≤ end) × (end ≤ result + 160) }
    ensures written { drop result room.new ≡ deed_line version [] (Deed.Unmarshal packet held refs hr) ++ drop end room.old }
{
    let at = hresult(room, end, version, hr);
    let at = word_and_number(room, at, b" ", refs as u64);
    let at = reference(room, at, held);
    let at = letter_and_number(room, at, b"pk", packet);
    word(room, at, b" unmarshal")
}

/// Which packet was given up unread.
pub fn dropped(room: &mut [u8], end: usize, version: u8, packet: Option<u32>, hr: HResult) -> usize
    requires { (160 ≤ end) × (end ≤ length room.old) }
    ensures taken { (result ≤ end) × (end ≤ result + 160) }
    ensures written { drop result room.new ≡ deed_line version [] (Deed.DropPacket packet hr) ++ drop end room.old }
{
    let at = hresult(room, end, version, hr);
    let at = letter_and_number(room, at, b"pk", packet);
    word(room, at, b" drop")
}

/// How many bytes were put into a buffer.
pub fn raw(room: &mut [u8], end: usize, buffer: u8, count: u32) -> usize
    requires { (160 ≤ end) × (end ≤ length room.old) }
    ensures taken { (result ≤ end) × (end ≤ result + 160) }
    ensures written { drop result room.new ≡ deed_line 1 [] (Deed.Raw buffer count) ++ drop end room.old }
{
    let at = word_and_number(room, end, b" ", count as u64);
    word_and_number(room, at, b" raw p", buffer as u64)
}

/// Under which cookie a reference was registered.
pub fn register(
    room: &mut [u8],
    end: usize,
    version: u8,
    cookie: Option<u32>,
    held: Option<RefValue>,
    hr: HResult,
) -> usize
    requires { (160 ≤ end) × (end ≤ length room.old) }
    ensures taken { (result ≤ end) × (end ≤ result + 160) }
    ensures written { drop result room.new ≡ deed_line version [] (Deed.Register cookie held hr) ++ drop end room.old }
{
    let at = hresult(room, end, version, hr);
    let at = reference(room, at, held);
    let at = letter_and_number(room, at, b"g", cookie);
    word(room, at, b" register")
}

/// Which reference a cookie gave.
pub fn get(
    room: &mut [u8],
    end: usize,
    version: u8,
    cookie: i64,
    held: Option<RefValue>,
    refs: u32,
    hr: HResult,
) -> usize
    requires { (160 ≤ end) × (end ≤ length room.old) }
    ensures taken { (result ≤ end) × (end ≤ result + 160) }
    ensures written { drop result room.new ≡ deed_line version [] (Deed.Get cookie held refs hr) ++ drop end room.old }
{
    let at = hresult(room, end, version, hr);
    let at = word_and_number(room, at, b" ", refs as u64);
    let at = reference(room, at, held);
    signed_after(room, at, b" get ", cookie)
}

/// Which cookie was revoked.
pub fn revoke(room: &mut [u8], end: usize, version: u8, cookie: i64, hr: HResult) -> usize
    requires { (160 ≤ end) × (end ≤ length room.old) }
    ensures taken { (result ≤ end) × (end ≤ result + 160) }
    ensures written { drop result room.new ≡ deed_line version [] (Deed.Revoke cookie hr) ++ drop end room.old }
{
    let at = hresult(room, end, version, hr);
    signed_after(room, at, b" revoke ", cookie)
}

/// Which object was disconnected.
pub fn cut_off(room: &mut [u8], end: usize, version: u8, object: Option<u32>, hr: HResult) -> usize
    requires { (160 ≤ end) × (end ≤ length room.old) }
    ensures taken { (result ≤ end) × (end ≤ result + 160) }
    ensures written { drop result room.new ≡ deed_line version [] (Deed.Disconnect object hr) ++ drop end room.old }
{
    let at = hresult(room, end, version, hr);
    let at = letter_and_number(room, at, b"o", object);
    word(room, at, b" disconnect")
}
