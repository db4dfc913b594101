//! The rows of calls, of message filters and of words. Each writes what stands behind the front of the line.
//! A row without a version is the same in every version.
ghost use Rattle.std.specs.Prelude.{◌≡◌, ◌++◌, ◌+◌, ◌≤◌, [], length, drop, decimal, codes};
ghost use Rattle.com_model.specs.Text.{deed_line, route_text, verdict_text, filter_text, call_type_text};
ghost use Rattle.com_model.specs.Text.{named, bytes_text};
ghost use Rattle.com_report.specs.Width.{bytes_width, one_value_width, values_width};

use crate::pieces::{bytes, hresult, letter_and_number, signed_after, word, word_and_number};
use crate::values::{one_value, values};
use com_base::{ByteList, HResult, Rows, Value};
use com_filter::Verdict;
use com_model::{Deed, Route};

/// Which filter a thread set.
pub fn filter(room: &mut [u8], end: usize, version: u8, filter: Option<u32>, hr: HResult) -> usize
    requires { (160 ≤ end) × (end ≤ length room.old) }
    ensures taken { (result ≤ end) × (end ≤ result + 160) }
    ensures written { drop result room.new ≡ deed_line version [] (Deed.SetFilter filter hr) ++ drop end room.old }
{
    let at = hresult(room, end, version, hr);
    let at = filter_word(room, at, filter);
    word(room, at, b" setfilter")
}

// Writes a message filter behind a space: its number behind its letter, or `none`.
fn filter_word(room: &mut [u8], end: usize, filter: Option<u32>) -> usize
    requires { (24 ≤ end) × (end ≤ length room.old) }
    ensures taken { (result ≤ end) × (end ≤ result + 24) }
    ensures written { drop result room.new ≡ codes " " ++ filter_text filter ++ drop end room.old }
{
    match filter {
        None => word(room, end, b" none"),
        Some(number) => word_and_number(room, end, b" F", number as u64),
    }
}

/// Which word was posted, and to which lane.
pub fn post(room: &mut [u8], end: usize, version: u8, lane: i64, posted: i64, hr: HResult) -> usize
    requires { (160 ≤ end) × (end ≤ length room.old) }
    ensures taken { (result ≤ end) × (end ≤ result + 160) }
    ensures written { drop result room.new ≡ deed_line version [] (Deed.Post lane posted hr) ++ drop end room.old }
{
    let at = hresult(room, end, version, hr);
    let at = signed_after(room, at, b" ", posted);
    signed_after(room, at, b" post ", lane)
}

/// Which lane's pump was asked to end.
pub fn quit(room: &mut [u8], end: usize, version: u8, lane: i64, hr: HResult) -> usize
    requires { (160 ≤ end) × (end ≤ length room.old) }
    ensures taken { (result ≤ end) × (end ≤ result + 160) }
    ensures written { drop result room.new ≡ deed_line version [] (Deed.Quit lane hr) ++ drop end room.old }
{
    let at = hresult(room, end, version, hr);
    signed_after(room, at, b" quit ", lane)
}

/// Which method was called of which object.
pub fn out_method(
    room: &mut [u8],
    end: usize,
    call: u32,
    object: Option<u32>,
    iface: u16,
    method: u16,
) -> usize
    requires { (100 ≤ end) × (end ≤ length room.old) }
    ensures taken { (result ≤ end) × (end ≤ result + 100) }
    ensures written { drop result room.new ≡ codes " out c" ++ decimal call ++ codes " " ++ named (codes "o") object ++ codes " I" ++ decimal iface ++ codes "." ++ decimal method ++ drop end room.old }
{
    let at = word_and_number(room, end, b".", method as u64);
    let at = word_and_number(room, at, b" I", iface as u64);
    let at = letter_and_number(room, at, b"o", object);
    word_and_number(room, at, b" out c", call as u64)
}

/// How a call goes to its target, what caused it, and its request.
pub fn out_way(
    room: &mut [u8],
    end: usize,
    route: Route,
    cause: u32,
    request: &Option<ByteList>,
) -> usize
    requires { (bytes_width request.now + 60 ≤ end) × (end ≤ length room.old) }
    ensures taken { (result ≤ end) × (end ≤ result + (bytes_width request.now + 60)) }
    ensures written { drop result room.new ≡ codes " " ++ route_text route ++ codes " cause" ++ decimal cause ++ codes " " ++ bytes_text request.now ++ drop end room.old }
{
    let at = bytes(room, end, request);
    let at = word_and_number(room, at, b" cause", cause as u64);
    route_word(room, at, route)
}

// Writes behind a space how a call goes to its target, and `none` for a call that is refused.
fn route_word(room: &mut [u8], end: usize, route: Route) -> usize
    requires { (8 ≤ end) × (end ≤ length room.old) }
    ensures taken { (result ≤ end) × (end ≤ result + 8) }
    ensures written { drop result room.new ≡ codes " " ++ route_text route ++ drop end room.old }
{
    match route {
        Route::Direct => word(room, end, b" direct"),
        Route::Switch => word(room, end, b" switch"),
        Route::Post => word(room, end, b" post"),
        Route::Refused => word(room, end, b" none"),
    }
}

/// What a filter answered to an incoming call.
pub fn verdict(room: &mut [u8], end: usize, call: u32, call_type: u8, verdict: Verdict) -> usize
    requires { (160 ≤ end) × (end ≤ length room.old) }
    ensures taken { (result ≤ end) × (end ≤ result + 160) }
    ensures written { drop result room.new ≡ deed_line 1 [] (Deed.Verdict call call_type verdict) ++ drop end room.old }
{
    let at = verdict_word(room, end, verdict);
    let at = word_and_number(room, at, b" ", call_type as u64);
    word_and_number(room, at, b" verdict c", call as u64)
}

// Writes behind a space what a filter answered to an incoming call.
fn verdict_word(room: &mut [u8], end: usize, verdict: Verdict) -> usize
    requires { (9 ≤ end) × (end ≤ length room.old) }
    ensures taken { (result ≤ end) × (end ≤ result + 9) }
    ensures written { drop result room.new ≡ codes " " ++ verdict_text verdict ++ drop end room.old }
{
    match verdict {
        Verdict::Handled => word(room, end, b" handled"),
        Verdict::Rejected => word(room, end, b" rejected"),
        Verdict::Later => word(room, end, b" later"),
    }
}

/// Why a call was refused at its admission.
pub fn refuse(room: &mut [u8], end: usize, version: u8, call: u32, hr: HResult) -> usize
    requires { (160 ≤ end) × (end ≤ length room.old) }
    ensures taken { (result ≤ end) × (end ≤ result + 160) }
    ensures written { drop result room.new ≡ deed_line version [] (Deed.Refuse call hr) ++ drop end room.old }
{
    let at = hresult(room, end, version, hr);
    word_and_number(room, at, b" refuse c", call as u64)
}

/// How a body was entered.
pub fn enter(
    room: &mut [u8],
    end: usize,
    call: u32,
    object: u32,
    apartment: u32,
    call_type: Option<u8>,
    arguments: &Rows<Value>,
) -> usize
    requires { (values_width arguments.now + 160 ≤ end) × (end ≤ length room.old) }
    ensures taken { (result ≤ end) × (end ≤ result + (values_width arguments.now + 160)) }
    ensures written { drop result room.new ≡ deed_line 1 [] (Deed.Enter call object apartment call_type arguments.now) ++ drop end room.old }
{
    let at = values(room, end, arguments.as_slice());
    let at = type_word(room, at, call_type);
    let at = word_and_number(room, at, b" a", apartment as u64);
    let at = word_and_number(room, at, b" o", object as u64);
    word_and_number(room, at, b" enter c", call as u64)
}

// Writes the type of a call behind a space, or a dash where the call has none.
fn type_word(room: &mut [u8], end: usize, call_type: Option<u8>) -> usize
    requires { (21 ≤ end) × (end ≤ length room.old) }
    ensures taken { (result ≤ end) × (end ≤ result + 21) }
    ensures written { drop result room.new ≡ codes " " ++ call_type_text call_type ++ drop end room.old }
{
    match call_type {
        None => word(room, end, b" -"),
        Some(value) => word_and_number(room, end, b" ", value as u64),
    }
}

/// How a body was left.
pub fn leave(
    room: &mut [u8],
    end: usize,
    version: u8,
    call: u32,
    hr: HResult,
    value: &Option<Value>,
    reply: &Option<ByteList>,
) -> usize
    requires { (one_value_width value.now + bytes_width reply.now + 160 ≤ end) × (end ≤ length room.old) }
    ensures taken { (result ≤ end) × (end ≤ result + (one_value_width value.now + bytes_width reply.now + 160)) }
    ensures written { drop result room.new ≡ deed_line version [] (Deed.Leave call hr value.now reply.now) ++ drop end room.old }
{
    let at = bytes(room, end, reply);
    let at = one_value(room, at, value);
    let at = hresult(room, at, version, hr);
    word_and_number(room, at, b" leave c", call as u64)
}

/// What a caller's filter answered to a call that was not taken.
pub fn retry(room: &mut [u8], end: usize, call: u32, answer: i64) -> usize
    requires { (160 ≤ end) × (end ≤ length room.old) }
    ensures taken { (result ≤ end) × (end ≤ result + 160) }
    ensures written { drop result room.new ≡ deed_line 1 [] (Deed.Retry call answer) ++ drop end room.old }
{
    let at = signed_after(room, end, b" ", answer);
    word_and_number(room, at, b" retry c", call as u64)
}

/// What came back to a caller.
pub fn back(
    room: &mut [u8],
    end: usize,
    version: u8,
    call: u32,
    hr: HResult,
    value: &Option<Value>,
) -> usize
    requires { (one_value_width value.now + 160 ≤ end) × (end ≤ length room.old) }
    ensures taken { (result ≤ end) × (end ≤ result + (one_value_width value.now + 160)) }
    ensures written { drop result room.new ≡ deed_line version [] (Deed.Back call hr value.now) ++ drop end room.old }
{
    let at = one_value(room, end, value);
    let at = hresult(room, at, version, hr);
    word_and_number(room, at, b" back c", call as u64)
}

/// What a caller's filter answered to a word that came while it waited.
pub fn pending(room: &mut [u8], end: usize, call: u32, posted: i64, answer: u8) -> usize
    requires { (160 ≤ end) × (end ≤ length room.old) }
    ensures taken { (result ≤ end) × (end ≤ result + 160) }
    ensures written { drop result room.new ≡ deed_line 1 [] (Deed.Pending call posted answer) ++ drop end room.old }
{
    let at = word_and_number(room, end, b" ", answer as u64);
    let at = signed_after(room, at, b" ", posted);
    word_and_number(room, at, b" pending c", call as u64)
}
