//! The labels of calls, of message filters and of words.
ghost use Rattle.std.specs.Prelude.{◌≡◌, ◌++◌, OnOk};
ghost use Rattle.com_draw_labels.specs.Labels.{back_label, enter_label, filter_label, filter_named};
ghost use Rattle.com_draw_labels.specs.Labels.{gave_label, hresult_word, later_label, out_label};
ghost use Rattle.com_draw_labels.specs.Labels.{pending_label, post_label, pump_label, quit_label};
ghost use Rattle.com_draw_labels.specs.Labels.{refuse_label, retry_label, sent_label, spaced_hresult};
ghost use Rattle.com_draw_labels.specs.Labels.{verdict_label};

use crate::words::{push_failed, push_words_signed};
use com_base::{ByteList, HResult, Memory, Value};
use com_classes::Classes;
use com_draw_names::{
    Caller, push_called, push_given, push_hresult, push_hresult_behind, push_later, push_method,
    push_object, push_passed, push_verb,
};
use com_draw_words::push_word_and_number;
use com_filter::{LEAST_DELAY_MS, Verdict};

// Appends the message filter that an STA has from now on, or that it has none.
fn push_filter_named(out: &mut ByteList, filter: Option<u32>) -> Result<(), Memory>
    ensures { OnOk result (out.new ≡ out.old ++ filter_named filter) }
{
    match filter {
        None => out.push_all(b"filter none"),
        Some(filter) => push_word_and_number(out, b"filter F", filter),
    }
}

// Appends which message filter was set, or the HRESULT where none was set.
pub(crate) fn push_filter(
    out: &mut ByteList,
    version: u8,
    filter: Option<u32>,
    hr: HResult,
) -> Result<(), Memory>
    ensures { OnOk result (out.new ≡ out.old ++ filter_label version filter hr) }
{
    if hr.0 == 0 {
        return push_filter_named(out, filter);
    }
    push_failed(out, b"filter", version, hr)
}

// Appends a word and the lane to which it was posted.
fn push_sent(out: &mut ByteList, to: i64, word: i64) -> Result<(), Memory>
    ensures { OnOk result (out.new ≡ out.old ++ sent_label to word) }
{
    push_words_signed(out, b"word ", word)?;
    push_words_signed(out, b" to L", to)
}

// Appends which word was posted to which lane, or the HRESULT where the post failed.
pub(crate) fn push_post(
    out: &mut ByteList,
    version: u8,
    to: i64,
    word: i64,
    hr: HResult,
) -> Result<(), Memory>
    ensures { OnOk result (out.new ≡ out.old ++ post_label version to word hr) }
{
    if hr.is_failure() {
        return push_failed(out, b"post", version, hr);
    }
    push_sent(out, to, word)
}

// Appends which lane's pump was asked to end, or the HRESULT where that failed.
pub(crate) fn push_quit(out: &mut ByteList, version: u8, to: i64, hr: HResult) -> Result<(), Memory>
    ensures { OnOk result (out.new ≡ out.old ++ quit_label version to hr) }
{
    if hr.is_failure() {
        return push_failed(out, b"quit", version, hr);
    }
    push_words_signed(out, b"quit to L", to)
}

// Appends that a pump begins, and its bound where it has one.
pub(crate) fn push_pump(out: &mut ByteList, bound: u32) -> Result<(), Memory>
    ensures { OnOk result (out.new ≡ out.old ++ pump_label bound) }
{
    if bound == 0 {
        return out.push_all(b"pumps");
    }
    push_word_and_number(out, b"pumps for ", bound)
}

// Appends which method of which object is called, or of null.
pub(crate) fn push_out(
    out: &mut ByteList,
    classes: &Classes,
    object: Option<u32>,
    iface: u16,
    method: u16,
) -> Result<(), Memory>
    ensures { OnOk result (out.new ≡ out.old ++ out_label classes.now object iface method) }
{
    out.push_all(b"calls ")?;
    push_object(out, object)?;
    out.push_all(b".")?;
    push_method(out, classes, iface, method)
}

// Appends what a message filter does with a call.
pub(crate) fn push_verdict(out: &mut ByteList, verdict: Verdict, call: u32) -> Result<(), Memory>
    ensures { OnOk result (out.new ≡ out.old ++ verdict_label verdict call) }
{
    push_verb(out, verdict)?;
    push_word_and_number(out, b" c", call)
}

// Appends which call is refused, and with which HRESULT.
pub(crate) fn push_refuse(
    out: &mut ByteList,
    version: u8,
    call: u32,
    hr: HResult,
) -> Result<(), Memory>
    ensures { OnOk result (out.new ≡ out.old ++ refuse_label version call hr) }
{
    push_word_and_number(out, b"refuses c", call)?;
    push_hresult_behind(out, version, hr)
}

// Appends the object, the method and the values of a body that begins.
pub(crate) fn push_enter(
    out: &mut ByteList,
    classes: &Classes,
    caller: Option<Caller>,
    object: u32,
    values: &[Value],
) -> Result<(), Memory>
    ensures { OnOk result (out.new ≡ out.old ++ enter_label classes.now caller object values.now) }
{
    push_word_and_number(out, b"o", object)?;
    out.push_all(b".")?;
    push_called(out, classes, caller)?;
    push_passed(out, values)
}

// Appends an HRESULT behind a space, whatever it is.
fn push_spaced_hresult(out: &mut ByteList, version: u8, hr: HResult) -> Result<(), Memory>
    ensures { OnOk result (out.new ≡ out.old ++ spaced_hresult version hr) }
{
    out.push_all(b" ")?;
    push_hresult(out, version, hr)
}

// Appends an HRESULT behind a space, where it is not that of success.
fn push_hresult_word(out: &mut ByteList, version: u8, hr: HResult) -> Result<(), Memory>
    ensures { OnOk result (out.new ≡ out.old ++ hresult_word version hr) }
{
    if hr.0 == 0 {
        return Ok(());
    }
    push_spaced_hresult(out, version, hr)
}

// Appends what a call gave, behind words.
pub(crate) fn push_gave(
    out: &mut ByteList,
    words: &[u8],
    version: u8,
    hr: HResult,
    value: &Option<Value>,
) -> Result<(), Memory>
    ensures { OnOk result (out.new ≡ out.old ++ gave_label words.now version hr value.now) }
{
    out.push_all(words)?;
    push_hresult_word(out, version, hr)?;
    push_given(out, value)
}

// Appends what a call gave its caller. S_OK without result is just its answer.
pub(crate) fn push_back(
    out: &mut ByteList,
    version: u8,
    hr: HResult,
    value: &Option<Value>,
) -> Result<(), Memory>
    ensures { OnOk result (out.new ≡ out.old ++ back_label version hr value.now) }
{
    let Some(_) = value else {
        if hr.0 == 0 {
            return out.push_all(b"got its answer");
        }
        return push_gave(out, b"got", version, hr, value);
    };
    push_gave(out, b"got", version, hr, value)
}

// Appends after how many milliseconds a call is sent again.
fn push_later_label(out: &mut ByteList, call: u32, answer: i64) -> Result<(), Memory>
    ensures { OnOk result (out.new ≡ out.old ++ later_label call answer) }
{
    push_word_and_number(out, b"c", call)?;
    push_later(out, answer)
}

// Appends what the caller's filter says of a call that was not taken: below 0 the call is given
// up, below `LEAST_DELAY_MS` it goes again at once, and else so many milliseconds later.
pub(crate) fn push_retry(out: &mut ByteList, call: u32, answer: i64) -> Result<(), Memory>
    ensures { OnOk result (out.new ≡ out.old ++ retry_label call answer) }
{
    if answer < 0 {
        return push_word_and_number(out, b"gives up c", call);
    }
    if answer < LEAST_DELAY_MS as i64 {
        return push_word_and_number(out, b"again c", call);
    }
    push_later_label(out, call, answer)
}

// Appends what the filter of a waiting caller says of a word: 0 cancels the call, 1 leaves the
// word where it is, and any other answer takes it away.
pub(crate) fn push_pending(
    out: &mut ByteList,
    call: u32,
    word: i64,
    answer: u8,
) -> Result<(), Memory>
    ensures { OnOk result (out.new ≡ out.old ++ pending_label call word answer) }
{
    if answer == 0 {
        return push_word_and_number(out, b"cancels c", call);
    }
    if answer == 1 {
        return push_words_signed(out, b"leaves word ", word);
    }
    push_words_signed(out, b"drops word ", word)
}
