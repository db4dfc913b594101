//! The stories of calls, of message filters and of words.
ghost use Rattle.std.specs.Prelude.{◌≡◌, ◌++◌, OnOk};
ghost use Rattle.com_draw_stories.specs.Calls.{again_words, back_story, bound_story, call_of_lane};
ghost use Rattle.com_draw_stories.specs.Calls.{caller_lane, cancels_story, enter_story, entered_call};
ghost use Rattle.com_draw_stories.specs.Calls.{entered_method, filter_plain, filter_story, for_lane};
ghost use Rattle.com_draw_stories.specs.Calls.{leave_story, out_story, outcome, pending_story, post_story};
ghost use Rattle.com_draw_stories.specs.Calls.{pump_story, quit_story, refuse_story, retry_story};
ghost use Rattle.com_draw_stories.specs.Calls.{route_words, sends_again, sent_story, tick_story, told_story};
ghost use Rattle.com_draw_stories.specs.Calls.{took_story, type_reason, type_words, unwaited, verdict_story};
ghost use Rattle.com_draw_stories.specs.Calls.{waits_on};

use crate::phrases::{push_at, push_does, push_does_link, push_does_signed, push_signed_fails};
use crate::speakers::{Called, Entered, Speaker};
use com_base::{ByteList, HResult, Memory, Value};
use com_classes::Classes;
use com_draw_names::{
    Caller, push_failure, push_later, push_object, push_place, push_shown_called, push_shown_given,
    push_shown_method, push_signed, push_verb,
};
use com_draw_words::{push_link, push_number, push_word_and_number};
use com_filter::{LEAST_DELAY_MS, Verdict};
use com_model::Route;
use std::alloc::Global;

// Appends that a lane sets a message filter, or removes its own.
fn push_filter_plain(out: &mut ByteList, lane: u32, filter: Option<u32>) -> Result<(), Memory>
    ensures { OnOk result (out.new ≡ out.old ++ filter_plain lane filter) }
{
    match filter {
        None => push_does(out, lane, b" removes its message filter"),
        Some(filter) => push_at(out, lane, b" sets message filter F", filter),
    }
}

// Appends that a lane sets or removes its message filter where the HRESULT is S_OK, and cannot
// where it is another.
pub(crate) fn push_filter(
    out: &mut ByteList,
    lane: u32,
    filter: Option<u32>,
    hr: HResult,
) -> Result<(), Memory>
    ensures { OnOk result (out.new ≡ out.old ++ filter_story lane filter hr) }
{
    if hr.0 == 0 {
        return push_filter_plain(out, lane, filter);
    }
    push_does(out, lane, b" cannot set a message filter here")
}

// Appends that a lane sends a word, and to which lane.
fn push_sent(out: &mut ByteList, lane: u32, to: i64, word: i64) -> Result<(), Memory>
    ensures { OnOk result (out.new ≡ out.old ++ sent_story lane to word) }
{
    push_does_signed(out, lane, b" sends word ", word)?;
    out.push_all(b" to L")?;
    push_signed(out, to)
}

// Appends that a lane sends a word to a lane, or why it cannot.
pub(crate) fn push_post(
    out: &mut ByteList,
    speaker: Speaker,
    to: i64,
    word: i64,
    hr: HResult,
) -> Result<(), Memory>
    ensures { OnOk result (out.new ≡ out.old ++ post_story speaker to word hr) }
{
    if hr.is_failure() {
        return push_signed_fails(out, speaker, b" cannot send a word to lane ", to, hr);
    }
    push_sent(out, speaker.lane, to, word)
}

// Appends that a lane tells a lane to end its pump.
fn push_told(out: &mut ByteList, lane: u32, to: i64) -> Result<(), Memory>
    ensures { OnOk result (out.new ≡ out.old ++ told_story lane to) }
{
    push_does_signed(out, lane, b" tells L", to)?;
    out.push_all(b" to end its pump")
}

// Appends that a lane tells a lane to end its pump, or why it cannot.
pub(crate) fn push_quit(
    out: &mut ByteList,
    speaker: Speaker,
    to: i64,
    hr: HResult,
) -> Result<(), Memory>
    ensures { OnOk result (out.new ≡ out.old ++ quit_story speaker to hr) }
{
    if hr.is_failure() {
        return push_signed_fails(out, speaker, b" cannot send a quit to lane ", to, hr);
    }
    push_told(out, speaker.lane, to)
}

// Appends that a lane pumps until so many bodies have left.
fn push_bound(out: &mut ByteList, lane: u32, bound: u32) -> Result<(), Memory>
    ensures { OnOk result (out.new ≡ out.old ++ bound_story lane bound) }
{
    push_at(
        out,
        lane,
        b" pumps: it lets calls and words in, until ",
        bound,
    )?;
    out.push_all(b" served")
}

// Appends that a lane pumps: without a bound where it is 0, else until so many bodies have left.
pub(crate) fn push_pump(out: &mut ByteList, lane: u32, bound: u32) -> Result<(), Memory>
    ensures { OnOk result (out.new ≡ out.old ++ pump_story lane bound) }
{
    if bound == 0 {
        return push_does(out, lane, b" pumps: it lets calls and words in");
    }
    push_bound(out, lane, bound)
}

// Appends that a lane that pumps takes a word from its queue.
pub(crate) fn push_took(out: &mut ByteList, lane: u32, word: i64) -> Result<(), Memory>
    ensures { OnOk result (out.new ≡ out.old ++ took_story lane word) }
{
    push_does_signed(out, lane, b" takes word ", word)
}

// Appends how a call goes to its target, behind the call's number, whose parenthesis is closed.
fn push_route(out: &mut ByteList, route: Route) -> Result<(), Memory>
    ensures { OnOk result (out.new ≡ out.old ++ route_words route) }
{
    match route {
        Route::Direct => out.push_all(b") directly"),
        Route::Switch => out.push_all(b"), and changes apartments for it"),
        Route::Post => out.push_all(b") in another apartment, and waits"),
        Route::Refused => out.push_all(b"), which is refused at once"),
    }
}

// Appends that a lane calls a method of an object, or of null, and how the call goes there.
pub(crate) fn push_out(
    out: &mut ByteList,
    classes: &Classes,
    caller: Caller,
    call: u32,
    object: Option<u32>,
    route: Route,
) -> Result<(), Memory>
    ensures { OnOk result (out.new ≡ out.old ++ out_story classes.now caller call object route) }
{
    push_does(out, caller.lane, b" calls ")?;
    push_shown_method(out, classes, caller.iface, caller.method)?;
    out.push_all(b" of ")?;
    push_object(out, object)?;
    push_word_and_number(out, b" (c", call)?;
    push_route(out, route)
}

// The lane that made a call; 0 where nobody waits for it.
pub(crate) fn caller_lane(caller: Option<Caller>) -> u32
    ensures { result ≡ caller_lane caller }
{
    match caller {
        None => 0,
        Some(caller) => caller.lane,
    }
}

// Appends a call, and the lane that made it.
fn push_call_of_lane(out: &mut ByteList, call: u32, caller: u32) -> Result<(), Memory>
    ensures { OnOk result (out.new ≡ out.old ++ call_of_lane call caller) }
{
    out.push_all(b" ")?;
    push_link(out, call)?;
    push_word_and_number(out, b" of L", caller)
}

// Appends why the filter was asked, by the call's type.
fn push_reason(out: &mut ByteList, call_type: u8) -> Result<(), Memory>
    ensures { OnOk result (out.new ≡ out.old ++ type_reason call_type) }
{
    match call_type {
        1 => out.push_all(b": no call of its own waits"),
        2 => out.push_all(b": it is a callback"),
        _ => out.push_all(b": its own call waits"),
    }
}

// Appends what a lane's filter does with a call, who made that, and why the filter was asked.
pub(crate) fn push_verdict(
    out: &mut ByteList,
    lane: u32,
    caller: u32,
    call: u32,
    call_type: u8,
    verdict: Verdict,
) -> Result<(), Memory>
    ensures { OnOk result (out.new ≡ out.old ++ verdict_story lane caller call call_type verdict) }
{
    push_does(out, lane, b"'s filter ")?;
    push_verb(out, verdict)?;
    push_call_of_lane(out, call, caller)?;
    push_reason(out, call_type)
}

// Appends that a lane cannot take a call in, who made that, and why.
pub(crate) fn push_refuse(
    out: &mut ByteList,
    speaker: Speaker,
    caller: u32,
    call: u32,
    hr: HResult,
) -> Result<(), Memory>
    ensures { OnOk result (out.new ≡ out.old ++ refuse_story speaker caller call hr) }
{
    push_does(out, speaker.lane, b" cannot take in")?;
    push_call_of_lane(out, call, caller)?;
    push_failure(out, speaker.version, hr)
}

// Appends for whom a body runs, where that is another lane.
fn push_for_lane(out: &mut ByteList, lane: u32, caller: Option<Caller>) -> Result<(), Memory>
    ensures { OnOk result (out.new ≡ out.old ++ for_lane lane caller) }
{
    let Some(caller) = caller else {
        return Ok(());
    };
    if caller.lane == lane {
        return Ok(());
    }
    push_word_and_number(out, b" for L", caller.lane)
}

// Appends what a body comes in between, by the call's type.
fn push_type(out: &mut ByteList, call_type: Option<u8>) -> Result<(), Memory>
    ensures { OnOk result (out.new ≡ out.old ++ type_words call_type) }
{
    match call_type {
        None => Ok(()),
        Some(2) => out.push_all(b": a callback"),
        Some(4) => out.push_all(b", while its own call waits"),
        Some(_) => Ok(()),
    }
}

// Appends for whom a body runs where that is another lane, of which call it is, and what it comes
// in between.
fn push_entered_call(
    out: &mut ByteList,
    lane: u32,
    called: Called,
    call_type: Option<u8>,
) -> Result<(), Memory>
    ensures { OnOk result (out.new ≡ out.old ++ entered_call lane called call_type) }
{
    push_for_lane(out, lane, called.caller)?;
    out.push_all(b" (")?;
    push_link(out, called.call)?;
    out.push_all(b")")?;
    push_type(out, call_type)
}

// Appends that a lane runs the method that a caller called, of which object, in which apartment.
fn push_entered_method(
    out: &mut ByteList,
    classes: &Classes,
    lane: u32,
    caller: Option<Caller>,
    entered: Entered,
) -> Result<(), Memory>
    ensures { OnOk result (out.new ≡ out.old ++ entered_method classes.now lane caller entered) }
{
    push_does(out, lane, b" runs ")?;
    push_shown_called(out, classes, caller)?;
    push_word_and_number(out, b" of o", entered.object)?;
    out.push_all(b" in ")?;
    push_place(out, entered.apartment)
}

// Appends that a lane runs a method of an object, in which apartment, and for which call.
pub(crate) fn push_enter(
    out: &mut ByteList,
    classes: &Classes,
    lane: u32,
    called: Called,
    entered: Entered,
) -> Result<(), Memory>
    ensures { OnOk result (out.new ≡ out.old ++ enter_story classes.now lane called entered) }
{
    push_entered_method(out, classes, lane, called.caller, entered)?;
    push_entered_call(out, lane, called, entered.call_type)
}

// Appends how a call ended: why it failed, or what it gave.
fn push_outcome(
    alloc: Global,
    out: &mut ByteList,
    version: u8,
    hr: HResult,
    value: &Option<Value>,
) -> Result<(), Memory>
    ensures { OnOk result (out.new ≡ out.old ++ outcome version hr value.now) }
{
    if hr.is_failure() {
        return push_failure(out, version, hr);
    }
    push_shown_given(alloc, out, value)
}

// Appends that nobody waits for the answer of a call, where nobody does.
fn push_unwaited(out: &mut ByteList, caller: Option<Caller>) -> Result<(), Memory>
    ensures { OnOk result (out.new ≡ out.old ++ unwaited caller) }
{
    match caller {
        None => out.push_all(b"; nobody waits for it"),
        Some(_) => Ok(()),
    }
}

// Appends that a lane answers a call: what that gives or why it failed, and that nobody waits for
// it where nobody does.
pub(crate) fn push_leave(
    alloc: Global,
    out: &mut ByteList,
    speaker: Speaker,
    called: Called,
    hr: HResult,
    value: &Option<Value>,
) -> Result<(), Memory>
    ensures { OnOk result (out.new ≡ out.old ++ leave_story speaker called hr value.now) }
{
    push_does(out, speaker.lane, b" answers ")?;
    push_link(out, called.call)?;
    push_outcome(alloc, out, speaker.version, hr, value)?;
    push_unwaited(out, called.caller)
}

// Appends that a lane has the answer of its call: what that gave, or why it failed.
pub(crate) fn push_back(
    alloc: Global,
    out: &mut ByteList,
    speaker: Speaker,
    call: u32,
    hr: HResult,
    value: &Option<Value>,
) -> Result<(), Memory>
    ensures { OnOk result (out.new ≡ out.old ++ back_story speaker call hr value.now) }
{
    push_does(out, speaker.lane, b" has the answer of ")?;
    push_link(out, call)?;
    push_outcome(alloc, out, speaker.version, hr, value)
}

// Appends when a call is sent again, by a filter's answer: at once below `LEAST_DELAY_MS`, and else after so
// many milliseconds.
fn push_again_words(out: &mut ByteList, answer: i64) -> Result<(), Memory>
    ensures { OnOk result (out.new ≡ out.old ++ again_words answer) }
{
    if answer < LEAST_DELAY_MS as i64 {
        return out.push_all(b" again at once");
    }
    push_later(out, answer)
}

// Appends that a lane's filter has a call sent again, and when.
fn push_sends_again(out: &mut ByteList, lane: u32, call: u32, answer: i64) -> Result<(), Memory>
    ensures { OnOk result (out.new ≡ out.old ++ sends_again lane call answer) }
{
    push_does(out, lane, b"'s filter sends ")?;
    push_link(out, call)?;
    push_again_words(out, answer)
}

// Appends what a lane's filter does with a call of the lane that was not taken: a negative answer
// gives it up, and any other has it sent again.
pub(crate) fn push_retry(
    out: &mut ByteList,
    lane: u32,
    call: u32,
    answer: i64,
) -> Result<(), Memory>
    ensures { OnOk result (out.new ≡ out.old ++ retry_story lane call answer) }
{
    if answer < 0 {
        return push_does_link(out, lane, b"'s filter gives ", call, b" up");
    }
    push_sends_again(out, lane, call, answer)
}

// Appends that a lane's filter cancels the call for which the lane waits, and for which word.
fn push_cancels(out: &mut ByteList, lane: u32, call: u32, word: i64) -> Result<(), Memory>
    ensures { OnOk result (out.new ≡ out.old ++ cancels_story lane call word) }
{
    push_does_link(out, lane, b"'s filter cancels ", call, b" for word ")?;
    push_signed(out, word)
}

// Appends what a lane's filter does with a word, and that the lane waits on for its call.
fn push_waits_on(
    out: &mut ByteList,
    lane: u32,
    words: &[u8],
    call: u32,
    word: i64,
) -> Result<(), Memory>
    ensures { OnOk result (out.new ≡ out.old ++ waits_on lane words.now call word) }
{
    push_does_signed(out, lane, words, word)?;
    out.push_all(b", and waits on for ")?;
    push_link(out, call)
}

// Appends what a lane's filter does about a word that came while a call waits: 0 cancels the call,
// 1 leaves the word, and any other answer takes the word away.
pub(crate) fn push_pending(
    out: &mut ByteList,
    lane: u32,
    call: u32,
    word: i64,
    answer: u8,
) -> Result<(), Memory>
    ensures { OnOk result (out.new ≡ out.old ++ pending_story lane call word answer) }
{
    if answer == 0 {
        return push_cancels(out, lane, call, word);
    }
    if answer == 1 {
        return push_waits_on(out, lane, b"'s filter leaves word ", call, word);
    }
    push_waits_on(out, lane, b"'s filter drops word ", call, word)
}

// Appends that no lane can go on, and to which time the clock moves, in milliseconds.
pub(crate) fn push_tick(out: &mut ByteList, clock: u64) -> Result<(), Memory>
    ensures { OnOk result (out.new ≡ out.old ++ tick_story clock) }
{
    out.push_all(b"No lane can go on, so the clock moves to ")?;
    push_number(out, clock)?;
    out.push_all(b" ms")
}
