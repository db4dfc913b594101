//! The stories of apartments, objects and references.
ghost use Rattle.std.specs.Prelude.{◌≡◌, ◌++◌, OnOk};
ghost use Rattle.com_draw_stories.specs.Stories.{copy_story, create_story, cut_story, disconnect_story};
ghost use Rattle.com_draw_stories.specs.Stories.{drop_story, final_story, get_story, got_story, init_story};
ghost use Rattle.com_draw_stories.specs.Stories.{leaves_once, made_story, marshal_story, mode_words};
ghost use Rattle.com_draw_stories.specs.Stories.{packed_story, query_story, raw_story, register_story};
ghost use Rattle.com_draw_stories.specs.Stories.{registered_story, release_story, revoke_story, uninit_story};
ghost use Rattle.com_draw_stories.specs.Stories.{unmade_story, unmarshal_story, unpacked_story};

use crate::phrases::{
    push_at, push_does, push_does_named, push_does_place, push_does_signed, push_fails,
    push_object_fails, push_signed_fails,
};
use crate::speakers::Speaker;
use com_base::{ByteList, HResult, MarshalMode, Memory, RefValue};
use com_body::Asked;
use com_classes::Classes;
use com_draw_names::{
    Born, push_failure, push_failure_if, push_named, push_object, push_place_at, push_shown_class,
    push_shown_interface, push_signed,
};
use com_draw_words::{push_number, push_word_and_number};

// Appends that a lane enters an apartment, once more where it is in one already, or why it cannot.
pub(crate) fn push_init(
    out: &mut ByteList,
    speaker: Speaker,
    home: u32,
    has_home: bool,
    hr: HResult,
) -> Result<(), Memory>
    ensures { OnOk result (out.new ≡ out.old ++ init_story speaker home has_home hr) }
{
    if hr.is_failure() {
        return push_fails(out, speaker, b" cannot enter an apartment", hr);
    }
    if has_home {
        return push_does_place(out, speaker.lane, b" enters ", home, b" once more");
    }
    push_does_place(out, speaker.lane, b" enters ", home, b"")
}

// Appends that a lane leaves its apartment once, and how many of its initialisations are left.
fn push_leaves_once(out: &mut ByteList, lane: u32, home: u32, count: u32) -> Result<(), Memory>
    ensures { OnOk result (out.new ≡ out.old ++ leaves_once lane home count) }
{
    push_does_place(out, lane, b" leaves ", home, b" once, ")?;
    push_number(out, count as u64)?;
    out.push_all(b" to go")
}

// Appends that a lane leaves its apartment, and how many of its initialisations are left if any is,
// or that it is in none.
pub(crate) fn push_uninit(
    out: &mut ByteList,
    lane: u32,
    home: Option<u32>,
    count: u32,
) -> Result<(), Memory>
    ensures { OnOk result (out.new ≡ out.old ++ uninit_story lane home count) }
{
    let Some(home) = home else {
        return push_does(out, lane, b" is in no apartment to leave");
    };
    if count == 0 {
        return push_does_place(out, lane, b" leaves ", home, b"");
    }
    push_leaves_once(out, lane, home, count)
}

// Appends that a lane cannot make an object of a class, and why.
fn push_unmade(
    out: &mut ByteList,
    classes: &Classes,
    speaker: Speaker,
    class: &Asked,
    hr: HResult,
) -> Result<(), Memory>
    ensures { OnOk result (out.new ≡ out.old ++ unmade_story classes.now speaker class.now hr) }
{
    push_does(out, speaker.lane, b" cannot make a ")?;
    push_shown_class(out, classes, class)?;
    push_failure(out, speaker.version, hr)
}

// Appends that a lane makes an object of a class, and in which apartment that lives.
fn push_made(
    out: &mut ByteList,
    classes: &Classes,
    lane: u32,
    born: Born,
    class: &Asked,
) -> Result<(), Memory>
    ensures { OnOk result (out.new ≡ out.old ++ made_story classes.now lane born class.now) }
{
    push_does_named(out, lane, b" makes ", b"o", born.object)?;
    out.push_all(b", a ")?;
    push_shown_class(out, classes, class)?;
    out.push_all(b"; it lives in ")?;
    push_place_at(out, born.apartment)
}

// Appends that a lane makes an object of a class and where that lives, or why it cannot.
pub(crate) fn push_create(
    out: &mut ByteList,
    classes: &Classes,
    speaker: Speaker,
    born: Born,
    class: &Asked,
    hr: HResult,
) -> Result<(), Memory>
    ensures { OnOk result (out.new ≡ out.old ++ create_story classes.now speaker born class.now hr) }
{
    if hr.is_failure() {
        return push_unmade(out, classes, speaker, class, hr);
    }
    push_made(out, classes, speaker.lane, born, class)
}

// Appends that a lane asks an object, or null, for an interface, and why that fails where it does.
pub(crate) fn push_query(
    out: &mut ByteList,
    classes: &Classes,
    speaker: Speaker,
    object: Option<u32>,
    iface: &Asked,
    hr: HResult,
) -> Result<(), Memory>
    ensures { OnOk result (out.new ≡ out.old ++ query_story classes.now speaker object iface.now hr) }
{
    push_does(out, speaker.lane, b" asks ")?;
    push_object(out, object)?;
    out.push_all(b" for ")?;
    push_shown_interface(out, classes, iface)?;
    push_failure_if(out, speaker.version, hr)
}

// Appends that a lane copies a reference to an object, or a null one.
pub(crate) fn push_copy(out: &mut ByteList, lane: u32, held: Option<RefValue>) -> Result<(), Memory>
    ensures { OnOk result (out.new ≡ out.old ++ copy_story lane held) }
{
    match held {
        None => push_does(out, lane, b" copies a null reference"),
        Some(held) => push_at(out, lane, b" keeps one more reference to o", held.object),
    }
}

// Appends that a lane releases a reference to an object, or a null one.
pub(crate) fn push_release(
    out: &mut ByteList,
    lane: u32,
    held: Option<RefValue>,
) -> Result<(), Memory>
    ensures { OnOk result (out.new ≡ out.old ++ release_story lane held) }
{
    match held {
        None => push_does(out, lane, b" releases a null reference"),
        Some(held) => push_at(out, lane, b" releases a reference to o", held.object),
    }
}

// Appends whether a packet is normal, strong or weak.
fn push_mode(out: &mut ByteList, mode: MarshalMode) -> Result<(), Memory>
    ensures { OnOk result (out.new ≡ out.old ++ mode_words mode) }
{
    match mode {
        MarshalMode::Normal => out.push_all(b", normal"),
        MarshalMode::Strong => out.push_all(b", strong"),
        MarshalMode::Weak => out.push_all(b", weak"),
    }
}

// Appends that a lane marshals a reference to an object, into which packet, and of which mode.
fn push_packed(
    out: &mut ByteList,
    lane: u32,
    packet: Option<u32>,
    mode: MarshalMode,
    object: Option<u32>,
) -> Result<(), Memory>
    ensures { OnOk result (out.new ≡ out.old ++ packed_story lane packet mode object) }
{
    push_does_named(out, lane, b" packs a reference to ", b"o", object)?;
    out.push_all(b" into ")?;
    push_named(out, b"pk", packet)?;
    push_mode(out, mode)
}

// Appends that a lane marshals a reference to an object into a packet, or why it cannot.
pub(crate) fn push_marshal(
    out: &mut ByteList,
    speaker: Speaker,
    packet: Option<u32>,
    mode: MarshalMode,
    object: Option<u32>,
    hr: HResult,
) -> Result<(), Memory>
    ensures { OnOk result (out.new ≡ out.old ++ marshal_story speaker packet mode object hr) }
{
    if hr.is_failure() {
        return push_object_fails(
            out,
            speaker,
            b" cannot pack a reference to ",
            object,
            b"",
            hr,
        );
    }
    push_packed(out, speaker.lane, packet, mode, object)
}

// Appends that a lane unmarshals a reference to an object, and from which packet.
fn push_unpacked(
    out: &mut ByteList,
    lane: u32,
    packet: Option<u32>,
    object: Option<u32>,
) -> Result<(), Memory>
    ensures { OnOk result (out.new ≡ out.old ++ unpacked_story lane packet object) }
{
    push_does_named(out, lane, b" unpacks a reference to ", b"o", object)?;
    out.push_all(b" from ")?;
    push_named(out, b"pk", packet)
}

// Appends that a lane unmarshals a reference from a packet, or why it cannot.
pub(crate) fn push_unmarshal(
    out: &mut ByteList,
    speaker: Speaker,
    packet: Option<u32>,
    object: Option<u32>,
    hr: HResult,
) -> Result<(), Memory>
    ensures { OnOk result (out.new ≡ out.old ++ unmarshal_story speaker packet object hr) }
{
    if hr.is_failure() {
        return push_fails(out, speaker, b" cannot unpack a reference", hr);
    }
    push_unpacked(out, speaker.lane, packet, object)
}

// Appends that a lane gives a packet up, or why it cannot.
pub(crate) fn push_drop(
    out: &mut ByteList,
    speaker: Speaker,
    packet: Option<u32>,
    hr: HResult,
) -> Result<(), Memory>
    ensures { OnOk result (out.new ≡ out.old ++ drop_story speaker packet hr) }
{
    if hr.is_failure() {
        return push_fails(out, speaker, b" cannot drop a packet", hr);
    }
    push_does_named(out, speaker.lane, b" drops packet ", b"pk", packet)
}

// Appends how many bytes a lane puts into a packet buffer, and into which.
pub(crate) fn push_raw(out: &mut ByteList, lane: u32, buffer: u8, length: u32) -> Result<(), Memory>
    ensures { OnOk result (out.new ≡ out.old ++ raw_story lane buffer length) }
{
    push_at(out, lane, b" writes ", length)?;
    push_word_and_number(out, b" bytes into buffer p", buffer as u32)
}

// Appends that a lane puts a reference to an object into the global interface table, and under
// which cookie.
fn push_registered(
    out: &mut ByteList,
    lane: u32,
    cookie: Option<u32>,
    object: Option<u32>,
) -> Result<(), Memory>
    ensures { OnOk result (out.new ≡ out.old ++ registered_story lane cookie object) }
{
    push_does_named(out, lane, b" puts ", b"o", object)?;
    out.push_all(b" into the global table under cookie ")?;
    push_named(out, b"", cookie)
}

// Appends that a lane puts a reference into the global interface table, or why it cannot.
pub(crate) fn push_register(
    out: &mut ByteList,
    speaker: Speaker,
    cookie: Option<u32>,
    object: Option<u32>,
    hr: HResult,
) -> Result<(), Memory>
    ensures { OnOk result (out.new ≡ out.old ++ register_story speaker cookie object hr) }
{
    if hr.is_failure() {
        return push_object_fails(
            out,
            speaker,
            b" cannot put ",
            object,
            b" into the global table",
            hr,
        );
    }
    push_registered(out, speaker.lane, cookie, object)
}

// Appends that a lane takes a reference to an object from the global interface table, and by which
// cookie.
fn push_got(out: &mut ByteList, lane: u32, cookie: i64, object: Option<u32>) -> Result<(), Memory>
    ensures { OnOk result (out.new ≡ out.old ++ got_story lane cookie object) }
{
    push_does_named(out, lane, b" takes a reference to ", b"o", object)?;
    out.push_all(b" by cookie ")?;
    push_signed(out, cookie)
}

// Appends that a lane takes a reference from the global interface table by a cookie, or why it
// cannot.
pub(crate) fn push_get(
    out: &mut ByteList,
    speaker: Speaker,
    cookie: i64,
    object: Option<u32>,
    hr: HResult,
) -> Result<(), Memory>
    ensures { OnOk result (out.new ≡ out.old ++ get_story speaker cookie object hr) }
{
    if hr.is_failure() {
        return push_signed_fails(out, speaker, b" gets nothing by cookie ", cookie, hr);
    }
    push_got(out, speaker.lane, cookie, object)
}

// Appends that a lane revokes a cookie, or why it cannot.
pub(crate) fn push_revoke(
    out: &mut ByteList,
    speaker: Speaker,
    cookie: i64,
    hr: HResult,
) -> Result<(), Memory>
    ensures { OnOk result (out.new ≡ out.old ++ revoke_story speaker cookie hr) }
{
    if hr.is_failure() {
        return push_signed_fails(out, speaker, b" cannot revoke cookie ", cookie, hr);
    }
    push_does_signed(out, speaker.lane, b" revokes cookie ", cookie)
}

// Appends that a lane cuts an object off from all other apartments.
fn push_cut(out: &mut ByteList, lane: u32, object: Option<u32>) -> Result<(), Memory>
    ensures { OnOk result (out.new ≡ out.old ++ cut_story lane object) }
{
    push_does_named(out, lane, b" cuts ", b"o", object)?;
    out.push_all(b" off from all other apartments")
}

// Appends that a lane disconnects an object, which cuts it off from all other apartments, or why it
// cannot.
pub(crate) fn push_disconnect(
    out: &mut ByteList,
    speaker: Speaker,
    object: Option<u32>,
    hr: HResult,
) -> Result<(), Memory>
    ensures { OnOk result (out.new ≡ out.old ++ disconnect_story speaker object hr) }
{
    if hr.is_failure() {
        return push_object_fails(out, speaker, b" cannot disconnect ", object, b"", hr);
    }
    push_cut(out, speaker.lane, object)
}

// Appends that nothing holds an object any more, and which lane ends it.
pub(crate) fn push_final(out: &mut ByteList, lane: u32, object: u32) -> Result<(), Memory>
    ensures { OnOk result (out.new ≡ out.old ++ final_story lane object) }
{
    push_word_and_number(out, b"Nothing holds o", object)?;
    push_word_and_number(out, b" any more: L", lane)?;
    out.push_all(b" destroys it")
}
