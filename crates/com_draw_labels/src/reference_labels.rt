//! The labels of apartments, objects and references.
ghost use Rattle.std.specs.Prelude.{◌≡◌, ◌++◌, OnOk};
ghost use Rattle.com_draw_labels.specs.Labels.{copy_label, create_label, disconnect_label, drop_label};
ghost use Rattle.com_draw_labels.specs.Labels.{get_label, got_label, init_label, made_label, marshal_label};
ghost use Rattle.com_draw_labels.specs.Labels.{object_and_packet, query_label, register_label};
ghost use Rattle.com_draw_labels.specs.Labels.{registered_label, release_label, revoke_label, uninit_label};
ghost use Rattle.com_draw_labels.specs.Labels.{unmade_label, unmarshal_label};

use crate::words::{push_failed, push_words_named, push_words_place, push_words_signed};
use com_base::{ByteList, HResult, Memory, RefValue};
use com_body::Asked;
use com_classes::Classes;
use com_draw_names::{
    Born, push_class, push_hresult_behind, push_hresult_if, push_interface, push_named, push_object,
};
use com_draw_words::push_word_and_number;

// Appends which apartment a lane enters, or that it enters its home once more, or the HRESULT
// where it is refused.
pub(crate) fn push_init(
    out: &mut ByteList,
    version: u8,
    home: u32,
    has_home: bool,
    hr: HResult,
) -> Result<(), Memory>
    ensures { OnOk result (out.new ≡ out.old ++ init_label version home has_home hr) }
{
    if hr.is_failure() {
        return push_failed(out, b"init", version, hr);
    }
    if has_home {
        return out.push_all(b"enters again");
    }
    push_words_place(out, b"enters ", home)
}

// Appends that a lane leaves its home, or that it takes one of several initialisations back, or
// that it has no home to leave.
pub(crate) fn push_uninit(out: &mut ByteList, home: Option<u32>, count: u32) -> Result<(), Memory>
    ensures { OnOk result (out.new ≡ out.old ++ uninit_label home count) }
{
    let Some(home) = home else {
        return out.push_all(b"leaves nothing");
    };
    if count == 0 {
        return push_words_place(out, b"leaves ", home);
    }
    out.push_all(b"leaves once")
}

// Appends the class of which no object was made, and the HRESULT.
fn push_unmade(
    out: &mut ByteList,
    classes: &Classes,
    version: u8,
    class: &Asked,
    hr: HResult,
) -> Result<(), Memory>
    ensures { OnOk result (out.new ≡ out.old ++ unmade_label classes.now version class.now hr) }
{
    out.push_all(b"new ")?;
    push_class(out, classes, class)?;
    push_hresult_behind(out, version, hr)
}

// Appends a new object, its class and its apartment.
fn push_made(out: &mut ByteList, classes: &Classes, born: Born, class: &Asked) -> Result<(), Memory>
    ensures { OnOk result (out.new ≡ out.old ++ made_label classes.now born class.now) }
{
    push_words_named(out, b"new ", b"o", born.object)?;
    out.push_all(b" ")?;
    push_class(out, classes, class)?;
    push_words_named(out, b" in ", b"a", born.apartment)
}

// Appends which object was made of a class and where, or the HRESULT where none was made.
pub(crate) fn push_create(
    out: &mut ByteList,
    classes: &Classes,
    version: u8,
    born: Born,
    class: &Asked,
    hr: HResult,
) -> Result<(), Memory>
    ensures { OnOk result (out.new ≡ out.old ++ create_label classes.now version born class.now hr) }
{
    if hr.is_failure() {
        return push_unmade(out, classes, version, class, hr);
    }
    push_made(out, classes, born, class)
}

// Appends which object was asked for which interface, with the HRESULT where it has failed.
pub(crate) fn push_query(
    out: &mut ByteList,
    classes: &Classes,
    version: u8,
    object: Option<u32>,
    iface: &Asked,
    hr: HResult,
) -> Result<(), Memory>
    ensures { OnOk result (out.new ≡ out.old ++ query_label classes.now version object iface.now hr) }
{
    push_object(out, object)?;
    out.push_all(b" as ")?;
    push_interface(out, classes, iface)?;
    push_hresult_if(out, version, hr)
}

// Appends the object, or null, of a reference that is put at one more place.
pub(crate) fn push_copy(out: &mut ByteList, held: Option<RefValue>) -> Result<(), Memory>
    ensures { OnOk result (out.new ≡ out.old ++ copy_label held) }
{
    match held {
        None => out.push_all(b"keeps null"),
        Some(held) => push_word_and_number(out, b"keeps o", held.object),
    }
}

// Appends the object, or null, of a reference that is given up.
pub(crate) fn push_release(out: &mut ByteList, held: Option<RefValue>) -> Result<(), Memory>
    ensures { OnOk result (out.new ≡ out.old ++ release_label held) }
{
    match held {
        None => out.push_all(b"releases null"),
        Some(held) => push_word_and_number(out, b"releases o", held.object),
    }
}

// Appends an object and a packet, with words before each.
fn push_object_and_packet(
    out: &mut ByteList,
    before: &[u8],
    object: Option<u32>,
    between: &[u8],
    packet: Option<u32>,
) -> Result<(), Memory>
    ensures { OnOk result (out.new ≡ out.old ++ object_and_packet before.now object between.now packet) }
{
    push_words_named(out, before, b"o", object)?;
    push_words_named(out, between, b"pk", packet)
}

// Appends which object was written as which packet, or the HRESULT where that failed.
pub(crate) fn push_marshal(
    out: &mut ByteList,
    version: u8,
    packet: Option<u32>,
    object: Option<u32>,
    hr: HResult,
) -> Result<(), Memory>
    ensures { OnOk result (out.new ≡ out.old ++ marshal_label version packet object hr) }
{
    if hr.is_failure() {
        return push_failed(out, b"pack", version, hr);
    }
    push_object_and_packet(out, b"packs ", object, b" in ", packet)
}

// Appends which object was read from which packet, or the HRESULT where that failed.
pub(crate) fn push_unmarshal(
    out: &mut ByteList,
    version: u8,
    packet: Option<u32>,
    object: Option<u32>,
    hr: HResult,
) -> Result<(), Memory>
    ensures { OnOk result (out.new ≡ out.old ++ unmarshal_label version packet object hr) }
{
    if hr.is_failure() {
        return push_failed(out, b"unpack", version, hr);
    }
    push_object_and_packet(out, b"unpacks ", object, b" from ", packet)
}

// Appends which packet was given up, or the HRESULT where that failed.
pub(crate) fn push_drop(
    out: &mut ByteList,
    version: u8,
    packet: Option<u32>,
    hr: HResult,
) -> Result<(), Memory>
    ensures { OnOk result (out.new ≡ out.old ++ drop_label version packet hr) }
{
    if hr.is_failure() {
        return push_failed(out, b"drop", version, hr);
    }
    push_words_named(out, b"drops ", b"pk", packet)
}

// Appends an object and its cookie in the global interface table.
fn push_registered(
    out: &mut ByteList,
    cookie: Option<u32>,
    object: Option<u32>,
) -> Result<(), Memory>
    ensures { OnOk result (out.new ≡ out.old ++ registered_label cookie object) }
{
    push_named(out, b"o", object)?;
    push_words_named(out, b" gets cookie ", b"", cookie)
}

// Appends which object got which cookie, or the HRESULT where it was not registered.
pub(crate) fn push_register(
    out: &mut ByteList,
    version: u8,
    cookie: Option<u32>,
    object: Option<u32>,
    hr: HResult,
) -> Result<(), Memory>
    ensures { OnOk result (out.new ≡ out.old ++ register_label version cookie object hr) }
{
    if hr.is_failure() {
        return push_failed(out, b"register", version, hr);
    }
    push_registered(out, cookie, object)
}

// Appends an object and the cookie by which it was taken from the global interface table.
fn push_got(out: &mut ByteList, cookie: i64, object: Option<u32>) -> Result<(), Memory>
    ensures { OnOk result (out.new ≡ out.old ++ got_label cookie object) }
{
    push_named(out, b"o", object)?;
    push_words_signed(out, b" by cookie ", cookie)
}

// Appends which object a cookie gave, or the HRESULT where it gave none.
pub(crate) fn push_get(
    out: &mut ByteList,
    version: u8,
    cookie: i64,
    object: Option<u32>,
    hr: HResult,
) -> Result<(), Memory>
    ensures { OnOk result (out.new ≡ out.old ++ get_label version cookie object hr) }
{
    if hr.is_failure() {
        return push_failed(out, b"get", version, hr);
    }
    push_got(out, cookie, object)
}

// Appends which cookie was ended, or the HRESULT where that failed.
pub(crate) fn push_revoke(
    out: &mut ByteList,
    version: u8,
    cookie: i64,
    hr: HResult,
) -> Result<(), Memory>
    ensures { OnOk result (out.new ≡ out.old ++ revoke_label version cookie hr) }
{
    if hr.is_failure() {
        return push_failed(out, b"revoke", version, hr);
    }
    push_words_signed(out, b"revokes cookie ", cookie)
}

// Appends which object was disconnected from all callers, or the HRESULT where that failed.
pub(crate) fn push_disconnect(
    out: &mut ByteList,
    version: u8,
    object: Option<u32>,
    hr: HResult,
) -> Result<(), Memory>
    ensures { OnOk result (out.new ≡ out.old ++ disconnect_label version object hr) }
{
    if hr.is_failure() {
        return push_failed(out, b"disconnect", version, hr);
    }
    push_words_named(out, b"disconnects ", b"o", object)
}
