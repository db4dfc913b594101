//! How an entry looks: whether it is bad, its call, its mark, and the classes of its label.
ghost use Rattle.std.specs.Prelude.{◌≡◌};
ghost use Rattle.com_draw_labels.specs.Looks.{call_of, has_label, is_bad, is_refused, label_class};
ghost use Rattle.com_draw_labels.specs.Looks.{label_ident, look, mark_of, new_class};

use com_base::HResult;
use com_draw_words::{LabelClass, Look, Mark, hue_of};
use com_model::{Deed, Route};

// Whether a call was refused at its issue.
fn is_refused(route: Route) -> bool
    ensures { result ≡ is_refused route }
{
    match route {
        Route::Refused => true,
        Route::Direct | Route::Switch | Route::Post => false,
    }
}

/// Whether what an entry says is bad.
pub fn is_bad(deed: &Deed) -> bool
    ensures { result ≡ is_bad deed.now }
{
    match deed {
        Deed::Init { hr, .. }
        | Deed::Made { hr, .. }
        | Deed::Query { hr, .. }
        | Deed::Marshal { hr, .. }
        | Deed::Unmarshal { hr, .. }
        | Deed::DropPacket { hr, .. }
        | Deed::Register { hr, .. }
        | Deed::Get { hr, .. }
        | Deed::Revoke { hr, .. }
        | Deed::Post { hr, .. }
        | Deed::Quit { hr, .. }
        | Deed::Leave { hr, .. }
        | Deed::Back { hr, .. }
        | Deed::Disconnect { hr, .. } => hr.is_failure(),
        Deed::SetFilter { hr, .. } => hr.0 != 0,
        Deed::Out { route, .. } => is_refused(*route),
        Deed::Verdict { .. } | Deed::Refuse { .. } => true,
        Deed::Retry { answer, .. } => *answer < 0,
        Deed::Pending { answer, .. } => *answer == 0,
        _ => false,
    }
}

/// The call of an entry, in the kinds that have one.
pub fn call_of(deed: &Deed) -> Option<u32>
    ensures { result ≡ call_of deed.now }
{
    match deed {
        Deed::Out { call, .. }
        | Deed::Verdict { call, .. }
        | Deed::Refuse { call, .. }
        | Deed::Enter { call, .. }
        | Deed::Leave { call, .. }
        | Deed::Retry { call, .. }
        | Deed::Again { call }
        | Deed::Back { call, .. }
        | Deed::Pending { call, .. } => Some(*call),
        _ => None,
    }
}

/// Whether an entry has a label: all but the moves of the clock.
pub fn has_label(deed: &Deed) -> bool
    ensures { result ≡ has_label deed.now }
{
    match deed {
        Deed::Tick { .. } => false,
        _ => true,
    }
}

/// By what an entry is marked.
pub fn mark_of(deed: &Deed) -> Mark
    ensures { result ≡ mark_of deed.now }
{
    if !has_label(deed) {
        return Mark::Tick;
    }
    if is_bad(deed) {
        return Mark::Bad;
    }
    Mark::Plain
}

// A label is about a new object, in the hue of its apartment, where one was made, and else about
// nothing.
fn new_class(apartment: Option<u32>, hr: HResult) -> LabelClass
    ensures { result ≡ new_class apartment hr }
{
    let Some(apartment) = apartment else {
        return LabelClass::Plain;
    };
    if hr.is_failure() {
        return LabelClass::Plain;
    }
    LabelClass::New(hue_of(apartment))
}

// What the label of an entry is about: a new object, the end of a lane, or nothing of these.
fn label_class(deed: &Deed) -> LabelClass
    ensures { result ≡ label_class deed.now }
{
    match deed {
        Deed::Made { apartment, hr, .. } => new_class(*apartment, *hr),
        Deed::End => LabelClass::Over,
        _ => LabelClass::Plain,
    }
}

// The call by which a label is found: only an Out has one.
fn label_ident(deed: &Deed) -> Option<u32>
    ensures { result ≡ label_ident deed.now }
{
    match deed {
        Deed::Out { call, .. } => Some(*call),
        _ => None,
    }
}

/// How the label of an entry looks.
pub fn look(deed: &Deed) -> Look
    ensures { result ≡ look deed.now }
{
    Look {
        class: label_class(deed),
        is_bad: is_bad(deed),
        ident: label_ident(deed),
    }
}
