//! The entries of actions that need no references.

ghost use Rattle.std.specs.Prelude.{◌≡◌, ◌+◌, ◌<◌, ◌≤◌, ◌^◌, ◌&&◌, not, length, ℕ};
ghost use Rattle.com_refs_books.specs.Changes.{Books};
ghost use Rattle.com_model.specs.Deeds.{deed_of, takes_words, word_answer};
ghost use Rattle.com_model.specs.Tables.{is_thread};
ghost use Rattle.com_body.specs.declared.actions.Action.TheVariants as action;
ghost use Rattle.com_view.specs.Seen.{bare, sight_by};
ghost use Rattle.com_lanes.specs.Changes.{natural};

use com_base::{HResult, Mode};
use com_model::Deed;
use com_view::View;

/// The entry of `init` (CoInitializeEx).
pub fn init_deed(view: &View<'_>, lane: u32, mode: Mode) -> Deed
    requires { length view.now.lanes.stas + 4 ≤ 2 ^ 32 }
    ensures { (b : Books) → result
        ≡ deed_of view.now.scenario (sight_by view.now b) lane (action.Init mode) }
{
    com_deeds::init_deed(mode, view.home(lane), view.lanes.next_sta())
}

/// The entry of `setfilter` (CoRegisterMessageFilter).
pub fn filter_deed(view: &View<'_>, lane: u32, filter: Option<u32>) -> Deed
    ensures { (b : Books) → result
        ≡ deed_of view.now.scenario (sight_by view.now b) lane (action.SetFilter filter) }
{
    com_deeds::filter_deed(filter, view.home(lane))
}

/// The entry of `post`: S_OK where the number is that of a thread's lane that is not over, else
/// E_INVALIDARG.
pub fn post_deed(view: &View<'_>, to: i64, word: i64) -> Deed
    requires { length view.now.scenario.threads < 2 ^ 32 }
    ensures { (b : Books) (l : ℕ)
        → result ≡ deed_of view.now.scenario (sight_by view.now b) l (action.Post to word) }
{
    Deed::Post {
        lane: to,
        word,
        hr: word_answer(view, to),
    }
}

/// The entry of `quit`, with the answers of `post`.
pub fn quit_deed(view: &View<'_>, to: i64) -> Deed
    requires { length view.now.scenario.threads < 2 ^ 32 }
    ensures { (b : Books) (l : ℕ)
        → result ≡ deed_of view.now.scenario (sight_by view.now b) l (action.Quit to) }
{
    Deed::Quit {
        lane: to,
        hr: word_answer(view, to),
    }
}

// The answer of `post` and `quit`: S_OK where the lane takes a word, else E_INVALIDARG.
fn word_answer(view: &View<'_>, to: i64) -> HResult
    requires { length view.now.scenario.threads < 2 ^ 32 }
    ensures { result ≡ word_answer view.now.scenario (bare view.now) to }
{
    if takes_words(view, to) {
        HResult::S_OK
    } else {
        HResult::E_INVALIDARG
    }
}

// Whether a number is that of a thread's lane that is not over. A number below 0 is that of none.
#[tactic(auto, using(crate::proofs::Words::words_none, crate::proofs::Words::words_some))]
fn takes_words(view: &View<'_>, to: i64) -> bool
    requires { length view.now.scenario.threads < 2 ^ 32 }
    ensures { result ≡ takes_words view.now.scenario (bare view.now) to }
{
    match natural(to) {
        None => false,
        Some(number) => lane_takes_words(view, number),
    }
}

// Whether a number from 0 on is that of a thread's lane, the first of which is 1, that is not
// over.
fn lane_takes_words(view: &View<'_>, number: u64) -> bool
    requires { length view.now.scenario.threads < 2 ^ 32 }
    ensures { result ≡ (is_thread view.now.scenario number && not ((bare view.now).over number)) }
{
    if number == 0 {
        return false;
    }
    if number > view.scenario.threads.len() as u64 {
        return false;
    }
    !view.lanes.is_over(number as u32)
}

// A whole number, where it is not below 0.
fn natural(number: i64) -> Option<u64>
    ensures { result ≡ natural number }
{
    if number < 0 {
        None
    } else {
        Some(number as u64)
    }
}
