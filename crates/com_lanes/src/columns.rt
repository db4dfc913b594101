//! One row of a table that has a row for each lane. A lane that has no row changes nothing.
ghost use Rattle.std.specs.Prelude.{◌≡◌, ℕ, ◌+◌, ◌<◌, ◌≤◌, ◌^◌, length, ◌∷◌, [], false, if◌then◌else◌};
ghost use Rattle.std.specs.Prelude.{IsOk, Option, OnOk, slice_index_or, slice_set};
ghost use Rattle.com_base.specs.declared.apartments.TheConstants.{FIRST_STA};
ghost use Rattle.com_model.specs.Answers.{is_S_OK};
ghost use Rattle.com_model.specs.Apartments.{Initialises, Uninitialises, home_after, count_after, makes_sta};
ghost use Rattle.com_model.specs.Apartments.{ends_sta, with_last};
ghost use Rattle.com_model.specs.Clock.{Names, Keeps, filter_effect};
ghost use Rattle.com_model.specs.Lists.{where_true, without_first};
ghost use Rattle.com_model.specs.Openers.{Closes, Leaves, left_on};
ghost use Rattle.com_model.specs.State.{changed_at, filters_change};
ghost use Rattle.com_model.specs.Waiting.{no_mail, mail_after, Takes, Asks, Forgets};
ghost use Rattle.com_lane_lists.specs.Bodies.{is_one_pump};
ghost use Rattle.com_lane_lists.specs.Rooms.{HasMark, HasSlot, mail_in, no_opener, no_word, openers_in};
ghost use Rattle.com_lanes.specs.Changes.{IsBelow, IsNumber, natural, posted_to, quit_to, stas_made};
ghost use Rattle.com_lanes.specs.Rooms.{HasEnd, HasSta, HasWordTo};

use com_base::{HOST_STA, HResult, Memory, Mode};
use com_lane_lists::{Mail, Openers, Stas};
use com_model::{Deed, Opener};

// Puts a value in a row.
pub(crate) fn put<T: Copy>(column: &mut Vec<T>, lane: u32, value: T)
    ensures { column.new.items ≡ slice_set column.old.items lane value }
{
    if let Some(row) = column.get_mut(lane as usize) {
        *row = value;
    }
}

// Makes room for one opener more in a lane. The only error is want of memory.
#[tactic(auto, using(crate::proofs::Rows::openers_same))]
pub(crate) fn reserve_opener(column: &mut Vec<Openers>, lane: u32) -> Result<(), Memory>
    ensures openers { openers_in column.new.items ≡ openers_in column.old.items }
    ensures slot { OnOk result (HasSlot (slice_index_or column.new.items lane no_opener)) }
    ensures succeeds { HasSlot (slice_index_or column.old.items lane no_opener) → IsOk result }
{
    match column.get_mut(lane as usize) {
        Some(openers) => openers.reserve(),
        None => Ok(()),
    }
}

// Opens one more in a lane.
#[tactic(auto, using(crate::proofs::Rows::openers_set, crate::proofs::Rows::openers_at))]
pub(crate) fn push_opener(column: &mut Vec<Openers>, lane: u32, opener: Opener)
    requires slot { HasSlot (slice_index_or column.old.items lane no_opener) }
    ensures { openers_in column.new.items ≡ slice_set (openers_in column.old.items) lane
        (opener ∷ slice_index_or (openers_in column.old.items) lane []) }
{
    if let Some(openers) = column.get_mut(lane as usize) {
        openers.push(opener);
    }
}

// Closes the innermost of a lane.
#[tactic(auto, using(crate::proofs::Rows::openers_set, crate::proofs::Rows::openers_at))]
pub(crate) fn pop_opener(column: &mut Vec<Openers>, lane: u32)
    ensures { openers_in column.new.items ≡ slice_set (openers_in column.old.items) lane
        (without_first (slice_index_or (openers_in column.old.items) lane [])) }
{
    if let Some(openers) = column.get_mut(lane as usize) {
        openers.pop();
    }
}

// A body has left a lane in which these are open, which counts where a pump alone is.
#[tactic(auto, using(crate::proofs::Rows::set_own, crate::proofs::Rows::left_one, crate::proofs::Rows::left_other))]
pub(crate) fn count_left(column: &mut Vec<u64>, openers: &Vec<Openers>, lane: u32, call: u32)
    requires { slice_index_or column.old.items lane 0 + 1 < 2 ^ 64 }
    ensures { column.new.items ≡ slice_set column.old.items lane
        (left_on (Closes (Leaves call)) (slice_index_or (openers_in openers.now.items) lane [])
        (slice_index_or column.old.items lane 0)) }
{
    if !one_pump_at(openers, lane) {
        return;
    }
    if let Some(left) = column.get_mut(lane as usize) {
        *left += 1;
    }
}

// Whether a pump alone is open in a lane.
#[tactic(auto, using(crate::proofs::Rows::openers_some, crate::proofs::Rows::openers_none))]
fn one_pump_at(openers: &Vec<Openers>, lane: u32) -> bool
    ensures { result ≡ is_one_pump (slice_index_or (openers_in openers.now.items) lane []) }
{
    match openers.get(lane as usize) {
        Some(openers) => openers.is_one_pump(),
        None => false,
    }
}

// A lane is initialised, with this answer.
#[tactic(auto, using(crate::proofs::Rows::set_own))]
pub(crate) fn count_success(column: &mut Vec<u32>, lane: u32, home: u32, hr: HResult)
    requires { slice_index_or column.old.items lane 0 + 1 < 2 ^ 32 }
    ensures { column.new.items ≡ slice_set column.old.items lane
        (count_after (Initialises home hr) (slice_index_or column.old.items lane 0)) }
{
    if hr.is_failure() {
        return;
    }
    if let Some(count) = column.get_mut(lane as usize) {
        *count += 1;
    }
}

// The home that a lane has after it is uninitialised, with its home before and the count after.
pub(crate) fn home_left(home: Option<u32>, count: u32) -> Option<u32>
    ensures { (before : Option ℕ) → result ≡ home_after (Uninitialises home count) before }
{
    match count {
        0 => None,
        _ => home,
    }
}

// Whether an HRESULT is S_OK.
fn is_s_ok(hr: HResult) -> bool
    ensures { result ≡ is_S_OK hr }
{
    hr.0 == 0
}

// Names a lane's filter, or none, where the answer is S_OK.
pub(crate) fn name_filter(
    column: &mut Vec<Option<u32>>,
    lane: u32,
    filter: Option<u32>,
    hr: HResult,
)
    ensures { column.new.items
        ≡ changed_at (filters_change (if is_S_OK hr then Names filter
        else Keeps)) lane None column.old.items }
{
    if is_s_ok(hr) {
        put(column, lane, filter);
    }
}

// Ends a lane's filter where this is left of its initialisations.
pub(crate) fn drop_filter(column: &mut Vec<Option<u32>>, lane: u32, home: Option<u32>, count: u32)
    ensures { column.new.items
        ≡ changed_at (filters_change (filter_effect (Deed.Uninit home count))) lane None column.old.items }
{
    match count {
        0 => put(column, lane, None),
        _ => {}
    }
}

// A whole number, where it is not below 0.
fn natural(number: i64) -> Option<u64>
    ensures { result ≡ natural number }
{
    if number < 0 {
        None
    } else {
        Some(number as u64)
    }
}

// Makes room for a word to the lane that a Post names. The only error is want of memory.
#[tactic(auto, using(crate::proofs::Rows::mail_same))]
pub(crate) fn reserve_word(column: &mut Vec<Mail>, to: i64) -> Result<(), Memory>
    ensures mail { mail_in column.new.items ≡ mail_in column.old.items }
    ensures word { OnOk result (HasWordTo column.new.items (natural to)) }
{
    let Some(lane) = natural(to) else {
        return Ok(());
    };
    match column.get_mut(lane as usize) {
        Some(mail) => mail.reserve_word(),
        None => Ok(()),
    }
}

// Brings a word to the lane that a Post names, where the answer is S_OK.
#[tactic(auto, using(crate::proofs::Rows::posted_none, crate::proofs::Rows::posted_some, crate::proofs::Rows::posted_not, crate::proofs::Rows::set_past, crate::proofs::Rows::mail_set, crate::proofs::Rows::mail_at))]
pub(crate) fn bring_at(column: &mut Vec<Mail>, to: i64, word: i64, hr: HResult)
    requires posted { (l : ℕ) → (slice_index_or column.old.items l no_word).mail.posted + 1 < 2 ^ 64 }
    requires room { HasWordTo column.old.items (natural to) }
    ensures { mail_in column.new.items ≡ posted_to to word hr (mail_in column.old.items) }
{
    if !is_s_ok(hr) {
        return;
    }
    let Some(lane) = natural(to) else {
        return;
    };
    if let Some(mail) = column.get_mut(lane as usize) {
        mail.bring(word);
    }
}

// Takes the first word of a lane.
#[tactic(auto, using(crate::proofs::Rows::mail_set, crate::proofs::Rows::mail_at))]
pub(crate) fn take_at(column: &mut Vec<Mail>, lane: u32)
    ensures { mail_in column.new.items ≡ slice_set (mail_in column.old.items) lane
        (mail_after Takes (slice_index_or (mail_in column.old.items) lane no_mail)) }
{
    if let Some(mail) = column.get_mut(lane as usize) {
        mail.take();
    }
}

// Makes room for a mark of a lane. The only error is want of memory.
#[tactic(auto, using(crate::proofs::Rows::mail_same))]
pub(crate) fn reserve_mark(column: &mut Vec<Mail>, lane: u32) -> Result<(), Memory>
    ensures mail { mail_in column.new.items ≡ mail_in column.old.items }
    ensures mark { OnOk result (HasMark (slice_index_or column.new.items lane no_word)) }
{
    match column.get_mut(lane as usize) {
        Some(mail) => mail.reserve_mark(),
        None => Ok(()),
    }
}

// Asks a call of a lane about the next word.
#[tactic(auto, using(crate::proofs::Rows::mail_set, crate::proofs::Rows::mail_at))]
pub(crate) fn ask_at(column: &mut Vec<Mail>, lane: u32, call: u32, answer: u8)
    requires room { HasMark (slice_index_or column.old.items lane no_word) }
    ensures { mail_in column.new.items ≡ slice_set (mail_in column.old.items) lane
        (mail_after (Asks call answer) (slice_index_or (mail_in column.old.items) lane no_mail)) }
{
    if let Some(mail) = column.get_mut(lane as usize) {
        mail.ask(call, answer);
    }
}

// A call of a lane came back.
#[tactic(auto, using(crate::proofs::Rows::mail_set, crate::proofs::Rows::mail_at))]
pub(crate) fn forget_at(column: &mut Vec<Mail>, lane: u32, call: u32)
    ensures { mail_in column.new.items ≡ slice_set (mail_in column.old.items) lane
        (mail_after (Forgets call) (slice_index_or (mail_in column.old.items) lane no_mail)) }
{
    if let Some(mail) = column.get_mut(lane as usize) {
        mail.forget(call);
    }
}

// A quit stands for the lane that a Quit names, where the answer is S_OK.
#[tactic(auto, using(crate::proofs::Rows::quit_none, crate::proofs::Rows::quit_some, crate::proofs::Rows::quit_not, crate::proofs::Rows::set_past))]
pub(crate) fn quit_at(column: &mut Vec<bool>, to: i64, hr: HResult)
    ensures { column.new.items ≡ quit_to to hr column.old.items }
{
    if !is_s_ok(hr) {
        return;
    }
    let Some(lane) = natural(to) else {
        return;
    };
    if let Some(quit) = column.get_mut(lane as usize) {
        *quit = true;
    }
}

// A pump of a lane ends by its quit, if it does.
pub(crate) fn end_quit(column: &mut Vec<bool>, lane: u32, by_quit: bool)
    ensures { column.new.items ≡ changed_at (where_true by_quit (λ b. false)) lane false column.old.items }
{
    if by_quit {
        put(column, lane, false);
    }
}

// Makes room for the apartment that a lane makes which is initialised, if it makes one. The only error is
// want of memory.
pub(crate) fn reserve_sta(
    stas: &mut Stas,
    lane: u32,
    mode: Mode,
    home: u32,
    hr: HResult,
) -> Result<(), Memory>
    ensures tables { stas.new.tables ≡ stas.old.tables }
    ensures room { OnOk result (HasSta stas.new lane (makes_sta (Deed.Init mode home hr))) }
{
    match mode {
        Mode::Mta => Ok(()),
        Mode::Sta => {
            if is_s_ok(hr) {
                stas.reserve_made(lane)
            } else {
                Ok(())
            }
        }
    }
}

// A lane that is initialised makes an apartment where it asks for one of its own and the answer is S_OK.
pub(crate) fn make_sta(stas: &mut Stas, lane: u32, mode: Mode, home: u32, hr: HResult)
    requires next { IsNumber (length stas.old.tables.stas + FIRST_STA) (makes_sta (Deed.Init mode home hr)) }
    requires number { length stas.old.tables.stas + 4 ≤ 2 ^ 32 }
    requires room { HasSta stas.old lane (makes_sta (Deed.Init mode home hr)) }
    ensures { stas.new.tables ≡ stas_made stas.old.tables lane (makes_sta (Deed.Init mode home hr)) }
{
    match mode {
        Mode::Mta => {}
        Mode::Sta => {
            if is_s_ok(hr) {
                stas.make(lane)
            }
        }
    }
}

// Makes room for the end of the apartment of a lane, where this is left of the lane's initialisations. The
// only error is want of memory.
pub(crate) fn reserve_end(stas: &mut Stas, home: Option<u32>, count: u32) -> Result<(), Memory>
    ensures tables { stas.new.tables ≡ stas.old.tables }
    ensures room { OnOk result (HasEnd stas.new (ends_sta (Deed.Uninit home count))) }
{
    let Some(apartment) = home else {
        return Ok(());
    };
    match count {
        0 => {
            if apartment >= HOST_STA {
                stas.reserve_end()
            } else {
                Ok(())
            }
        }
        _ => Ok(()),
    }
}

// The apartment of a lane ends where this is left of the lane's initialisations.
pub(crate) fn end_sta(stas: &mut Stas, home: Option<u32>, count: u32)
    requires below { IsBelow (length stas.old.tables.stas + FIRST_STA) (ends_sta (Deed.Uninit home count)) }
    requires room { HasEnd stas.old (ends_sta (Deed.Uninit home count)) }
    ensures { stas.new.tables ≡ record stas.old.tables {
      ended = with_last stas.old.tables.ended (ends_sta (Deed.Uninit home count));
    } }
{
    let Some(apartment) = home else {
        return;
    };
    match count {
        0 => {
            if apartment >= HOST_STA {
                stas.end(apartment);
            }
        }
        _ => {}
    }
}
