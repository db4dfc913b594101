//! Why each lane waits, by the entries of a history alone. They are read from the newest on.
ghost use Rattle.std.specs.Prelude.{◌≡◌, ◌+◌, ◌<◌, ◌^◌, ◌++◌, IfOk, OnOk};
ghost use Rattle.com_model.specs.Lists.{first, number_or_zero};
ghost use Rattle.com_model.specs.Openers.{openers, effect};
ghost use Rattle.com_model.specs.Objects.{made_or, makes, making};
ghost use Rattle.com_model.specs.Calls.{admitted, admits, admission_or, issue, issues, issue_or};
ghost use Rattle.com_waits.specs.Walks.{apartment_in, change_by, change_of, is_for_pool, lane_in, object_in};
ghost use Rattle.com_waits.specs.Walks.{passed_by, row_of, seen, seen_at_call, seen_waits, told};

use crate::reasons::{Wait, Why};
use com_base::Memory;
use com_model::{Deed, Entry, Opener};
use std::alloc::Global;

// What an entry does to what is open in a lane.
#[derive(Debug, Clone, Copy)]
enum Change {
    Opens(Opener),
    Closes,
    Keeps,
}

// What was found behind an entry: what stands open on top of the lane, or how many openers are closed later.
#[derive(Debug, Clone, Copy)]
enum Passed {
    Found(Opener),
    On(usize),
}

// What a deed does in its own lane: it opens a pump, a call or a body, closes what is on top, or
// leaves all as it is.
fn change_by(deed: &Deed) -> Change
    ensures { result ≡ change_by (effect deed.now) }
{
    match deed {
        Deed::Pump { bound } => Change::Opens(Opener::Pumps { bound: *bound }),
        Deed::Out { call, .. } => Change::Opens(Opener::Waits { call: *call }),
        Deed::Enter {
            call,
            object,
            apartment,
            ..
        } => Change::Opens(Opener::Enters {
            call: *call,
            object: *object,
            apartment: *apartment,
        }),
        Deed::EndPump => Change::Closes,
        Deed::Back { .. } => Change::Closes,
        Deed::Leave { .. } => Change::Closes,
        _ => Change::Keeps,
    }
}

// What an entry does to what is open in a lane. An entry of another lane does nothing to it.
fn change_of(entry: &Entry, lane: u32) -> Change
    ensures { result ≡ change_of lane entry.now }
{
    if entry.lane != lane {
        return Change::Keeps;
    }
    change_by(&entry.deed)
}

// Where so many openers are closed later, what is found behind a change.
fn pass(change: Change, closed: usize) -> Passed
    requires { closed + 1 < 2 ^ 64 }
    ensures { result ≡ passed_by change closed }
{
    match change {
        Change::Opens(opener) => {
            if closed == 0 {
                return Passed::Found(opener);
            }
            Passed::On(closed - 1)
        }
        Change::Closes => Passed::On(closed + 1),
        Change::Keeps => Passed::On(closed),
    }
}

// What stands open on top of a lane.
#[tactic(auto, using(crate::proofs::Walking::top_found, crate::proofs::Walking::top_on))]
fn top_of(history: &[Entry], lane: u32) -> Option<Opener>
    ensures { result ≡ first (openers (told history.now) lane) }
{
    let mut closed: usize = 0;
    let mut rest = history;
    'entries: while let Some((entry, before)) = rest.split_last() {
        let next = match pass(change_of(entry, lane), closed) {
            Passed::Found(opener) => return Some(opener),
            Passed::On(next) => next,
        };
        closed = next;
        rest = before;
    }
    None
}

// The lane that an entry enters a call in, where it does.
fn enters(entry: &Entry, wanted: u32) -> Option<u32>
    ensures { result ≡ lane_in (admission_or (admits entry.now.lane entry.now.deed) wanted None) }
{
    match &entry.deed {
        Deed::Enter { call, .. } => {
            if *call == wanted {
                Some(entry.lane)
            } else {
                None
            }
        }
        _ => None,
    }
}

// The lane that a call was entered in.
#[tactic(auto, using(crate::proofs::Walking::lane_first, crate::proofs::Walking::lane_later))]
fn entered_lane(history: &[Entry], call: u32) -> Option<u32>
    ensures { result ≡ lane_in (admitted (told history.now) call) }
{
    let mut rest = history;
    'entries: while let Some((entry, before)) = rest.split_last() {
        if let Some(lane) = enters(entry, call) {
            return Some(lane);
        }
        rest = before;
    }
    None
}

// The object that the Out of a call names, or 0, where an entry is that Out.
fn issues(entry: &Entry, wanted: u32) -> Option<u32>
    ensures { result ≡ object_in (issue_or (issues entry.now.lane entry.now.deed) wanted None) }
{
    match &entry.deed {
        Deed::Out { call, object, .. } => {
            if *call == wanted {
                Some(number_or_zero(*object))
            } else {
                None
            }
        }
        _ => None,
    }
}

// The number, and 0 where there is none.
fn number_or_zero(number: Option<u32>) -> u32
    ensures { result ≡ number_or_zero number }
{
    match number {
        Some(number) => number,
        None => 0,
    }
}

// The target of a call.
#[tactic(auto, using(crate::proofs::Walking::object_first, crate::proofs::Walking::object_later))]
fn target_of(history: &[Entry], call: u32) -> Option<u32>
    ensures { result ≡ object_in (issue (told history.now) call) }
{
    let mut rest = history;
    'entries: while let Some((entry, before)) = rest.split_last() {
        if let Some(object) = issues(entry, call) {
            return Some(object);
        }
        rest = before;
    }
    None
}

// The apartment in which an entry makes an object, where it does.
fn makes(entry: &Entry, wanted: u32) -> Option<u32>
    ensures { result ≡ apartment_in (made_or (makes entry.now.deed) wanted None) }
{
    match &entry.deed {
        Deed::Made {
            object: Some(object),
            apartment: Some(apartment),
            ..
        } => {
            if *object == wanted {
                Some(*apartment)
            } else {
                None
            }
        }
        _ => None,
    }
}

// The apartment that an object was made in.
#[tactic(auto, using(crate::proofs::Walking::apartment_first, crate::proofs::Walking::apartment_later))]
fn apartment_of(history: &[Entry], object: u32) -> Option<u32>
    ensures { result ≡ apartment_in (making (told history.now) object) }
{
    let mut rest = history;
    'entries: while let Some((entry, before)) = rest.split_last() {
        if let Some(apartment) = makes(entry, object) {
            return Some(apartment);
        }
        rest = before;
    }
    None
}

// Whether a call is one to an object of the multithreaded apartment.
fn is_for_pool(history: &[Entry], call: u32) -> bool
    ensures { result ≡ is_for_pool (told history.now) call }
{
    let object = number_or_zero(target_of(history, call));
    number_or_zero(apartment_of(history, object)) == 1
}

// Why a call is waited for, where this is the least lane of the pool.
fn why_call(history: &[Entry], call: u32, pool: u32) -> Option<Why>
    ensures { result ≡ seen_at_call pool call (is_for_pool (told history.now) call) (lane_in (admitted
        (told history.now) call)) }
{
    if let Some(lane) = entered_lane(history, call) {
        return Some(Why::Body { call, lane });
    }
    if is_for_pool(history, call) {
        Some(Why::Pool { call, lane: pool })
    } else {
        None
    }
}

// Why a lane waits, if it does, where this is the least lane of the pool.
fn reason_of(history: &[Entry], lane: u32, pool: u32) -> Option<Why>
    ensures { result ≡ seen pool (told history.now) lane }
{
    match top_of(history, lane)? {
        Opener::Pumps { .. } => Some(Why::Message),
        Opener::Waits { call } => why_call(history, call, pool),
        Opener::Enters { .. } => None,
    }
}

// Puts the row of a lane behind the rows, where it waits. The only error is want of memory.
fn push_row(rows: &mut Vec<Wait>, history: &[Entry], lane: u32, pool: u32) -> Result<(), Memory>
    ensures { OnOk result (rows.new.items
        ≡ rows.old.items ++ row_of lane (seen pool (told history.now) lane)) }
{
    match reason_of(history, lane, pool) {
        Some(why) => {
            rows.push(Wait { lane, why })?;
            Ok(())
        }
        None => Ok(()),
    }
}

// Why each of so many lanes waits, by lane. The only error is want of memory.
#[tactic(auto, using(crate::proofs::Walking::rows_more))]
pub(crate) fn wait_rows(
    alloc: Global,
    history: &[Entry],
    lanes: u32,
    pool: u32,
) -> Result<Vec<Wait>, Memory>
    ensures { IfOk result (λ waits. waits.items ≡ seen_waits pool (told history.now) lanes) }
{
    let mut rows = Vec::new(alloc);
    for before in 0..lanes {
        push_row(&mut rows, history, before + 1, pool)?;
    }
    Ok(rows)
}
