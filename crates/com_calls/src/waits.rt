//! The times that calls wait for.

ghost use Rattle.std.specs.Prelude.{◌≡◌, filter, filter_map, is_some, vec_capacity};
ghost use Rattle.com_model.specs.Lists.{least};
ghost use Rattle.com_calls.specs.Rows.{row_at};
ghost use Rattle.com_calls.specs.Waits.{wait_until, sooner_of};
ghost use Rattle.com_calls.specs.Inside.{row_delayed, row_wait, is_delayed, stays};

use crate::rows;
use crate::rows::CallRow;
use com_model::Phase;

/// The least time later than `now` that a call of the list waits for, in milliseconds.
pub fn least_wait(rows: &[CallRow], delayed: &[u32], now: u64) -> Option<u64>
    ensures { result ≡ least (filter_map (λ c. row_wait now (row_at rows.now c)) delayed.now) }
{
    let mut least = None;
    for call in delayed {
        least = sooner(least, wait_of(rows, *call, now));
    }
    least
}

// The lesser of two times.
fn sooner(time: Option<u64>, other: Option<u64>) -> Option<u64>
    ensures { result ≡ sooner_of time other }
{
    match (time, other) {
        (Some(time), Some(other)) => Some(time.min(other)),
        (Some(time), None) => Some(time),
        (None, other) => other,
    }
}

// The time later than `now` that a call waits for.
fn wait_of(rows: &[CallRow], call: u32, now: u64) -> Option<u64>
    ensures { result ≡ row_wait now (row_at rows.now call) }
{
    match rows::row_of(rows, call) {
        None => None,
        Some(row) => row_wait(row, now),
    }
}

// The time that a delayed call waits for, where it is later than `now` and the call has no answer.
fn row_wait(row: &CallRow, now: u64) -> Option<u64>
    ensures { result ≡ wait_until now row.now.phase (is_some row.now.ending) }
{
    match (row.phase(), row.is_answered()) {
        (Phase::Delayed { until }, false) => { if now < until { Some(until) } else { None } }
        _ => None,
    }
}

// Whether a call waits for a time.
fn is_delayed(rows: &[CallRow], call: u32) -> bool
    ensures { result ≡ row_delayed (row_at rows.now call) }
{
    match rows::row_of(rows, call) {
        None => false,
        Some(row) => is_row_delayed(row),
    }
}

// Whether a Retry delayed the call and it has no answer yet.
#[tactic(auto, using(crate::proofs::Delays::answered_waits_not, crate::proofs::Delays::delayed_waits))]
fn is_row_delayed(row: &CallRow) -> bool
    ensures { result ≡ is_delayed row.now.phase row.now.ending }
{
    if row.is_answered() {
        return false;
    }
    matches!(row.phase(), Phase::Delayed { .. })
}

/// Takes out of the list the calls that wait for no time any more, and this call.
pub fn clean(delayed: &mut Vec<u32>, rows: &[CallRow], call: u32)
    ensures items { delayed.new.items ≡ filter (stays rows.now call) delayed.old.items }
    ensures capacity { vec_capacity delayed.new ≡ vec_capacity delayed.old }
{
    delayed.retain(|other| *other != call && is_delayed(rows, *other));
}
