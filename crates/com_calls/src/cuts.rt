//! The calls that a disconnection can reach, and what it does to them.

ghost use Rattle.std.specs.Prelude.{◌≡◌, ◌<◌, ◌≤◌, filter, fold, length, vec_len, vec_capacity};
ghost use Rattle.com_calls.specs.Rows.{row_at};
ghost use Rattle.com_calls.specs.Reached.{row_reachable, reached, with_listed, cutting, cut_call};

use crate::rows;
use crate::rows::{CallRow, Cut};
use com_inbox::Inbox;
use com_model::{Ending, Route};

/// Lists a call that came in, where a disconnection can reach it. It takes no memory.
pub fn list(listed: &mut Vec<u32>, call: u32, route: Route)
    requires { vec_len listed.old < vec_capacity listed.old }
    ensures items { listed.new.items ≡ with_listed route call listed.old.items }
    ensures capacity { vec_capacity listed.new ≡ vec_capacity listed.old }
{
    if !route.is_marshalled() {
        return;
    }
    listed.push_reserved(call);
}

/// Takes out of the list the calls that no disconnection can reach any more.
pub fn clean(listed: &mut Vec<u32>, rows: &[CallRow])
    ensures items { listed.new.items ≡ filter (λ c. row_reachable (row_at rows.now c)) listed.old.items }
    ensures capacity { vec_capacity listed.new ≡ vec_capacity listed.old }
{
    listed.retain(|call| is_reachable(rows, *call));
}

// Whether a disconnection can still reach a call. A number without call is not reached.
fn is_reachable(rows: &[CallRow], call: u32) -> bool
    ensures { result ≡ row_reachable (row_at rows.now call) }
{
    match rows::row_of(rows, call) {
        None => false,
        Some(row) => row.is_reachable(),
    }
}

/// A disconnection fixes the answers of those calls of the list that it reaches, and they wait no more.
pub fn cut(rows: &mut [CallRow], waiting: &mut Inbox, listed: &[u32], cut: Cut)
    ensures { cutting rows.new waiting.new ≡ fold (cut_call cut) (cutting rows.old waiting.old) listed.now }
{
    for call in listed {
        cut_one(rows, waiting, *call, cut);
    }
}

// A disconnection fixes the answer of this call, where it reaches it.
fn cut_one(rows: &mut [CallRow], waiting: &mut Inbox, call: u32, cut: Cut)
    ensures { cutting rows.new waiting.new ≡ cut_call cut (cutting rows.old waiting.old) call }
{
    if !is_reached(rows, call, cut) {
        return;
    }
    rows::end(rows, call, Ending::ByDisconnection);
    waiting.remove(call);
}

// Whether a disconnection reaches this call. A number without call is not reached.
fn is_reached(rows: &[CallRow], call: u32, cut: Cut) -> bool
    ensures { result ≡ reached cut (row_at rows.now call) }
{
    match rows::row_of(rows, call) {
        None => false,
        Some(row) => row.is_reached(cut),
    }
}
