//! The three bodies of a source.
ghost use Rattle.std.specs.Prelude.{◌≡◌, ◌↔◌, ◌+◌, ◌<◌, ◌++◌, ◌∷◌, [], List, IfSome, IfNone, IsTrue};
ghost use Rattle.com_base.specs.declared.limits.TheConstants.{LINK_COUNT};
ghost use Rattle.com_body.specs.declared.statements.Stmt.{Stmt};
ghost use Rattle.com_body.specs.declared.statements.Stmt.TheVariants as stmt;
ghost use Rattle.com_body.specs.declared.operands.Given.TheVariants as given_of;
ghost use Rattle.com_body.specs.declared.operands.Place.TheVariants as place;
ghost use Rattle.com_laws_sources.specs.Bodies.{ok, no_connection, advise_limit, int, leave_with, leave_register};
ghost use Rattle.com_laws_sources.specs.Bodies.{take_place, advise_body, look_in, move_down, unadvise_body};
ghost use Rattle.com_laws_sources.specs.Bodies.{look_at, send_event, event_round, fire_body};
ghost use Rattle.com_points.specs.SourceHeads.{advise_head, unadvise_head, fire_head};

use crate::sources::shapes::{
    is_add_one, is_copy, is_event_call, is_leave, is_leave_register, is_less, is_load,
    is_positive_test, is_release, is_same, is_set, is_set_zero, is_skip, is_skip_zero, is_store,
    is_store_zero, is_sub,
};
use com_base::HResult;
use com_body::{Place, Stmt};

// The answer of `unadvise` where no sink has the cookie.
const CONNECT_E_NOCONNECTION: HResult = HResult(0x8004_0200);

// The answer of `advise` where the source has four sinks already.
const CONNECT_E_ADVISELIMIT: HResult = HResult(0x8004_0201);

// What stands behind the first statements of `advise`: null is refused, and the new cookie is one more than
// the last one.
fn behind_advise_head(body: &[Stmt]) -> Option<&[Stmt]>
    ensures some { IfSome result (λ rest. body.now ≡ (advise_head) ++ rest.now) }
    ensures none { IfNone result ((rest : List Stmt) → body.now ≡ (advise_head) ++ rest → ⊥) }
{
    match body {
        [same, test, null, load, add, rest @ ..] => {
            if is_same(same, 1, 0, 7)
                && is_skip_zero(test, 1, 1)
                && is_leave(null, HResult::E_POINTER)
                && is_load(load, 2, 4)
                && is_add_one(add, 2)
            {
                Some(rest)
            } else {
                None
            }
        }
        _ => None,
    }
}

// What stands behind the statements that take the place with a number.
fn behind_take_place(body: &[Stmt], i: u8) -> Option<&[Stmt]>
    ensures some { IfSome result (λ rest. body.now ≡ (take_place i) ++ rest.now) }
    ensures none { IfNone result ((rest : List Stmt) → body.now ≡ (take_place i) ++ rest → ⊥) }
{
    match body {
        [load, test, skip, cookie, last, copy, leave, rest @ ..] => {
            if is_load(load, 1, i)
                && is_skip_zero(test, 1, 1)
                && is_skip(skip, 4)
                && is_store(cookie, i, 2)
                && is_store(last, 4, 2)
                && is_copy(copy, Place::Link(i), Place::Slot(0))
                && is_leave_register(leave, 2)
            {
                Some(rest)
            } else {
                None
            }
        }
        _ => None,
    }
}

// What stands behind a statement that leaves with this HRESULT.
fn behind_leave(body: &[Stmt], answer: HResult) -> Option<&[Stmt]>
    ensures some { IfSome result (λ rest. body.now ≡ (leave_with answer given_of.Nothing ∷ []) ++ rest.now) }
    ensures none { IfNone result ((rest : List Stmt)
        → body.now ≡ (leave_with answer given_of.Nothing ∷ []) ++ rest → ⊥) }
{
    match body {
        [leave, rest @ ..] => {
            if is_leave(leave, answer) {
                Some(rest)
            } else {
                None
            }
        }
        _ => None,
    }
}

// What stands behind the statements of `advise`: its head, the four places, and the refusal
// of a fifth sink.
fn behind_advise(body: &[Stmt]) -> Option<&[Stmt]>
    ensures some { IfSome result (λ rest. body.now
        ≡ advise_head ++ (take_place 0 ++ (take_place 1 ++ (take_place 2
        ++ (take_place 3 ++ (leave_with advise_limit given_of.Nothing ∷ rest.now)))))) }
    ensures none { IfNone result ((rest : List Stmt)
        → body.now ≡ advise_head ++ (take_place 0 ++ (take_place 1 ++ (take_place 2
        ++ (take_place 3 ++ (leave_with advise_limit given_of.Nothing ∷ rest))))) → ⊥) }
{
    let rest = behind_advise_head(body)?;
    let rest = behind_take_place(rest, 0)?;
    let rest = behind_take_place(rest, 1)?;
    let rest = behind_take_place(rest, 2)?;
    let rest = behind_take_place(rest, 3)?;
    behind_leave(rest, CONNECT_E_ADVISELIMIT)
}

// Whether a body is that of `advise`.
pub(crate) fn is_advise(body: &[Stmt]) -> bool
    ensures { IsTrue result ↔ body.now ≡ advise_body }
{
    match behind_advise(body) {
        None => false,
        Some(rest) => is_end(rest),
    }
}

// Whether nothing stands behind.
fn is_end(body: &[Stmt]) -> bool
    ensures { IsTrue result ↔ body.now ≡ [] }
{
    match body {
        [] => true,
        _ => false,
    }
}

// What stands behind the first statements of `unadvise`: a cookie is above 0.
fn behind_unadvise_head(body: &[Stmt]) -> Option<&[Stmt]>
    ensures some { IfSome result (λ rest. body.now ≡ (unadvise_head) ++ rest.now) }
    ensures none { IfNone result ((rest : List Stmt) → body.now ≡ (unadvise_head) ++ rest → ⊥) }
{
    match body {
        [less, test, skip, leave, rest @ ..] => {
            if is_positive_test(less, 1, 0)
                && is_skip_zero(test, 1, 1)
                && is_skip(skip, 1)
                && is_leave(leave, CONNECT_E_NOCONNECTION)
            {
                Some(rest)
            } else {
                None
            }
        }
        _ => None,
    }
}

// What stands behind the statements that go on at the moves from a number on, if its cell is the argument.
fn behind_look_in(body: &[Stmt], i: u8) -> Option<&[Stmt]>
    requires { i < LINK_COUNT }
    ensures some { IfSome result (λ rest. body.now ≡ (look_in i) ++ rest.now) }
    ensures none { IfNone result ((rest : List Stmt) → body.now ≡ (look_in i) ++ rest → ⊥) }
{
    match body {
        [set, load, sub, test, rest @ ..] => {
            if is_set(set, 1, 0)
                && is_load(load, 2, i)
                && is_sub(sub, 1, 2)
                && is_skip_zero(test, 1, 13 - i as u32)
            {
                Some(rest)
            } else {
                None
            }
        }
        _ => None,
    }
}

// What stands behind the statements that put the next cookie and sink in the place with a number.
fn behind_move_down(body: &[Stmt], i: u8) -> Option<&[Stmt]>
    requires { i + 1 < LINK_COUNT }
    ensures some { IfSome result (λ rest. body.now ≡ (move_down i) ++ rest.now) }
    ensures none { IfNone result ((rest : List Stmt) → body.now ≡ (move_down i) ++ rest → ⊥) }
{
    match body {
        [load, store, copy, rest @ ..] => {
            if is_load(load, 3, i + 1)
                && is_store(store, i, 3)
                && is_copy(copy, Place::Link(i), Place::Link(i + 1))
            {
                Some(rest)
            } else {
                None
            }
        }
        _ => None,
    }
}

// What stands behind the first part of `unadvise`: its head, the search for the cookie in the
// four places, and the refusal where none has it.
fn behind_looks(body: &[Stmt]) -> Option<&[Stmt]>
    ensures some { IfSome result (λ rest. body.now ≡ unadvise_head ++ (look_in 0 ++ (look_in 1 ++ (look_in 2
        ++ (look_in 3 ++ (leave_with no_connection given_of.Nothing ∷ rest.now)))))) }
    ensures none { IfNone result ((rest : List Stmt)
        → body.now ≡ unadvise_head ++ (look_in 0 ++ (look_in 1 ++ (look_in 2
        ++ (look_in 3 ++ (leave_with no_connection given_of.Nothing ∷ rest))))) → ⊥) }
{
    let rest = behind_unadvise_head(body)?;
    let rest = behind_look_in(rest, 0)?;
    let rest = behind_look_in(rest, 1)?;
    let rest = behind_look_in(rest, 2)?;
    let rest = behind_look_in(rest, 3)?;
    behind_leave(rest, CONNECT_E_NOCONNECTION)
}

// What stands behind the statements that move the three higher sinks one place down each.
fn behind_moves(body: &[Stmt]) -> Option<&[Stmt]>
    ensures some { IfSome result (λ rest. body.now
        ≡ move_down 0 ++ (move_down 1 ++ (move_down 2 ++ rest.now))) }
    ensures none { IfNone result ((rest : List Stmt)
        → body.now ≡ move_down 0 ++ (move_down 1 ++ (move_down 2 ++ rest)) → ⊥) }
{
    let rest = behind_move_down(body, 0)?;
    let rest = behind_move_down(rest, 1)?;
    behind_move_down(rest, 2)
}

// Whether these are the last statements of `unadvise`: the fourth place is made free, and the
// body leaves with S_OK.
fn is_unadvise_end(body: &[Stmt]) -> bool
    ensures { IsTrue result ↔ body.now
        ≡ stmt.Store 3 (int 0) ∷ stmt.Release (place.Link 3) ∷ leave_with ok given_of.Nothing ∷ [] }
{
    match body {
        [store, release, leave] => {
            is_store_zero(store, 3)
                && is_release(release, Place::Link(3))
                && is_leave(leave, HResult::S_OK)
        }
        _ => false,
    }
}

// Whether a body is that of `unadvise`.
pub(crate) fn is_unadvise(body: &[Stmt]) -> bool
    ensures { IsTrue result ↔ body.now ≡ unadvise_body }
{
    match behind_looks(body) {
        None => false,
        Some(rest) => match behind_moves(rest) {
            None => false,
            Some(rest) => is_unadvise_end(rest),
        },
    }
}

// What stands behind the statements that take the sink of the place with a number, if its cookie is above
// the one that was reached.
fn behind_look_at(body: &[Stmt], i: u8) -> Option<&[Stmt]>
    requires { i < LINK_COUNT }
    ensures some { IfSome result (λ rest. body.now ≡ (look_at i) ++ rest.now) }
    ensures none { IfNone result ((rest : List Stmt) → body.now ≡ (look_at i) ++ rest → ⊥) }
{
    match body {
        [load, less, test, copy, skip, rest @ ..] => {
            if is_load(load, 1, i)
                && is_less(less, 2, 5, 1)
                && is_skip_zero(test, 2, 2)
                && is_copy(copy, Place::Slot(0), Place::Link(i))
                && is_skip(skip, 16 - 5 * i as u32)
            {
                Some(rest)
            } else {
                None
            }
        }
        _ => None,
    }
}

// What stands behind the statements that send an event, or leave.
fn behind_send_event(body: &[Stmt]) -> Option<&[Stmt]>
    ensures some { IfSome result (λ rest. body.now ≡ (leave_register 6 ∷ send_event) ++ rest.now) }
    ensures none { IfNone result ((rest : List Stmt)
        → body.now ≡ (leave_register 6 ∷ send_event) ++ rest → ⊥) }
{
    match body {
        [none, less, test, leave, set, add, call, rest @ ..] => {
            if is_leave_register(none, 6)
                && is_less(less, 2, 4, 1)
                && is_skip_zero(test, 2, 1)
                && is_leave_register(leave, 6)
                && is_set(set, 5, 1)
                && is_add_one(add, 6)
                && is_event_call(call)
            {
                Some(rest)
            } else {
                None
            }
        }
        _ => None,
    }
}

// What stands behind one round of `fire`.
fn behind_round(body: &[Stmt]) -> Option<&[Stmt]>
    ensures some { IfSome result (λ rest. body.now ≡ (event_round) ++ rest.now) }
    ensures none { IfNone result ((rest : List Stmt) → body.now ≡ (event_round) ++ rest → ⊥) }
{
    let rest = behind_look_at(body, 0)?;
    let rest = behind_look_at(rest, 1)?;
    let rest = behind_look_at(rest, 2)?;
    let rest = behind_look_at(rest, 3)?;
    behind_send_event(rest)
}

// What stands behind the first statements of `fire`.
fn behind_fire_head(body: &[Stmt]) -> Option<&[Stmt]>
    ensures some { IfSome result (λ rest. body.now ≡ (fire_head) ++ rest.now) }
    ensures none { IfNone result ((rest : List Stmt) → body.now ≡ (fire_head) ++ rest → ⊥) }
{
    match body {
        [load, reached, sent, rest @ ..] => {
            if is_load(load, 4, 4) && is_set_zero(reached, 5) && is_set_zero(sent, 6) {
                Some(rest)
            } else {
                None
            }
        }
        _ => None,
    }
}

// What stands behind the head of `fire` and its four rounds.
fn behind_rounds(body: &[Stmt]) -> Option<&[Stmt]>
    ensures some { IfSome result (λ rest. body.now ≡ fire_head ++ (event_round ++ (event_round ++ (event_round
        ++ (event_round ++ rest.now))))) }
    ensures none { IfNone result ((rest : List Stmt)
        → body.now ≡ fire_head ++ (event_round ++ (event_round ++ (event_round
        ++ (event_round ++ rest)))) → ⊥) }
{
    let rest = behind_fire_head(body)?;
    let rest = behind_round(rest)?;
    let rest = behind_round(rest)?;
    let rest = behind_round(rest)?;
    behind_round(rest)
}

// Whether a body is that of `fire`.
pub(crate) fn is_fire(body: &[Stmt]) -> bool
    ensures { IsTrue result ↔ body.now ≡ fire_body }
{
    match behind_rounds(body) {
        None => false,
        Some(rest) => is_fire_end(rest),
    }
}

// Whether what is left of `fire` is to leave with the number of events.
fn is_fire_end(body: &[Stmt]) -> bool
    ensures { IsTrue result ↔ body.now ≡ leave_register 6 ∷ [] }
{
    match body {
        [leave] => is_leave_register(leave, 6),
        _ => false,
    }
}
