//! The packets of calls: requests and replies that carry references.
ghost use Rattle.std.specs.Prelude.{◌≡◌, ◌+◌, ◌-◌, ◌<◌, ◌≤◌, ◌^◌, ℕ, None, OnErr, OnOk};
ghost use Rattle.std.specs.Prelude.{length, map};
ghost use Rattle.std.specs.Prelude.{vec_len, vec_capacity};
ghost use Rattle.com_base.specs.declared.limits.TheConstants.{PARAMETER_LIMIT};
ghost use Rattle.com_refs_books.specs.Changes.{Unmarshals, marshal_all, entered_rows};
ghost use Rattle.com_refs_holders.specs.Tables.{books_of, offers, owns_of};
ghost use Rattle.com_model.specs.Endings.{is_leave};
ghost use Rattle.com_model.specs.Lists.{from_one};
ghost use Rattle.com_refs_rows.specs.Books.{Gained, Marshalled, books_with, with_arguments, with_answer};
ghost use Rattle.com_refs_rows.specs.Calls.{arguments_of};
ghost use Rattle.com_refs_rows.specs.Moving.{AllKnown, HoldsMore};

use crate::calls::{CallPackets, CallTable};
use crate::rows::{marshal, unmarshal};
use com_base::{MarshalMode, Memory, RefValue};
use com_calls::Calls;
use com_reference_moves::Move;
use com_refs::{MOST_ISSUED, Refs};

// A packet for each reference, in order.
fn marshal_all(refs: &mut Refs, apartment: u32, carried: &[RefValue])
    requires known { AllKnown refs.old carried.now }
    requires few { refs.old.issued + length carried.now ≤ MOST_ISSUED }
    requires room { length carried.now ≤ refs.old.spare }
    ensures rows { Marshalled (marshal_all apartment carried.now) refs.old refs.new }
    ensures more { HoldsMore refs.old refs.new }
    ensures offers { (x j : ℕ) → offers refs.new x j ≡ offers refs.old x j }
    ensures issued { refs.new.issued ≤ refs.old.issued + length carried.now }
    ensures spare { refs.old.spare ≤ refs.new.spare + length carried.now }
{
    for held in carried {
        marshal(refs, apartment, *held, MarshalMode::Normal);
    }
}

// The packets of some references: the number of the first, and how many there are.
fn pack(refs: &mut Refs, apartment: u32, carried: &[RefValue]) -> (u32, u32)
    requires known { AllKnown refs.old carried.now }
    requires few { refs.old.issued + length carried.now < MOST_ISSUED }
    requires room { length carried.now ≤ refs.old.spare }
    ensures fits { result.0 + result.1 < 2 ^ 32 }
    ensures few { result.1 ≤ length carried.now }
    ensures rows { Marshalled (marshal_all apartment carried.now) refs.old refs.new }
    ensures more { HoldsMore refs.old refs.new }
    ensures first { result.0 ≡ length (books_of refs.old).packets + 1 }
    ensures count { result.1 ≡ length (books_of refs.new).packets - length (books_of refs.old).packets }
    ensures offers { (x j : ℕ) → offers refs.new x j ≡ offers refs.old x j }
    ensures issued { refs.new.issued ≤ refs.old.issued + length carried.now }
    ensures spare { refs.old.spare ≤ refs.new.spare + length carried.now }
{
    refs.bounds();
    let before = refs.packets();
    marshal_all(refs, apartment, carried);
    refs.bounds();
    let after = refs.packets();
    (before + 1, after.saturating_sub(before))
}

/// The next call is issued, and its arguments' references are marshalled: no more than a method may have
/// parameters. The only error is want of memory.
pub fn issue(
    refs: &mut Refs,
    calls: &mut CallTable,
    apartment: u32,
    carried: &[RefValue],
) -> Result<(), Memory>
    requires known { AllKnown refs.old carried.now }
    requires args { length carried.now ≤ PARAMETER_LIMIT }
    requires few { refs.old.issued + length carried.now < MOST_ISSUED }
    requires room { length carried.now ≤ refs.old.spare }
    ensures rows { OnOk result (Marshalled (marshal_all apartment carried.now) refs.old refs.new) }
    ensures more { OnOk result (HoldsMore refs.old refs.new) }
    ensures calls { OnOk result (length calls.new ≡ length calls.old + 1) }
    ensures books { OnOk result ((call : ℕ) → call ≡ length calls.old + 1 → books_with refs.new calls.new
        ≡ with_arguments call (books_with refs.old calls.old) (entered_rows (owns_of refs.old.objects)
        (books_with refs.old calls.old) (marshal_all apartment carried.now))) }
    ensures err { OnErr result (refs.new ≡ refs.old) }
    ensures err_calls { OnErr result (calls.new ≡ calls.old) }
    ensures offers { (x j : ℕ) → offers refs.new x j ≡ offers refs.old x j }
    ensures issued { refs.new.issued ≤ refs.old.issued + length carried.now }
    ensures spare { refs.old.spare ≤ refs.new.spare + length carried.now }
{
    calls.push()?;
    let (first, count) = pack(refs, apartment, carried);
    calls.set_last(first, count);
    Ok(())
}

/// A body leaves, and its result's reference is marshalled.
pub fn reply(
    refs: &mut Refs,
    calls: &mut CallTable,
    apartment: u32,
    call: u32,
    carried: &[RefValue],
)
    requires some { 1 ≤ call }
    requires issued { call ≤ length calls.old }
    requires known { AllKnown refs.old carried.now }
    requires few { refs.old.issued + length carried.now < MOST_ISSUED }
    requires room { length carried.now ≤ refs.old.spare }
    ensures rows { Marshalled (marshal_all apartment carried.now) refs.old refs.new }
    ensures more { HoldsMore refs.old refs.new }
    ensures calls { length calls.new ≡ length calls.old }
    ensures books { books_with refs.new calls.new
        ≡ with_answer call (books_with refs.old calls.old) (entered_rows (owns_of refs.old.objects)
        (books_with refs.old calls.old) (marshal_all apartment carried.now)) }
    ensures offers { (x j : ℕ) → offers refs.new x j ≡ offers refs.old x j }
    ensures issued { refs.new.issued ≤ refs.old.issued + length carried.now }
    ensures spare { refs.old.spare ≤ refs.new.spare + length carried.now }
{
    let (first, count) = pack(refs, apartment, carried);
    calls.set_result(call, if count > 0 { first } else { 0 });
}

/// A body is entered, and its arguments' packets are read.
pub fn read_all(refs: &mut Refs, brought: &mut Vec<Move>, apartment: u32, packets: CallPackets)
    requires numbers { packets.first + packets.count < 2 ^ 32 }
    requires few { refs.old.issued + packets.count ≤ MOST_ISSUED }
    requires room { packets.count ≤ refs.old.spare }
    requires places { vec_len brought.old + packets.count ≤ vec_capacity brought.old }
    ensures rows { Gained apartment (map (λ p. Unmarshals apartment p)
        (arguments_of packets)) refs.old refs.new brought.old.items brought.new.items }
    ensures more { HoldsMore refs.old refs.new }
    ensures offers { (x j : ℕ) → offers refs.new x j ≡ offers refs.old x j }
    ensures issued { refs.new.issued ≤ refs.old.issued + packets.count }
    ensures spare { refs.old.spare ≤ refs.new.spare + packets.count }
    ensures len { vec_len brought.new ≤ vec_len brought.old + packets.count }
{
    for place in 0..packets.count {
        unmarshal(refs, brought, apartment, packets.first + place);
    }
}

/// Whether a body's Leave fixed the answer of a call.
pub fn is_left(calls: &Calls, call: u32) -> bool
    ensures { result ≡ is_leave (from_one calls.now.tables.endings call None) }
{
    calls.is_left(call)
}
