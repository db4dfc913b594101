//! The public references that the packets of one call will hold, before they are made.
ghost use Rattle.std.specs.Prelude.{◌≡◌, ◌++◌, ℕ, Bool, [], IfOk, OnOk, map};
ghost use Rattle.std.specs.List.{AllByRecursion};
ghost use Rattle.com_refs_books.specs.Changes.{Books, marshal_all, entered_rows};
ghost use Rattle.com_exchange.specs.Previews.{IsOutgoing, reference_of, refs_in, refs_of, after_one};
ghost use Rattle.com_exchange.specs.Previews.{left_after, previewed, refs_if_connected};

use com_base::{Memory, PUBLIC_REFERENCES, Rows};
use std::alloc::Global;

/// A reference that a call is to marshal, as its apartment holds it.
#[derive(Debug, Clone, Copy, PartialEq, Eq)]
pub struct Outgoing {
    /// The number of the object.
    pub object: u32,
    /// The number of the interface.
    pub iface: u16,
    /// How many public references the apartment's proxy has now; 0 without one.
    pub held: u32,
    /// Whether the apartment owns the object.
    pub is_owned: bool,
    /// Whether the object is connected.
    pub is_connected: bool,
}

// The public references of a normal packet: as many new ones as a proxy is given at a time, or half of those
// that a proxy has, where it has at least 2.
fn refs_of(is_owned: bool, held: u32) -> u32
    ensures { result ≡ refs_of is_owned held }
{
    if is_owned || held < 2 {
        PUBLIC_REFERENCES
    } else {
        held / 2
    }
}

// What is held for a reference after another one was marshalled: half less where both are the same and a
// proxy's.
fn after_one(other: &Outgoing, row: &Outgoing, held: u32) -> u32
    ensures { result ≡ after_one other.now row.now held }
{
    if !other.is_connected || other.is_owned || held < 2 {
        return held;
    }
    if row.object == other.object && row.iface == other.iface {
        held - held / 2
    } else {
        held
    }
}

// What is held for a reference after the earlier ones were marshalled.
#[tactic(auto, using(crate::proofs::Previewing::left_next, crate::proofs::Previewing::left_all))]
fn left_after(earlier: &[Outgoing], row: &Outgoing) -> u32
    ensures { result ≡ left_after earlier.now row.now row.now.held }
{
    let mut held = row.held;
    for other in earlier {
        held = after_one(other, row, held);
    }
    held
}

// Appends what a reference's packet will hold, if it gets one.
fn append_refs(refs: &mut Vec<u32>, row: &Outgoing, held: u32) -> Result<(), Memory>
    ensures { OnOk result (refs.new.items ≡ refs.old.items ++ refs_if_connected row.now held) }
{
    if !row.is_connected {
        return Ok(());
    }
    Ok(refs.push(refs_of(row.is_owned, held))?)
}

/// The public references that each new packet will hold, where an apartment marshals these references in
/// their order. Several to the same object and interface from a proxy are halved one after the other. What is
/// not connected gets no packet. The only error is want of memory. Source: MS-DCOM, the public references of
/// STDOBJREF.
#[tactic(auto, using(crate::proofs::Previewing::previewed_more, crate::proofs::Previewing::previewed_all, crate::proofs::Previewing::packets_hold))]
pub fn packet_refs(alloc: Global, rows: &[Outgoing]) -> Result<Rows<u32>, Memory>
    ensures value { IfOk result (λ refs. refs ≡ previewed [] rows.now) }
    ensures packets { IfOk result (λ refs. (owned : ℕ → ℕ → Bool) (books : Books) (a : ℕ)
        → AllByRecursion (IsOutgoing owned books a) rows.now
        → map refs_in (entered_rows owned books (marshal_all a (map reference_of rows.now))).packets
        ≡ map refs_in books.packets ++ refs) }
{
    let mut refs = Vec::with_capacity(alloc, rows.len())?;
    for (at, row) in rows.iter().enumerate() {
        append_refs(&mut refs, row, left_after(&rows[..at], row))?;
    }
    Ok(Rows::from_vec(refs))
}
