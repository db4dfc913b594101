//! The books of a core: who holds references, and which packets carry the arguments and the result of each
//! call, changed by one entry at a time.
//!
//! An entry comes in steps. First its row of the table of reference counting, where that gives, which may
//! bring places: a made object's, a queried or unmarshalled reference's. Then the other references that come
//! to places. Then its row, where that ends a holder which is no place, and then the references that leave
//! places: so nothing is given back on the way that is held before and after. What loses its last holder is
//! no longer connected. Source: Essential COM, chapter 5, and MS-DCOM 3.2.4.4.
#![tactic(auto)]

mod apply;
mod books;
mod context;
mod dying;
mod ends;
mod laws;
mod ledger;
mod passing;
mod reads;

pub use com_base::Memory;
pub use com_refs::RefCounts;
pub use com_refs_rows::CallPackets;
pub use context::Context;
pub use dying::{DyingScan, count_bodies, other_by, released_by};
pub use laws::{
    applied_ties, entries_reach, entries_tie, holders_tie, losses_touched, new_ledger_ties,
    owners_tie,
};
pub use ledger::Ledger;
