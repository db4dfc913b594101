//! What the rows of an entry make of the books of references, one after another: the row of the table of
//! reference counting, the references that come to places and leave them, the packets of what a call carries,
//! and the objects that lose their last holder.
//!
//! Each function changes the books alone, with what it is given beside them; `com_ledger` above puts them
//! together to the change by an entry. Source: Essential COM, chapter 5, and MS-DCOM 3.2.4.4.
#![tactic(auto)]

mod calls;
mod entries;
mod making;
mod moving;
mod packing;
mod rows;
mod touching;

pub use calls::{CallPackets, CallTable};
pub use com_base::Memory;
pub use entries::{
    Activation, enter_back, enter_get, enter_made, enter_marshal, enter_query, enter_register,
    enter_unmarshal,
};
pub use moving::{gain_all, lose_all};
pub use packing::{is_left, issue, read_all, reply};
pub use rows::{cookie_number, disconnect, drop_packet, end_apartment, revoke};
