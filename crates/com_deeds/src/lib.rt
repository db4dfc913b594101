//! The entry of each action, and the parts of each rule, from the plain values that they rest on: the lane's
//! home and running apartment, what it finds of an object, of a packet, of a call. They keep no state.
#![tactic(auto)]

mod activation;
mod answers;
mod apartments;
mod calls;
mod holders;
mod packets;
mod target;

pub use activation::{
    class_number, create_deed, interface_number, number_or_zero, object_in, query_deed,
    shown_interface,
};
pub use answers::{answer_code, incoming, is_handled, is_post, pending, retry_answer};
pub use apartments::{filter_deed, in_sta, init_deed, uninit_deed};
pub use calls::{call_refusal, out, refusal_or_ok, route_to};
pub use com_base::Memory;
pub use holders::{
    Named, disconnect_deed, drop_deed, get_deed, hold_refusal, register_deed, revoke_deed,
    unmarshal_deed,
};
pub use packets::{marshal_deed, packet_fields, refused_marshal_deed, standard_fields};
pub use target::Target;
