//! The entries of single actions, read from the parts of a core by reference, where what the holders of
//! references say is handed in. Nothing is changed.
mod actions;
mod references;

pub use actions::{filter_deed, init_deed, post_deed, quit_deed};
pub use references::{
    call_refusal, create_deed, disconnect_deed, get_deed, next_cause, query_deed, register_deed,
    revoke_deed, route, unmarshal_deed,
};
