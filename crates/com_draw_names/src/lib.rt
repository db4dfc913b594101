//! What stands for the things of a history in the words of its page: names, HRESULTs and values.
#![tactic(auto)]

mod contexts;
mod failures;
mod filters;
mod names;
mod values;

pub use com_base::Memory;
pub use contexts::{Born, Caller, Context};
pub use failures::{
    push_failure, push_failure_if, push_hresult, push_hresult_behind, push_hresult_if,
};
pub use filters::{push_later, push_verb};
pub use names::{
    object_in, push_called, push_class, push_interface, push_method, push_named, push_object,
    push_place, push_place_at, push_shown_called, push_shown_class, push_shown_interface,
    push_shown_method, push_signed,
};
pub use values::{push_given, push_passed, push_shown_given};
