//! What the page says of each entry in plain words, and of how the history ended.
#![tactic(auto)]

mod call_stories;
mod ends;
mod phrases;
mod reference_stories;
mod speakers;
mod stories;

pub use com_base::Memory;
pub use ends::{
    push_body_story, push_event, push_message_story, push_pool_story, push_ring, push_summary,
};
pub use stories::push_story;
