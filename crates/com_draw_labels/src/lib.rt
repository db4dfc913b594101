//! What is written in the page's boxes: the label of each entry, and how it looks.
#![tactic(auto)]

mod call_labels;
mod labels;
mod looks;
mod reasons;
mod reference_labels;
mod words;

pub use com_base::Memory;
pub use labels::push_label_words;
pub use looks::{call_of, has_label, is_bad, look, mark_of};
pub use reasons::{push_body_label, push_message_label, push_pool_label};
