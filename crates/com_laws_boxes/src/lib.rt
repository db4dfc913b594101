//! The laws of all boxes of a page: how they lie, the grounds of homes among them, and that the page is made
//! of them. Stated on functions that do nothing.
#![tactic(auto)]

mod laws;

pub use laws::{all_boxes_bite, all_boxes_nest, bodies_stand, page_is_made_of_boxes};
