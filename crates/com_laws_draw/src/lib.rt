//! The laws of the page: which entries stand in it, and how its boxes lie. Stated on functions that do
//! nothing.
#![tactic(auto)]

mod laws;

pub use laws::{
    boxes_are_drawn, boxes_bite, boxes_nest, every_entry_is_there, rows_bite,
    what_is_not_drawn_is_counted,
};
