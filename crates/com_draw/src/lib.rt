//! The page that shows a history: its entries in one pass, each with its row, and then how it ended.
#![tactic(auto)]

mod beside;
mod drawing;
mod ends;
mod entries;
mod fronts;
mod pages;
mod reasons;
mod widths;

pub use beside::Beside;
pub use com_base::Memory;
pub use drawing::Drawing;
pub use entries::Seen;
pub use pages::push_page;
