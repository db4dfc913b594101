//! What an entry does to a picture, and the shapes that are drawn of its lanes and tracks: what opens and
//! closes, boxes, arrows, marks of touched objects, and the fronts and ends of sections.
#![tactic(auto)]

mod arrows;
mod boxes;
mod changes;
mod effects;
mod places;
mod sections;

pub use arrows::{push_pointing, push_touched};
pub use boxes::{Chosen, objects_lane, push_closing};
pub use changes::{change, has_home};
pub use com_base::Memory;
pub use effects::{Closing, Opens, Points, closed_by, opened_by, points_of, touched_by};
pub use places::{opens_section, row_at, start_of};
pub use sections::{begin_row, close_section, is_in_cycle, open_section};
