//! The markup of the page that shows a history: its escapes, its elements, and its constant texts.
#![tactic(auto)]

mod arrows;
mod boxes;
mod constants;
mod ends;
mod labels;
mod limits;
mod rows;
mod sections;
mod texts;
mod widths;

pub use arrows::{Arrow, ArrowKind, push_arrow};
pub use boxes::{BoxKind, BoxText, DrawnBox, Foot, NO_HUE, hue_of, push_box, push_touch};
pub use com_base::Memory;
pub use ends::{
    push_body, push_drawing_end, push_head, push_item_end, push_item_front, push_list_end,
    push_list_front, push_report_end, push_report_front, push_styles_end, push_tail,
};
pub use labels::{LabelClass, Look, label_width, push_label};
pub use limits::{
    BESIDE, CHAR, EDGE, FULL, IDLE, LABEL_MOST, LEAST, LEVELS, LIMIT, ROWS, STEP, STORY_WIDTH,
    TRACK_WIDTH,
};
pub use rows::{
    Mark, push_entry_front, push_gap, push_reason_front, push_row_end, push_row_middle,
};
pub use sections::{
    LaneKind, push_column, push_columns_end, push_lane_name, push_objects_name, push_section_back,
    push_section_end, push_section_front,
};
pub use texts::{push_around, push_escaped, push_link, push_number, push_word_and_number};
pub use widths::{push_event_style, push_lane_widths, push_main_width, push_page_size};
