//! The measures of the drawing.

/// How many rows a section has.
pub const ROWS: u32 = 40;
/// How many entries are drawn.
pub const LIMIT: u64 = 5000;
/// The deepest level at which a box of a lane, a label or an arrow stands.
pub const LEVELS: u32 = 24;
/// How many pixels a level is wide, for the width of a lane.
pub const STEP: u32 = 17;
/// How many pixels a byte of a label is wide.
pub const CHAR: u32 = 8;
/// How many pixels a label is wide at most.
pub const LABEL_MOST: u32 = 300;
/// How many pixels a lane has beside its widest label.
pub const EDGE: u32 = 52;
/// How many pixels the lane of the objects has beside its tracks.
pub const BESIDE: u32 = 80;
/// The least width of a lane that acted, in pixels.
pub const LEAST: u32 = 130;
/// The width of a lane that did not act, in pixels.
pub const IDLE: u32 = 52;
/// The first width of each lane, in pixels.
pub const FULL: u32 = 260;
/// The width of an object's track, in pixels.
pub const TRACK_WIDTH: u32 = 28;
/// The width of the lines in words, in pixels.
pub const STORY_WIDTH: u32 = 550;
