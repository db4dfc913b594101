//! The rows of a page, and its sections of 40 rows.
ghost use Rattle.std.specs.Prelude.{◌≡◌, ◌<◌, ◌≤◌};
ghost use Rattle.com_draw_words.specs.declared.limits.TheConstants.{ROWS};
ghost use Rattle.com_draw_shapes.specs.Places.{below, is_up, opens_section, row_at, start_of, top_in};

use com_draw_state::Start;
use com_draw_words::{LIMIT, ROWS};

/// Where a row of the page stands, by its number from 1.
pub fn row_at(row: u64) -> Start
    requires { 1 ≤ row }
    ensures value { result ≡ row_at row }
    ensures few { result.row < ROWS }
{
    Start {
        section: (row - 1) / ROWS as u64 + 1,
        row: ((row - 1) % ROWS as u64) as u32,
    }
}

/// Whether a section begins with this row of the page.
pub fn opens_section(row: u64) -> bool
    requires { 1 ≤ row }
    ensures { result ≡ opens_section row }
{
    (row - 1) % ROWS as u64 == 0
}

/// Where an entry stands, by its number from 1: each up to the limit has a row, and the others stand above
/// the section behind.
pub fn start_of(place: u64) -> Start
    requires { 1 ≤ place }
    ensures value { result ≡ start_of place }
    ensures few { result.row < ROWS }
{
    if place <= LIMIT {
        return row_at(place);
    }
    Start {
        section: row_at(LIMIT).section,
        row: 0,
    }
}

// The first row of something that began there, in the section in which one is.
pub(crate) fn top_in(here: Start, start: Start) -> u32
    ensures { result ≡ top_in here start }
{
    if start.section == here.section {
        start.row
    } else {
        0
    }
}

// Whether something began above the section in which one is.
pub(crate) fn is_up(here: Start, start: Start) -> bool
    ensures { result ≡ is_up here start }
{
    start.section != here.section
}

// The row below.
pub(crate) fn below(here: Start) -> Start
    requires { here.row < ROWS }
    ensures { result ≡ below here }
{
    Start {
        section: here.section,
        row: here.row + 1,
    }
}
