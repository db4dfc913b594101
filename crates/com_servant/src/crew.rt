//! Whether a crew of servants is whole. A function that makes the boxes of servants in a loop has no
//! invariant that names their kinds; so it asks here once, when all are made.
ghost use Rattle.std.specs.Prelude.{◌≡◌, ◌↔◌, All, IsTrue, map, vec_len};
ghost use Rattle.com_servant.specs.Rows.{row};

use crate::Servant;
use com_body::Native;

/// How many rows a crew has: one for each lane that a scenario may have.
pub const ROWS: usize = 25;

// Whether a servant is of a kind.
fn is_kind(servant: &Box<dyn Servant + Send>, kind: Native) -> bool
    ensures { IsTrue result ↔ (kind_of servant.now ≡ kind) }
{
    servant.kind() == kind
}

// Whether a row has one servant of each kind, in the order of the kinds.
fn is_row(servants: &Vec<Box<dyn Servant + Send>>) -> bool
    ensures { IsTrue result ↔ (map kind_of servants.now.items ≡ row) }
{
    let [bodies, counter, relay, latch] = servants.as_slice() else {
        return false;
    };
    is_kind(bodies, Native::Bodies)
        && is_kind(counter, Native::Counter)
        && is_kind(relay, Native::Relay)
        && is_kind(latch, Native::Latch)
}

/// Whether a crew has `ROWS` rows, each with one servant of each kind in the order of the kinds. True exactly
/// where it has. It takes no memory, and asks each servant for its kind alone.
pub fn is_manned(crew: &Vec<Vec<Box<dyn Servant + Send>>>) -> bool
    ensures { IsTrue result
        ↔ ((vec_len crew.now ≡ ROWS) × All (λ servants. map kind_of servants.items ≡ row) crew.now.items) }
{
    if crew.len() != ROWS {
        return false;
    }
    for at in 0..crew.len() {
        if !is_row(&crew[at]) {
            return false;
        }
    }
    true
}
