//! What a page says beside the entries of its history.

use com_base::Rows;
use com_deliveries::Delivery;
use com_model::{Counts, Ended};
use com_waits::Waits;

/// What a page says of a history beside its entries: the numbers of the report, how it ended, why it is stuck,
/// and the events of sources.
#[derive(Drop)]
pub struct Beside {
    /// What the report says of each object, from object 1 on.
    pub counts: Rows<Counts>,
    /// Where the clock stands.
    pub clock: u64,
    /// How the history ended.
    pub ended: Ended,
    /// Why it is stuck. `None` where it is not.
    pub waits: Option<Waits>,
    /// The events of sources, by their calls.
    pub events: Rows<Delivery>,
}
