//! One entry, with what the parts need to know of it.

use com_scene::ActedEntry;

/// An entry of a lane, with what the parts need to know of it.
#[derive(Drop)]
pub struct Change<'a> {
    /// The entry, with who acts before and after it.
    pub entry: ActedEntry<'a>,
    /// Whether the caller's lane of the call that the entry names has a message filter. Only a Verdict reads
    /// it.
    pub has_filter: bool,
    /// The clock before the entry, in milliseconds.
    pub clock: u64,
}
