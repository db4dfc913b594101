//! What an entry's change of the books rests on beside the entry.

use com_base::RefValue;
use com_calls::Calls;
use com_classes::Classes;
use com_objects::Objects;

/// What an entry's change of the books rests on beside the entry, as it is before it: the home of the entry's
/// lane, the apartment in which the lane runs, the objects, the calls, the classes, and the references that a
/// marshalled Out or Leave carries, in order.
#[derive(Clone, Copy)]
pub struct Context<'a> {
    /// The home apartment of the entry's lane. `None` where it has none.
    pub home: Option<u32>,
    /// The apartment in which the lane runs. `None` where it runs in none.
    pub running: Option<u32>,
    /// The objects.
    pub objects: &'a Objects,
    /// The calls.
    pub calls: &'a Calls,
    /// The classes.
    pub classes: &'a Classes,
    /// The references that a marshalled Out or Leave carries, in order.
    pub carried: &'a [RefValue],
}
