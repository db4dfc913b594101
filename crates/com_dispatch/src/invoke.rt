//! The statement `invoke`, which calls a member by its name or its number: its line of words, and the
//! statement that it stands for.
mod reading;
mod standing;

use crate::{Bound, DispArg, Member};
use com_base::{HResult, Memory, Rows};
use com_body::Destination;
pub use reading::read_invoke;
pub use standing::{outcome, statement};

/// One `invoke` statement as its line spells it.
#[derive(Debug, Drop)]
pub struct Invocation {
    /// The slot of the reference that is called, 0 to 7.
    pub slot: u8,
    /// The number of the interface.
    pub iface: u16,
    /// The member that is called.
    pub member: Member,
    /// The arguments as they are written.
    pub args: Rows<DispArg>,
    /// Where the result goes.
    pub destination: Destination,
}

/// What an `invoke` statement is bound to.
#[derive(Debug, Drop)]
pub enum BindOutcome {
    /// A method with its coerced arguments.
    Bound(Bound),
    /// Nothing: the HRESULT that says why.
    Refused(HResult),
}
