//! The scenario language with late-bound calls, after Microsoft's documentation of IDispatch: the statement
//! `invoke` calls a member by its name or its number. Everything else of a text is read by the crates of
//! the language.
#![tactic(auto)]

mod binding;
mod coercing;
mod elaborating;
mod invoke;
mod laws;
mod members;
mod outcomes;

pub use binding::{bind, bind_among};
pub use com_base::Memory;
pub use com_read_operands::ScenarioError;
pub use elaborating::elaborate;
pub use invoke::{BindOutcome, Invocation, outcome, read_invoke, statement};
pub use laws::{calls_by_name_are_calls, late_scenarios_are_formed, other_texts_stay};
pub use members::{BindError, Bound, DispArg, Member, Sort};
pub use outcomes::{Binding, Late};
