//! A scenario with what its late-bound calls are bound to.

use crate::BindOutcome;
use com_base::Rows;
use com_model::Scenario;

/// What one `invoke` statement is bound to.
#[derive(Debug, Drop)]
pub struct Binding {
    /// The number of the interface that it names.
    pub iface: u16,
    /// The method with its arguments, or the refusal.
    pub outcome: BindOutcome,
}

/// A scenario with calls by name, as it was read.
#[derive(Drop)]
pub struct Late {
    /// The scenario, in which each `invoke` stands as the statement that it stands for.
    pub scenario: Scenario,
    /// What each `invoke` is bound to, in the text's order.
    pub bindings: Rows<Binding>,
}
