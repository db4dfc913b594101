//! What the trace of a history keeps in version 2, stated on a function that does nothing.

ghost use Rattle.std.specs.Prelude.{◌≤◌, ℕ, List, length};
ghost use Rattle.com_base.specs.declared.limits.TheConstants.{TEXT_1_LIMIT};
ghost use Rattle.com_model.specs.declared.scenario.Scenario.{Scenario};
ghost use Rattle.com_model.specs.Formed.{Formed};
ghost use Rattle.com_check.specs.declared.agreement.traces.Agreed.{Agreed};
ghost use Rattle.com_check.specs.Agreeing.{IsAgreed};
ghost use Rattle.com_command_migrate.specs.Moving.{Moves};

/// The history of a trace that agrees and has at most 1,048,576 bytes, as each that fits an input of version
/// 1, is shorter than 200,000 entries, so it has not ended by its limit. It is legal for the scenario in
/// version 2 too and ends there in the same way, and what `push_trace` writes of it is its text and its
/// report there.
pub fn traces_move()
    ensures { (s : Scenario) (trace : List ℕ) (a : Agreed) → Formed s → length trace ≤ TEXT_1_LIMIT
        → IsAgreed s trace a → Moves s a }
{}
