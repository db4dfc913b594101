//! The laws, each on a function that does nothing.

ghost use Rattle.std.specs.Prelude.{ℕ, List};
ghost use Rattle.com_model.specs.Formed.{Formed};
ghost use Rattle.com_laws_scenario.specs.Holds.{Holds};
ghost use Rattle.com_dispatch.specs.Late.{late, CallsAreSame, OthersStay};

/// Every scenario with late-bound calls that a text spells is formed.
pub fn late_scenarios_are_formed()
    ensures { (text : List ℕ) → Holds (λ l. Formed l.scenario) (late text) }
{}

/// A text without a line that begins with `invoke` is read as before, with the same scenario or the same
/// fault.
pub fn other_texts_stay()
    ensures { OthersStay }
{}

/// In a script or a body an `invoke` makes the same of what was read as the line of the table call that it
/// is bound to: the same statements, and all else, but for the positions of faults; or neither may stand
/// there, since the statements are as many as they may be.
pub fn calls_by_name_are_calls()
    ensures { CallsAreSame }
{}
