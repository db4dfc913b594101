//! The laws, each on a function that does nothing.

ghost use Rattle.std.specs.Prelude.{ℕ, List};
ghost use Rattle.com_laws_scenario.specs.Holds.{Holds};
ghost use Rattle.com_model.specs.Formed.{Formed};
ghost use Rattle.com_scenario.specs.Scenarios.{reading};

/// Every scenario that a text spells is formed: it keeps the limits, the forms and the ranges of the
/// language, repeats no name or GUID, and names only what is declared.
pub fn scenarios_are_formed()
    ensures { (text : List ℕ) → Holds Formed (reading text) }
{}
