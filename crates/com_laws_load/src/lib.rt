//! Laws of the load scenarios, stated on a function that does nothing.
#![tactic(auto)]

ghost use Rattle.std.specs.Prelude.{◌≡◌, ℕ, Ok};
ghost use Rattle.com_gen.specs.Loads.{load_text};
ghost use Rattle.com_model.specs.Formed.{Formed};
ghost use Rattle.com_scenario.specs.Scenarios.{reading};
ghost use Rattle.com_laws_load.specs.LoadScenarios.{load_scenario};

/// The text of every number is scenario text: it is read without a fault, as the number's scenario (`read`).
/// That scenario keeps the limits, the forms and the ranges of the language, repeats no name or GUID, and
/// names only what is declared (`formed`).
pub fn loads_are_read()
    ensures read { (number : ℕ) → reading (load_text number) ≡ Ok (load_scenario number) }
    ensures formed { (number : ℕ) → Formed (load_scenario number) }
{}
