//! `check` is exact: a trace agrees exactly where it is the text and the report of a legal history that has
//! ended. Stated on a function that does nothing.
#![tactic(auto)]

ghost use Rattle.std.specs.Prelude.{◌≡◌, ◌↔◌, ℕ, List, [], ◌++◌, codes};
ghost use Rattle.com_model.specs.declared.scenario.Scenario.{Scenario};
ghost use Rattle.com_model.specs.Cases.{direct_call, direct_call_text, direct_call_report};
ghost use Rattle.com_model.specs.Formed.{Formed};
ghost use Rattle.com_check.specs.declared.judged.Judged.{Judged};
ghost use Rattle.com_check.specs.declared.judged.Judged.TheVariants as judged;
ghost use Rattle.com_check.specs.Judging.{IsJudged};
ghost use Rattle.com_laws_check.specs.Exact.{IsWhole};

/// A trace of a formed scenario agrees exactly where it is the text and the report of a legal history that has
/// ended, but that the end of its last line may lack; and whatever is judged of it is that it agrees exactly
/// there. So of every other trace a line differs.
pub fn agrees_exactly()
    ensures agrees { (s : Scenario) (trace : List ℕ) → Formed s
        → IsJudged s trace judged.Agrees ↔ IsWhole s trace }
    ensures judged { (s : Scenario) (trace : List ℕ) (j : Judged) → Formed s → IsJudged s trace j
        → (j ≡ judged.Agrees) ↔ IsWhole s trace }
{}

/// The law is not empty: the text and the report of a worked case are whole. Its text alone is not, nor both
/// with an empty line more, nor is a trace without a line.
pub fn exactness_bites()
    ensures whole { IsWhole direct_call (direct_call_text ++ direct_call_report) }
    ensures text { IsWhole direct_call direct_call_text → ⊥ }
    ensures longer { IsWhole direct_call (direct_call_text ++ (direct_call_report ++ codes "\n")) → ⊥ }
    ensures nothing { IsWhole direct_call [] → ⊥ }
{}
