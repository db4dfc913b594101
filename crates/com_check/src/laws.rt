//! What the definition of a judged trace says, stated on functions that do nothing.

ghost use Rattle.std.specs.Prelude.{◌≡◌, ℕ, List, ◌++◌};
ghost use Rattle.com_model.specs.declared.scenario.Scenario.{Scenario};
ghost use Rattle.com_model.specs.Ends.{report, text};
ghost use Rattle.com_model.specs.Formed.{Formed};
ghost use Rattle.com_check.specs.declared.judged.Judged.{Judged};
ghost use Rattle.com_check.specs.Judging.{IsJudged, IsText, IsUpToEnd};

/// One answer alone is that of a trace: it agrees exactly where it is the text and the report of a history,
/// and there is one first line that differs.
pub fn judged_alone()
    ensures { (s : Scenario) (trace : List ℕ) (j k : Judged) → Formed s → IsJudged s trace j
        → IsJudged s trace k → j ≡ k }
{}

/// A trace that agrees is the text and the report of its history, but that the end of its last line may lack.
pub fn agrees_with_text()
    ensures { (s : Scenario) (trace : List ℕ) (t : IsText s trace)
        → IsUpToEnd trace (text s t.history ++ report s t.history) }
{}
