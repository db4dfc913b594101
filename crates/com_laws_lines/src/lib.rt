//! The lines of a history and of its report: none holds a line's end. Stated on functions that do nothing.
#![tactic(auto)]

ghost use Rattle.std.specs.Prelude.{List};
ghost use Rattle.com_model.specs.declared.deeds.Entry.{Entry};
ghost use Rattle.com_model.specs.declared.scenario.Scenario.{Scenario};
ghost use Rattle.com_model.specs.Cases.{direct_call, direct_call_3};
ghost use Rattle.com_model.specs.Formed.{Formed};
ghost use Rattle.com_model.specs.Rules.{legal};
ghost use Rattle.com_model.specs.Safe.{EachEntry};
ghost use Rattle.com_laws_lines.specs.Breaks.{HasLines, HasWholeLine, with_two_lines};

/// In every legal history of a formed scenario the line of each entry holds no byte 10 but its end.
pub fn whole_lines()
    ensures { (s : Scenario) (h : List Entry) → Formed s → legal s h → EachEntry (HasWholeLine s) h }
{}

/// The text of every legal history of a formed scenario has as many lines as entries, and its report, where
/// it has ended, one for each object and two.
pub fn as_many_lines()
    ensures { (s : Scenario) (h : List Entry) → Formed s → legal s h → HasLines s h }
{}

/// The law of lines is not empty: it fails of a history that is legal but for its last entry, which enters a
/// body with a text of two lines.
pub fn breaks_bite()
    ensures { legal direct_call direct_call_3 × (EachEntry (HasWholeLine direct_call) with_two_lines → ⊥) }
{}
