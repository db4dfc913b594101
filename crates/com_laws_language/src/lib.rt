//! What the language is, in its own words: lines and their words, sections, and what each section declares below
//! those above it. The reading of a text is exactly that. Stated on functions that do nothing.
#![tactic(auto)]

ghost use Rattle.std.specs.Prelude.{◌≡◌};
ghost use Rattle.com_model.specs.declared.scenario.Scenario.{Scenario};
ghost use Rattle.com_laws_language.specs.Spelling.{Spells};
ghost use Rattle.com_laws_language.specs.Laws.{IsReading, IsSpelled, IsOne, IsAnswered, IsTaken};
ghost use Rattle.com_laws_language.specs.Examples.{filter_first, commented, thread_first, unended, filtered};

/// A text spells a scenario exactly where its reading is that scenario; and it spells one at most.
pub fn texts_spell()
    ensures read { IsReading }
    ensures spelled { IsSpelled }
    ensures one { IsOne }
{}

/// What the contract of `parse` lets it answer: a scenario only where the text spells it, a fault only where it
/// spells none. So where a text spells a scenario, the answer is that one, or memory was short.
pub fn answers_are_true()
    ensures answers { IsAnswered }
    ensures taken { IsTaken }
{}

/// The relation is not empty: a text spells a scenario, and so it does with comments, spaces and empty lines
/// between. And it bites: where the same sections stand in another order a name is used above its declaration,
/// and where the last section has no end it is open; both texts spell none.
pub fn examples_bite()
    ensures spells { Spells filter_first filtered }
    ensures spaced { Spells commented filtered }
    ensures order { (s : Scenario) → Spells thread_first s → ⊥ }
    ensures open_section { (s : Scenario) → Spells unended s → ⊥ }
{}
