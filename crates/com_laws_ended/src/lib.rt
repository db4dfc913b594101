//! A legal history that has ended goes no further. Stated on functions that do nothing.
#![tactic(auto)]

ghost use Rattle.std.specs.Prelude.{◌≡◌, ℕ, ◌≤◌, true, List, None, length};
ghost use Rattle.com_model.specs.declared.deeds.Entry.{Entry};
ghost use Rattle.com_model.specs.declared.scenario.Scenario.{Scenario};
ghost use Rattle.com_model.specs.Cases.{direct_call, direct_call_10};
ghost use Rattle.com_model.specs.Ends.{finished, limit, stuck};
ghost use Rattle.com_model.specs.Formed.{Formed};
ghost use Rattle.com_model.specs.Rules.{legal, next};
ghost use Rattle.com_model.specs.Safe.{EachEntry};
ghost use Rattle.com_laws_ended.specs.Going.{GoesOn, after_the_end};

/// A legal history of a formed scenario that is finished or stuck has no next entry, of any lane or the clock.
pub fn goes_no_further()
    ensures finished { (s : Scenario) (h : List Entry) (l : ℕ) → Formed s → legal s h → finished s h ≡ true
        → next s h l ≡ None }
    ensures stuck { (s : Scenario) (h : List Entry) (l : ℕ) → stuck s h ≡ true → next s h l ≡ None }
{}

/// In every legal history of a formed scenario within its limit each entry was made behind one that had not
/// ended.
pub fn goes_on_before()
    ensures { (s : Scenario) (h : List Entry) → Formed s → legal s h → length h ≤ limit s
        → EachEntry (GoesOn s) h }
{}

/// The law is not empty: it fails of a history that goes on behind its end.
pub fn going_on_bites()
    ensures { legal direct_call direct_call_10 × (EachEntry (GoesOn direct_call) after_the_end → ⊥) }
{}
