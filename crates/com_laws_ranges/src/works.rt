//! The work of open bodies in every legal history, stated on functions that do nothing.
ghost use Rattle.std.specs.Prelude.{ℕ, List, All, IsSome};
ghost use Rattle.com_classes.specs.Lookups.{class_at};
ghost use Rattle.com_model.specs.declared.deeds.Entry.{Entry};
ghost use Rattle.com_model.specs.declared.scenario.Scenario.{Scenario};
ghost use Rattle.com_model.specs.Calls.{issue};
ghost use Rattle.com_model.specs.Cases.{direct_call, direct_call_2, direct_call_3};
ghost use Rattle.com_model.specs.Formed.{Formed};
ghost use Rattle.com_model.specs.Objects.{class_of};
ghost use Rattle.com_model.specs.Openers.{openers};
ghost use Rattle.com_model.specs.Rules.{legal};
ghost use Rattle.com_laws_ranges.specs.Broken.{enters_unissued, enters_unmade};
ghost use Rattle.com_laws_ranges.specs.Works.{HasWork};

/// In every legal history of a formed scenario the call of each open Enter was issued, and the class of its
/// object is declared.
pub fn open_bodies_have_work()
    ensures { (s : Scenario) (h : List Entry) (l : ℕ) → Formed s → legal s h
        → All (HasWork s h) (openers h l) }
{}

/// Neither half of the law is empty: each alone fails of a history that is legal but for its last entry. One
/// enters a call that nobody issued, on an object of a declared class (`issued`). The other enters a call that
/// was issued, on an object that nobody made (`declared`).
pub fn works_bite()
    ensures issued { legal direct_call direct_call_2
        × IsSome (class_at direct_call.classes (class_of enters_unissued 1))
        × (All (HasWork direct_call enters_unissued) (openers enters_unissued 1) → ⊥) }
    ensures declared { legal direct_call direct_call_3 × IsSome (issue enters_unmade 1)
        × (All (HasWork direct_call enters_unmade) (openers enters_unmade 1) → ⊥) }
{}
