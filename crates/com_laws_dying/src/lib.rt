//! Which objects fall by an entry, stated on a function that does nothing.
#![tactic(auto)]

ghost use Rattle.std.specs.Prelude.{◌≡◌, ℕ, true, false, List, Some};
ghost use Rattle.com_model.specs.declared.deeds.Deed.{Deed};
ghost use Rattle.com_model.specs.declared.deeds.Entry.{Entry};
ghost use Rattle.com_model.specs.declared.scenario.Scenario.{Scenario};
ghost use Rattle.com_model.specs.Formed.{Formed};
ghost use Rattle.com_model.specs.Lists.{is_member};
ghost use Rattle.com_model.specs.State.{State, StandsFor, next_of, dies_in, after};
ghost use Rattle.com_laws_dying.specs.Falling.{MayFall, Candidates, StayBut, Picked, fallen_by};

/// Where a state stands for a history of a formed scenario, the list of the dying has exactly the objects
/// that are dying (`members`). Each of them is dying after a lane's next entry too, but for the object of a
/// Final (`stay`). Any other object that is dying after the entry lost its last holder by it, or is that of
/// the body that left, or was made by it (`fresh`). So of any list by number of candidates, which has all
/// those and none that was dying before, those that are dying after the entry are what falls (`picked`), and
/// the list of the dying is the old one without the Final's object, and they behind it (`fallen`).
pub fn falls()
    ensures members { (s : Scenario) (st : State) (h : List Entry) (o : ℕ) → StandsFor s st h
        → is_member o st.fallen ≡ dies_in s st o }
    ensures stay { (s : Scenario) (st : State) (h : List Entry) (l : ℕ) (d : Deed) → Formed s
        → StandsFor s st h → next_of s st l ≡ Some d → StayBut s st l d }
    ensures fresh { (s : Scenario) (st : State) (h : List Entry) (l : ℕ) (d : Deed) (o : ℕ) → Formed s
        → StandsFor s st h → next_of s st l ≡ Some d → dies_in s (after s st l d) o ≡ true
        → is_member o st.fallen ≡ false → MayFall s st l d o }
    ensures picked { (s : Scenario) (st : State) (h : List Entry) (l : ℕ) (d : Deed) (cs : List ℕ)
        → Formed s → StandsFor s st h → next_of s st l ≡ Some d → Candidates s st l d cs
        → Picked s st l d cs }
    ensures fallen { (s : Scenario) (st : State) (h : List Entry) (l : ℕ) (d : Deed) (cs : List ℕ)
        → Formed s → StandsFor s st h → next_of s st l ≡ Some d → Candidates s st l d cs
        → (after s st l d).fallen ≡ fallen_by s st l d cs }
{}
