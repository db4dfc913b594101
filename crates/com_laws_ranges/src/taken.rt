//! What a core tests of each entry before it changes its parts holds of each entry that the rules give,
//! stated on a function that does nothing.
ghost use Rattle.std.specs.Prelude.{◌≡◌, ◌≤◌, ℕ, List, Some};
ghost use Rattle.com_model.specs.declared.deeds.Deed.{Deed};
ghost use Rattle.com_model.specs.declared.deeds.Entry.{Entry};
ghost use Rattle.com_model.specs.declared.scenario.Scenario.{Scenario};
ghost use Rattle.com_model.specs.Ends.{limit};
ghost use Rattle.com_model.specs.Formed.{Formed};
ghost use Rattle.com_model.specs.State.{State, StandsFor, next_of};
ghost use Rattle.com_parts.specs.Fits.{IsWriting};
ghost use Rattle.com_state.specs.After.{step_in};
ghost use Rattle.com_laws_ranges.specs.Taken.{IsTaken};

/// Where a state stands for a history of a formed scenario within the limit of entries, its parts take a
/// lane's next entry (`fits`), and the step of whoever acts writes to what there is (`writes`).
pub fn entries_are_taken()
    ensures fits { (s : Scenario) (st : State) (h : List Entry) (l : ℕ) (d : Deed) → Formed s
        → StandsFor s st h → st.entries ≤ limit s → next_of s st l ≡ Some d → IsTaken st l d }
    ensures writes { (s : Scenario) (st : State) (e : Entry) → Formed s → IsWriting (step_in s st e) }
{}
