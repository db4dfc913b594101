//! The parts side by side are the state, before and after each entry.

ghost use Rattle.std.specs.Prelude.{◌≡◌, ℕ, ◌+◌, List};
ghost use Rattle.com_model.specs.declared.deeds.Deed.{Deed};
ghost use Rattle.com_model.specs.declared.deeds.Entry.{Entry};
ghost use Rattle.com_model.specs.declared.scenario.Scenario.{Scenario};
ghost use Rattle.com_model.specs.State.{State, StandsFor, after, scene_in, scene_next, scene_tables};
ghost use Rattle.com_state.specs.Parts.{lanes_of, objects_of, calls_of, lanes_after, objects_after};
ghost use Rattle.com_state.specs.Parts.{calls_after, state_of};
ghost use Rattle.com_refs_books.specs.Changes.{held_outside};
ghost use Rattle.com_model.specs.Books.{books};
ghost use Rattle.com_model.specs.Frames.{scene};
ghost use Rattle.com_model.specs.Places.{ground, places, all_places};
ghost use Rattle.com_state.specs.Resting.{Rested, Settled};
ghost use Rattle.com_state.specs.After.{moment_in, issuing_in, parts_after, joined_after, scene_rows};

/// A state is its parts side by side.
pub fn parts_make_the_state()
    ensures { (st : State) → state_of (lanes_of st) (objects_of st)
        (calls_of st) st.scene st.books st.fallen st.clock st.entries ≡ st }
{}

/// After an entry each part is what the entry makes of it, by its deed and by what it finds of the other
/// parts; with the scene and the books after it they are the state.
pub fn after_by_parts()
    ensures whole { (s : Scenario) (st : State) (l : ℕ) (d : Deed)
        → after s st l d ≡ joined_after s st (record { lane = l; deed = d }) }
    ensures lanes { (s : Scenario) (st : State) (l : ℕ) (d : Deed)
        → lanes_of (after s st l d) ≡ lanes_after (lanes_of st) (record { lane = l; deed = d }) }
    ensures objects { (s : Scenario) (st : State) (l : ℕ) (d : Deed)
        → objects_of (after s st l d) ≡ objects_after (objects_of st) (record { lane = l; deed = d }) }
    ensures calls { (s : Scenario) (st : State) (l : ℕ) (d : Deed)
        → let e : Entry = record { lane = l; deed = d } in calls_of (after s st l d)
        ≡ calls_after (objects_of st) (moment_in s st e) (issuing_in s st e) (calls_of st) e }
{}

/// Where the scene's tables are written again as they are read, an entry changes them row by row: a new row
/// for a call that is issued or an object that is made, the step and the writes of whoever acts, and what
/// arrives.
pub fn scene_by_rows()
    ensures tables { (s : Scenario) (st : State) (e : Entry) → scene_tables s st (scene_in st) ≡ st.scene
        → scene_tables s (parts_after s st e) (scene_next s st (parts_after s st e) e) ≡ scene_rows s st e }
    ensures state { (s : Scenario) (st : State) (l : ℕ) (d : Deed)
        → scene_tables s st (scene_in st) ≡ st.scene
        → (after s st l d).scene ≡ scene_rows s st (record { lane = l; deed = d }) }
{}

/// After every history, legal or not, the books are at rest: an apartment without place for an object has
/// nothing to give back, what is connected has a holder, and what is not connected has nothing. A state that
/// stands for a history is settled so.
pub fn rests()
    ensures history { (s : Scenario) (h : List Entry)
        → Rested (places s (ground s h) (scene s h)) (λ o. all_places s (ground s h)
        (scene s h) o + held_outside (books s h) o) (books s h) }
    ensures state { (s : Scenario) (st : State) (h : List Entry) → StandsFor s st h → Settled s st }
{}
