//! What the moves of an entry over the tables mean, stated on a function that does nothing.
ghost use Rattle.std.specs.Prelude.{◌≡◌, ℕ, List, ◌∷◌, Option, Some};
ghost use Rattle.com_body.specs.declared.frame.Outcome.{Outcome};
ghost use Rattle.com_model.specs.declared.deeds.Entry.{Entry};
ghost use Rattle.com_model.specs.declared.scenario.Scenario.{Scenario};
ghost use Rattle.com_model.specs.Formed.{Formed};
ghost use Rattle.com_model.specs.Rules.{legal};
ghost use Rattle.com_model.specs.State.{State, StandsFor, SceneTables, home_in, next_of};
ghost use Rattle.com_model.specs.Frames.{Actor, Scene};
ghost use Rattle.com_model.specs.Places.{Ground};
ghost use Rattle.com_laws_places.specs.Moves.{entry_moves};
ghost use Rattle.com_state.specs.After.{acting_in, step_in, actor_after};
ghost use Rattle.com_state.specs.Parts.{ObjectTables, CallTables, objects_of, calls_of};
ghost use Rattle.com_reference_moves.specs.Tables.{ground_at, moves_in, moves_at, PlacesMoveIn};
ghost use Rattle.com_model.specs.declared.deeds.Deed.{Deed};
ghost use Rattle.com_reference_moves.specs.Held.{PlacesByLists};
ghost use Rattle.com_reference_moves.specs.Steps.{moves_stepped, FramesWhole, IsWhole, FewValues};

/// Where a state stands for a history, the moves of an entry over the state are its moves after the history.
/// They rest on the tables of objects, calls and the scene, on the home of the entry's lane, and on who acts
/// there before and after the entry. The moves that `Moves::fill` reads, by what slots and links hold after
/// the step, are these moves. And in a formed scenario, for each apartment and each test of references, the
/// places of the apartment after the entry, with those that the entry lost, are the places before it, with
/// those that it gained.
pub fn moves_stand()
    ensures history { (s : Scenario) (st : State) (h : List Entry) (e : Entry) → legal s (e ∷ h)
        → StandsFor s st h → moves_in s st e ≡ entry_moves s h e }
    ensures tables { (s : Scenario) (st : State) (e : Entry)
        → moves_in s st e ≡ moves_at (home_in s st e.lane) (objects_of st) (calls_of st) st.scene
        (acting_in s st e) (step_in s st e) (actor_after s st e) e }
    ensures stepped { (home : Option ℕ) (o : ObjectTables) (c : CallTables) (t : SceneTables)
        (acting : Actor) (r : Option Outcome) (b : Actor) (e : Entry)
        → moves_stepped (ground_at home o c) t acting r b e ≡ moves_at home o c t acting r b e }
    ensures places { (s : Scenario) (st : State) (h : List Entry) (e : Entry) → Formed s → legal s (e ∷ h)
        → StandsFor s st h → PlacesMoveIn s st e }
{}

/// Where a state stands for a history of a formed scenario, the frame of each script and of each body has as
/// many slots as frames have, and so has that of each step; and no Enter that may come next has more values
/// than a method may have parameters.
pub fn frames_are_whole()
    ensures frames { (s : Scenario) (st : State) (h : List Entry) → Formed s → StandsFor s st h
        → FramesWhole st.scene }
    ensures step { (s : Scenario) (st : State) (h : List Entry) (e : Entry) → Formed s → StandsFor s st h
        → IsWhole (step_in s st e) }
    ensures values { (s : Scenario) (st : State) (h : List Entry) (l : ℕ) (d : Deed) → Formed s
        → StandsFor s st h → next_of s st l ≡ Some d → FewValues d }
{}

/// For each apartment and each test of references, how many places hold one is read from lists: the slots of
/// scripts, those of open bodies, the links of objects, and the results of direct calls that left and are not
/// back, each with its apartment.
pub fn places_by_lists()
    ensures { (s : Scenario) (g : Ground) (w : Scene) → PlacesByLists s g w }
{}
