//! What entries do to places, in every legal history, stated on functions that do nothing.
#![tactic(auto)]

ghost use Rattle.std.specs.Prelude.{◌≡◌, ℕ, List, ◌∷◌, Some};
ghost use Rattle.com_model.specs.declared.deeds.Deed.{Deed};
ghost use Rattle.com_model.specs.declared.deeds.Entry.{Entry};
ghost use Rattle.com_model.specs.declared.scenario.Scenario.{Scenario};
ghost use Rattle.com_model.specs.Formed.{Formed};
ghost use Rattle.com_model.specs.Rules.{legal};
ghost use Rattle.com_model.specs.State.{State, StandsFor, next_of};
ghost use Rattle.com_laws_places.specs.Moves.{PlacesMove};
ghost use Rattle.com_laws_places.specs.Tables.{TablesMove};
ghost use Rattle.com_laws_places.specs.Worked.{WorkedMoves};

/// In every legal history of a formed scenario, for each entry, each apartment and each test of references:
/// the places of the apartment after the entry, with the moves by which the entry took some, are those before
/// it, with the moves by which it brought some. The moves are lists: each slot or link that is written, the
/// frame of a body that leaves, the values of a body that is entered, the result of a direct call between its
/// Leave and its Back, a script's slots at its last Uninit, an object's links at its Final, and the links of
/// all objects of an STA that ends.
pub fn places_move()
    ensures { (s : Scenario) (h : List Entry) (e : Entry) → Formed s → legal s (e ∷ h) → PlacesMove s h e }
{}

/// The law by tables: where a state stands for a history, the places by the tables after a lane's next
/// entry, with what it took, are those by the tables before it, with what it brought. The moves are read from
/// the tables before the entry alone, but for who stands in the lane after it.
pub fn tables_move()
    ensures { (s : Scenario) (st : State) (h : List Entry) (l : ℕ) (d : Deed) → Formed s
        → StandsFor s st h → next_of s st l ≡ Some d → TablesMove s st l d }
{}

/// What the entries of one worked history take and bring, as lists: the making of two objects, a reference as
/// an argument, in a link and out of it, a body that leaves, the end of a script's home with its STA, and two
/// Finals.
pub fn worked_moves()
    ensures { WorkedMoves }
{}
