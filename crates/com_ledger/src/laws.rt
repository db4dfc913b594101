//! What ties a ledger to a state, stated on functions that do nothing.
ghost use Rattle.std.specs.Prelude.{◌≡◌, ◌+◌, ◌<◌, ◌≤◌, ℕ, Bool, List, Option, Some, None};
ghost use Rattle.com_base.specs.declared.value.Value.{Value};
ghost use Rattle.com_body.specs.declared.actions.Action.{Action};
ghost use Rattle.com_refs_books.specs.Changes.{Books, entered_rows};
ghost use Rattle.com_refs_books.specs.Ends.{ends};
ghost use Rattle.com_refs_holders.specs.Places.{Counts};
ghost use Rattle.com_model.specs.declared.deeds.Deed.{Deed};
ghost use Rattle.com_model.specs.declared.deeds.Deed.TheVariants as deed;
ghost use Rattle.com_model.specs.declared.deeds.Entry.{Entry};
ghost use Rattle.com_model.specs.declared.keeps.Making.{Making};
ghost use Rattle.com_model.specs.declared.scenario.Scenario.{Scenario};
ghost use Rattle.com_model.specs.Books.{kept, rows};
ghost use Rattle.com_model.specs.Endings.{is_leave};
ghost use Rattle.com_model.specs.Formed.{Formed};
ghost use Rattle.com_model.specs.Lists.{number_or_zero};
ghost use Rattle.com_model.specs.Objects.{makes};
ghost use Rattle.com_model.specs.State.{State, StandsFor, after, books_in, ending_in, first_tables, named_in};
ghost use Rattle.com_model.specs.State.{next_of, next_sta_in, objects_in, owns_in, running_in, sight_of};
ghost use Rattle.com_reference_moves.specs.declared.moves.Move.{Move};
ghost use Rattle.com_reference_moves.specs.Steps.{movings_of};
ghost use Rattle.com_reference_moves.specs.Tables.{moves_in};
ghost use Rattle.com_laws_unchanged.specs.Ends.{books_entered, connected};
ghost use Rattle.com_refs.specs.Counts.{holders_of};
ghost use Rattle.com_refs.specs.Totals.{Totals};
ghost use Rattle.com_refs_rows.specs.Books.{Held};
ghost use Rattle.com_refs_rows.specs.Entries.{Applies, Around, StandsAround, tally};
ghost use Rattle.com_refs_rows.specs.Fits.{most_given};
ghost use Rattle.com_refs_rows.specs.Moving.{plus, AllBelow};
ghost use Rattle.com_refs_rows.specs.Owners.{OffersMore};
ghost use Rattle.com_ledger.specs.Ties.{AllTouched, AppliedAs, EndedAt, EntryEnds, IsNew, OwnersGrow};
ghost use Rattle.com_ledger.specs.Ties.{Notes, OwnersTie, Ties, holders_at, places_at};

use crate::ledger::Ledger;

impl Ledger {
    /// Places that are what the ledger counts total the places of each object.
    pub fn tells(&self)
        ensures { (n : ℕ) (places : ℕ → ℕ → ℕ) → Counts n places self.now.tables
            → Totals n places self.now.tables }
    {
        self.books.refs.tells();
    }
}

/// A ledger where nothing is held is tied to the state before the first entry.
pub fn new_ledger_ties()
    ensures { (s : Scenario) (w : Held) → IsNew w → Ties s (first_tables s) w }
{}

/// Where a ledger is tied to a state, the holders that it counts of each object are the object's holders in
/// the state.
pub fn holders_tie()
    ensures { (s : Scenario) (st : State) (w : Held) (o : ℕ) → Ties s st w
        → holders_of w.tables o ≡ holders_at s st o }
{}

/// Where a state stands for a history of a formed scenario, and the moves are those of a lane's next entry:
/// the places after the entry, with those that it lost, are the places before it, with those that it gained
/// (`places`); the apartments of the moves are below the number of the next one (`below`); and the books
/// after it are those with the entry's rows, at their end for the places after it (`books`). A ledger that
/// is tied to the state counts the places before the entry also among the apartments after it (`counts`).
/// Where the entry was applied to it (`AppliedAs`), it ends at the places after the entry (`ended`); and
/// where it ends as `EntryEnds` says, it is tied to the state after the entry (`ties`).
pub fn entries_tie()
    ensures places { (s : Scenario) (st : State) (h : List Entry) (l : ℕ) (d : Deed)
        (gained lost : List Move) → Formed s → StandsFor s st h → next_of s st l ≡ Some d
        → movings_of gained ≡ (moves_in s st (record { lane = l; deed = d })).gained
        → movings_of lost ≡ (moves_in s st (record { lane = l; deed = d })).lost → (a o : ℕ)
        → plus (places_at s (after s st l d)) lost a o ≡ plus (places_at s st) gained a o }
    ensures below { (s : Scenario) (st : State) (h : List Entry) (l : ℕ) (d : Deed)
        (gained lost : List Move) → Formed s → StandsFor s st h → next_of s st l ≡ Some d
        → movings_of gained ≡ (moves_in s st (record { lane = l; deed = d })).gained
        → movings_of lost ≡ (moves_in s st (record { lane = l; deed = d })).lost
        → AllBelow (next_sta_in (after s st l d)) gained × AllBelow (next_sta_in (after s st l d)) lost }
    ensures books { (s : Scenario) (st : State) (h : List Entry) (l : ℕ) (d : Deed) → Formed s
        → StandsFor s st h → next_of s st l ≡ Some d
        → books_in (after s st l d) ≡ ends (next_sta_in (after s st l d)) (places_at s (after s st l d))
        (books_entered s st (after s st l d) (record { lane = l; deed = d })) }
    ensures counts { (s : Scenario) (st : State) (h : List Entry) (l : ℕ) (d : Deed) (w : Held) → Formed s
        → StandsFor s st h → next_of s st l ≡ Some d → Ties s st w
        → Counts (next_sta_in (after s st l d)) (places_at s st) w.tables }
    ensures ended { (s : Scenario) (st : State) (h : List Entry) (l : ℕ) (d : Deed)
        (gained lost : List Move) (w u : Held) → Formed s → StandsFor s st h → next_of s st l ≡ Some d
        → movings_of gained ≡ (moves_in s st (record { lane = l; deed = d })).gained
        → movings_of lost ≡ (moves_in s st (record { lane = l; deed = d })).lost → Ties s st w
        → AppliedAs s st l d gained lost w u
        → EndedAt (next_sta_in (after s st l d)) (places_at s (after s st l d)) (books_entered s st
        (after s st l d) (record { lane = l; deed = d })) u }
    ensures ties { (s : Scenario) (st : State) (h : List Entry) (l : ℕ) (d : Deed) (w u : Held) → Formed s
        → StandsFor s st h → next_of s st l ≡ Some d → Ties s st w → EntryEnds s st l d w u
        → Ties s (after s st l d) u }
{}

/// Where a ledger is tied to the state before an entry and to the one after it, and each object that had a
/// holder in its tables and has none any more was written down, so was each object of the state that lost
/// its last holder.
pub fn losses_touched()
    ensures { (s : Scenario) (st su : State) (w u : Held) (touched : List ℕ) → Ties s st w
        → Ties s su u → Notes w.tables u.tables touched → AllTouched s st su touched }
{}

/// Where a state stands for a history of a formed scenario: no place holds an object that was not made
/// (`made`); the apartment in which the lane of the next entry runs, and that of an Enter, are below the
/// number of the next one after it (`running`, `enters`); and the entry's rows, with what calls keep of
/// packets and what is connected then, are those of the definitions, whatever says who owns objects, if it
/// says the same of the object that is made, or of all where none is (`entered`).
pub fn entries_reach()
    ensures made { (s : Scenario) (st : State) (h : List Entry) (a o : ℕ) → Formed s → StandsFor s st h
        → objects_in st < o → places_at s st a o ≡ 0 }
    ensures running { (s : Scenario) (st : State) (h : List Entry) (l : ℕ) (d : Deed) → Formed s
        → StandsFor s st h → next_of s st l ≡ Some d
        → number_or_zero (running_in s st l) < next_sta_in (after s st l d) }
    ensures enters { (s : Scenario) (st : State) (h : List Entry) (l c o a : ℕ) (t : Option ℕ)
        (vs : List Value) → Formed s → StandsFor s st h → next_of s st l ≡ Some (deed.Enter c o a t vs)
        → a < next_sta_in (after s st l (deed.Enter c o a t vs)) }
    ensures entered { (s : Scenario) (st : State) (h : List Entry) (l : ℕ) (d : Deed) (x : Option Action)
        (left : ℕ → Bool) (b : Books) (a : ℕ) (owned : ℕ → ℕ → Bool) → Formed s → StandsFor s st h
        → next_of s st l ≡ Some d → x ≡ (sight_of s st).act l → ((c : ℕ)
        → left c ≡ is_leave (ending_in st c)) → b ≡ books_in st → a ≡ number_or_zero (running_in s st l)
        → (makes d ≡ None → (o c : ℕ) → owned o c ≡ owns_in s (after s st l d) o c) → ((m : Making)
        → makes d ≡ Some m → owned m.object a ≡ owns_in s (after s st l d) m.object a)
        → connected d (named_in st) (kept b d (entered_rows owned b (rows s x left b a d)))
        ≡ books_entered s st (after s st l d) (record { lane = l; deed = d }) }
{}

/// Where a ledger is tied to the state before a lane's next entry, and the entry was applied to it beside
/// what the state has, with the moves of the entry, an object that it makes has the interfaces of its class in
/// its set, and few references were given, it is tied to the state after the entry.
pub fn applied_ties()
    ensures { (s : Scenario) (st : State) (h : List Entry) (l : ℕ) (d : Deed) (g : Around)
        (gained lost : List Move) (w u : Held) → Formed s → StandsFor s st h → next_of s st l ≡ Some d
        → movings_of gained ≡ (moves_in s st (record { lane = l; deed = d })).gained
        → movings_of lost ≡ (moves_in s st (record { lane = l; deed = d })).lost → Ties s st w
        → StandsAround s st l d g → ((n : ℕ) (places : ℕ → ℕ → ℕ) → Counts n places u.tables
        → Totals n places u.tables) → OffersMore g.classes (makes d) w.tables u.tables
        → u.tables.issued ≤ w.tables.issued + most_given → Applies g d gained lost (tally w.tables w.calls)
        (tally u.tables u.calls) → Ties s (after s st l d) u }
{}

/// The owner of each object is the apartment that its making names: before the first entry (`first`), and
/// after an entry where it was so before, and the ledger took the owner of the object that was made
/// (`later`).
pub fn owners_tie()
    ensures first { (s : Scenario) (w : Held) → IsNew w → OwnersTie (first_tables s) w }
    ensures later { (s : Scenario) (st : State) (h : List Entry) (l : ℕ) (d : Deed) (w u : Held)
        → Formed s → StandsFor s st h → next_of s st l ≡ Some d → OwnersTie st w → OwnersGrow d w u
        → OwnersTie (after s st l d) u }
{}
