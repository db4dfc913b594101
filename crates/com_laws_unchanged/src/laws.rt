//! What entries leave as it was.

ghost use Rattle.std.specs.Prelude.{◌≡◌, ℕ, ◌+◌, ◌≤◌, true, false, List, [], ◌∷◌, ◌++◌, length, Option, Some};
ghost use Rattle.std.specs.Prelude.{None};
ghost use Rattle.com_base.specs.declared.hresult.HResult.{HResult};
ghost use Rattle.com_base.specs.declared.value.Value.{Value};
ghost use Rattle.com_refs_books.specs.Changes.{Books, held_outside};
ghost use Rattle.com_refs_books.specs.Ends.{holders_by, stays, ends};
ghost use Rattle.com_model.specs.declared.deeds.Deed.{Deed};
ghost use Rattle.com_model.specs.declared.deeds.Deed.TheVariants as deed;
ghost use Rattle.com_model.specs.declared.deeds.Entry.{Entry};
ghost use Rattle.com_model.specs.declared.deeds.Route.{Route};
ghost use Rattle.com_model.specs.declared.scenario.Scenario.{Scenario};
ghost use Rattle.com_model.specs.Apartments.{next_sta};
ghost use Rattle.com_model.specs.Books.{books, holders_in};
ghost use Rattle.com_model.specs.Dying.{is_entered};
ghost use Rattle.com_model.specs.Frames.{Scene, scene};
ghost use Rattle.com_model.specs.Lists.{is_member};
ghost use Rattle.com_model.specs.Places.{ground, places, all_places};
ghost use Rattle.com_model.specs.State.{State, StandsFor, after, book_tables, books_in, books_next, dies_in};
ghost use Rattle.com_model.specs.State.{ground_in, next_of, next_sta_in, objects_in, openers_in, scene_in};
ghost use Rattle.com_model.specs.State.{scene_next};
ghost use Rattle.com_state.specs.After.{parts_after};
ghost use Rattle.com_state.specs.Resting.{Rested, is_quiet};
ghost use Rattle.com_laws_unchanged.specs.Ends.{books_entered, history_entered};
ghost use Rattle.com_laws_unchanged.specs.Resting.{Resting};
ghost use Rattle.com_laws_unchanged.specs.Rowless.{is_rowless};

/// A state that stands for a history is at rest.
pub fn resting()
    ensures { (s : Scenario) (st : State) (h : List Entry) → StandsFor s st h → Resting s st }
{}

/// An entry of a quiet deed that the rules give leaves the books, the list of the dying and the places of all
/// objects as they were.
pub fn quiet_entries()
    ensures books { (s : Scenario) (st : State) (l : ℕ) (d : Deed) → Resting s st
        → next_of s st l ≡ Some d → is_quiet d ≡ true → (after s st l d).books ≡ st.books }
    ensures fallen { (s : Scenario) (st : State) (l : ℕ) (d : Deed) → Resting s st
        → next_of s st l ≡ Some d → is_quiet d ≡ true → (after s st l d).fallen ≡ st.fallen }
    ensures places { (s : Scenario) (st : State) (l : ℕ) (d : Deed) → Resting s st
        → next_of s st l ≡ Some d → is_quiet d ≡ true
        → places s (ground_in s (after s st l d)) (scene_in (after s st l d))
        ≡ places s (ground_in s st) (scene_in st) }
{}

/// The books after an entry: its rows, in their order, on the books before it; then what apartments without
/// place for an object have is given back, and what has no holder, or is disconnected, is cut.
pub fn books_by_ends()
    ensures history { (s : Scenario) (h : List Entry) (e : Entry)
        → books s (e ∷ h) ≡ ends (next_sta (e ∷ h)) (places s (ground s (e ∷ h)) (scene s (e ∷ h)))
        (history_entered s h e) }
    ensures next { (s : Scenario) (st su : State) (w : Scene) (e : Entry)
        → books_next s st su w e ≡ ends (next_sta_in su) (places s (ground_in s su) w)
        (books_entered s st su e) }
    ensures state { (s : Scenario) (st : State) (l : ℕ) (d : Deed)
        → let e : Entry = record { lane = l; deed = d } in let su : State = parts_after s st e in
        (after s st l d).books ≡ book_tables s su (ends (next_sta_in su) (places s (ground_in s su)
        (scene_next s st su e)) (books_entered s st su e)) }
{}

/// What an entry does not touch is at rest: an object that was connected, is not disconnected, and has no
/// fewer holders than before stays connected; and an object that was made before, and has no fewer holders
/// and open Enters, is dying after it only where it stood in the list of the dying.
pub fn untouched()
    ensures connected { (s : Scenario) (st : State) (n : ℕ) (pl : ℕ → ℕ → ℕ) (c : Books) (o : ℕ)
        → Resting s st → (books_in st).live o ≡ true → c.live o ≡ true
        → all_places s (ground_in s st) (scene_in st) o + held_outside (books_in st) o
        ≤ holders_by n pl c o → stays n pl c o ≡ true }
    ensures fallen { (s : Scenario) (st y : State) (o : ℕ) → Resting s st → o ≤ objects_in st
        → (is_member o y.finaled ≡ false → is_member o st.finaled ≡ false)
        → holders_in s (ground_in s st) (scene_in st) (books_in st) o ≤ holders_in s (ground_in s y)
        (scene_in y) (books_in y) o → (is_entered s (openers_in y) o ≡ false
        → is_entered s (openers_in st) o ≡ false) → dies_in s y o ≡ true → is_member o st.fallen ≡ true }
{}

/// The end of an entry changes nothing of books that are at rest at the places after it. An entry without
/// rows comes to its end with the books as they were; so does a call that marshals nothing, at its Out,
/// Enter, Leave and Back.
pub fn rowless_entries()
    ensures ends { (n : ℕ) (pl : ℕ → ℕ → ℕ) (b : Books)
        → Rested pl (holders_by n pl b) b → ends n pl b ≡ b }
    ensures rowless { (s : Scenario) (st su : State) (e : Entry) → is_rowless e.deed ≡ true
        → books_entered s st su e ≡ books_in st }
    ensures out { (s : Scenario) (st su : State) (l c i m k : ℕ) (o : Option ℕ) (r : Route)
        → (books_in st).arguments c ≡ []
        → books_entered s st su (record { lane = l; deed = deed.Out c o i m r k None }) ≡ books_in st }
    ensures enter { (s : Scenario) (st su : State) (l c o a : ℕ) (t : Option ℕ) (vs : List Value)
        → (books_in st).arguments c ≡ []
        → books_entered s st su (record { lane = l; deed = deed.Enter c o a t vs }) ≡ books_in st }
    ensures leave { (s : Scenario) (st su : State) (l c : ℕ) (hr : HResult) (v : Option Value)
        → (books_in st).result c ≡ None
        → books_entered s st su (record { lane = l; deed = deed.Leave c hr v None }) ≡ books_in st }
    ensures back { (s : Scenario) (st su : State) (l c : ℕ) (hr : HResult) (v : Option Value)
        → (books_in st).result c ≡ None
        → books_entered s st su (record { lane = l; deed = deed.Back c hr v }) ≡ books_in st }
{}

/// An Out that the rules give moves no place. One that marshals nothing leaves the list of the dying as it
/// was, and the books but for a row of the new call.
pub fn outs()
    ensures places { (s : Scenario) (st : State) (l c i m k : ℕ) (o : Option ℕ) (r : Route) (bytes : Option
        (List ℕ)) → Resting s st → next_of s st l ≡ Some (deed.Out c o i m r k bytes)
        → places s (ground_in s (after s st l (deed.Out c o i m r k bytes))) (scene_in (after s st l
        (deed.Out c o i m r k bytes))) ≡ places s (ground_in s st) (scene_in st) }
    ensures books { (s : Scenario) (st : State) (l c i m k : ℕ) (o : Option ℕ) (r : Route) → Resting s st
        → next_of s st l ≡ Some (deed.Out c o i m r k None) → c ≡ length st.issues + 1
        → (after s st l (deed.Out c o i m r k None)).books
        ≡ record st.books {
          arguments = st.books.arguments ++ [] ∷ [];
          result = st.books.result ++ None ∷ [];
        } }
    ensures fallen { (s : Scenario) (st : State) (l c i m k : ℕ) (o : Option ℕ) (r : Route) → Resting s st
        → next_of s st l ≡ Some (deed.Out c o i m r k None) → c ≡ length st.issues + 1
        → (after s st l (deed.Out c o i m r k None)).fallen ≡ st.fallen }
{}
