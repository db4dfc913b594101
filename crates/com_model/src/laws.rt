//! Laws of every legal history, stated on functions that do nothing.

ghost use Rattle.com_model.specs.BooksTie.{BooksTie};
ghost use Rattle.std.specs.Prelude.{◌≡◌, ℕ, true, List, [], ◌∷◌, length, Option, Some, None};
ghost use Rattle.com_base.specs.declared.hresult.HResult.{HResult};
ghost use Rattle.com_base.specs.declared.value.Value.{Value};
ghost use Rattle.com_model.specs.declared.deeds.Deed.{Deed};
ghost use Rattle.com_model.specs.declared.deeds.Deed.TheVariants as deed;
ghost use Rattle.com_model.specs.declared.deeds.Entry.{Entry};
ghost use Rattle.com_model.specs.declared.scenario.Scenario.{Scenario};
ghost use Rattle.com_model.specs.Lists.{first, is_member};
ghost use Rattle.com_model.specs.Openers.{nested, open_calls, openers, Waits, top_call};
ghost use Rattle.com_model.specs.Waiting.{mark_of, mail};
ghost use Rattle.com_model.specs.LastAsked.{last_asked};
ghost use Rattle.com_model.specs.Rules.{legal, next};
ghost use Rattle.com_model.specs.Safe.{once};
ghost use Rattle.com_model.specs.Ends.{scheduled, ended_as, text, report};
ghost use Rattle.com_model.specs.Cases.{direct_call_text, direct_call_report, halved_report, foreign_back};
ghost use Rattle.com_model.specs.Cases.{foreign_leave, forged, forged_10, halved, halved_8, direct_call};
ghost use Rattle.com_model.specs.Cases.{pumped_words, into_the_host, callback, answer_first, younger_first};
ghost use Rattle.com_model.specs.Cases.{relayed, outer_causality, delayed, direct_call_10, pumped_words_9};
ghost use Rattle.com_model.specs.Cases.{into_the_host_10, callback_21, answer_first_22, younger_first_15};
ghost use Rattle.com_model.specs.Cases.{relayed_25, outer_causality_44, delayed_28, delayed_12};
ghost use Rattle.com_model.specs.declared.counts.Ended.TheVariants as ended;
ghost use Rattle.com_model.specs.Clock.{clock};
ghost use Rattle.com_model.specs.Formed.{Formed};
ghost use Rattle.com_model.specs.State.{State, LanesStand, ApartmentsStand, ObjectsStand, CallsStand};
ghost use Rattle.com_model.specs.State.{AnswersStand, StandsFor, Bounded, first_tables, after, next_of};

/// In each lane of each legal history every closer closes the innermost opener: a Back the Out of its own
/// call, and a Leave the Enter of its own call.
pub fn one_stack()
    ensures nested { (s : Scenario) (h : List Entry) (l : ℕ) → legal s h → nested h l }
    ensures own_out { (s : Scenario) (h : List Entry) (l c : ℕ) (hr : HResult) (v : Option Value)
        → next s h l ≡ Some (deed.Back c hr v) → first (openers h l) ≡ Some (Waits c) }
    ensures own_enter { (s : Scenario) (h : List Entry) (l c : ℕ) (hr : HResult) (v : Option Value)
        (b : Option (List ℕ)) → next s h l ≡ Some (deed.Leave c hr v b)
        → top_call (first (openers h l)) ≡ Some c }
{}

/// Each call of a legal history has one Out, at most one Enter after it, at most one Leave after that, and at
/// most one Back after its Out.
pub fn once_each()
    ensures { (s : Scenario) (h : List Entry) → legal s h → once h }
{}

/// Where the tables of a state stand for a history, they stand for the longer one after each deed: the tables
/// of lanes (openers, homes, counts, words, quits and filters), those of the STAs, the clock and the number
/// of entries; and after each deed that makes a legal history, those of objects, and of calls but for their
/// answers (issues, entries, leaves and returns, phases, times and causalities).
pub fn tables_stand()
    ensures lanes { (s : Scenario) (st : State) (h : List Entry) (l : ℕ) (d : Deed) → next s h l ≡ Some d
        → LanesStand s st h → LanesStand s (after s st l d) (record { lane = l; deed = d } ∷ h) }
    ensures apartments { (s : Scenario) (st : State) (h : List Entry) (l : ℕ) (d : Deed)
        → ApartmentsStand st h → ApartmentsStand (after s st l d) (record { lane = l; deed = d } ∷ h) }
    ensures objects { (s : Scenario) (st : State) (h : List Entry) (l : ℕ) (d : Deed)
        → legal s (record { lane = l; deed = d } ∷ h) → ObjectsStand st h
        → ObjectsStand (after s st l d) (record { lane = l; deed = d } ∷ h) }
    ensures calls { (s : Scenario) (st : State) (h : List Entry) (l : ℕ) (d : Deed)
        → legal s (record { lane = l; deed = d } ∷ h) → LanesStand s st h → st.clock ≡ clock h
        → CallsStand st h → CallsStand (after s st l d) (record { lane = l; deed = d } ∷ h) }
    ensures answers { (s : Scenario) (st : State) (h : List Entry) (l : ℕ) (d : Deed)
        → legal s (record { lane = l; deed = d } ∷ h) → StandsFor s st h
        → AnswersStand s (after s st l d) (record { lane = l; deed = d } ∷ h) }
    ensures entries { (s : Scenario) (st : State) (h : List Entry) (l : ℕ) (d : Deed)
        → st.entries ≡ length h → (after s st l d).entries ≡ length (record { lane = l; deed = d } ∷ h) }
    ensures clock { (s : Scenario) (st : State) (h : List Entry) (l : ℕ) (d : Deed) → st.clock ≡ clock h
        → (after s st l d).clock ≡ clock (record { lane = l; deed = d } ∷ h) }
{}

/// The first state stands for the empty history. In a formed scenario a state that stands for a history
/// stands, after a deed that makes a legal one, for the longer history. For nothing of a legal history of a
/// formed scenario stands outside of the numbers that were given.
pub fn state_stands()
    ensures first { (s : Scenario) → StandsFor s (first_tables s) [] }
    ensures bounded { (s : Scenario) (h : List Entry) → Formed s → legal s h → Bounded s h }
    ensures later { (s : Scenario) (st : State) (h : List Entry) (l : ℕ) (d : Deed) → Formed s
        → legal s (record { lane = l; deed = d } ∷ h) → StandsFor s st h
        → StandsFor s (after s st l d) (record { lane = l; deed = d } ∷ h) }
{}

/// Where a state stands for a history, the next entry of each lane by the state's tables is the next one
/// after the history.
pub fn next_stands()
    ensures { (s : Scenario) (st : State) (h : List Entry) (l : ℕ) → StandsFor s st h
        → next_of s st l ≡ next s h l }
{}

/// A lane keeps one mark for each of its open Outs. In each legal history the mark of an open Out is the
/// number of the word that a Pending asked about last for this call, and 0 where none did.
pub fn marks_kept()
    ensures { (s : Scenario) (h : List Entry) (l c : ℕ) → legal s h
        → is_member c (open_calls (openers h l)) ≡ true → mark_of (mail h l).marks c ≡ last_asked h l c }
{}

/// The scheduled histories of small worked cases are those that stand in the definitions, and each is legal
/// and ends well. While a lane can step no Tick is due; and a history in which a Back or a Leave closes the
/// opener of another call is not nested.
pub fn worked_cases()
    ensures direct_call { (scheduled direct_call ≡ direct_call_10) × legal direct_call direct_call_10
        × (ended_as direct_call direct_call_10 ≡ Some ended.Ok) }
    ensures pumped_words { (scheduled pumped_words ≡ pumped_words_9) × legal pumped_words pumped_words_9
        × (ended_as pumped_words pumped_words_9 ≡ Some ended.Ok) }
    ensures into_the_host { (scheduled into_the_host ≡ into_the_host_10)
        × legal into_the_host into_the_host_10 × (ended_as into_the_host into_the_host_10 ≡ Some ended.Ok) }
    ensures callback { (scheduled callback ≡ callback_21) × legal callback callback_21
        × (ended_as callback callback_21 ≡ Some ended.Ok) }
    ensures answer_first { (scheduled answer_first ≡ answer_first_22) × legal answer_first answer_first_22
        × (ended_as answer_first answer_first_22 ≡ Some ended.Ok) }
    ensures younger_first { (scheduled younger_first ≡ younger_first_15)
        × legal younger_first younger_first_15 × (ended_as younger_first younger_first_15 ≡ Some ended.Ok) }
    ensures relayed { (scheduled relayed ≡ relayed_25) × legal relayed relayed_25
        × (ended_as relayed relayed_25 ≡ Some ended.Ok) }
    ensures outer_causality { (scheduled outer_causality ≡ outer_causality_44)
        × legal outer_causality outer_causality_44
        × (ended_as outer_causality outer_causality_44 ≡ Some ended.Ok) }
    ensures delayed { (scheduled delayed ≡ delayed_28) × legal delayed delayed_28
        × (ended_as delayed delayed_28 ≡ Some ended.Ok) }
    ensures forged { (scheduled forged ≡ forged_10) × legal forged forged_10
        × (ended_as forged forged_10 ≡ Some ended.Ok) }
    ensures halved { (scheduled halved ≡ halved_8) × legal halved halved_8
        × (ended_as halved halved_8 ≡ Some ended.Ok) }
    ensures no_tick { next delayed delayed_12 0 ≡ None }
    ensures direct_call_text { text direct_call direct_call_10 ≡ direct_call_text }
    ensures direct_call_report { report direct_call direct_call_10 ≡ direct_call_report }
    ensures halved_report { report halved halved_8 ≡ halved_report }
    ensures foreign_closers { (nested foreign_back 1 → ⊥) × (nested foreign_leave 1 → ⊥) }
{}

/// Tables that are written of bounded books read as these, and a change leaves what calls keep of packets.
pub fn books_tie()
    ensures { BooksTie }
{}
