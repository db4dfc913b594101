//! What a runtime answers, in the words of the history that it stands for, and that what is connected was
//! connected since its making. Stated on functions that do nothing.
#![tactic(auto)]

ghost use Rattle.std.specs.Prelude.{◌≡◌, ◌≤◌, ℕ, true, false, List, [], ◌++◌};
ghost use Rattle.com_model.specs.declared.deeds.Entry.{Entry};
ghost use Rattle.com_model.specs.declared.scenario.Scenario.{Scenario};
ghost use Rattle.com_model.specs.Books.{books};
ghost use Rattle.com_model.specs.Cases.{direct_call, direct_call_3, direct_call_10};
ghost use Rattle.com_model.specs.Formed.{Formed};
ghost use Rattle.com_model.specs.Objects.{objects};
ghost use Rattle.com_model.specs.Rules.{legal};
ghost use Rattle.com_model.specs.State.{State, StandsFor};
ghost use Rattle.com_laws_answers.specs.Answers.{AnswersOf};
ghost use Rattle.com_laws_answers.specs.Broken.{counts_too_many, goes_ahead, has_an_object};
ghost use Rattle.com_laws_answers.specs.Broken.{is_over_at_once};

/// Where the state of a runtime stands for a history, each of its answers is a function of that history
/// alone: which lanes can step, what each lane does next, how the runtime stands, how many entries there are,
/// what the clock shows, how many objects were made, and what a report counts of each of them.
///
/// So two runtimes that stand for one history answer alike, whatever makes their entries.
pub fn answers_are_of_the_history()
    ensures { (s : Scenario) (st : State) (h : List Entry) → StandsFor s st h → AnswersOf s st h }
{}

/// The law is not empty: it fails, before the first entry, of a state that counts an entry too many, of one
/// whose clock goes ahead, of one with an object that no entry made, and of one whose lanes are over.
pub fn answers_bite()
    ensures entries { AnswersOf direct_call counts_too_many [] → ⊥ }
    ensures time { AnswersOf direct_call goes_ahead [] → ⊥ }
    ensures made { AnswersOf direct_call has_an_object [] → ⊥ }
    ensures stands { AnswersOf direct_call is_over_at_once [] → ⊥ }
{}

/// In every legal history of a formed scenario an object that is connected now was connected after every
/// entry since it was made: what is not connected any more is never connected again.
pub fn connected_since_its_making()
    ensures { (s : Scenario) (h later : List Entry) (o : ℕ) → Formed s → legal s (later ++ h) → o ≤ objects h
        → (books s (later ++ h)).live o ≡ true → (books s h).live o ≡ true }
{}

/// The object of a worked call is connected as long as its caller holds it, and is not afterwards.
pub fn connections_end()
    ensures held { (books direct_call direct_call_3).live 1 ≡ true }
    ensures released { (books direct_call direct_call_10).live 1 ≡ false }
{}
