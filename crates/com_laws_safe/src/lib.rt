//! What is safe in every legal history, as one law; and for each of its clauses a history that breaks it.
//! Stated on functions that do nothing.
#![tactic(auto)]

ghost use Rattle.std.specs.Prelude.{List};
ghost use Rattle.com_model.specs.declared.deeds.Entry.{Entry};
ghost use Rattle.com_model.specs.declared.scenario.Scenario.{Scenario};
ghost use Rattle.com_model.specs.Cases.{direct_call, direct_call_3, direct_call_6, pumped_words};
ghost use Rattle.com_model.specs.Cases.{pumped_words_3, into_the_host, into_the_host_3, answer_first};
ghost use Rattle.com_model.specs.Cases.{answer_first_10};
ghost use Rattle.com_model.specs.Formed.{Formed};
ghost use Rattle.com_model.specs.Rules.{legal};
ghost use Rattle.com_model.specs.Safe.{Apartment, OneStack, Reentry, Replies, Balance, Release, Causes, Safe};
ghost use Rattle.com_laws_safe.specs.Broken.{in_foreign_apartment, above_a_pump, above_an_answer, another_value};
ghost use Rattle.com_laws_safe.specs.Broken.{unmarshalled_out_of_nothing, two_apartments, out_of_nothing};
ghost use Rattle.com_laws_safe.specs.Broken.{held_by_a_script, without_a_cause};
ghost use Rattle.com_laws_safe.specs.Stricter.{Stricter};

mod written;

pub use written::{one_history, scheduled_ends, text_fixes};

/// Every legal history of a formed scenario is safe: apartments, the one stack of each lane, reentry, own
/// replies, the balance of public references, release, and causes.
pub fn safe()
    ensures { (s : Scenario) (h : List Entry) → Formed s → legal s h → Safe s h }
{}

/// In every legal history of a formed scenario an Enter is of the object that its call's Out names, and of no
/// call that was refused at its issue. A packet is dropped by a statement of who is on top, or by a rule for
/// the arguments of an answered call that was not entered. A Verdict and a Refuse stand at the call's own
/// Out, or in a lane that serves its target's apartment. And after every prefix the report adds up: the
/// stub's number of each object is what proxies, packets and tables hold, and 0 of an object that is
/// disconnected or released.
pub fn stricter()
    ensures { (s : Scenario) (h : List Entry) → Formed s → legal s h → Stricter s h }
{}

/// No clause is empty: each fails of a history that is legal but for its last entry.
pub fn clauses_bite()
    ensures apartment { legal into_the_host into_the_host_3
        × (Apartment into_the_host in_foreign_apartment → ⊥) }
    ensures one_stack { legal pumped_words pumped_words_3 × (OneStack pumped_words above_a_pump → ⊥) }
    ensures reentry { legal answer_first answer_first_10 × (Reentry answer_first above_an_answer → ⊥) }
    ensures once { legal direct_call direct_call_3 × (Replies direct_call another_value → ⊥) }
    ensures balance { legal unmarshalled_out_of_nothing two_apartments
        × (Balance unmarshalled_out_of_nothing out_of_nothing → ⊥) }
    ensures release { legal direct_call direct_call_6 × (Release direct_call held_by_a_script → ⊥) }
    ensures causes { legal direct_call direct_call_3 × (Causes direct_call without_a_cause → ⊥) }
{}
