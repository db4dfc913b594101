//! What places, calls, packets and cookies hold in every legal history: references by interfaces of their
//! objects' classes, and short texts of characters. Stated on functions that do nothing.
#![tactic(auto)]

ghost use Rattle.std.specs.Prelude.{List};
ghost use Rattle.com_model.specs.declared.deeds.Entry.{Entry};
ghost use Rattle.com_model.specs.declared.scenario.Scenario.{Scenario};
ghost use Rattle.com_model.specs.Cases.{direct_call, direct_call_1};
ghost use Rattle.com_model.specs.Formed.{Formed};
ghost use Rattle.com_model.specs.Rules.{legal};
ghost use Rattle.com_model.specs.Safe.{EachEntry};
ghost use Rattle.com_laws_values.specs.Broken.{as_a_relay};
ghost use Rattle.com_laws_values.specs.Held.{HoldsDeclared, NamesDeclared};

/// In every legal history of a formed scenario each reference in a script, a body, a link, a sent value, an
/// answer, an outstanding packet or a cookie that was not revoked names an object that was made, by IUnknown
/// or an interface of its class's list; each text among these values is one of characters; and texts and bytes
/// have at most as many bytes as a literal.
pub fn holds_declared()
    ensures { (s : Scenario) (h : List Entry) → Formed s → legal s h → HoldsDeclared s h }
{}

/// In every legal history of a formed scenario each entry names references, and carries texts and bytes, only
/// such.
pub fn names_declared()
    ensures { (s : Scenario) (h : List Entry) → Formed s → legal s h → EachEntry (NamesDeclared s) h }
{}

/// No law of these is empty: each fails of a history that is legal but for its last entry, which makes an
/// object by an interface that its class does not have.
pub fn declared_bites()
    ensures holds { legal direct_call direct_call_1 × (HoldsDeclared direct_call as_a_relay → ⊥) }
    ensures names { legal direct_call direct_call_1 × (EachEntry (NamesDeclared direct_call) as_a_relay → ⊥) }
{}
