//! Who owns what an activation makes, in every legal history: what the class's factory says. Stated on
//! functions that do nothing.
#![tactic(auto)]

ghost use Rattle.std.specs.Prelude.{List};
ghost use Rattle.com_model.specs.declared.deeds.Entry.{Entry};
ghost use Rattle.com_model.specs.declared.scenario.Scenario.{Scenario};
ghost use Rattle.com_model.specs.Cases.{direct_call, direct_call_1};
ghost use Rattle.com_model.specs.Formed.{Formed};
ghost use Rattle.com_model.specs.Rules.{legal};
ghost use Rattle.com_model.specs.Safe.{EachEntry};
ghost use Rattle.com_laws_activation.specs.Activations.{Activates, ClassesFound, InterfacesFound, in_the_host};

/// In every legal history each activation is the action of whoever acts, and its entry is what
/// `Factory::create_instance` answers for the class and the interface that are asked for: the object's owner
/// is the apartment that the factory names to this creator, and a refusal is the factory's. In a lane without
/// home nothing is made. Source: CoCreateInstance.
pub fn activation()
    ensures { (s : Scenario) (h : List Entry) → legal s h → EachEntry (Activates s) h }
{}

/// In a formed scenario each class is found by its CLSID and each interface by its IID, so that what is asked
/// for by number is what the factory is asked for by GUID.
pub fn found_by_guid()
    ensures classes { (s : Scenario) → Formed s → ClassesFound s }
    ensures interfaces { (s : Scenario) → Formed s → InterfacesFound s }
{}

/// The law of activation is not empty: it fails of a history that is legal but for its last entry, which makes
/// an object in another apartment than the factory names.
pub fn wrong_owner_bites()
    ensures { legal direct_call direct_call_1 × (EachEntry (Activates direct_call) in_the_host → ⊥) }
{}
