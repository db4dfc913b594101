//! Queries in every legal history: what each is answered, and the rules of QueryInterface. Stated on functions
//! that do nothing.
#![tactic(auto)]

ghost use Rattle.std.specs.Prelude.{List};
ghost use Rattle.com_model.specs.declared.deeds.Entry.{Entry};
ghost use Rattle.com_model.specs.declared.scenario.Scenario.{Scenario};
ghost use Rattle.com_model.specs.Formed.{Formed};
ghost use Rattle.com_model.specs.Rules.{legal};
ghost use Rattle.com_model.specs.Safe.{EachEntry};
ghost use Rattle.com_laws_query.specs.Querying.{QueryAnswers, QueryRefused};
ghost use Rattle.com_laws_query.specs.Rules.{Identity, StaticSet, Reflexive, Symmetric, Transitive};
ghost use Rattle.com_laws_query.specs.Broken.{asking, asking_2, asking_3, asking_4, of_another};
ghost use Rattle.com_laws_query.specs.Broken.{without_reason, without_identity, without_return, without_own};

/// In every legal history each query is the action of whoever acts, and names the object of the reference
/// that it is put to. One that succeeds comes from a lane with a home, through a reference that is no proxy of
/// what is not connected, for an interface of the set of the object's class; what is taken is a reference to
/// that same object by that interface.
pub fn queries_answer()
    ensures { (s : Scenario) (h : List Entry) → legal s h → EachEntry (QueryAnswers s) h }
{}

/// In every legal history a query that is refused has its reason: no home, null, a proxy of what is not
/// connected, or none of the class's interfaces; and nothing is taken.
pub fn refused_rightly()
    ensures { (s : Scenario) (h : List Entry) → legal s h → EachEntry (QueryRefused s) h }
{}

/// The rules of QueryInterface hold over all queries of every legal history of a formed scenario. IUnknown is
/// an object's identity; what an object gives at one time is wanting at none; and asking is reflexive,
/// symmetric and transitive. Source: the documentation of IUnknown, "Rules for Implementing QueryInterface".
pub fn rules_of_query()
    ensures identity { (s : Scenario) (h : List Entry) → Formed s → legal s h → Identity s h }
    ensures static_set { (s : Scenario) (h : List Entry) → Formed s → legal s h → StaticSet s h }
    ensures reflexive { (s : Scenario) (h : List Entry) → Formed s → legal s h → Reflexive s h }
    ensures symmetric { (s : Scenario) (h : List Entry) → Formed s → legal s h → Symmetric s h }
    ensures transitive { (s : Scenario) (h : List Entry) → Formed s → legal s h → Transitive s h }
{}

/// No law of these is empty: each fails of a history that is legal but for its last entry.
pub fn rules_bite()
    ensures answers { legal asking asking_2 × (EachEntry (QueryAnswers asking) of_another → ⊥) }
    ensures refused { legal asking asking_2 × (EachEntry (QueryRefused asking) without_reason → ⊥) }
    ensures identity { legal asking asking_2 × (Identity asking without_identity → ⊥) }
    ensures static_set { legal asking asking_4 × (StaticSet asking without_own → ⊥) }
    ensures reflexive { legal asking asking_4 × (Reflexive asking without_own → ⊥) }
    ensures symmetric { legal asking asking_3 × (Symmetric asking without_return → ⊥) }
    ensures transitive { legal asking asking_4 × (Transitive asking without_own → ⊥) }
{}
