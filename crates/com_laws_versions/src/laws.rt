//! What a scenario keeps in version 2 of the language, stated on a function that does nothing.

ghost use Rattle.std.specs.Prelude.{◌≡◌, ◌<◌, List, length};
ghost use Rattle.com_model.specs.declared.deeds.Entry.{Entry};
ghost use Rattle.com_model.specs.declared.scenario.Scenario.{Scenario};
ghost use Rattle.com_model.specs.Ends.{all_counts, ended_as, limit};
ghost use Rattle.com_model.specs.Formed.{Formed};
ghost use Rattle.com_model.specs.Rules.{legal};
ghost use Rattle.com_laws_versions.specs.Moved.{moved};

/// A formed scenario is formed in version 2 too, and each of its legal histories is legal there, with the
/// same counts. One that has fewer entries than the limit ends there in the same way, if it has ended.
pub fn moves()
    ensures formed { (s : Scenario) → Formed s → Formed (moved s) }
    ensures lawful { (s : Scenario) (h : List Entry) → Formed s → legal s h → legal (moved s) h }
    ensures counts { (s : Scenario) (h : List Entry) → Formed s → legal s h
        → all_counts (moved s) h ≡ all_counts s h }
    ensures ends { (s : Scenario) (h : List Entry) → Formed s → legal s h → length h < limit s
        → ended_as (moved s) h ≡ ended_as s h }
{}
