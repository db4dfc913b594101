//! What is written fixes what happened, stated on functions that do nothing: the schedule's history is legal
//! and has ended, and two legal histories with one text are one.
ghost use Rattle.std.specs.Prelude.{◌≡◌, true, List, is_some};
ghost use Rattle.com_model.specs.declared.deeds.Entry.{Entry};
ghost use Rattle.com_model.specs.declared.scenario.Scenario.{Scenario};
ghost use Rattle.com_model.specs.Ends.{ended_as, scheduled, text};
ghost use Rattle.com_model.specs.Formed.{Formed};
ghost use Rattle.com_model.specs.Rules.{legal};
ghost use Rattle.com_laws_safe.specs.OneHistory.{OneHistory};

/// The schedule of every scenario gives a legal history that has ended: all is done, or no lane can step and
/// no time is waited for, or the history has as many entries as it may have.
pub fn scheduled_ends()
    ensures { (s : Scenario) → legal s (scheduled s) × (is_some (ended_as s (scheduled s)) ≡ true) }
{}

/// Two legal histories of a formed scenario with the same text are the same history: each line names its
/// lane, and the rules give a lane's next entry.
pub fn text_fixes()
    ensures { (s : Scenario) (g h : List Entry) → Formed s → legal s g → legal s h → text s g ≡ text s h
        → g ≡ h }
{}

/// The schedule's history of a formed scenario is legal, has ended and is safe, and no other legal history
/// has its text.
pub fn one_history()
    ensures { (s : Scenario) → Formed s → OneHistory s (scheduled s) }
{}
