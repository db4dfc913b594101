//! The law, on a function that does nothing.
ghost use Rattle.std.specs.Prelude.{◌≡◌, ◌≤◌, ℕ, List, length};
ghost use Rattle.com_model.specs.declared.deeds.Entry.{Entry};
ghost use Rattle.com_model.specs.declared.scenario.Scenario.{Scenario};
ghost use Rattle.com_model.specs.Ends.{limit};
ghost use Rattle.com_model.specs.Rules.{legal};
ghost use Rattle.com_replay.specs.Picked.{lanes_of, picked};

/// Every list of picks makes a legal history (`lawful`), and every legal history within its scenario's limit
/// is made by the list of its own lanes (`all`): so lists of picks make exactly these histories.
pub fn picks_and_histories()
    ensures lawful { (s : Scenario) (picks : List ℕ) → legal s (picked s picks) }
    ensures all { (s : Scenario) (h : List Entry) → legal s h → length h ≤ limit s
        → picked s (lanes_of h) ≡ h }
{}
