//! Steps are those of the definitions.
ghost use Rattle.std.specs.Prelude.{◌≡◌, ℕ, Option};
ghost use Rattle.com_model.specs.declared.keeps.Issue.{Issue};
ghost use Rattle.com_model.specs.declared.scenario.Scenario.{Scenario};
ghost use Rattle.com_model.specs.Frames.{Actor, outcome};
ghost use Rattle.com_model.specs.State.{SceneTables, scene_read};
ghost use Rattle.com_turns.specs.Acting.{statements_of, step_of};

/// The step by the statements of whoever acts is the one that the definitions give, in the scene that is read
/// from the tables.
pub fn steps_are_outcomes()
    ensures { (s : Scenario) (k : ℕ → ℕ) (i : ℕ → Option Issue) (t : SceneTables) (a : Actor) →
        step_of (statements_of s k i a) t a ≡ outcome s k i (scene_read t) a }
{}
