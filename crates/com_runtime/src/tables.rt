//! The schedule by the tables of a core, stated on functions that do nothing.
ghost use Rattle.std.specs.Prelude.{◌≡◌, ℕ, ◌+◌, List, [], length};
ghost use Rattle.com_model.specs.declared.deeds.Entry.{Entry};
ghost use Rattle.com_model.specs.declared.scenario.Scenario.{Scenario};
ghost use Rattle.com_model.specs.Ends.{limit, run_on};
ghost use Rattle.com_model.specs.Formed.{Formed};
ghost use Rattle.com_model.specs.State.{State, StandsFor, first_tables};
ghost use Rattle.com_runtime.specs.Schedule.{RunsAs, runs};

/// Where a state stands for a history of a formed scenario, what runs from the state by its tables is what
/// the schedule makes of the history: the same entries in front of it, and a state that stands for the longer
/// history. So from the first state what runs is the one history of the schedule.
pub fn by_tables()
    ensures later { (s : Scenario) (st : State) (h : List Entry) (n : ℕ) (picks : List ℕ) (last : ℕ)
        → Formed s → StandsFor s st h → n + length h ≡ limit s
        → RunsAs s h (run_on n s h picks last) (runs n s st picks last) }
    ensures first { (s : Scenario) (n : ℕ) → Formed s → n ≡ limit s
        → RunsAs s [] (run_on n s [] s.picks 0) (runs n s (first_tables s) s.picks 0) }
{}
