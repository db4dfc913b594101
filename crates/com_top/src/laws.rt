//! What follows from the causes of the statuses.
ghost use Rattle.std.specs.Prelude.{ℕ};
ghost use Rattle.com_command_replay.specs.Histories.{IsHistory};
ghost use Rattle.com_commands.specs.Responses.{RespondsWhole};
ghost use Rattle.com_command_check.specs.Checking.{IsVerdict, question_input};
ghost use Rattle.com_top.specs.Explaining.{IsExplained};
ghost use Rattle.com_top.specs.Loading.{IsLoaded, load_input};
ghost use Rattle.com_command_replay.specs.Scenarios.{ScenariosAreSafe, ScenariosReplay, scenario_input};
ghost use Rattle.com_top.specs.Showing.{IsShown, digits_input};

/// Completeness of a replay: where the source tells its bytes and no count of faults rose, the sink gained
/// the whole text of the input of these bytes, and the status is that of this text: 2 with the line of the
/// refusal; 0, 5 or 6 with the text and report of the scenario's one history, as its end is; or want of
/// memory comes.
pub fn completeness()
    ensures { RespondsWhole scenario_input IsHistory }
{}

/// For every input that is a scenario: the sink gained exactly the text and the report of the one history of
/// its schedule, and the status is that of the end of this history; or want of memory comes.
pub fn scenarios_replay()
    ensures { ScenariosReplay }
{}

/// The history that is written for an input that is a scenario, the one of its schedule, is legal, has ended
/// and is safe, and no other legal history has its text.
pub fn scenarios_are_safe()
    ensures { ScenariosAreSafe }
{}

/// Completeness of `objref`: where the source tells its bytes and no count of faults rose, the status is that
/// of the reply to them and the sink gained its whole text; or want of memory comes.
pub fn objref_completeness()
    ensures { RespondsWhole digits_input IsShown }
{}

/// Completeness of `check`: where the source tells its bytes and no count of faults rose, the status is that
/// of the reply to them and the sink gained its whole text: 2 with the line of the refusal; 0 where the trace
/// agrees, and 7 with the first line that differs; or want of memory comes.
pub fn check_completeness()
    ensures { RespondsWhole question_input IsVerdict }
{}

/// Completeness of `load`: where no count of faults rose, the sink gained the whole text, and the status is
/// that of the end of the history: 0, 5 or 6; or want of memory comes.
pub fn load_completeness()
    ensures { (number : ℕ) → RespondsWhole (load_input number) IsLoaded }
{}

/// Completeness of `waits`: where the source tells its bytes and no count of faults rose, the status is that
/// of the reply to them and the sink gained its whole text: 2 with the line of the refusal; 0 with why the
/// history is stuck, or that it is not; or want of memory comes.
pub fn waits_completeness()
    ensures { RespondsWhole scenario_input IsExplained }
{}
