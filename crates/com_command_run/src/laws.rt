//! What follows from the causes of the statuses.
ghost use Rattle.com_commands.specs.Inputs.{input_of};
ghost use Rattle.com_commands.specs.Responses.{RespondsWhole};
ghost use Rattle.com_command_run.specs.Runs.{IsRun};
ghost use Rattle.com_scenario.specs.Scenarios.{reading};
ghost use Rattle.com_scenario.specs.Sizes.{is_too_long};

/// Completeness of `run`: where the source tells its bytes and no count of faults rose, the input was
/// answered whole: 2 with the line of the refusal; 0, 5 or 6 with the text and the report of a legal and safe
/// history of the scenario, as it ended; or want of memory comes.
pub fn run_is_complete()
    ensures { RespondsWhole (input_of is_too_long reading) IsRun }
{}
