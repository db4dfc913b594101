//! What follows from the causes of the statuses.
ghost use Rattle.com_commands.specs.Inputs.{input_of};
ghost use Rattle.com_commands.specs.Responses.{RespondsWhole};
ghost use Rattle.com_points.specs.Sources.{reading_points};
ghost use Rattle.com_scenario.specs.Sizes.{is_too_long};
ghost use Rattle.com_command_check.specs.Checking.{question_input};
ghost use Rattle.com_command_replay.specs.Scenarios.{scenario_input};
ghost use Rattle.com_command_draw.specs.Pages.{ArePointsDrawn, IsDrawn};
ghost use Rattle.com_command_draw.specs.Traces.{IsTraceAnswer};

/// Completeness of `replay`: where the source tells its bytes and no count of faults rose, the status is that
/// of the answer to them and the sink gained its whole text: 2 with the line of the refusal; 0, 5 or 6 with
/// the page of the scenario's one history, as its end is; or want of memory comes.
pub fn draw_replay_completeness()
    ensures { RespondsWhole scenario_input IsDrawn }
{}

/// Completeness of `points`: the same of a scenario that may have event sources, with its events.
pub fn draw_points_completeness()
    ensures { RespondsWhole (input_of is_too_long reading_points) ArePointsDrawn }
{}

/// Completeness of `trace`: the same of a scenario with a trace: 2 with the line of the refusal; 0 with the
/// page of the history that the trace is, and 7 with the first line that differs; or want of memory comes.
pub fn draw_trace_completeness()
    ensures { RespondsWhole question_input IsTraceAnswer }
{}
