//! The laws, each on a function that does nothing.

ghost use Rattle.std.specs.Prelude.{◌≡◌, List, ℕ, ◌++◌};
ghost use Rattle.com_scenario.specs.Sizes.{is_too_long};
ghost use Rattle.com_commands.specs.declared.statuses.Status.{Status};
ghost use Rattle.com_command_replay.specs.Histories.{IsHistory};
ghost use Rattle.com_commands.specs.Inputs.{input_of};
ghost use Rattle.com_commands.specs.Responses.{RespondsWhole};
ghost use Rattle.com_dispatch.specs.declared.outcomes.Late.{Late};
ghost use Rattle.com_dispatch.specs.Late.{late};
ghost use Rattle.com_command_dispatch.specs.Dispatching.{IsDispatched};
ghost use Rattle.com_command_dispatch.specs.Lines.{bindings_text};

/// Where the source told its input and no count of faults rose, `dispatch` answered the whole of it: by its
/// status and the whole text that goes with it; or want of memory came.
pub fn dispatch_completeness()
    ensures { RespondsWhole (input_of is_too_long late) IsDispatched }
{}

/// What `dispatch` writes is the lines of the bindings, and then exactly what is written for the scenario
/// in which each call by name stands as the table call that it was bound to: the text and the report of
/// that scenario's one history, with the same status. So a call by name has the history of the table call.
pub fn calls_by_name_replay()
    ensures { (l : Late) (s : Status) (text : List ℕ) → IsDispatched l s text
        → (rest : List ℕ) × (text ≡ bindings_text l.bindings ++ rest) × IsHistory l.scenario s rest }
{}
