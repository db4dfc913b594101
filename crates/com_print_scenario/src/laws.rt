//! Laws of the written form: functions that do nothing, whose contracts are the laws.

ghost use Rattle.std.specs.Prelude.{◌≡◌, Ok};
ghost use Rattle.com_classes.specs.BuiltIns.{built_in_interfaces};
ghost use Rattle.com_model.specs.declared.scenario.Scenario.{Scenario};
ghost use Rattle.com_model.specs.Formed.{Formed};
ghost use Rattle.com_text.specs.Scanning.{lines_of};
ghost use Rattle.com_read_sections.specs.Outlines.{begun, read};
ghost use Rattle.com_print.specs.Spelled.{AreLines};
ghost use Rattle.com_print_scenario.specs.Printed.{scenario_lines, printed, outline_of};
ghost use Rattle.com_print_scenario.specs.Ranges.{FitsTypes};

/// The lines of a formed scenario, whose numbers are in the ranges of their types, have good words
/// alone, and its text is read as what the scenario declares.
pub fn printed_is_read()
    ensures words { (s : Scenario) → Formed s → FitsTypes s → AreLines (scenario_lines s) }
    ensures again { (s : Scenario) → Formed s → FitsTypes s
        → read (begun built_in_interfaces) (lines_of (printed s)) ≡ Ok (outline_of s) }
{}
