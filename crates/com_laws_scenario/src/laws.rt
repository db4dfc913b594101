//! The laws, each on a function that does nothing.

ghost use Rattle.std.specs.Prelude.{◌≡◌, ℕ, List, All, true};
ghost use Rattle.com_text.specs.Words.{WordAt};
ghost use Rattle.com_text.specs.Scanning.{lines_of};
ghost use Rattle.com_read_statements.specs.declared.keywords.Keyword.{Keyword};
ghost use Rattle.com_read_statements.specs.declared.keywords.Program.{Program};
ghost use Rattle.com_read_statements.specs.declared.names.Names.{Names};
ghost use Rattle.com_read_statements.specs.Keywords.{takes};
ghost use Rattle.com_read_statements.specs.Statements.{stmt_of};
ghost use Rattle.com_model.specs.declared.scenario.Scenario.{Scenario};
ghost use Rattle.com_model.specs.Formed.{Context};
ghost use Rattle.com_laws_scenario.specs.Words.{IsWord, IsLine};
ghost use Rattle.com_laws_scenario.specs.Holds.{Holds};
ghost use Rattle.com_laws_scenario.specs.Declared.{Declares, Fits};

/// Every word of a text has a byte, and between the marks of a text literal stand characters alone.
pub fn words_are_formed()
    ensures { (text : List ℕ) → All IsLine (lines_of text) }
{}

/// A statement that is read from a line of such words is in its ranges and fits its context: it names
/// only classes, interfaces, methods and filters that the names above the line declare, a call has
/// the arguments and the destination of its method, and cells, links and the statements of bodies
/// and scripts stand only where they may.
pub fn statements_fit()
    ensures { (s : Scenario) (x : Context) (p : Program) (names : Names) (k : Keyword) (line : List WordAt)
        → Declares s x p names → All IsWord line → takes p k ≡ true
        → Holds (Fits s x) (stmt_of p names k line) }
{}
