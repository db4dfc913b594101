//! Laws of the written form: functions that do nothing, whose contracts are the laws.

ghost use Rattle.std.specs.Prelude.{◌≡◌, ◌∷◌, List, map};
ghost use Rattle.com_body.specs.Bodies.{IsInRange};
ghost use Rattle.com_body.specs.declared.statements.Stmt.{Stmt};
ghost use Rattle.com_text.specs.Words.{WordAt};
ghost use Rattle.com_read_statements.specs.declared.keywords.Program.{Program};
ghost use Rattle.com_read_statements.specs.declared.names.Names.{Names};
ghost use Rattle.com_print.specs.Spelled.{AreSpelled, spelled_of};
ghost use Rattle.com_print.specs.Ranges.{Fits};
ghost use Rattle.com_print.specs.StatementWords.{statement_words};
ghost use Rattle.com_print.specs.Standing.{AreDeclared, Stands, Extends};
ghost use Rattle.com_print.specs.Reads.{Reads};

/// A statement that can stand in a program is written as good words, and a line with these words is read in
/// that program as the same statement: its first word is a keyword that the program takes. The words are the
/// same when more classes, interfaces and filters are declared behind those that the statement may name.
pub fn written_is_read()
    ensures good { (p : Program) (names : Names) (s : Stmt) → AreDeclared names → IsInRange s
        → Stands p names s → Fits s
        → AreSpelled (statement_words names s) }
    ensures read { (p : Program) (names : Names) (s : Stmt) (w : WordAt) (ws : List WordAt)
        → AreDeclared names → IsInRange s
        → Stands p names s → Fits s → map spelled_of (w ∷ ws) ≡ statement_words names s
        → Reads p names s w ws }
    ensures prefix { (p : Program) (few all : Names) (s : Stmt) → Extends few all → Stands p few s
        → statement_words all s ≡ statement_words few s }
{}
