//! Laws of the written form: functions that do nothing, whose contracts are the laws.

ghost use Rattle.std.specs.Prelude.{◌≡◌, ◌++◌, ◌∷◌, [], List, map};
ghost use Rattle.com_text.specs.Scanning.{lines_of};
ghost use Rattle.com_print.specs.Spelled.{Spelled, AreLines, Shown, shown, text_of};

/// The text of lines of good words is read as these lines of the very words, and one empty line
/// behind the last line end, with which the text ends.
pub fn written_is_read()
    ensures words { (lines : List (List Spelled)) → AreLines lines → map shown (lines_of (text_of lines))
        ≡ lines ++ [] ∷ [] }
    ensures whole { (lines : List (List Spelled)) → AreLines lines → Shown lines (lines_of (text_of lines)) }
{}
