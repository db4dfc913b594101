//! The statements of bodies and scripts.

ghost use Rattle.std.specs.Prelude.{◌≡◌};
ghost use Rattle.com_read_operands.specs.Reading.{Gives};
ghost use Rattle.com_read_lines.specs.Programs.{number_index, spot_at, program_line};

use crate::code::Code;
use crate::header::FIRST;
use com_read_operands::{Fault, ScenarioError, fault};
use com_read_statements::{Keyword, LocalWord, Names, Program, keyword_of, statement, takes};
use com_text::Word;
use std::alloc::Global;

// The index of a skip's number in its line.
fn number_index(keyword: Keyword) -> usize
    ensures { result ≡ number_index keyword }
{
    match keyword {
        Keyword::Local(LocalWord::Skip) => 1,
        Keyword::Local(LocalWord::SkipZero) => 2,
        _ => 0,
    }
}

// The fault that a statement is where its skip passes the end: at the skip's number.
fn spot(keyword: Keyword, line: &[Word]) -> Fault
    ensures { result ≡ spot_at keyword line.now }
{
    match line.get(number_index(keyword)) {
        None => FIRST,
        Some(word) => Fault {
            number: Fault::UNENDED,
            line: word.line,
            column: word.column,
        },
    }
}

/// Appends the statement of a line that does not end its program, of which `word` is the first word. A word
/// that begins no statement of the program is fault `UNEXPECTED`, and a statement more than `limit` is
/// fault `LIMIT`, both at that word; faults of its other words come from `com_read_statements::statement`.
/// After an error the statements are not to be used.
#[tactic(auto, unfolding(crate::specs::Programs::program_line))]
pub fn program_line(
    alloc: Global,
    program: Program,
    limit: usize,
    names: &Names,
    code: &mut Code,
    word: &Word,
    line: &[Word],
) -> Result<(), ScenarioError>
    ensures { Gives (λ u. code.new) result (program_line program limit names.now code.old word.now line.now) }
{
    let keyword = match keyword_of(word.bytes) {
        Some(keyword) if takes(program, keyword) => keyword,
        _ => return Err(fault(Fault::UNEXPECTED, word)),
    };
    if code.len() >= limit {
        return Err(fault(Fault::LIMIT, word));
    }
    let statement = statement(alloc, program, names, keyword, line)?;
    code.push(statement, spot(keyword, line))?;
    Ok(())
}
