//! One statement from its line.

ghost use Rattle.std.specs.Prelude.{◌≡◌, IfOk};
ghost use Rattle.com_body.specs.Bodies.{IsInRange};
ghost use Rattle.com_read_operands.specs.Reading.{Gives};
ghost use Rattle.com_read_statements.specs.Keywords.{takes};
ghost use Rattle.com_read_statements.specs.Statements.{stmt_of};

use crate::actions::object;
use crate::keywords::{Keyword, LaneWord, Program};
use crate::lanes::lane;
use crate::local::local;
use crate::names::Names;
use com_body::Stmt;
use com_read_operands::ScenarioError;
use com_text::Word;
use std::alloc::Global;

/// Whether a statement may stand in a script or a body: `leave` ends bodies alone, and `init`,
/// `uninit`, `setfilter` and `pump` are for scripts alone.
pub fn takes(program: Program, keyword: Keyword) -> bool
    ensures { result ≡ takes program keyword }
{
    match keyword {
        Keyword::Lane(word) => match word {
            LaneWord::Leave => program.has_cells(),
            LaneWord::Init | LaneWord::Uninit | LaneWord::SetFilter | LaneWord::Pump => {
                !program.has_cells()
            }
            _ => true,
        },
        _ => true,
    }
}

/// The statement that a line spells behind its keyword, or the first fault of its words.
#[tactic(auto, unfolding(crate::specs::Statements::stmt_of))]
pub fn statement(
    alloc: Global,
    program: Program,
    names: &Names,
    keyword: Keyword,
    line: &[Word],
) -> Result<Stmt, ScenarioError>
    ensures value { Gives (λ s. s) result (stmt_of program names.now keyword line.now) }
    ensures range { IfOk result IsInRange }
{
    match keyword {
        Keyword::Local(word) => local(alloc, program, word, line),
        Keyword::Object(word) => object(alloc, program, names, word, line),
        Keyword::Lane(word) => lane(alloc, names, word, line),
    }
}
