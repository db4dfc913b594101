//! Local statements.

ghost use Rattle.std.specs.Prelude.{IfOk};
ghost use Rattle.com_body.specs.Bodies.{IsInRange};
ghost use Rattle.com_read_operands.specs.Reading.{Gives};
ghost use Rattle.com_read_statements.specs.Statements.{local_of};

use crate::keywords::{LocalWord, Program};
use com_base::SKIP_LIMIT;
use com_body::Stmt;
use com_read_operands::{ScenarioError, cell, end, number, op, register, slot};
use com_text::Word;
use std::alloc::Global;

// The local statement that a line spells behind its keyword.
#[tactic(auto, unfolding(crate::specs::Statements::local_of))]
pub(crate) fn local(
    alloc: Global,
    program: Program,
    keyword: LocalWord,
    line: &[Word],
) -> Result<Stmt, ScenarioError>
    ensures value { Gives (λ s. s) result (local_of program keyword line.now) }
    ensures range { IfOk result IsInRange }
{
    match keyword {
        LocalWord::Set => {
            let to = register(line, 1)?;
            let from = op(alloc, line, 2)?;
            end(line, 3)?;
            Ok(Stmt::Set { to, from })
        }
        LocalWord::Add => {
            let to = register(line, 1)?;
            let from = op(alloc, line, 2)?;
            end(line, 3)?;
            Ok(Stmt::Add { to, from })
        }
        LocalWord::Sub => {
            let to = register(line, 1)?;
            let from = op(alloc, line, 2)?;
            end(line, 3)?;
            Ok(Stmt::Sub { to, from })
        }
        LocalWord::Less => {
            let to = register(line, 1)?;
            let left = op(alloc, line, 2)?;
            let right = op(alloc, line, 3)?;
            end(line, 4)?;
            Ok(Stmt::Less { to, left, right })
        }
        LocalWord::Same => {
            let to = register(line, 1)?;
            let left = slot(line, 2)?;
            let right = slot(line, 3)?;
            end(line, 4)?;
            Ok(Stmt::Same { to, left, right })
        }
        LocalWord::Load => {
            let to = register(line, 1)?;
            let cell = cell(program.has_cells(), line, 2)?;
            end(line, 3)?;
            Ok(Stmt::Load { to, cell })
        }
        LocalWord::Store => {
            let cell = cell(program.has_cells(), line, 1)?;
            let from = op(alloc, line, 2)?;
            end(line, 3)?;
            Ok(Stmt::Store { cell, from })
        }
        LocalWord::Skip => {
            let count = number(line, 1, 1, SKIP_LIMIT as u64)? as u32;
            end(line, 2)?;
            Ok(Stmt::Skip { count })
        }
        LocalWord::SkipZero => {
            let register = register(line, 1)?;
            let count = number(line, 2, 1, SKIP_LIMIT as u64)? as u32;
            end(line, 3)?;
            Ok(Stmt::SkipZero { register, count })
        }
    }
}
