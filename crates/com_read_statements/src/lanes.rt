//! Actions on cookies, lanes and apartments.

ghost use Rattle.std.specs.Prelude.{IfOk};
ghost use Rattle.com_body.specs.Bodies.{IsInRange};
ghost use Rattle.com_read_operands.specs.Reading.{Gives};
ghost use Rattle.com_read_statements.specs.Statements.{lane_of, filter_at};

use crate::keywords::LaneWord;
use crate::names::Names;
use com_base::{ByteList, PUMP_LIMIT};
use com_body::Stmt;
use com_read_operands::{
    ScenarioError, code, declared_name, end, leave_result, mode, name, number, op, register, slot,
};
use com_text::Word;
use std::alloc::Global;

// A filter's number from 1, or `none`.
#[tactic(auto, unfolding(crate::specs::Statements::filter_at))]
fn filter(filters: &[ByteList], line: &[Word], index: usize) -> Result<Option<u32>, ScenarioError>
    ensures { Gives (λ f. f) result (filter_at filters.now line.now index) }
{
    let word = name(line, index)?;
    if word.bytes == b"none".as_slice() {
        return Ok(None);
    }
    let number = declared_name(filters, line, index)?;
    Ok(Some(u32::from(number) + 1))
}

// The action on cookies, lanes or apartments that a line spells behind its keyword.
#[tactic(auto, unfolding(crate::specs::Statements::lane_of))]
pub(crate) fn lane(
    alloc: Global,
    names: &Names,
    keyword: LaneWord,
    line: &[Word],
) -> Result<Stmt, ScenarioError>
    ensures value { Gives (λ s. s) result (lane_of names.now keyword line.now) }
    ensures range { IfOk result IsInRange }
{
    match keyword {
        LaneWord::Register => {
            let to = register(line, 1)?;
            let slot = slot(line, 2)?;
            end(line, 3)?;
            Ok(Stmt::Register { to, slot })
        }
        LaneWord::Get => {
            let slot = slot(line, 1)?;
            let cookie = op(alloc, line, 2)?;
            end(line, 3)?;
            Ok(Stmt::Get { slot, cookie })
        }
        LaneWord::Revoke => {
            let cookie = op(alloc, line, 1)?;
            end(line, 2)?;
            Ok(Stmt::Revoke { cookie })
        }
        LaneWord::Post => {
            let lane = op(alloc, line, 1)?;
            let word = op(alloc, line, 2)?;
            end(line, 3)?;
            Ok(Stmt::Post { lane, word })
        }
        LaneWord::Quit => {
            let lane = op(alloc, line, 1)?;
            end(line, 2)?;
            Ok(Stmt::Quit { lane })
        }
        LaneWord::Leave => {
            let answer = code(line, 1)?;
            let given = leave_result(alloc, line, 2)?;
            end(line, 3)?;
            Ok(Stmt::Leave { answer, given })
        }
        LaneWord::Init => {
            let mode = mode(line, 1)?;
            end(line, 2)?;
            Ok(Stmt::Init { mode })
        }
        LaneWord::Uninit => {
            end(line, 1)?;
            Ok(Stmt::Uninit)
        }
        LaneWord::SetFilter => {
            let filter = filter(names.filters.as_slice(), line, 1)?;
            end(line, 2)?;
            Ok(Stmt::SetFilter { filter })
        }
        LaneWord::Pump => {
            let bound = number(line, 1, 0, PUMP_LIMIT as u64)? as u32;
            end(line, 2)?;
            Ok(Stmt::Pump { bound })
        }
    }
}
