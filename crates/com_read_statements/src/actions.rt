//! Actions on references and packets.

ghost use Rattle.std.specs.Prelude.{IfOk};
ghost use Rattle.com_body.specs.Bodies.{IsInRange};
ghost use Rattle.com_read_operands.specs.Reading.{Gives};
ghost use Rattle.com_read_statements.specs.Statements.{object_of, raw_at};

use crate::calls::call;
use crate::keywords::{ObjectWord, Program};
use crate::names::Names;
use com_base::{ByteList, RAW_LIMIT};
use com_body::Stmt;
use com_read_operands::{
    Fault, ScenarioError, are_pairs, asked_name, buffer, end, fault, marshal_mode, place, slot,
    unhex, word,
};
use com_text::Word;
use std::alloc::Global;

// The bytes of `raw`, in pairs of hexadecimal digits: other words are fault `UNEXPECTED`, and more than
// `RAW_LIMIT` bytes are fault `LIMIT`.
#[tactic(auto, unfolding(crate::specs::Statements::raw_at))]
fn raw_bytes(alloc: Global, line: &[Word], index: usize) -> Result<ByteList, ScenarioError>
    ensures { Gives (λ b. b) result (raw_at line.now index) }
{
    let word = word(line, index)?;
    if !are_pairs(word.bytes) {
        return Err(fault(Fault::UNEXPECTED, word));
    }
    if word.bytes.len() > 2 * RAW_LIMIT {
        return Err(fault(Fault::LIMIT, word));
    }
    match unhex(alloc, word.bytes)? {
        Some(bytes) => Ok(bytes),
        None => Err(fault(Fault::UNEXPECTED, word)),
    }
}

// The action on references or packets that a line spells behind its keyword.
#[tactic(auto, unfolding(crate::specs::Statements::object_of))]
pub(crate) fn object(
    alloc: Global,
    program: Program,
    names: &Names,
    keyword: ObjectWord,
    line: &[Word],
) -> Result<Stmt, ScenarioError>
    ensures value { Gives (λ s. s) result (object_of program names.now keyword line.now) }
    ensures range { IfOk result IsInRange }
{
    match keyword {
        ObjectWord::Create => {
            let slot = slot(line, 1)?;
            let class = asked_name(names.classes.as_slice(), 1, line, 2)?;
            let iface = asked_name(names.interfaces.as_slice(), 0, line, 3)?;
            end(line, 4)?;
            Ok(Stmt::Create { slot, class, iface })
        }
        ObjectWord::Query => {
            let to = slot(line, 1)?;
            let from = slot(line, 2)?;
            let iface = asked_name(names.interfaces.as_slice(), 0, line, 3)?;
            end(line, 4)?;
            Ok(Stmt::Query { to, from, iface })
        }
        ObjectWord::Copy => {
            let to = place(program.has_links(), line, 1)?;
            let from = place(program.has_links(), line, 2)?;
            end(line, 3)?;
            Ok(Stmt::Copy { to, from })
        }
        ObjectWord::Release => {
            let place = place(program.has_links(), line, 1)?;
            end(line, 2)?;
            Ok(Stmt::Release { place })
        }
        ObjectWord::Call => call(alloc, names, line),
        ObjectWord::Marshal => {
            let buffer = buffer(line, 1)?;
            let slot = slot(line, 2)?;
            let mode = marshal_mode(line, 3)?;
            end(line, 4)?;
            Ok(Stmt::Marshal { buffer, slot, mode })
        }
        ObjectWord::Unmarshal => {
            let slot = slot(line, 1)?;
            let buffer = buffer(line, 2)?;
            end(line, 3)?;
            Ok(Stmt::Unmarshal { slot, buffer })
        }
        ObjectWord::Drop => {
            let buffer = buffer(line, 1)?;
            end(line, 2)?;
            Ok(Stmt::Drop { buffer })
        }
        ObjectWord::Raw => {
            let buffer = buffer(line, 1)?;
            let bytes = raw_bytes(alloc, line, 2)?;
            end(line, 3)?;
            Ok(Stmt::Raw { buffer, bytes })
        }
        ObjectWord::Disconnect => {
            let slot = slot(line, 1)?;
            end(line, 2)?;
            Ok(Stmt::Disconnect { slot })
        }
    }
}
