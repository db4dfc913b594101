//! The statements of a body or a script so far.

ghost use Rattle.std.specs.Prelude.{◌≡◌, OnOk, length};
ghost use Rattle.com_body.specs.Bodies.{IsInRange};
ghost use Rattle.com_read_operands.specs.Reading.{Gives};
ghost use Rattle.com_read_lines.specs.Codes.{no_code, code_more, checked};

use crate::header::FIRST;
use com_body::{Body, BodyFault, Stmt};
use com_read_operands::{Fault, ScenarioError};
use std::alloc::{AllocError, Global};
use std::marker::Model;

/// The statements of a body or a script so far, and for each its fault if it skips beyond the end.
/// Contracts see the record of these two lists. Each statement's numbers of registers, slots, cells,
/// links and buffers are in their ranges.
#[derive(Drop)]
pub struct Code {
    statements: Vec<Stmt>,
    spots: Vec<Fault>,
}

impl Model for Code {
    ghost use Rattle.std.specs.Prelude.{All};
    ghost use Rattle.com_body.specs.Bodies.{IsInRange};
    ghost use Rattle.com_read_lines.specs.Codes.{CodeAt};

    ghost Value = { CodeAt };

    ghost view = { λ c. record { statements = c.statements.items; spots = c.spots.items } };

    ghost invariant = { λ c. All IsInRange c.statements.items };
}

impl Code {
    /// No statements.
    pub fn new(alloc: Global) -> Code
        ensures { result ≡ no_code }
    {
        Code {
            statements: Vec::new(alloc),
            spots: Vec::new(alloc),
        }
    }

    /// How many statements there are.
    pub fn len(&self) -> usize
        ensures { result ≡ length self.now.statements }
    {
        self.statements.len()
    }

    /// Appends a statement, and its fault if it skips beyond the end. The only error is want of memory.
    pub fn push(&mut self, statement: Stmt, spot: Fault) -> Result<(), AllocError>
        requires { IsInRange statement }
        ensures { OnOk result (self.new ≡ code_more self.old statement spot) }
    {
        self.statements.push(statement)?;
        self.spots.push(spot)?;
        Ok(())
    }

    /// The body of the statements, or the fault of the first skip that passes its end. More statements than
    /// `limit`, which `program_line` does not append, are fault `HEADER` at the text's first position.
    pub fn check(self, limit: u32) -> Result<Body, ScenarioError>
        ensures { Gives (λ b. b) result (checked self limit) }
    {
        let Code { statements, spots } = self;
        match Body::check(statements, limit) {
            Ok(body) => Ok(body),
            Err(BodyFault::Jump(number)) => match spots.get(number as usize) {
                Some(spot) => Err(spot.error()),
                None => Err(FIRST.error()),
            },
            Err(BodyFault::TooLong) => Err(FIRST.error()),
        }
    }
}
