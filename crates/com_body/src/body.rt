//! Bodies whose skips end inside them.

ghost use Rattle.std.specs.Prelude.{◌≡◌, ◌<◌, ◌^◌, None, Some, All, IfOk, IsTrue, MatchResult, ◌↔◌, length};
ghost use Rattle.com_body.specs.Bodies.{IsInRange, IsBody, skip_of, first_past_end, fault_of};

use crate::statements::Stmt;
use std::marker::Model;

/// Why a list of statements is no body.
#[derive(Debug, Clone, Copy, PartialEq, Eq)]
pub enum BodyFault {
    /// There are more statements than the limit.
    TooLong,
    /// The statement with this number, from 0, is the first whose skip passes the end.
    Jump(u32),
}

/// The statements of a method or of a thread, seen as their list.
///
/// No skip passes the end, and each number of a register, slot, cell, link or buffer is in its range.
#[derive(Debug, Drop)]
pub struct Body {
    statements: Vec<Stmt>,
}

impl Model for Body {
    ghost use Rattle.std.specs.Prelude.{List};
    ghost use Rattle.com_body.specs.declared.statements.Stmt.{Stmt};
    ghost use Rattle.com_body.specs.Bodies.{IsBody};

    ghost Value = { List Stmt };

    ghost view = { λ a. a.statements.items };

    ghost invariant = { λ a. IsBody a.statements.items };
}

impl Body {
    /// The body of these statements. It takes no memory.
    ///
    /// `TooLong` comes exactly where there are more than `limit` statements, and else `Jump` with the first
    /// statement whose skip passes the end, exactly where there is one. A skip to exactly the end does
    /// not pass it.
    pub fn check(statements: Vec<Stmt>, limit: u32) -> Result<Body, BodyFault>
        requires { All IsInRange statements.items }
        ensures list { IfOk result (λ body. body ≡ statements.items) }
        ensures cause { MatchResult result
            (λ _. fault_of statements.items limit ≡ None)
            (λ fault. fault_of statements.items limit ≡ Some fault) }
    {
        if statements.len() > limit as usize {
            return Err(BodyFault::TooLong);
        }
        match first_past_end(statements.as_slice()) {
            Some(number) => Err(BodyFault::Jump(number)),
            None => Ok(Body { statements }),
        }
    }

    /// How many statements there are.
    pub fn len(&self) -> u32
        ensures { result ≡ length self.now }
    {
        self.statements.len() as u32
    }

    /// Whether there is none.
    pub fn is_empty(&self) -> bool
        ensures { IsTrue result ↔ (length self.now ≡ 0) }
    {
        self.statements.is_empty()
    }

    /// The statements, in their order.
    #[inline]
    pub fn statements(&self) -> &[Stmt]
        ensures list { result.now ≡ self.now }
        ensures body { IsBody self.now }
    {
        self.statements.as_slice()
    }
}

// How many statements this one may pass over.
fn skip_of(statement: &Stmt) -> u32
    ensures { result ≡ skip_of statement.now }
{
    match statement {
        Stmt::Skip { count } => *count,
        Stmt::SkipZero { count, .. } => *count,
        _ => 0,
    }
}

// The number, from 0, of the first statement whose skip passes the end. A skip to exactly the end
// does not pass it.
fn first_past_end(statements: &[Stmt]) -> Option<u32>
    requires { length statements.now < 2 ^ 32 }
    ensures { result ≡ first_past_end statements.now 0 }
{
    for number in 0..statements.len() {
        let behind = statements.len() - 1 - number;
        if behind < skip_of(&statements[number]) as usize {
            return Some(number as u32);
        }
    }
    None
}
