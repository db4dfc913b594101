//! Statements, frames and the body step.
//!
//! A body is the program of one method, and a script is that of one thread. Both are lists of statements. A
//! frame holds where such a program stands, with its registers and slots. One step does local statements
//! until an action stands at the program counter, and gives that action with its operands' values.
#![tactic(auto)]

mod actions;
mod body;
mod frame;
mod operand_values;
mod operands;
mod statements;
mod steps;

pub use actions::Action;
pub use body::{Body, BodyFault};
pub use com_base::Memory;
pub use frame::{Cells, Frame, Job, Native, Outcome};
pub use operands::{Arg, Asked, Code, Destination, Given, Op, Place};
pub use statements::Stmt;
pub use steps::{step, step_copies, step_no_body};
