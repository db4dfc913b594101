//! The body step.

ghost use Rattle.std.specs.Prelude.{◌≡◌, ◌≤◌, IfOk, OnOk};
ghost use Rattle.com_body.specs.Actions.{action_of, packet_action_of, lane_action_of, leave_ok};
ghost use Rattle.com_body.specs.Bodies.{IsInRange, skip_of};
ghost use Rattle.com_body.specs.BodySteps.{effect_of, body_step, no_body};
ghost use Rattle.com_body.specs.Done.{DoneIs, passed_over};

use crate::actions::Action;
use crate::body::Body;
use crate::frame::{Cells, Frame, Outcome};
use crate::operand_values::{
    answer_of, arguments_of, given_value, held_at, number_in, number_of, same_object, truth,
    value_of,
};
use crate::statements::Stmt;
use com_base::{HResult, Memory, Value};
use std::alloc::Global;

// What a statement did: a local one passes over so many of the statements behind it, and any other is an
// action.
#[derive(Debug, Clone, Copy)]
enum Done {
    Went(u32),
    Acted,
}

/// The body step: local statements one by one, until an action stands at the program counter.
///
/// The action has its operands' values, and the program counter moves past it. At the end of the body the
/// action is `leave S_OK` with no value, and the program counter stays. The only error is want of memory for
/// a value that is copied.
pub fn step(alloc: Global, body: &Body, frame: Frame, cells: Cells) -> Result<Outcome, Memory>
    ensures { IfOk result (λ outcome. outcome ≡ body_step body.now frame cells) }
{
    let mut outcome = Outcome {
        frame,
        cells,
        action: leave_ok(),
    };
    walk(alloc, body, &mut outcome)?;
    Ok(outcome)
}

/// The body step from copies of a frame and cells. The only error is want of memory.
pub fn step_copies(
    alloc: Global,
    body: &Body,
    frame: &Frame,
    cells: &Cells,
) -> Result<Outcome, Memory>
    ensures { IfOk result (λ outcome. outcome ≡ body_step body.now frame.now cells.now) }
{
    let mut outcome = Outcome {
        frame: frame.copy(alloc)?,
        cells: *cells,
        action: leave_ok(),
    };
    walk(alloc, body, &mut outcome)?;
    Ok(outcome)
}

// The body step in its place, which has the frame and the cells from which it is made, and the action at the end of a
// body.
fn walk(alloc: Global, body: &Body, outcome: &mut Outcome) -> Result<(), Memory>
    requires { outcome.old.action ≡ leave_ok }
    ensures { OnOk result (outcome.new ≡ body_step body.now outcome.old.frame outcome.old.cells) }
{
    let statements = body.statements();
    while let Some(statement) = statements.get(outcome.frame.place() as usize) {
        let Outcome {
            frame,
            cells,
            action,
        } = outcome;
        match do_statement(alloc, statement, frame, cells, action)? {
            Done::Went(passed) => {
                let next = outcome.frame.place() + 1 + passed;
                outcome.frame.set_place(next);
            }
            Done::Acted => {
                let next = outcome.frame.place() + 1;
                outcome.frame.set_place(next);
                return Ok(());
            }
        }
    }
    Ok(())
}

/// The body step of a method that was given no body: it leaves with E_NOTIMPL. It takes no memory.
pub fn step_no_body(frame: Frame, cells: Cells) -> Outcome
    ensures { result ≡ body_step no_body frame cells }
{
    let mut frame = frame;
    if frame.place() > 0 {
        return Outcome {
            frame,
            cells,
            action: leave_ok(),
        };
    }
    frame.set_place(1);
    Outcome {
        frame,
        cells,
        action: Action::Leave {
            answer: HResult::E_NOTIMPL,
            value: None,
        },
    }
}

// The action at the end of a body: it leaves with S_OK and no value.
fn leave_ok() -> Action
    ensures { result ≡ leave_ok }
{
    Action::Leave {
        answer: HResult::S_OK,
        value: None,
    }
}

// Does a local statement, or puts the action that the statement is in its place.
fn do_statement(
    alloc: Global,
    statement: &Stmt,
    frame: &mut Frame,
    cells: &mut Cells,
    action: &mut Action,
) -> Result<Done, Memory>
    requires { IsInRange statement.now }
    ensures done { IfOk result (λ done. DoneIs done
        (effect_of frame.old cells.old statement.now) frame.old frame.new cells.old cells.new
        action.old action.new) }
    ensures passed { IfOk result (λ done. passed_over done ≤ skip_of statement.now) }
    ensures place { frame.new.place ≡ frame.old.place }
{
    match statement {
        Stmt::Set { to, from } => {
            let value = value_of(frame, from)?;
            frame.set_register(*to, value);
            Ok(Done::Went(0))
        }
        Stmt::Add { to, from } => {
            let sum = number_in(frame.register(*to)).wrapping_add(number_of(frame, from));
            frame.set_register(*to, Value::Int(sum));
            Ok(Done::Went(0))
        }
        Stmt::Sub { to, from } => {
            let difference = number_in(frame.register(*to)).wrapping_sub(number_of(frame, from));
            frame.set_register(*to, Value::Int(difference));
            Ok(Done::Went(0))
        }
        Stmt::Less { to, left, right } => {
            let holds = number_of(frame, left) < number_of(frame, right);
            frame.set_register(*to, truth(holds));
            Ok(Done::Went(0))
        }
        Stmt::Same { to, left, right } => {
            let holds = same_object(frame.slot(*left), frame.slot(*right));
            frame.set_register(*to, truth(holds));
            Ok(Done::Went(0))
        }
        Stmt::Load { to, cell } => {
            let numbers = cells.numbers.as_slice();
            frame.set_register(*to, Value::Int(numbers[*cell as usize]));
            Ok(Done::Went(0))
        }
        Stmt::Store { cell, from } => {
            cells.numbers[*cell as usize] = number_of(frame, from);
            Ok(Done::Went(0))
        }
        Stmt::Skip { count } => Ok(Done::Went(*count)),
        Stmt::SkipZero { register, count } => {
            let is_zero = number_in(frame.register(*register)) == 0;
            Ok(Done::Went(if is_zero { *count } else { 0 }))
        }
        other => {
            *action = action_of(alloc, other, frame, cells)?;
            Ok(Done::Acted)
        }
    }
}

// The action that a statement is, with its operands' values: those on references and calls.
fn action_of(
    alloc: Global,
    statement: &Stmt,
    frame: &Frame,
    cells: &Cells,
) -> Result<Action, Memory>
    requires { IsInRange statement.now }
    ensures { IfOk result (λ action. action ≡ action_of frame.now cells.now statement.now) }
{
    Ok(match statement {
        Stmt::Create { slot, class, iface } => Action::Create {
            slot: *slot,
            class: *class,
            iface: *iface,
        },
        Stmt::Query { to, from, iface } => Action::Query {
            to: *to,
            held: frame.slot(*from),
            iface: *iface,
        },
        Stmt::Copy { to, from } => Action::Copy {
            to: *to,
            held: held_at(frame, cells, *from),
        },
        Stmt::Release { place } => Action::Release {
            place: *place,
            held: held_at(frame, cells, *place),
        },
        Stmt::Call {
            slot,
            iface,
            method,
            args,
            destination,
        } => Action::Call {
            target: frame.slot(*slot),
            iface: *iface,
            method: *method,
            args: arguments_of(alloc, frame, args.as_slice())?,
            destination: *destination,
        },
        Stmt::Disconnect { slot } => Action::Disconnect {
            held: frame.slot(*slot),
        },
        Stmt::Leave { answer, given } => Action::Leave {
            answer: answer_of(frame, *answer),
            value: given_value(frame, given)?,
        },
        other => packet_action_of(other, frame)?,
    })
}

// The action of a statement on packets or cookies, by the values in the frame. The only error is want of
// memory.
fn packet_action_of(statement: &Stmt, frame: &Frame) -> Result<Action, Memory>
    requires { IsInRange statement.now }
    ensures { IfOk result (λ action. action ≡ packet_action_of frame.now statement.now) }
{
    Ok(match statement {
        Stmt::Marshal { buffer, slot, mode } => Action::Marshal {
            buffer: *buffer,
            held: frame.slot(*slot),
            mode: *mode,
        },
        Stmt::Unmarshal { slot, buffer } => Action::Unmarshal {
            slot: *slot,
            buffer: *buffer,
        },
        Stmt::Drop { buffer } => Action::Drop { buffer: *buffer },
        Stmt::Raw { buffer, bytes } => Action::Raw {
            buffer: *buffer,
            bytes: bytes.copy()?,
        },
        Stmt::Register { to, slot } => Action::Register {
            to: *to,
            held: frame.slot(*slot),
        },
        Stmt::Get { slot, cookie } => Action::Get {
            slot: *slot,
            cookie: number_of(frame, cookie),
        },
        Stmt::Revoke { cookie } => Action::Revoke {
            cookie: number_of(frame, cookie),
        },
        other => lane_action_of(other, frame),
    })
}

// The action of a statement on lanes or apartments, by the values in the frame. No other one is an action.
fn lane_action_of(statement: &Stmt, frame: &Frame) -> Action
    requires { IsInRange statement.now }
    ensures { result ≡ lane_action_of frame.now statement.now }
{
    match statement {
        Stmt::Post { lane, word } => Action::Post {
            lane: number_of(frame, lane),
            word: number_of(frame, word),
        },
        Stmt::Quit { lane } => Action::Quit {
            lane: number_of(frame, lane),
        },
        Stmt::Init { mode } => Action::Init { mode: *mode },
        Stmt::Uninit => Action::Uninit,
        Stmt::SetFilter { filter } => Action::SetFilter { filter: *filter },
        Stmt::Pump { bound } => Action::Pump { bound: *bound },
        _ => leave_ok(),
    }
}
