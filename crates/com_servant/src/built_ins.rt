//! The servants of the built-in classes, which compute the built-in bodies by plain code.
ghost use Rattle.std.specs.Prelude.{◌≡◌, ◌<◌, ◌%◌, ◌^◌, Some, None, true, pos, IfOk, if◌then◌else◌};
ghost use Rattle.std.specs.Int.{w64, cast_unsigned};
ghost use Rattle.std.specs.Ordering.{int_eq};
ghost use Rattle.com_base.specs.declared.value.Value.TheVariants as value;
ghost use Rattle.com_base.specs.declared.limits.TheConstants.{REGISTER_COUNT};
ghost use Rattle.com_body.specs.declared.actions.Action.TheVariants as action;
ghost use Rattle.com_body.specs.declared.frame.Native.TheVariants as native;
ghost use Rattle.com_body.specs.Frames.{with_register};
ghost use Rattle.com_body.specs.Operands.{number_in, register_of};
ghost use Rattle.com_body.specs.BodySteps.{body_step};
ghost use Rattle.com_servant.specs.Steps.{native_at, job_step};
ghost use Rattle.com_servant.specs.BuiltIns.{counter_add, counter_get, relay_set, relay_forward, latch_set};
ghost use Rattle.com_servant.specs.BuiltIns.{latch_test};

use crate::interpreter::interpret;
use crate::{Memory, Servant};
use com_base::{ANSWER_REGISTER, HResult, Rows, Value};
use com_body::{Action, Cells, Destination, Frame, Job, Native, Outcome, Place};
use com_classes::Classes;
use std::alloc::Global;

// The registers of the built-in bodies: the argument, the number that a body works on, the answer of a test.
const ARGUMENT: u8 = 0;

// The register of a body's number: that of cell 0, the sum, or the result of the call in `forward`.
const NUMBER: u8 = 1;

// The register of the result of `test`.
const ANSWER: u8 = 2;

// The number of a value, and 0 where it is none.
fn number_in(value: &Value) -> i64
    ensures { result ≡ number_in value.now }
{
    match value {
        Value::Int(number) => *number,
        _ => 0,
    }
}

// What a step gives, with the frame at a place.
fn at_place(frame: Frame, cells: Cells, action: Action, place: u32) -> Outcome
    ensures { result ≡ record { frame = record frame { place = place }; cells = cells; action = action } }
{
    let mut frame = frame;
    frame.set_place(place);
    Outcome {
        frame,
        cells,
        action,
    }
}

// Leaving with S_OK and the value of a register.
fn leave_with(frame: Frame, cells: Cells, register: u8, place: u32) -> Result<Outcome, Memory>
    requires { register < REGISTER_COUNT }
    ensures { IfOk result (λ outcome. outcome ≡ record {
      frame = record frame { place = place };
      cells = cells;
      action = action.Leave (record { 0 = 0 }) (Some (register_of frame register));
    }) }
{
    let value = frame.register(register).copy()?;
    let action = Action::Leave {
        answer: HResult::S_OK,
        value: Some(value),
    };
    Ok(at_place(frame, cells, action, place))
}

// Leaving with S_OK and no value.
fn leave(frame: Frame, cells: Cells, place: u32) -> Outcome
    ensures { result ≡ record {
      frame = record frame { place = place };
      cells = cells;
      action = action.Leave (record { 0 = 0 }) None;
    } }
{
    let action = Action::Leave {
        answer: HResult::S_OK,
        value: None,
    };
    at_place(frame, cells, action, place)
}

// ICounter.add: the sum of cell 0 and the argument goes to cell 0 and to the caller.
#[tactic(auto, using(crate::proofs::Bodies::counter_adds))]
fn counter_add(alloc: Global, job: &Job) -> Result<Outcome, Memory>
    requires { job.now.frame.place ≡ 0 }
    ensures { IfOk result (λ outcome. outcome ≡ body_step counter_add job.now.frame job.now.cells) }
{
    let mut frame = job.frame.copy(alloc)?;
    let mut cells = job.cells;
    frame.set_register(NUMBER, Value::Int(cells.numbers[0]));
    let amount = number_in(frame.register(ARGUMENT));
    let sum = number_in(frame.register(NUMBER)).wrapping_add(amount);
    frame.set_register(NUMBER, Value::Int(sum));
    cells.numbers[0] = number_in(frame.register(NUMBER));
    leave_with(frame, cells, NUMBER, 4)
}

// ICounter.get: cell 0.
#[tactic(auto, using(crate::proofs::Bodies::counter_gets))]
fn counter_get(alloc: Global, job: &Job) -> Result<Outcome, Memory>
    requires { job.now.frame.place ≡ 0 }
    ensures { IfOk result (λ outcome. outcome ≡ body_step counter_get job.now.frame job.now.cells) }
{
    let mut frame = job.frame.copy(alloc)?;
    frame.set_register(NUMBER, Value::Int(job.cells.numbers[0]));
    leave_with(frame, job.cells, NUMBER, 2)
}

// The next step of a counter's body: plain code at the start of ICounter.add and ICounter.get,
// and the interpreter at any other job.
#[tactic(auto, using(crate::proofs::Bodies::job_is))]
fn counter_step(alloc: Global, classes: &Classes, job: &Job) -> Result<Outcome, Memory>
    requires { native_at classes.now job.now.class ≡ Some native.Counter }
    ensures { IfOk result (λ outcome. outcome ≡ job_step classes.now job.now) }
{
    match (job.iface, job.method, job.frame.place()) {
        (1, 0, 0) => counter_add(alloc, job),
        (1, 1, 0) => counter_get(alloc, job),
        _ => interpret(alloc, classes, job),
    }
}

// IRelay.set, first: the argument goes to link 0.
#[tactic(auto, using(crate::proofs::Bodies::relay_copies))]
fn relay_keep(alloc: Global, job: &Job) -> Result<Outcome, Memory>
    requires { job.now.frame.place ≡ 0 }
    ensures { IfOk result (λ outcome. outcome ≡ body_step relay_set job.now.frame job.now.cells) }
{
    let frame = job.frame.copy(alloc)?;
    let action = Action::Copy {
        to: Place::Link(0),
        held: frame.slot(0),
    };
    Ok(at_place(frame, job.cells, action, 1))
}

// IRelay.set, then: it leaves.
#[tactic(auto, using(crate::proofs::Bodies::relay_is_set))]
fn relay_kept(alloc: Global, job: &Job) -> Result<Outcome, Memory>
    requires { job.now.frame.place ≡ 1 }
    ensures { IfOk result (λ outcome. outcome ≡ body_step relay_set job.now.frame job.now.cells) }
{
    let frame = job.frame.copy(alloc)?;
    Ok(leave(frame, job.cells, 2))
}

// IRelay.forward, first: the counter of link 0 goes to slot 0.
#[tactic(auto, using(crate::proofs::Bodies::relay_takes))]
fn relay_take(alloc: Global, job: &Job) -> Result<Outcome, Memory>
    requires { job.now.frame.place ≡ 0 }
    ensures { IfOk result (λ outcome. outcome ≡ body_step relay_forward job.now.frame job.now.cells) }
{
    let frame = job.frame.copy(alloc)?;
    let action = Action::Copy {
        to: Place::Slot(0),
        held: job.cells.links[0],
    };
    Ok(at_place(frame, job.cells, action, 1))
}

// IRelay.forward, second: the counter of slot 0 is called with the argument.
#[tactic(auto, using(crate::proofs::Bodies::relay_calls))]
fn relay_call(alloc: Global, job: &Job) -> Result<Outcome, Memory>
    requires { job.now.frame.place ≡ 1 }
    ensures { IfOk result (λ outcome. outcome ≡ body_step relay_forward job.now.frame job.now.cells) }
{
    let frame = job.frame.copy(alloc)?;
    let argument = frame.register(ARGUMENT).copy()?;
    let action = Action::Call {
        target: frame.slot(0),
        iface: 1,
        method: 0,
        args: Rows::from_vec(vec![in alloc; argument]?),
        destination: Destination::Register(NUMBER),
    };
    Ok(at_place(frame, job.cells, action, 2))
}

// The HRESULT of the last call: the low 32 bits of its register's number.
fn last_answer(frame: &Frame) -> HResult
    ensures { result ≡ record { 0 = cast_unsigned w64 (number_in (register_of frame.now ANSWER_REGISTER)) % 2 ^ 32 } }
{
    let bits = number_in(frame.register(ANSWER_REGISTER)).cast_unsigned();
    HResult((bits % 0x1_0000_0000) as u32)
}

// IRelay.forward, last: it leaves with what the counter answered.
#[tactic(auto, using(crate::proofs::Bodies::relay_leaves))]
fn relay_leave(alloc: Global, job: &Job) -> Result<Outcome, Memory>
    requires { job.now.frame.place ≡ 2 }
    ensures { IfOk result (λ outcome. outcome ≡ body_step relay_forward job.now.frame job.now.cells) }
{
    let frame = job.frame.copy(alloc)?;
    let value = frame.register(NUMBER).copy()?;
    let action = Action::Leave {
        answer: last_answer(&frame),
        value: Some(value),
    };
    Ok(at_place(frame, job.cells, action, 3))
}

// The next step of a relay's body: plain code at each place of IRelay.set and IRelay.forward
// where a step begins, and the interpreter at any other job.
#[tactic(auto, using(crate::proofs::Bodies::job_is))]
fn relay_step(alloc: Global, classes: &Classes, job: &Job) -> Result<Outcome, Memory>
    requires { native_at classes.now job.now.class ≡ Some native.Relay }
    ensures { IfOk result (λ outcome. outcome ≡ job_step classes.now job.now) }
{
    match (job.iface, job.method, job.frame.place()) {
        (2, 0, 0) => relay_keep(alloc, job),
        (2, 0, 1) => relay_kept(alloc, job),
        (2, 1, 0) => relay_take(alloc, job),
        (2, 1, 1) => relay_call(alloc, job),
        (2, 1, 2) => relay_leave(alloc, job),
        _ => interpret(alloc, classes, job),
    }
}

// ILatch.set: cell 0 becomes 1.
#[tactic(auto, using(crate::proofs::Bodies::latch_sets))]
fn latch_set(alloc: Global, job: &Job) -> Result<Outcome, Memory>
    requires { job.now.frame.place ≡ 0 }
    ensures { IfOk result (λ outcome. outcome ≡ body_step latch_set job.now.frame job.now.cells) }
{
    let frame = job.frame.copy(alloc)?;
    let mut cells = job.cells;
    cells.numbers[0] = 1;
    Ok(leave(frame, cells, 2))
}

// True goes to the answer's register where the number is not 0.
fn answer_number(frame: &mut Frame)
    ensures { frame.new ≡ (if int_eq (number_in (register_of frame.old 1)) (pos 0) then frame.old
        else with_register frame.old 2 (value.Bool true)) }
{
    if number_in(frame.register(NUMBER)) != 0 {
        frame.set_register(ANSWER, Value::Bool(true));
    }
}

// ILatch.test: whether cell 0 is another number than 0.
#[tactic(auto, using(crate::proofs::Bodies::latch_tests))]
fn latch_test(alloc: Global, job: &Job) -> Result<Outcome, Memory>
    requires { job.now.frame.place ≡ 0 }
    ensures { IfOk result (λ outcome. outcome ≡ body_step latch_test job.now.frame job.now.cells) }
{
    let mut frame = job.frame.copy(alloc)?;
    frame.set_register(NUMBER, Value::Int(job.cells.numbers[0]));
    frame.set_register(ANSWER, Value::Bool(false));
    answer_number(&mut frame);
    leave_with(frame, job.cells, ANSWER, 5)
}

// The next step of a latch's body: plain code at the start of ILatch.set and ILatch.test, and
// the interpreter at any other job.
#[tactic(auto, using(crate::proofs::Bodies::job_is))]
fn latch_step(alloc: Global, classes: &Classes, job: &Job) -> Result<Outcome, Memory>
    requires { native_at classes.now job.now.class ≡ Some native.Latch }
    ensures { IfOk result (λ outcome. outcome ≡ job_step classes.now job.now) }
{
    match (job.iface, job.method, job.frame.place()) {
        (3, 0, 0) => latch_set(alloc, job),
        (3, 1, 0) => latch_test(alloc, job),
        _ => interpret(alloc, classes, job),
    }
}

/// The servant of the built-in class of `ICounter`. A sum in cell 0, to which `add` adds and which `get`
/// gives.
#[derive(Debug, Drop)]
pub struct Counter {
    steps: u64,
}

impl Counter {
    /// A servant that has made no step.
    pub fn new() -> Counter
        ensures { result.steps ≡ 0 }
    {
        Counter { steps: 0 }
    }
}

impl Servant for Counter {
    ghost use Rattle.com_body.specs.declared.frame.Native.TheVariants as native;

    ghost kind_of = { λ _. native.Counter };

    ghost stepped = { λ s. s.steps };

    fn kind(&self) -> Native {
        Native::Counter
    }

    fn steps(&self) -> u64 {
        self.steps
    }

    fn step(&mut self, alloc: Global, classes: &Classes, job: &Job) -> Result<Outcome, Memory> {
        let outcome = counter_step(alloc, classes, job)?;
        self.steps = self.steps.saturating_add(1);
        Ok(outcome)
    }
}

/// The servant of the built-in class of `IRelay`. A counter in link 0, which `set` keeps and to which
/// `forward` adds.
#[derive(Debug, Drop)]
pub struct Relay {
    steps: u64,
}

impl Relay {
    /// A servant that has made no step.
    pub fn new() -> Relay
        ensures { result.steps ≡ 0 }
    {
        Relay { steps: 0 }
    }
}

impl Servant for Relay {
    ghost use Rattle.com_body.specs.declared.frame.Native.TheVariants as native;

    ghost kind_of = { λ _. native.Relay };

    ghost stepped = { λ s. s.steps };

    fn kind(&self) -> Native {
        Native::Relay
    }

    fn steps(&self) -> u64 {
        self.steps
    }

    fn step(&mut self, alloc: Global, classes: &Classes, job: &Job) -> Result<Outcome, Memory> {
        let outcome = relay_step(alloc, classes, job)?;
        self.steps = self.steps.saturating_add(1);
        Ok(outcome)
    }
}

/// The servant of the built-in class of `ILatch`. A flag in cell 0, which `set` raises and `test` gives.
#[derive(Debug, Drop)]
pub struct Latch {
    steps: u64,
}

impl Latch {
    /// A servant that has made no step.
    pub fn new() -> Latch
        ensures { result.steps ≡ 0 }
    {
        Latch { steps: 0 }
    }
}

impl Servant for Latch {
    ghost use Rattle.com_body.specs.declared.frame.Native.TheVariants as native;

    ghost kind_of = { λ _. native.Latch };

    ghost stepped = { λ s. s.steps };

    fn kind(&self) -> Native {
        Native::Latch
    }

    fn steps(&self) -> u64 {
        self.steps
    }

    fn step(&mut self, alloc: Global, classes: &Classes, job: &Job) -> Result<Outcome, Memory> {
        let outcome = latch_step(alloc, classes, job)?;
        self.steps = self.steps.saturating_add(1);
        Ok(outcome)
    }
}
