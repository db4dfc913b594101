//! The command `check`.
ghost use Rattle.std.specs.Prelude.{◌≡◌, ◌≤◌, ◌<◌, ◌-◌, ◌^◌, IfOk, length};
ghost use Rattle.std.proofs.Common.{lit<};
ghost use Rattle.com_model.specs.Formed.{Formed};
ghost use Rattle.com_commands.specs.declared.statuses.TheConstants.{MEMORY_CODE};
ghost use Rattle.com_commands.specs.Lengths.{long_text};
ghost use Rattle.com_commands.specs.Responses.{Responds};
ghost use Rattle.com_commands.specs.Statuses.{sides_of};
ghost use Rattle.com_command_check.specs.declared.check.TheConstants.{TRACE_INPUT_LIMIT};
ghost use Rattle.com_command_check.specs.Checking.{IsAskable, IsVerdict, is_long_trace, question_input, question_of};
ghost use Rattle.com_command_check.specs.Checking.{status_of, verdict_concludes, with_trace, without_trace};

use crate::questions::Question;
use com_base::{ByteList, Memory};
use com_check::{Cut, Judged, check, cut_text};
use com_commands::{
    Input, InputReader, Reply, ReplyingCommand, Status, read_scenario, respond, share,
};
use com_io::{Sink, Source};
use com_model::Scenario;
use com_read_operands::Fault;
use std::alloc::Global;

/// The bytes of the longest input that is a scenario's text and a trace.
pub const TRACE_INPUT_LIMIT: usize = 67_108_864;

/// The command `check`: a scenario and a trace, and whether the trace agrees with the rules.
pub struct CheckCommand;

impl InputReader for CheckCommand {
    type Read = Question;

    const LIMIT: usize = TRACE_INPUT_LIMIT;

    ghost LIMIT = { TRACE_INPUT_LIMIT };

    ghost too_long = { is_long_trace };

    ghost reading = { question_of };

    ghost sound = { IsAskable };

    fn read(alloc: Global, text: ByteList) -> Result<Input<Question>, Memory> {
        match question_of(alloc, text)? {
            Ok(question) => Ok(Input::Reads(question)),
            Err(fault) => Ok(Input::Faulty(fault)),
        }
    }

    ghost limited = { lit< tt };

    ghost longer = { long_text TRACE_INPUT_LIMIT };
}

impl ReplyingCommand for CheckCommand {
    ghost fits = { IsVerdict };

    fn reply(alloc: Global, read: Question) -> Result<Reply, Memory> {
        judge(alloc, read)
    }

    ghost concludes = { verdict_concludes };
}

// What a text asks, or its first fault. The only error is want of memory.
#[tactic(auto, unfolding(crate::specs::Checking::question_of))]
fn question_of(alloc: Global, text: ByteList) -> Result<Result<Question, Fault>, Memory>
    requires { length text < 2 ^ 32 - 2 }
    ensures value { IfOk result (λ read. read ≡ question_of text) }
    ensures askable { IfOk result (λ read. IfOk read IsAskable) }
{
    match cut_text(alloc, text.as_slice())? {
        Cut::Missing { line, column } => {
            let read = read_scenario(alloc, text.as_slice())?;
            Ok(Err(fault_without_trace(read, line, column)))
        }
        Cut::At { until, from } => {
            let read = read_scenario(alloc, &text.as_slice()[..until])?;
            Ok(with_trace(text, from, read))
        }
    }
}

// The first fault of a text that has no line `trace` and ends there.
fn fault_without_trace(read: Result<Scenario, Fault>, line: u32, column: u32) -> Fault
    ensures { without_trace line column read ≡ Err result }
{
    match read {
        Ok(_) => Fault {
            number: Fault::UNENDED,
            line,
            column,
        },
        Err(fault) => fault,
    }
}

// What was read of a scenario's text, with the trace behind it.
fn with_trace(text: ByteList, from: usize, read: Result<Scenario, Fault>) -> Result<Question, Fault>
    requires formed { IfOk read Formed }
    requires within { from ≤ length text }
    ensures value { result ≡ with_trace text from read }
    ensures askable { IfOk result IsAskable }
{
    match read {
        Ok(scenario) => Ok(Question {
            scenario,
            text,
            from,
        }),
        Err(fault) => Err(fault),
    }
}

// The judgement of a scenario's trace. The only error is want of memory.
fn judge(alloc: Global, question: Question) -> Result<Reply, Memory>
    requires { IsAskable question }
    ensures { IfOk result (λ reply. IsVerdict question reply.status reply.text) }
{
    let Question {
        scenario,
        text,
        from,
    } = question;
    let judged = check(alloc, share(alloc, scenario)?, &text.as_slice()[from..])?;
    let text = judged.text(alloc)?;
    Ok(Reply {
        status: status_of(&judged),
        text,
    })
}

// The status of a judgement: whether the trace agrees, or a line of it differs.
fn status_of(judged: &Judged) -> Status
    ensures { result ≡ status_of judged.now }
{
    match judged {
        Judged::Agrees => Status::Done,
        Judged::Differs { .. } => Status::Differs,
    }
}

/// Reads a scenario's text, the line `trace` and a trace from the source, and says whether the trace agrees
/// with the rules: it is the text and the report of a history; or else its first line that differs, with the
/// only line that may stand there. An input that is too long, whose text is no scenario or that has no line
/// `trace` is refused. The answer is the exit status: each has its cause (`answers`). Where want of memory
/// comes, nothing was written (`unwritten`).
pub fn check_main<S: Source, K: Sink>(alloc: Global, source: &mut S, sink: &mut K) -> u8
    ensures answers { Responds question_input IsVerdict result
        (sides_of S.left S.faults_of K.held K.faults_of source.old source.new sink.old sink.new) }
    ensures unwritten { result ≡ MEMORY_CODE → K.held sink.new ≡ K.held sink.old }
{
    respond::<CheckCommand, S, K>(alloc, source, sink)
}
