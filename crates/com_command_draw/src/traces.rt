//! The page of the history that a trace is.
ghost use Rattle.std.specs.Prelude.{◌≡◌, ◌<◌, ◌^◌, [], IfOk, List, ℕ, length};
ghost use Rattle.std.proofs.Common.{lit<};
ghost use Rattle.com_check.specs.Agreeing.{IsAgreed};
ghost use Rattle.com_check.specs.Judging.{judged_text};
ghost use Rattle.com_commands.specs.declared.statuses.TheConstants.{MEMORY_CODE};
ghost use Rattle.com_commands.specs.declared.statuses.Status.TheVariants as status;
ghost use Rattle.com_commands.specs.Lengths.{long_text};
ghost use Rattle.com_commands.specs.Responses.{Responds};
ghost use Rattle.com_commands.specs.Statuses.{sides_of};
ghost use Rattle.com_model.specs.Formed.{Formed};
ghost use Rattle.com_command_check.specs.declared.check.TheConstants.{TRACE_INPUT_LIMIT};
ghost use Rattle.com_command_check.specs.Checking.{IsAskable, is_long_trace, question_input, question_of};
ghost use Rattle.com_command_draw.specs.Pages.{page_of};
ghost use Rattle.com_command_draw.specs.Traces.{IsTraceAnswer, trace_concludes};

use com_base::{ByteList, Memory, Rows};
use com_check::{Agreed, Judged, Trace, read_trace};
use com_command_check::{CheckCommand, Question, TRACE_INPUT_LIMIT};
use com_commands::{Input, InputReader, Reply, ReplyingCommand, Status, respond, share};
use com_draw::{Beside, push_page};
use com_io::{Sink, Source};
use com_model::Scenario;
use com_waits::waits_at;
use std::alloc::Global;

/// The page of a scenario with a trace.
pub struct TracePage;

impl InputReader for TracePage {
    type Read = Question;

    const LIMIT: usize = TRACE_INPUT_LIMIT;

    ghost LIMIT = { TRACE_INPUT_LIMIT };

    ghost too_long = { is_long_trace };

    ghost reading = { question_of };

    ghost sound = { IsAskable };

    fn read(alloc: Global, text: ByteList) -> Result<Input<Question>, Memory> {
        CheckCommand::read(alloc, text)
    }

    ghost limited = { lit< tt };

    ghost longer = { long_text TRACE_INPUT_LIMIT };
}

impl ReplyingCommand for TracePage {
    ghost fits = { IsTraceAnswer };

    fn reply(alloc: Global, read: Question) -> Result<Reply, Memory> {
        draw_question(alloc, read)
    }

    ghost concludes = { trace_concludes };
}

// The page of the history that an agreed trace is, of fewer than 2^31 entries. The only error is want of memory.
fn draw_agreed(alloc: Global, scenario: &Scenario, agreed: Agreed) -> Result<ByteList, Memory>
    requires formed { Formed scenario.now }
    requires few { length agreed.history < 2 ^ 31 }
    ensures { IfOk result (λ page. (trace : List ℕ) (is : IsAgreed scenario.now trace agreed)
        → page ≡ page_of scenario.now is.text.history agreed.ended []) }
{
    let Agreed {
        history,
        counts,
        clock,
        ended,
    } = agreed;
    let waits = waits_at(alloc, scenario, history.as_slice(), ended)?;
    let beside = Beside {
        counts,
        clock,
        ended,
        waits,
        events: Rows::new(alloc),
    };
    let mut page = ByteList::new(alloc);
    push_page(alloc, scenario, history.as_slice(), &beside, &mut page)?;
    Ok(page)
}

// The line of a trace that differs. The only error is want of memory.
fn refute(alloc: Global, judged: Judged) -> Result<Reply, Memory>
    ensures { IfOk result (λ reply. (reply.status ≡ status.Differs)
        × (reply.text ≡ judged_text judged)) }
{
    let text = judged.text(alloc)?;
    Ok(Reply {
        status: Status::Differs,
        text,
    })
}

// What answers a scenario's trace. The only error is want of memory.
fn draw_question(alloc: Global, question: Question) -> Result<Reply, Memory>
    requires { IsAskable question }
    ensures { IfOk result (λ reply. IsTraceAnswer question reply.status reply.text) }
{
    let Question {
        scenario,
        text,
        from,
    } = question;
    let scenario = share(alloc, scenario)?;
    let read = read_trace(alloc, &scenario, &text.as_slice()[from..])?;
    match read {
        Trace::Agrees(agreed) => {
            let page = draw_agreed(alloc, &*scenario, agreed)?;
            Ok(Reply {
                status: Status::Done,
                text: page,
            })
        }
        Trace::Differs(judged) => refute(alloc, judged),
    }
}

/// Reads a scenario's text, the line `trace` and a trace from the source. Where the trace is the text and the
/// report of a history, the page of this history is written; else the trace's first line that differs, with
/// the only line that may stand there. An input that is too long, whose text is no scenario or that has no
/// line `trace` is refused. The answer is the exit status, as of `check`: each has its cause (`answers`).
/// Where want of memory comes, nothing was written (`unwritten`).
pub fn draw_trace_main<S: Source, K: Sink>(alloc: Global, source: &mut S, sink: &mut K) -> u8
    ensures answers { Responds question_input IsTraceAnswer result
        (sides_of S.left S.faults_of K.held K.faults_of source.old source.new sink.old sink.new) }
    ensures unwritten { result ≡ MEMORY_CODE → K.held sink.new ≡ K.held sink.old }
{
    respond::<TracePage, S, K>(alloc, source, sink)
}
