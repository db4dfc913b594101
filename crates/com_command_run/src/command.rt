//! The command `run`.
ghost use Rattle.std.specs.Prelude.{◌≡◌, ◌≤◌, All, IfOk, map, vec_len};
ghost use Rattle.std.proofs.Common.{lit<};
ghost use Rattle.com_base.specs.declared.limits.TheConstants.{TEXT_2_LIMIT};
ghost use Rattle.com_commands.specs.declared.statuses.TheConstants.{MEMORY_CODE};
ghost use Rattle.com_commands.specs.declared.statuses.Status.TheVariants as status;
ghost use Rattle.com_commands.specs.Inputs.{input_of};
ghost use Rattle.com_commands.specs.Responses.{Causes, Responds};
ghost use Rattle.com_commands.specs.Statuses.{sides_of};
ghost use Rattle.com_model.specs.Formed.{Formed};
ghost use Rattle.com_command_run.specs.Runs.{IsRun};
ghost use Rattle.com_scenario.proofs.Lengths.{longer_than_all};
ghost use Rattle.com_scenario.specs.Scenarios.{reading};
ghost use Rattle.com_scenario.specs.Sizes.{is_too_long};
ghost use Rattle.com_servant.specs.declared.crew.TheConstants.{ROWS};
ghost use Rattle.com_servant.specs.Rows.{row};

use crate::threaded::run;
use crate::written::write_history;
use com_base::{ByteList, Memory, TEXT_2_LIMIT};
use com_commands::{
    Input, InputReader, Reply, Status, first_fault, read_as, receive, say, share, status_at,
};
use com_io::{Sink, Source};
use com_model::Scenario;
use com_scenario::{is_too_long, parse};
use com_threads::{Gate, Row};
use std::alloc::Global;
use std::sync::Wait;
use std::thread::Threads;

/// How `run` reads its input: as the text of a scenario.
pub struct RunInput;

impl InputReader for RunInput {
    type Read = Scenario;

    const LIMIT: usize = TEXT_2_LIMIT;

    ghost LIMIT = { TEXT_2_LIMIT };

    ghost too_long = { is_too_long };

    ghost reading = { reading };

    ghost sound = { Formed };

    #[tactic(auto, using(com_commands::proofs::Asking::long_input, com_commands::proofs::Asking::given_input, com_commands::proofs::Asking::given_sound))]
    fn read(alloc: Global, text: ByteList) -> Result<Input<Scenario>, Memory> {
        if is_too_long(alloc, text.as_slice())? {
            return Ok(Input::TooLong);
        }
        let read = first_fault(parse(alloc, text.as_slice()))?;
        Ok(read_as(read))
    }

    ghost limited = { lit< tt };

    ghost longer = { longer_than_all };
}

// The status and the text that answer a scenario. The only error is want of memory.
#[tactic(auto, using(crate::proofs::Running::few_lanes))]
fn reply<R: Threads + Wait + Sync, G: Gate + Sync>(
    rt: &R,
    alloc: Global,
    scenario: Scenario,
    crew: Vec<Row>,
    gate: &G,
) -> Result<Reply, Memory>
    requires formed { Formed scenario }
    requires rows { ROWS ≤ vec_len crew }
    requires crew { All (λ servants. map kind_of servants.items ≡ row) crew.items }
    ensures { IfOk result (λ reply. IsRun scenario reply.status reply.text) }
{
    let version = scenario.version;
    let scenario = share(alloc, scenario)?;
    let ran = run(rt, alloc, scenario, crew, gate)?;
    let text = write_history(alloc, version, &ran)?;
    Ok(Reply {
        status: status_at(ran.ended),
        text,
    })
}

/// Reads a scenario from the source, runs it on threads by the crew's servants, and writes its history and
/// report to the sink. An input that is too long or whose text is no scenario is refused by a line with the
/// line, the column and the number of the fault. The answer is the exit status: each has its cause
/// (`answers`). Where want of memory comes, nothing was written (`unwritten`). The crew has `ROWS` rows at
/// least, as many as a scenario has lanes at most.
pub fn run_main<R: Threads + Wait + Sync, S: Source, K: Sink, G: Gate + Sync>(
    rt: &R,
    alloc: Global,
    crew: Vec<Row>,
    gate: &G,
    source: &mut S,
    sink: &mut K,
) -> u8
    requires rows { ROWS ≤ vec_len crew }
    requires crew { All (λ servants. map kind_of servants.items ≡ row) crew.items }
    ensures answers { Responds (input_of is_too_long reading) IsRun result
        (sides_of S.left S.faults_of K.held K.faults_of source.old source.new sink.old sink.new) }
    ensures unwritten { result ≡ MEMORY_CODE → K.held sink.new ≡ K.held sink.old }
{
    run_for(rt, alloc, crew, gate, source, sink).code()
}

// What `run_main` does, with the status for its answer in place of the code.
#[tactic(auto, using(com_commands::proofs::Answering::refused_causes, com_commands::proofs::Answering::same_causes, crate::proofs::Running::run_unwritten))]
fn run_for<R: Threads + Wait + Sync, S: Source, K: Sink, G: Gate + Sync>(
    rt: &R,
    alloc: Global,
    crew: Vec<Row>,
    gate: &G,
    source: &mut S,
    sink: &mut K,
) -> Status
    requires rows { ROWS ≤ vec_len crew }
    requires crew { All (λ servants. map kind_of servants.items ≡ row) crew.items }
    ensures answers { Causes (input_of is_too_long reading) IsRun result
        (sides_of S.left S.faults_of K.held K.faults_of source.old source.new sink.old sink.new) }
    ensures unwritten { result ≡ status.Memory → K.held sink.new ≡ K.held sink.old }
{
    match receive::<RunInput, S, K>(alloc, source, sink) {
        Ok(scenario) => match reply(rt, alloc, scenario, crew, gate) {
            Ok(reply) => say(reply.text.as_slice(), reply.status, sink),
            Err(_) => Status::Memory,
        },
        Err(status) => status,
    }
}
