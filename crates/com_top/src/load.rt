//! The command `load`.
ghost use Rattle.std.specs.Prelude.{◌≡◌, IfOk, OnOk, map};
ghost use Rattle.com_model.specs.Formed.{Formed};
ghost use Rattle.com_servant.specs.Rows.{row};
ghost use Rattle.com_command_replay.specs.Replays.{IsReplay, whole_served};
ghost use Rattle.com_laws_load.specs.LoadScenarios.{load_scenario};
ghost use Rattle.com_commands.specs.declared.statuses.TheConstants.{MEMORY_CODE};
ghost use Rattle.com_commands.specs.declared.statuses.Status.TheVariants as status;
ghost use Rattle.com_commands.specs.Responses.{Causes, FitsServed, GivesWhole, Responds, Serves};
ghost use Rattle.com_commands.specs.Statuses.{IsEnd, sides_without_source};
ghost use Rattle.com_top.specs.Loading.{IsLoaded, load_input, load_lines, loaded_served};

use com_base::{ByteList, Memory};
use com_command_replay::{Replayed, replay};
use com_commands::{Reply, Status, push_number, read_scenario, say, share, status_at};
use com_gen::generate;
use com_io::{Discard, Sink};
use com_model::Scenario;
use com_report::report;
use com_servant::Servant;
use std::alloc::{AllocError, Global};

// The scenario of a number. The only error is want of memory.
#[tactic(auto, using(crate::proofs::Loaded::no_fault, crate::proofs::Loaded::load_scenario_is))]
fn load_scenario(alloc: Global, number: u32) -> Result<Scenario, Memory>
    ensures value { IfOk result (λ scenario. scenario ≡ load_scenario number) }
    ensures formed { IfOk result Formed }
{
    let text = generate(alloc, number)?;
    match read_scenario(alloc, text.as_slice())? {
        Ok(scenario) => Ok(scenario),
        Err(_) => unreachable!(),
    }
}

// Makes the one history of a number's scenario, which is written nowhere. The only error is want of memory.
fn replay_load(
    alloc: Global,
    scenario: Scenario,
    servants: &mut Vec<Box<dyn Servant + Send>>,
) -> Result<Replayed, Memory>
    requires formed { Formed scenario }
    requires row { map kind_of servants.old.items ≡ row }
    ensures answer { IfOk result (λ replayed. IsReplay scenario replayed) }
    ensures served { OnOk result (map stepped servants.new.items
        ≡ whole_served scenario (map stepped servants.old.items)) }
    ensures row { map kind_of servants.new.items ≡ row }
{
    let mut nowhere = Discard;
    match replay(alloc, share(alloc, scenario)?, servants, &mut nowhere) {
        Ok(replayed) => Ok(replayed),
        Err(_) => Err(AllocError),
    }
}

// The status and the text that go with the end of a number's history. The only error is want of memory.
#[tactic(auto, using(crate::proofs::Loaded::loaded_is))]
fn load_number(
    alloc: Global,
    number: u32,
    servants: &mut Vec<Box<dyn Servant + Send>>,
) -> Result<Reply, Memory>
    requires { map kind_of servants.old.items ≡ row }
    ensures loaded { IfOk result (λ reply. IsLoaded number reply.status reply.text) }
    ensures served { OnOk result (map stepped servants.new.items
        ≡ loaded_served number (map stepped servants.old.items)) }
    ensures row { map kind_of servants.new.items ≡ row }
{
    let scenario = load_scenario(alloc, number)?;
    let replayed = replay_load(alloc, scenario, servants)?;
    let text = load_lines(alloc, number, replayed)?;
    Ok(Reply {
        status: status_at(replayed.ended),
        text,
    })
}

// What is printed for a number whose history was replayed so.
fn load_lines(alloc: Global, number: u32, replayed: Replayed) -> Result<ByteList, Memory>
    ensures { IfOk result (λ text. text ≡ load_lines number replayed.entries replayed.clock replayed.ended) }
{
    let mut text = ByteList::new(alloc);
    text.push_all(b"load ")?;
    push_number(&mut text, number as u64)?;
    text.push_all(b"\n")?;
    report(
        alloc,
        &[],
        replayed.entries,
        replayed.clock,
        replayed.ended,
        &mut text,
    )?;
    Ok(text)
}

// What `load_main` does, with the status for its answer in place of the code.
#[tactic(auto, using(crate::proofs::Loaded::loaded_causes, crate::proofs::Loaded::loaded_serves, crate::proofs::Loaded::loaded_unwritten, com_commands::proofs::Answering::same_causes))]
fn load<K: Sink>(
    alloc: Global,
    number: u32,
    servants: &mut Vec<Box<dyn Servant + Send>>,
    sink: &mut K,
) -> Status
    requires { map kind_of servants.old.items ≡ row }
    ensures answers { Causes (load_input number) IsLoaded result
        (sides_without_source K.held K.faults_of sink.old sink.new) }
    ensures served { IsEnd result → GivesWhole (load_input number)
        (FitsServed IsLoaded loaded_served (map stepped servants.old.items) (map stepped servants.new.items))
        result
        (sides_without_source K.held K.faults_of sink.old sink.new) }
    ensures row { map kind_of servants.new.items ≡ row }
    ensures unwritten { result ≡ status.Memory → K.held sink.new ≡ K.held sink.old }
{
    match load_number(alloc, number, servants) {
        Ok(reply) => say(reply.text.as_slice(), reply.status, sink),
        Err(_) => Status::Memory,
    }
}

/// Replays the scenario of a number, and writes the number and the last two lines of its report. The answer
/// is the exit status: each has its cause (`answers`). Where want of memory comes, nothing was written
/// (`unwritten`).
///
/// The row has one servant of each kind, in the order of the kinds, and keeps them so (`row`). Where the
/// status is 0, 5 or 6, each has counted the entries that bodies of its kind made (`served`).
pub fn load_main<K: Sink>(
    alloc: Global,
    number: u32,
    servants: &mut Vec<Box<dyn Servant + Send>>,
    sink: &mut K,
) -> u8
    requires { map kind_of servants.old.items ≡ row }
    ensures answers { Responds (load_input number) IsLoaded result
        (sides_without_source K.held K.faults_of sink.old sink.new) }
    ensures served { Serves (load_input number) IsLoaded loaded_served result
        (sides_without_source K.held K.faults_of sink.old sink.new)
        (map stepped servants.old.items) (map stepped servants.new.items) }
    ensures row { map kind_of servants.new.items ≡ row }
    ensures unwritten { result ≡ MEMORY_CODE → K.held sink.new ≡ K.held sink.old }
{
    load(alloc, number, servants, sink).code()
}
