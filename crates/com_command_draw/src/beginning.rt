//! A page that is begun: the one history of a scenario is made, and each entry is drawn as it is made.
ghost use Rattle.std.specs.Arc.{arc_value};
ghost use Rattle.std.specs.Prelude.{◌≡◌, ◌∷◌, ◌++◌, [], true, IfOk, OnOk, map, reverse};
ghost use Rattle.com_replay.specs.Replays.{whole_served};
ghost use Rattle.com_runtime.specs.Reports.{all_counts_in};
ghost use Rattle.com_runtime.specs.Standings.{Reached};
ghost use Rattle.com_model.specs.Ends.{scheduled};
ghost use Rattle.com_model.specs.Formed.{Formed};
ghost use Rattle.com_model.specs.State.{first_tables};
ghost use Rattle.com_servant.specs.Rows.{row};
ghost use Rattle.com_command_draw.specs.Begun.{IsBegun};

use com_base::{ByteList, Memory, Rows};
use com_draw::Drawing;
use com_io::{Discard, Sink};
use com_model::{Counts, Ended, Entry, Scenario};
use com_replay::{Core, Course, ReplayError, Turned, let_go};
use com_runtime::{Runtime, all_counts};
use com_schedule::Tries;
use com_servant::Servant;
use std::alloc::{AllocError, Global};
use std::sync::Arc;

/// A page but for its end, and what the end says of the history.
#[derive(Drop)]
pub struct Begun {
    /// The drawing behind the last entry.
    pub drawing: Drawing,
    /// The text of the page so far, in bytes.
    pub text: ByteList,
    /// What the report counts of each object, in the order of their making.
    pub counts: Rows<Counts>,
    /// The clock at the end, in virtual milliseconds.
    pub clock: u64,
    /// How the history ended.
    pub ended: Ended,
}

// A page that was begun, where a runtime has made the entries and the history has ended so. The only error is
// want of memory.
fn with_report<C: Runtime>(
    alloc: Global,
    scenario: &Scenario,
    runtime: &C,
    drawing: Drawing,
    text: ByteList,
    ended: Ended,
) -> Result<Begun, Memory>
    requires scenario { C.scenario runtime.now ≡ scenario.now }
    requires reached { Reached scenario.now (C.state runtime.now) }
    ensures { IfOk result (λ begun. begun
        ≡ record {
          drawing = drawing;
          text = text;
          counts =
              all_counts_in scenario.now (C.state runtime.now);
          clock =
              (C.state runtime.now).clock;
          ended = ended;
        }) }
{
    let counts = all_counts(alloc, scenario, runtime)?;
    let clock = runtime.clock();
    Ok(Begun {
        drawing,
        text,
        counts: Rows::from_vec(counts),
        clock,
        ended,
    })
}

// Takes the entry that a runtime made last and puts it behind the others, where they are kept. The only error is
// want of memory.
fn keep<C: Tries>(is_kept: bool, entries: &mut Vec<Entry>, runtime: &mut C) -> Result<(), Memory>
    ensures entries { OnOk result (is_kept ≡ true
        → entries.new.items ≡ entries.old.items ++ (C.made runtime.old ∷ [])) }
    ensures state { C.state runtime.new ≡ C.state runtime.old }
    ensures scenario { C.scenario runtime.new ≡ C.scenario runtime.old }
{
    if !is_kept {
        return Ok(());
    }
    entries.push(runtime.take_last())?;
    Ok(())
}

// Draws the history that a runtime makes which has made no entry: each entry as it is made. The entries are
// kept where that is asked for.
fn begin_by<C: Tries, K: Sink>(
    alloc: Global,
    scenario: &Scenario,
    runtime: &mut C,
    servants: &mut Vec<Box<dyn Servant + Send>>,
    is_kept: bool,
    sink: &mut K,
) -> Result<(Begun, Vec<Entry>), ReplayError>
    requires formed { Formed scenario.now }
    requires scenario { C.scenario runtime.old ≡ scenario.now }
    requires first { C.state runtime.old ≡ first_tables scenario.now }
    requires row { map kind_of servants.old.items ≡ row }
    ensures begun { IfOk result (λ begun. IsBegun scenario.now begun.0) }
    ensures kept { IfOk result (λ begun. is_kept ≡ true → reverse begun.1.items ≡ scheduled scenario.now) }
    ensures served { OnOk result (map stepped servants.new.items
        ≡ whole_served scenario.now (map stepped servants.old.items)) }
    ensures row { map kind_of servants.new.items ≡ row }
{
    let mut course = Course::new(alloc);
    let mut text = ByteList::new(alloc);
    let mut drawing = Drawing::begin(alloc, scenario, &mut text)?;
    let mut entries = Vec::new(alloc);
    'turns: loop {
        match course.step(alloc, scenario, runtime, servants, sink)? {
            Turned::Made => {
                drawing.push_entry(alloc, scenario, runtime.last(), &mut text)?;
                keep(is_kept, &mut entries, runtime)?;
            }
            Turned::Over(ended) => {
                let begun = with_report(alloc, scenario, runtime, drawing, text, ended)?;
                return Ok((begun, entries));
            }
        }
    }
}

/// Makes the one history of a scenario's schedule and draws each entry as it is made; the lines of the
/// history are written nowhere. With it come the entries in the order of their making, where they are to be
/// kept. The only error is want of memory.
///
/// The row has one servant of each kind, in the order of the kinds, and keeps them so (`row`). Each entry
/// that a body made is a step of the servant of its class's kind (`served`).
pub fn begin(
    alloc: Global,
    scenario: &Arc<Scenario>,
    servants: &mut Vec<Box<dyn Servant + Send>>,
    is_kept: bool,
) -> Result<(Begun, Vec<Entry>), Memory>
    requires formed { Formed (arc_value scenario.now) }
    requires row { map kind_of servants.old.items ≡ row }
    ensures begun { IfOk result (λ begun. IsBegun (arc_value scenario.now) begun.0) }
    ensures kept { IfOk result (λ begun. is_kept ≡ true
        → reverse begun.1.items ≡ scheduled (arc_value scenario.now)) }
    ensures served { OnOk result (map stepped servants.new.items
        ≡ whole_served (arc_value scenario.now) (map stepped servants.old.items)) }
    ensures row { map kind_of servants.new.items ≡ row }
{
    let mut nowhere = Discard;
    match begin_shared(alloc, scenario, servants, is_kept, &mut nowhere) {
        Ok(begun) => Ok(begun),
        Err(_) => Err(AllocError),
    }
}

// Draws the history that a core of its own makes of a scenario.
fn begin_shared<K: Sink>(
    alloc: Global,
    scenario: &Arc<Scenario>,
    servants: &mut Vec<Box<dyn Servant + Send>>,
    is_kept: bool,
    sink: &mut K,
) -> Result<(Begun, Vec<Entry>), ReplayError>
    requires formed { Formed (arc_value scenario.now) }
    requires row { map kind_of servants.old.items ≡ row }
    ensures begun { IfOk result (λ begun. IsBegun (arc_value scenario.now) begun.0) }
    ensures kept { IfOk result (λ begun. is_kept ≡ true
        → reverse begun.1.items ≡ scheduled (arc_value scenario.now)) }
    ensures served { OnOk result (map stepped servants.new.items
        ≡ whole_served (arc_value scenario.now) (map stepped servants.old.items)) }
    ensures row { map kind_of servants.new.items ≡ row }
{
    let mut core = Core::new(alloc, scenario.clone()?)?;
    let begun = begin_by(alloc, &**scenario, &mut core, servants, is_kept, sink);
    let_go(core);
    begun
}
