//! A runtime that keeps the rules, as the schedule sees it.
ghost use Rattle.std.specs.Prelude.{◌≡◌, ◌<◌, ◌≤◌, ◌↔◌, true, map, IfOk, IfSome, IsSome, OnOk, OnErr};
ghost use Rattle.com_model.specs.declared.scenario.Scenario.{Scenario as AnyScenario};
ghost use Rattle.com_model.specs.Tables.{lanes};
ghost use Rattle.com_model.specs.Ends.{limit};
ghost use Rattle.com_model.specs.State.{State, objects_in};
ghost use Rattle.com_servant.specs.Rows.{row};
ghost use Rattle.com_runtime.specs.declared.runtime.Standing.TheVariants as standing;
ghost use Rattle.com_runtime.specs.Standings.{can_step_in, standing_of, Reached};
ghost use Rattle.com_runtime.specs.Turns.{IsNext, served_in};
ghost use Rattle.com_runtime.specs.Reports.{WasMade, counts_in};

use com_base::Memory;
use com_model::{Counts, Entry};
use com_servant::Servant;
use std::alloc::Global;

/// How a runtime stands between two entries.
#[derive(Debug, Clone, Copy, PartialEq, Eq)]
pub enum Standing {
    /// A lane can step.
    Runs,
    /// No lane can step, and a call waits for a time: the clock goes on.
    Ticks,
    /// All is done: every thread ended, and nothing is open, posted or dying.
    Finished,
    /// No lane can step, no call waits for a time, and not all is done.
    Stuck,
}

/// A runtime that keeps the rules, and makes one entry at a time.
///
/// The meaning of a runtime is its scenario, which never changes, and its state: the tables of the rules.
/// What it answers, it answers of a state that stands for a history. An entry that finds no memory changes
/// nothing.
pub trait Runtime {
    // The scenario that it runs.
    ghost scenario: { Self → AnyScenario };

    // The tables as they stand.
    ghost state: { Self → State };

    /// How many lanes there are. They are numbered from 1: the threads in order, the host STA's lane, then
    /// the pool's.
    fn lanes(&self) -> u32
        ensures { result ≡ lanes (scenario self.now) };

    /// Whether a lane, from 1 to `lanes`, can step.
    fn can_step(&self, lane: u32) -> bool
        requires above { 1 ≤ lane }
        requires below { lane ≤ lanes (scenario self.now) }
        requires reached { Reached (scenario self.now) (state self.now) }
        ensures { result ≡ can_step_in (scenario self.now) (state self.now) lane };

    /// Whether a lane can step, the clock goes on, or all has ended.
    fn standing(&self) -> Standing
        requires { Reached (scenario self.now) (state self.now) }
        ensures { result ≡ standing_of (scenario self.now) (state self.now) };

    /// How many entries were made.
    fn entries(&self) -> u64
        ensures { result ≡ (state self.now).entries };

    /// The clock, in virtual milliseconds.
    fn clock(&self) -> u64
        ensures { result ≡ (state self.now).clock };

    /// How many objects were made. They are numbered from 1, in order of making.
    fn objects(&self) -> u32
        ensures { result ≡ objects_in (state self.now) };

    /// What a report counts of an object. None exactly where the object was not made.
    fn counts(&self, object: u32) -> Option<Counts>
        requires reached { Reached (scenario self.now) (state self.now) }
        ensures made { IsSome result ↔ WasMade (state self.now) object }
        ensures some { IfSome result (λ counts.
            counts ≡ counts_in (scenario self.now) (state self.now) object) };

    /// Makes the next entry of a lane that can step. Where a body runs in the lane, the servant of its
    /// class's kind computes the step. The row has one servant of each kind, in the order of the kinds.
    ///
    /// The only error is want of memory, and then the state is as before; a servant may have counted a step
    /// whose entry was not made.
    fn step(
        &mut self,
        alloc: Global,
        lane: u32,
        servants: &mut Vec<Box<dyn Servant + Send>>,
    ) -> Result<Entry, Memory>
        requires above { 1 ≤ lane }
        requires below { lane ≤ lanes (scenario self.old) }
        requires can { can_step_in (scenario self.old) (state self.old) lane ≡ true }
        requires reached { Reached (scenario self.old) (state self.old) }
        requires room { (state self.old).entries < limit (scenario self.old) }
        requires row { map kind_of servants.old.items ≡ row }
        ensures scenario { scenario self.new ≡ scenario self.old }
        ensures entry { IfOk result (λ entry. IsNext (scenario self.old) (state self.old) lane entry
            (state self.new)) }
        ensures err { OnErr result (state self.new ≡ state self.old) }
        ensures row { map kind_of servants.new.items ≡ row }
        ensures served { OnOk result (map stepped servants.new.items
            ≡ served_in (scenario self.old) (state self.old) lane (map stepped servants.old.items)) };

    /// Makes the clock's entry, where the clock goes on: to the least time that a call waits for.
    ///
    /// The only error is want of memory, and then the state is as before.
    fn tick(&mut self) -> Result<Entry, Memory>
        requires due { standing_of (scenario self.old) (state self.old) ≡ standing.Ticks }
        requires reached { Reached (scenario self.old) (state self.old) }
        requires room { (state self.old).entries < limit (scenario self.old) }
        ensures scenario { scenario self.new ≡ scenario self.old }
        ensures entry { IfOk result (λ entry. IsNext (scenario self.old) (state self.old) 0 entry
            (state self.new)) }
        ensures err { OnErr result (state self.new ≡ state self.old) };
}
