//! A runtime that tries a lane, and lends the entry that it made.
ghost use Rattle.std.specs.Prelude.{◌≡◌, ◌<◌, ◌≤◌, map, IfOk, OnErr, OnOk};
ghost use Rattle.com_model.specs.declared.deeds.Entry.{Entry as AnyEntry};
ghost use Rattle.com_model.specs.Ends.{limit};
ghost use Rattle.com_model.specs.Tables.{lanes};
ghost use Rattle.com_runtime.specs.declared.runtime.Standing.TheVariants as standing;
ghost use Rattle.com_runtime.specs.Standings.{can_step_in, standing_of, Reached};
ghost use Rattle.com_runtime.specs.Turns.{IsNext};
ghost use Rattle.com_schedule.specs.Tried.{Tried};
ghost use Rattle.com_servant.specs.Rows.{row};

use com_base::Memory;
use com_model::Entry;
use com_runtime::Runtime;
use com_servant::Servant;
use std::alloc::Global;

/// A runtime that makes the entry of a lane as soon as it finds that the lane can step, and keeps the entry
/// that it made last.
///
/// An entry is wide. It stands in one place from its making to its line: whoever reads it borrows it, and who
/// keeps it takes it.
pub trait Tries: Runtime {
    // The entry that was made last. It means nothing before the first one, and after a call that made none.
    ghost made: { Self → AnyEntry };

    /// Tries a lane, from 1 to `lanes`. Where it can step it makes its next entry, which `last` lends then, and
    /// the answer is true. Where a body runs in the lane, the servant of its class's kind computes the step. Else
    /// nothing has changed. The row has one servant of each kind, in the order of the kinds.
    ///
    /// The only error is want of memory, and then the state is as before; a servant may have counted a step
    /// whose entry was not made.
    fn try_lane(
        &mut self,
        alloc: Global,
        lane: u32,
        servants: &mut Vec<Box<dyn Servant + Send>>,
    ) -> Result<bool, Memory>
        requires above { 1 ≤ lane }
        requires below { lane ≤ lanes (Self.scenario self.old) }
        requires reached { Reached (Self.scenario self.old) (Self.state self.old) }
        requires room { (Self.state self.old).entries < limit (Self.scenario self.old) }
        requires row { map kind_of servants.old.items ≡ row }
        ensures scenario { Self.scenario self.new ≡ Self.scenario self.old }
        ensures can { IfOk result (λ made. made ≡ can_step_in (Self.scenario self.old) (Self.state self.old)
            lane) }
        ensures tried { IfOk result (λ can. Tried (Self.scenario self.old) (Self.state self.old) lane can
            (made self.new) (Self.state self.new) (map stepped servants.old.items)
            (map stepped servants.new.items)) }
        ensures err { OnErr result (Self.state self.new ≡ Self.state self.old) }
        ensures row { map kind_of servants.new.items ≡ row };

    /// Makes the clock's entry, where the clock goes on: to the least time that a call waits for. `last` lends
    /// it then.
    ///
    /// The only error is want of memory, and then the state is as before.
    fn let_tick(&mut self) -> Result<(), Memory>
        requires due { standing_of (Self.scenario self.old) (Self.state self.old) ≡ standing.Ticks }
        requires reached { Reached (Self.scenario self.old) (Self.state self.old) }
        requires room { (Self.state self.old).entries < limit (Self.scenario self.old) }
        ensures scenario { Self.scenario self.new ≡ Self.scenario self.old }
        ensures entry { OnOk result (IsNext (Self.scenario self.old) (Self.state self.old) 0
            (made self.new) (Self.state self.new)) }
        ensures err { OnErr result (Self.state self.new ≡ Self.state self.old) };

    /// The entry that was made last.
    fn last(&self) -> &Entry
        ensures { result.now ≡ made self.now };

    /// The entry that was made last, for who keeps it. It is lent no more.
    fn take_last(&mut self) -> Entry
        ensures entry { result ≡ made self.old }
        ensures state { Self.state self.new ≡ Self.state self.old }
        ensures scenario { Self.scenario self.new ≡ Self.scenario self.old };
}
