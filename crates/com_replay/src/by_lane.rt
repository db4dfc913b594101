//! Making a legal history again, entry by entry, on any runtime that keeps the rules: what callers share who
//! have a history's entries or its text, and ask how a core stands behind them.
ghost use Rattle.std.specs.Prelude.{◌≡◌, ◌<◌, ◌∷◌, ◌++◌, [], false, IfOk, OnOk, map};
ghost use Rattle.com_body.specs.declared.frame.Native.TheVariants as native;
ghost use Rattle.com_model.specs.Ends.{limit};
ghost use Rattle.com_servant.specs.Rows.{row};
ghost use Rattle.com_runtime.specs.Standings.{Reached};
ghost use Rattle.com_runtime.specs.Turns.{IsNext};
ghost use Rattle.com_replay.specs.Nexts.{HasNext, goes_on, has_next_in};

use com_base::Memory;
use com_body::Native;
use com_model::Entry;
use com_runtime::{Runtime, Standing};
use com_servant::Servant;
use std::alloc::Global;

// Whether the clock goes on, in a runtime that stands so.
fn goes_on(standing: Standing) -> bool
    ensures { result ≡ goes_on standing }
{
    matches!(standing, Standing::Ticks)
}

/// Whether a lane has a next entry, or the clock as lane 0. A number above the highest lane has none.
#[tactic(auto, using(crate::proofs::Nexts::clock_has, crate::proofs::Nexts::none_above, crate::proofs::Nexts::lane_has))]
pub fn has_next<C: Runtime>(runtime: &C, lane: u32) -> bool
    requires { Reached (C.scenario runtime.now) (C.state runtime.now) }
    ensures { result ≡ has_next_in (C.scenario runtime.now) (C.state runtime.now) lane }
{
    if lane == 0 {
        return goes_on(runtime.standing());
    }
    if runtime.lanes() < lane {
        return false;
    }
    runtime.can_step(lane)
}

/// Makes the next entry of a lane that has one, or of the clock as lane 0: the lane that a legal history
/// names next has exactly this entry. The row has one servant of each kind, in the order of the kinds. The
/// only error is want of memory.
#[tactic(auto, using(crate::proofs::Nexts::clock_goes_on, crate::proofs::Nexts::lane_is_one, crate::proofs::Nexts::lane_can_step))]
pub fn make_next<C: Runtime>(
    alloc: Global,
    runtime: &mut C,
    servants: &mut Vec<Box<dyn Servant + Send>>,
    lane: u32,
) -> Result<Entry, Memory>
    requires next { HasNext (C.scenario runtime.old) (C.state runtime.old) lane }
    requires room { (C.state runtime.old).entries < limit (C.scenario runtime.old) }
    requires reached { Reached (C.scenario runtime.old) (C.state runtime.old) }
    requires row { map kind_of servants.old.items ≡ row }
    ensures scenario { C.scenario runtime.new ≡ C.scenario runtime.old }
    ensures row { map kind_of servants.new.items ≡ row }
    ensures made { IfOk result (λ entry. IsNext (C.scenario runtime.old)
        (C.state runtime.old) lane entry (C.state runtime.new)) }
{
    if lane == 0 {
        return runtime.tick();
    }
    runtime.step(alloc, lane, servants)
}

/// A value in a box. The only error is want of memory.
pub fn box_of<T: Drop>(alloc: Global, value: T) -> Result<Box<T>, Memory>
    ensures { IfOk result (λ boxed. boxed.value ≡ value) }
{
    Ok(Box::new(alloc, value)?)
}

// Puts one servant more behind a row. Its kind is told to the proof alone. The only error is want of memory.
fn add(
    servants: &mut Vec<Box<dyn Servant + Send>>,
    servant: Box<dyn Servant + Send>,
    _kind: Native,
) -> Result<(), Memory>
    requires { kind_of servant ≡ _kind }
    ensures { OnOk result (map kind_of servants.new.items ≡ map kind_of servants.old.items ++ (_kind ∷ [])) }
{
    servants.push(servant)?;
    Ok(())
}

/// A row of one servant of each kind, in the order of the kinds. The only error is want of memory.
pub fn row_of(
    alloc: Global,
    bodies: Box<dyn Servant + Send>,
    counter: Box<dyn Servant + Send>,
    relay: Box<dyn Servant + Send>,
    latch: Box<dyn Servant + Send>,
) -> Result<Vec<Box<dyn Servant + Send>>, Memory>
    requires bodies { kind_of bodies ≡ native.Bodies }
    requires counter { kind_of counter ≡ native.Counter }
    requires relay { kind_of relay ≡ native.Relay }
    requires latch { kind_of latch ≡ native.Latch }
    ensures { IfOk result (λ servants. map kind_of servants.items ≡ row) }
{
    let mut servants = Vec::new(alloc);
    add(&mut servants, bodies, Native::Bodies)?;
    add(&mut servants, counter, Native::Counter)?;
    add(&mut servants, relay, Native::Relay)?;
    add(&mut servants, latch, Native::Latch)?;
    Ok(servants)
}

/// A row of servants that have made no step: one of each kind, in the order of the kinds. Where memory is
/// wanting, the function that the call stands in ends with that error.
///
/// It is a macro, since a library's function may not hand out boxed trait objects that it made.
#[macro_export]
macro_rules! fresh_row {
    ($alloc:expr) => {
        $crate::row_of(
            $alloc,
            $crate::box_of($alloc, $crate::Interpreter::new())?,
            $crate::box_of($alloc, $crate::Counter::new())?,
            $crate::box_of($alloc, $crate::Relay::new())?,
            $crate::box_of($alloc, $crate::Latch::new())?,
        )?
    };
}
