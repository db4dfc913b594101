//! What holds of every stuck history. Stated on functions that do nothing.
ghost use Rattle.std.specs.Prelude.{◌≡◌, List, true};
ghost use Rattle.com_model.specs.declared.deeds.Entry.{Entry};
ghost use Rattle.com_model.specs.declared.scenario.Scenario.{Scenario};
ghost use Rattle.com_model.specs.Ends.{stuck};
ghost use Rattle.com_model.specs.Formed.{Formed};
ghost use Rattle.com_model.specs.Rules.{legal};
ghost use Rattle.com_waits.specs.Laws.{CallsExhaust, CallsWait, HasReasons, PoolExhausts, RingsExhaust};
ghost use Rattle.com_waits.specs.Laws.{RingsReachPool, TopsWait};

/// In every legal history of a formed scenario that is stuck, each lane with something open has a pump or an
/// Out of route post on top.
pub fn tops_wait()
    ensures { (s : Scenario) (h : List Entry) → Formed s → legal s h → stuck s h ≡ true → TopsWait s h }
{}

/// In every legal history of a formed scenario that is stuck, a call on top of a lane has no answer; and
/// where it was not entered, it stands in the inbox of its target's apartment.
pub fn calls_wait()
    ensures { (s : Scenario) (h : List Entry) → Formed s → legal s h → stuck s h ≡ true → CallsWait s h }
{}

/// In every legal history of a formed scenario that is stuck, each lane with something open has a reason: it
/// waits for a message, for the body of a call, or for the pool.
pub fn each_has_a_reason()
    ensures { (s : Scenario) (h : List Entry) → Formed s → legal s h → stuck s h ≡ true → HasReasons s h }
{}

/// In every legal history of a formed scenario that is stuck, every cycle of lanes that wait for each other
/// has a lane that waits for the pool.
pub fn cycles_reach_the_pool()
    ensures { (s : Scenario) (h : List Entry) → Formed s → legal s h → stuck s h ≡ true → RingsReachPool s h }
{}

/// Where a lane of a legal stuck history waits for the pool, the pool is exhausted: a call stands in the
/// inbox of the multithreaded apartment, and something is open in each lane of the pool. So it is where lanes
/// wait for each other in a cycle, and wherever a lane waits for a call, and not for a message.
pub fn the_pool_is_exhausted()
    ensures waits { (s : Scenario) (h : List Entry) → Formed s → legal s h → stuck s h ≡ true
        → PoolExhausts s h }
    ensures cycles { (s : Scenario) (h : List Entry) → Formed s → legal s h → stuck s h ≡ true
        → RingsExhaust s h }
    ensures calls { (s : Scenario) (h : List Entry) → Formed s → legal s h → stuck s h ≡ true
        → CallsExhaust s h }
{}
