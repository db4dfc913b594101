//! What a lane is for.

ghost use Rattle.std.specs.Prelude.{◌≡◌};
ghost use Rattle.com_model.specs.Tables.{lane_sort};
ghost use Rattle.com_view.specs.Sorts.{sort_as};

use com_model::Scenario;

/// What a lane is for.
#[derive(Debug, Clone, Copy, PartialEq, Eq)]
pub enum Sort {
    /// A thread of the scenario.
    Thread,
    /// The host's single-threaded apartment.
    Host,
    /// The pool of the multithreaded and the neutral apartment.
    Pool,
    /// The clock's lane, 0, and numbers of no lane.
    NoLane,
}

/// The sort of a lane of a scenario: lane 0 is the clock, then come the threads in their order, the host's
/// lane and the pool's.
pub fn sort_of(scenario: &Scenario, lane: u32) -> Sort
    ensures { sort_as result ≡ lane_sort scenario.now lane }
{
    let threads = scenario.threads.len();
    let lane = lane as usize;
    if lane == 0 {
        return Sort::NoLane;
    }
    if lane <= threads {
        return Sort::Thread;
    }
    let above = lane - threads - 1;
    if above == 0 {
        return Sort::Host;
    }
    if above <= scenario.pool as usize {
        Sort::Pool
    } else {
        Sort::NoLane
    }
}
