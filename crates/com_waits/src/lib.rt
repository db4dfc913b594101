//! Why a history is stuck: which lane waits for what, and the cycle in which lanes wait for each other.
#![tactic(auto)]

mod chains;
mod explains;
mod laws;
mod reasons;
mod texts;
mod walks;

pub use com_base::Memory;
pub use explains::{LaneNumbers, confirms, explain_by, lane_numbers, waits_at, waits_stuck};
pub use laws::{
    calls_wait, cycles_reach_the_pool, each_has_a_reason, the_pool_is_exhausted, tops_wait,
};
pub use reasons::{Wait, Waits, Why};
pub use texts::text_of;
