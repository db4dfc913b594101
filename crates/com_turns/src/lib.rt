//! One turn of a lane: who acts there, the step of whoever does, the entry that the rules give, and who acts
//! after it. Nothing is changed but the servants' counts of their steps.
#![tactic(auto)]

mod acting;
mod after;
mod frames;
mod laws;
mod steps;
mod turns;
mod values;
mod work;

pub use acting::{step_of, steps_are_outcomes};
pub use after::{actor_after, is_filtered};
pub use com_base::Memory;
pub use com_rules::Doing;
pub use laws::{nobody_acts_for_the_clock, reads_the_turn};
pub use steps::Bench;
pub use turns::{Turn, given_turn, is_ruled, next_turn, own_turn, rule_turn};
pub use work::{fits_work, same_cells, work_of};
