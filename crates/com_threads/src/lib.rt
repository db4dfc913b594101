//! The runtime on real threads: one worker for each lane makes the entries of its lane, on one core and
//! one history behind a ticket lock.
#![tactic(auto)]

mod bells;
mod book;
mod desk;
mod drive;
mod gate;
mod pages;
mod run;
mod worker;

pub use book::Plays;
pub use com_base::Memory;
pub use gate::{Gate, OpenGate};
pub use run::{Ran, run_on};
pub use worker::Row;
