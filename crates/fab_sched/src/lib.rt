//! Annealing schedules: the temperatures and ranges of the stages, and the number of moves of a stage.
#![tactic(auto)]

pub mod fault;
pub mod move_count;
#[cfg(test)]
mod schedule_tests;
pub mod schedules;
#[cfg(test)]
mod tests;

pub use fault::SchedFault;
pub use move_count::moves_of;
pub use schedules::{Cooling, Schedule, Stage, stages_are_lawful};
