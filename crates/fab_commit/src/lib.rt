//! Annealing: moves are judged and committed, and lead to a placement. `run` is what runs execute: runs of the program, and runs by single
//! turns. `model` is what contracts mention; only tests execute it, and another scheduler can be built on it. `laws` are theorems for
//! callers.
#![tactic(auto)]

#[cfg(test)]
mod beside_tests;
#[cfg(test)]
mod board_tests;
#[cfg(test)]
mod crew_tests;
#[cfg(test)]
mod end_tests;
#[cfg(test)]
mod follow_tests;
#[cfg(test)]
mod in_time;
pub mod laws;
pub mod model;
#[cfg(test)]
mod point_tests;
#[cfg(test)]
mod refused_tests;
pub mod run;
#[cfg(test)]
mod shown_tests;
#[cfg(test)]
mod tests;
#[cfg(test)]
mod turn_tables;
#[cfg(test)]
mod turn_tests;
#[cfg(test)]
mod uncounted_tests;
#[cfg(test)]
mod world_tables;
#[cfg(test)]
mod world_tests;

pub use laws::{
    every_schedule_is_serial, moves_compose, placements_stay_legal, points_are_told_again,
    redone_is_told, spoiled_verdicts_are_serial, stamps_tell, turns_are_serial,
    verdicts_are_of_their_base,
};
pub use model::events::{Event, Way};
pub use model::world::World;
pub use run::annealer::Anneal;
pub use run::beside::StagePlan;
pub use run::keeping::{Keeping, KeepsCount, KeepsNumbers};
pub use run::point::Point;
pub use run::turn::Turn;
