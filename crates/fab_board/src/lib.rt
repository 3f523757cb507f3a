//! Threads that judge numbers in parallel. They claim numbers on a board, each number once. A crew is threads that claim on one board; each
//! has a state of its own, which follows what the owner posts. A batch of numbers is judged by a crew with one borrowed closure.
#![tactic(auto)]

mod board;
mod book;
mod claimer;
mod follow;
pub mod follow_crew;
pub mod follow_lead;
mod gate;
mod judge;
mod own_units;
mod plan;
mod rule;
mod slots;
mod waiting;

pub use board::{Board, ClaimSeat, Claims};
pub use book::{Naming, Opened};
pub use claimer::Boarding;
pub use follow::{Follow, Origin, Sheet};
pub use gate::{Gate, NoGate};
pub use judge::judge_batch;
pub use plan::Plan;
