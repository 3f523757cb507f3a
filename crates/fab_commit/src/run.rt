//! What a run executes: an annealer. Its owner commits moves while workers judge the next ones. `single_turn`, `crew_turn`, `turn` and
//! `verdicts` are for callers that make single turns, which go the same way; a run of the program does not execute these four.

pub mod alone;
pub mod annealer;
pub mod behind;
pub mod beside;
mod crew_turn;
mod early_reads;
mod followed;
mod followers;
pub mod foreseen;
pub mod keeping;
pub(crate) mod numbers;
mod owner;
mod pipeline;
pub mod point;
pub mod post;
mod posting;
mod sheet;
mod single_turn;
mod stage;
pub(crate) mod state;
pub(crate) mod swaps;
pub mod turn;
mod verdicts;
