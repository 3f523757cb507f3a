//! Moves: their random words, their proposals, their judgement, and stamps of what accepted moves touched.
#![tactic(auto)]

pub mod acceptance;
#[cfg(test)]
mod cost_tests;
pub mod judgement;
pub mod kept_nets;
pub mod marks;
#[cfg(test)]
mod move_tables;
mod pad_runs;
pub mod proposals;
pub mod stamps;
pub mod stream_words;
#[cfg(test)]
mod tests;
pub mod verdicts;
mod windows;

pub use acceptance::accepts;
pub use judgement::{decide, footprint_of, judge, weigh};
pub use kept_nets::LargeNets;
pub use marks::{Footprint, Mark};
pub use proposals::{Proposal, chosen, propose};
pub use stamps::Stamps;
pub use stream_words::StreamWords;
pub use verdicts::{Decision, Verdict, View};
