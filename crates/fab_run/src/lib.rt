//! Runs on texts: what goes in, and what comes out.
#![tactic(auto)]

#[cfg(test)]
mod asked_tests;
pub mod check;
#[cfg(test)]
mod check_tests;
pub mod counted_runs;
#[cfg(test)]
mod counted_tests;
#[cfg(test)]
mod crew_tests;
mod designs;
pub mod fault;
pub mod fresh_run;
pub mod inputs;
#[cfg(test)]
mod large_tests;
pub mod laws;
#[cfg(test)]
mod narrow;
mod piece;
#[cfg(test)]
mod piece_tests;
pub mod point_fault;
pub mod point_reading;
#[cfg(test)]
mod point_tests;
mod point_words;
pub mod point_writing;
#[cfg(test)]
mod refused_tests;
mod report;
pub mod resumed_run;
mod run_answer;
#[cfg(test)]
mod run_tests;
pub mod setting;
mod stages;
#[cfg(test)]
mod watched_tests;

pub use check::check_run;
pub use counted_runs::{place_run_counted, resume_run_counted};
pub use fab_commit::Point;
pub use fault::{RunFault, fault_line};
pub use fresh_run::{place_run, place_run_shown};
pub use inputs::{CountedOutcome, Ending, Inputs, Moves, Options, Outcome, Restart};
pub use laws::{
    answers_are_told, calls_are_runs, chains_are_runs, readings_are_of_lawful_standings,
    standings_are_lawful, watchers_read_standings,
};
pub use point_fault::{PointFault, PointField};
pub use point_reading::{point_texts_mean_or_fault, read_point};
pub use point_writing::{write_point, written_points_read_back};
pub use resumed_run::resume_run;
pub use setting::array_of;
