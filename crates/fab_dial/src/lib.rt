//! A dial: one thread shows readings, and watchers on other threads read them whole and never go back.
#![tactic(auto)]

mod ends;
mod readings;
mod rule;
#[cfg(test)]
mod tests;

pub use ends::{Dial, Shower, Watcher};
pub use readings::Reading;
