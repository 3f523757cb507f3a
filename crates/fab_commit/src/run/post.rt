//! What the owner posts for the states that follow it.

use crate::run::swaps::Accepted;
use fab_sched::Stage;

/// Moves in a row of the running stage, to be judged.
#[derive(Clone, Copy)]
pub(crate) struct MoveRange {
    /// The number of the first of them.
    pub(crate) first: u64,
    /// How many there are.
    pub(crate) moves: u64,
}

/// What the owner made since the post before, and which moves are to be judged next.
#[derive(Drop)]
pub struct Post {
    /// The swaps that were accepted, in order.
    pub(crate) swaps: Vec<Accepted>,
    /// The cost after them, in ten-thousandths.
    pub(crate) cost: u64,
    /// The running stage after them.
    pub(crate) stage: Stage,
    pub(crate) ended: bool,
    pub(crate) done: u64,
    pub(crate) total: u64,
    /// The first move to judge.
    pub(crate) first: u64,
    /// How many moves to judge.
    pub(crate) count: u64,
}
