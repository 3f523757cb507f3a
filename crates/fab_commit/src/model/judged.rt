//! What is claimed and judged, by the numbers of moves. Part of the model: no run executes it.

use fab_move::{Mark, Verdict};
use std::marker::Model;

/// A worker has claimed this move.
#[derive(Clone, Copy, Debug, PartialEq, Eq)]
pub(crate) struct Claimed {
    pub(crate) worker: u64,
    pub(crate) number: u64,
}

/// The judgement of a move.
#[derive(Drop)]
pub(crate) struct Judgement {
    answer: Verdict,
}

impl Model for Judgement {
    ghost use Rattle.fab_move.specs.Judge.{Judged, says};

    ghost Value = { Judged };

    ghost view = { λ j. says j.answer };
}

impl Judgement {
    ghost use Rattle.std.specs.Prelude.{◌≡◌};
    ghost use Rattle.fab_move.specs.Judge.{says};

    pub(crate) fn of(answer: Verdict) -> Judgement
        ensures { result ≡ says answer }
    {
        Judgement { answer }
    }

    pub(crate) fn answer(&self) -> &Verdict
        ensures { says result.now ≡ self.now }
    {
        &self.answer
    }

    /// The marks that the judgement rests on.
    pub(crate) fn footprint(&self) -> &[Mark]
        ensures { result.now ≡ self.now.footprint }
    {
        &self.answer.footprint
    }
}

/// A worker's judgement of a move.
#[derive(Drop)]
pub(crate) struct JudgedMove {
    pub(crate) worker: u64,
    pub(crate) number: u64,
    /// How many moves were made in the placement that it was judged on.
    pub(crate) base: u64,
    pub(crate) judged: Judgement,
}
