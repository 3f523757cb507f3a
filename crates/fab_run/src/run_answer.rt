//! What a piece of a run returns: with the numbers of the accepted moves, or only with their count.

ghost use Rattle.std.specs.Prelude.{◌≡◌, ℕ, List, Some};
ghost use Rattle.fab_site.specs.Placement.{IsLegal};
ghost use Rattle.fab_commit.specs.Run.Noted.{noted};
ghost use Rattle.fab_run.specs.Counted.{TellsMoves};

use crate::inputs::{CountedOutcome, Ending, Outcome};
use fab_commit::{Anneal, Keeping};
use fab_move::StreamWords;
use fab_site::Placement;

/// What an annealer that made its piece leaves.
#[derive(Drop)]
pub(crate) struct Ended {
    pub(crate) ending: Ending,
    /// The sites of the blocks at the end.
    pub(crate) placement: Placement,
    /// The numbers of the moves that were accepted in the piece, in order, if the annealer keeps them.
    pub(crate) numbers: Option<Vec<u64>>,
    /// How many moves were accepted in the piece.
    pub(crate) accepted: u64,
    /// The cost before the first move of the piece, and after each stage that ended in it, in ten-thousandths.
    pub(crate) costs: Vec<u64>,
    /// How many moves were redone, if the annealer counts them.
    pub(crate) redone: u64,
}

/// Takes the answer out of an annealer that made its piece. Nothing is copied.
pub(crate) fn ended_by<K: Keeping>(
    anneal: Anneal<'_, StreamWords, K>,
    ending: Ending,
    costs: Vec<u64>,
) -> Ended
    ensures ending { result.ending ≡ ending }
    ensures array { result.placement.grid ≡ anneal.entry.grid }
    ensures sites { result.placement.sites ≡ anneal.entry.standing.sites }
    ensures legal { IsLegal anneal.entry.design anneal.entry.grid anneal.entry.fixed
        result.placement.sites }
    ensures moves { TellsMoves K.numbers anneal.entry.accepted result }
    ensures costs { result.costs ≡ costs }
    ensures redone { result.redone ≡ anneal.entry.redone }
{
    let accepted = anneal.accepted_count();
    let redone = anneal.redone();
    let (placement, numbers) = anneal.into_parts();
    Ended {
        ending,
        placement,
        numbers,
        accepted,
        costs,
        redone,
    }
}

/// The answer with the numbers of the accepted moves, which were kept.
pub(crate) fn outcome_of(ended: Ended) -> Outcome
    requires kept { (numbers : List ℕ) × (noted ended.numbers ≡ Some numbers) }
    ensures ending { result.ending ≡ ended.ending }
    ensures placement { result.placement ≡ ended.placement }
    ensures numbers { Some result.accepted.items ≡ noted ended.numbers }
    ensures costs { result.costs ≡ ended.costs }
    ensures redone { result.redone ≡ ended.redone }
{
    let Ended {
        ending,
        placement,
        numbers,
        accepted: _,
        costs,
        redone,
    } = ended;
    match numbers {
        Some(accepted) => Outcome {
            ending,
            placement,
            accepted,
            costs,
            redone,
        },
        None => unreachable!(),
    }
}

/// The answer with the count of the accepted moves.
pub(crate) fn counted_of(ended: Ended) -> CountedOutcome
    ensures ending { result.ending ≡ ended.ending }
    ensures placement { result.placement ≡ ended.placement }
    ensures accepted { result.accepted ≡ ended.accepted }
    ensures costs { result.costs ≡ ended.costs }
{
    let Ended {
        ending,
        placement,
        numbers: _,
        accepted,
        costs,
        redone: _,
    } = ended;
    CountedOutcome {
        ending,
        placement,
        accepted,
        costs,
    }
}
