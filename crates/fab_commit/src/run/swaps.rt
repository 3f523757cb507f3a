//! The swaps that were accepted, by the numbers of their moves.

ghost use Rattle.std.specs.Prelude.{◌≡◌, ◌+◌, ◌<◌, ◌≤◌, ◌++◌, vec_len, vec_capacity};
ghost use Rattle.fab_move.specs.Judge.{IsDecision, Judged};
ghost use Rattle.fab_commit.specs.Model.World.{accepted_now};

use fab_move::Decision;
use fab_site::Swap;

/// A swap that was accepted, and the number of its move.
#[derive(Clone, Copy, Debug, PartialEq, Eq)]
pub(crate) struct Accepted {
    pub(crate) number: u64,
    pub(crate) swap: Swap,
}

/// Adds the swap of the next move to `accepted`, if the move is accepted.
#[inline(always)]
pub(crate) fn enter(accepted: &mut Vec<Accepted>, number: u64, decision: &Decision)
    requires room { vec_len accepted.old < vec_capacity accepted.old }
    ensures items { (j : Judged) → IsDecision decision.now j →
        accepted.new.items ≡ accepted.old.items ++ accepted_now number j }
    ensures room { (vec_len accepted.new ≤ vec_len accepted.old + 1) ×
        (vec_capacity accepted.new ≡ vec_capacity accepted.old) }
{
    if decision.accepted {
        if let Some(swap) = decision.swap {
            accepted.push_reserved(Accepted { number, swap });
        }
    }
}
