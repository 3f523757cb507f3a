//! What a state that follows the owner foresees of a move.

ghost use Rattle.std.specs.Prelude.{◌≡◌, pos, false, true, not};
ghost use Rattle.fab_commit.specs.Run.Commits.{IsSound, run_for, standing_of};
ghost use Rattle.fab_commit.specs.Run.Foreseen.{AreRejected, IsForeseen, decision_in};

use crate::run::state::{Given, State, view_of};
use fab_move::{Decision, LargeNets, Proposal, accepts};
use fab_site::Words;

/// The judgement of a move on the placement of a state that follows the owner. Its proposal names its footprint. The fields that the owner
/// reads of a rejected move come first, in less than a cache line.
#[derive(Clone, Copy)]
pub struct Foreseen {
    pub(crate) proposal: Proposal,
    /// The swap's nets with many terminals, if there is a swap and these nets are not too many.
    pub(crate) nets: LargeNets,
    pub(crate) accepted: bool,
    /// The move's words.
    pub(crate) words: [u32; 4],
    /// The change of cost of the nets with few terminals, in ten-thousandths; 0 without a swap.
    pub(crate) few: i64,
    /// The change of cost in ten-thousandths; 0 without a swap.
    pub(crate) delta: i64,
}

impl Foreseen {
    /// The value of a place that was never written.
    pub(crate) fn nothing() -> Foreseen {
        without_swap(Proposal::Nothing, [0; 4])
    }

    /// The decision. If `REJECTED`, it is known that the move is rejected.
    pub(crate) fn decision<const REJECTED: bool>(&self) -> Decision
        requires { REJECTED ≡ true → self.now.accepted ≡ false }
        ensures { result ≡ decision_in self.now }
    {
        let swap = match self.proposal {
            Proposal::Move(swap) => Some(swap),
            Proposal::Nothing => None,
            Proposal::Void(_, _) => None,
        };
        Decision {
            swap,
            delta: self.delta,
            accepted: !REJECTED & self.accepted,
        }
    }

    /// Whether the move is rejected. A move that proposes no swap is rejected.
    fn is_rejected(&self) -> bool
        ensures { result ≡ not self.now.accepted }
    {
        !self.accepted
    }
}

/// Whether all are rejected. It reads every one, so that the cache lines that another processor wrote are fetched together.
pub(crate) fn are_rejected(foreseen: &[Foreseen]) -> bool
    ensures rejected { result ≡ true → AreRejected foreseen.now }
    ensures all { AreRejected foreseen.now → result ≡ true }
{
    let mut all = true;
    for sight in foreseen {
        all &= sight.is_rejected();
    }
    all
}

/// What is foreseen of a move that proposes no swap.
fn without_swap(proposal: Proposal, words: [u32; 4]) -> Foreseen
    ensures { (result.proposal ≡ proposal) × (result.few ≡ pos 0) × (result.delta ≡ pos 0) ×
        (result.words ≡ words) × (result.accepted ≡ false) }
{
    Foreseen {
        proposal,
        few: 0,
        delta: 0,
        words,
        accepted: false,
        nets: LargeNets::none(),
    }
}

/// Foresees a move of the running stage, by its words. Allocates nothing.
#[inline(always)]
pub(crate) fn foresee<W: Words>(
    given: &Given<'_, W>,
    state: &State,
    number: u64,
    words: [u32; 4],
) -> Foreseen
    requires sound { IsSound (run_for W.moves given.now) state.now }
    requires going { state.now.ended ≡ false }
    requires words { words ≡ W.moves given.now.words number }
    ensures { IsForeseen (run_for W.moves given.now) (standing_of state.now) number result }
{
    let _number = number;
    let view = view_of(given, state);
    let proposal = view.propose(words);
    match proposal {
        Proposal::Nothing => without_swap(proposal, words),
        Proposal::Void(_, _) => without_swap(proposal, words),
        Proposal::Move(swap) => {
            let (few, large) = view
                .cost
                .delta_parts(view.design, view.grid, view.placement, &swap);
            let delta = few + large;
            Foreseen {
                proposal,
                few,
                delta,
                words,
                accepted: accepts(delta, view.t, words[3]),
                nets: LargeNets::of(view.design, view.cost, swap),
            }
        }
    }
}
