//! The moves of a sheet: the owner makes each as a worker foresaw it, or decides it again.

ghost use Rattle.std.specs.Prelude.{◌≡◌, false, true, length, slice_index, Some};
ghost use Rattle.fab_sched.specs.Annealing.{IsLawful};
ghost use Rattle.fab_site.specs.Placement.{IsSwapOf};
ghost use Rattle.fab_move.specs.Judge.{IsDecision};
ghost use Rattle.fab_commit.specs.Serial.{judged_here};
ghost use Rattle.fab_commit.specs.Run.Stages.{is_touched_here};
ghost use Rattle.fab_commit.specs.Run.Commits.{IsSound, run_for, standing_of};
ghost use Rattle.fab_commit.specs.Run.Owners.{AreOpen, HasMadeFrom, IsOwned, MayMake};
ghost use Rattle.fab_commit.specs.Run.Foreseen.{AreForeseen, AreRejected, IsForeseen, IsStill};

use crate::run::foreseen::{Foreseen, are_rejected};
use crate::run::owner::{Owner, make_one};
use crate::run::state::{Given, State, decide_by};
use fab_board::Gate;
use fab_move::{Decision, Proposal, accepts};
use fab_site::{Swap, Words};

/// Decides the next move. By contract it still proposes `swap`, as was foreseen, and its nets with few terminals still change by `few`.
/// Only the change of nets with many terminals is computed. `word` decides whether the swap is accepted.
fn decided_by_large<W: Words>(
    given: &Given<'_, W>,
    state: &State,
    few: i64,
    swap: Swap,
    word: u32,
) -> Decision
    requires sound { IsSound (run_for W.moves given.now) state.now }
    requires going { state.now.ended ≡ false }
    requires word { word ≡ slice_index (W.moves given.now.words state.now.done) 3 }
    requires still { IsStill (run_for W.moves given.now) (standing_of state.now) state.now.done few
        swap }
    ensures lawful { (s : Swap) → result.swap ≡ Some s →
        IsSwapOf given.now.grid.now state.now.placement.sites s }
    ensures decides { IsDecision result
        (judged_here (run_for W.moves given.now) (standing_of state.now) state.now.done) }
{
    let large = state
        .cost
        .delta_of_large(given.design, given.grid, &state.placement, &swap);
    let delta = few + large;
    Decision {
        swap: Some(swap),
        delta,
        accepted: accepts(delta, state.stage.t, word),
    }
}

/// Redoes the next move on the live placement, because an accepted move has touched its footprint. If only nets with many terminals were
/// touched, only their change is computed. The move's words count as asked for once more.
fn decided_again<W: Words>(
    given: &Given<'_, W>,
    owner: &Owner,
    base: u64,
    foreseen: &Foreseen,
) -> Decision
    requires owned { IsOwned (run_for W.moves given.now) owner.now }
    requires going { owner.now.state.ended ≡ false }
    requires due { (due : AreOpen (run_for W.moves given.now) owner.now base 1) ×
        IsForeseen (run_for W.moves given.now) due.start owner.now.state.done foreseen.now }
    ensures lawful { (s : Swap) → result.swap ≡ Some s →
        IsSwapOf given.now.grid.now owner.now.state.placement.sites s }
    ensures decides { IsDecision result
        (judged_here (run_for W.moves given.now) (standing_of owner.now.state)
        owner.now.state.done) }
{
    let state = &owner.state;
    let words = given.words.words_again(state.done, foreseen.words);
    if let Proposal::Move(swap) = foreseen.proposal {
        let stamps = &owner.stamps;
        if !stamps.is_swap_touched_in_few(given.design, given.grid, base, swap) {
            return decided_by_large(given, state, foreseen.few, swap, words[3]);
        }
    }
    decide_by(given, state, state.done, words)
}

/// Decides the next move. Takes what was foreseen on the placement after `base` moves, or redoes the move if that is stale. Returns the
/// decision, and whether the move was redone. The gate's call before the commit comes first. Allocates nothing.
#[inline(always)]
fn decided_followed<W: Words, G: Gate, const REJECTED: bool>(
    given: &Given<'_, W>,
    owner: &Owner,
    base: u64,
    foreseen: &Foreseen,
    gate: &G,
) -> (Decision, bool)
    requires plan { IsLawful given.now.schedule }
    requires rejected { REJECTED ≡ true → foreseen.now.accepted ≡ false }
    requires owned { IsOwned (run_for W.moves given.now) owner.now }
    requires going { owner.now.state.ended ≡ false }
    requires due { (due : AreOpen (run_for W.moves given.now) owner.now base 1) ×
        IsForeseen (run_for W.moves given.now) due.start owner.now.state.done foreseen.now }
    ensures again { result.1 ≡ is_touched_here (run_for W.moves given.now) owner.now base }
    ensures lawful { (s : Swap) → result.0.swap ≡ Some s →
        IsSwapOf given.now.grid.now owner.now.state.placement.sites s }
    ensures decides { IsDecision result.0
        (judged_here (run_for W.moves given.now) (standing_of owner.now.state)
        owner.now.state.done) }
{
    gate.before_commit(owner.state.done);
    let stamps = &owner.stamps;
    let proposal = foreseen.proposal;
    let again = stamps.is_touched(given.design, given.grid, base, proposal, &foreseen.nets);
    if again {
        (decided_again(given, owner, base, foreseen), true)
    } else {
        (foreseen.decision::<REJECTED>(), false)
    }
}

/// Makes the next moves of the running stage, given what was foreseen of each on the placement after `base` moves. If `REJECTED`, all of
/// them are foreseen as rejected. Allocates nothing.
fn commit_sheet<W: Words, G: Gate, const REJECTED: bool>(
    given: &Given<'_, W>,
    owner: &mut Owner,
    foreseen: &[Foreseen],
    base: u64,
    gate: &G,
)
    requires rejected { REJECTED ≡ true → AreRejected foreseen.now }
    requires may { MayMake true (run_for W.moves given.now) owner.old base (length foreseen.now) }
    requires due { (due : AreOpen (run_for W.moves given.now) owner.old base
        (length foreseen.now)) ×
        AreForeseen (run_for W.moves given.now) due.start owner.old.state.done foreseen.now }
    ensures { HasMadeFrom true (run_for W.moves given.now) owner.old base (length foreseen.now)
        owner.new }
{
    for sight in foreseen {
        let (decision, again) = decided_followed::<W, G, REJECTED>(given, owner, base, sight, gate);
        make_one::<W, true>(given, owner, &decision, again, true);
    }
}

/// Makes the next moves of the running stage, given what was foreseen of each on the placement after `base` moves. In a cold stage, all of
/// them are foreseen as rejected in most cases. Allocates nothing.
#[inline(always)]
pub(crate) fn commit_foreseen<W: Words, G: Gate>(
    given: &Given<'_, W>,
    owner: &mut Owner,
    foreseen: &[Foreseen],
    base: u64,
    gate: &G,
)
    requires may { MayMake true (run_for W.moves given.now) owner.old base (length foreseen.now) }
    requires due { (due : AreOpen (run_for W.moves given.now) owner.old base
        (length foreseen.now)) ×
        AreForeseen (run_for W.moves given.now) due.start owner.old.state.done foreseen.now }
    ensures { HasMadeFrom true (run_for W.moves given.now) owner.old base (length foreseen.now)
        owner.new }
{
    if are_rejected(foreseen) {
        commit_sheet::<W, G, true>(given, owner, foreseen, base, gate);
    } else {
        commit_sheet::<W, G, false>(given, owner, foreseen, base, gate);
    }
}
