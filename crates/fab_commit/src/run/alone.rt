//! Moves that the owner decides itself, each on the live placement. If it counts redone moves, it counts those that turns of the batch would
//! redo.

ghost use Rattle.std.specs.Prelude.{◌≡◌, ◌≤◌, ◌++◌, [], ◌∷◌, false, true, min, MatchResult, Some};
ghost use Rattle.fab_site.specs.Placement.{IsSwapOf};
ghost use Rattle.fab_move.specs.Judge.{IsDecision};
ghost use Rattle.fab_commit.specs.declared.run.alone.OnBase.{OnBase as IsOnBase};
ghost use Rattle.fab_commit.specs.Serial.{judged_here, moves_left};
ghost use Rattle.fab_commit.specs.Run.Stages.{HasForgotten, is_touched_here};
ghost use Rattle.fab_commit.specs.Run.Pipelines.{IsAtTurn};
ghost use Rattle.fab_commit.specs.Run.Commits.{IsSound, run_for, standing_of};
ghost use Rattle.fab_commit.specs.Run.Owners.{HasMadeFrom, IsOwned, MayMake};
ghost use Rattle.fab_commit.specs.Run.Readings.{reading_at};
ghost use Rattle.fab_commit.specs.Model.TurnEvents.{LastTurn};

use crate::run::early_reads::read_early;
use crate::run::numbers::reserve_numbers;
use crate::run::owner::{Owner, make_one};
use crate::run::state::{Given, State, decide_by, moves_left, view_of};
use fab_board::Gate;
use fab_cost::WireCost;
use fab_dial::{Dial, Reading, Shower};
use fab_move::{Decision, LargeNets, weigh};
use fab_site::{Swap, Words};
use std::alloc::AllocError;
use std::sync::Wait;

/// The next `moves` moves. Each counts as judged on the placement after `base` moves, whether a worker judged it or not.
#[derive(Clone, Copy)]
pub(crate) struct OnBase {
    pub(crate) base: u64,
    pub(crate) moves: u64,
}

/// Decides the next move on the live placement, by its words. Returns the decision, and whether a judgement on the placement after `base`
/// moves is stale: whether a move accepted since has touched the move's footprint. If redone moves are not counted, it is not asked for, and
/// the answer is false. Allocates nothing.
#[inline(always)]
pub(crate) fn decided_alone<W: Words, const COUNTED: bool>(
    given: &Given<'_, W>,
    owner: &Owner,
    base: u64,
    words: [u32; 4],
) -> (Decision, bool)
    requires owned { IsOwned (run_for W.moves given.now) owner.now }
    requires going { owner.now.state.ended ≡ false }
    requires words { words ≡ W.moves given.now.words owner.now.state.done }
    ensures again { COUNTED ≡ true →
        result.1 ≡ is_touched_here (run_for W.moves given.now) owner.now base }
    ensures lawful { (s : Swap) → result.0.swap ≡ Some s →
        IsSwapOf given.now.grid.now owner.now.state.placement.sites s }
    ensures decides { IsDecision result.0
        (judged_here (run_for W.moves given.now) (standing_of owner.now.state)
        owner.now.state.done) }
{
    let state = &owner.state;
    if !COUNTED {
        return (decide_by(given, state, state.done, words), false);
    }
    let view = view_of(given, state);
    let proposal = view.propose(words);
    let nets = LargeNets::none();
    let again = owner
        .stamps
        .is_touched(given.design, given.grid, base, proposal, &nets);
    let used = asked_again(&given.words, state.done, words, again);
    (weigh(&view, proposal, used[3]), again)
}

/// The words of move `k`. If the move counts as redone, they are asked for again.
fn asked_again<W: Words>(source: &W, k: u64, words: [u32; 4], again: bool) -> [u32; 4]
    requires { words ≡ W.moves source.now k }
    ensures { result ≡ W.moves source.now k }
{
    if again {
        source.words_again(k, words)
    } else {
        words
    }
}

/// The most moves whose words are made at once.
pub(crate) const AT_ONCE: usize = 32;

/// For how many moves words are made in one call. It is 1 if the gate does something: such a gate may notice that the words of a move are
/// asked for between the calls before and after its judgement.
pub(crate) fn at_once<G: Gate>(gate: &G) -> usize
    ensures { (1 ≤ result) × (result ≤ 32) }
{
    if gate.does_nothing() { AT_ONCE } else { 1 }
}

/// Room for what the owner makes ready for the next moves that it decides itself.
#[derive(Drop)]
pub(crate) struct Ready {
    pub(crate) words: [[u32; 4]; AT_ONCE],
    /// What was read early. It has no meaning, and is kept so that the compiler keeps the reads.
    pub(crate) read: u64,
}

/// Makes the next `due.moves` moves of the running stage. The owner decides each on the live placement, alone or beside a crew. They count
/// as judged on the placement after `due.base` moves. `near` says whether a crew works. The gate is called around each judgement and before
/// each commit; a gate that does nothing gets one call of `before_judge` for moves whose words are made together. Allocates nothing.
pub(crate) fn commit_alone<W: Words, G: Gate, const COUNTED: bool>(
    given: &Given<'_, W>,
    owner: &mut Owner,
    due: OnBase,
    near: bool,
    gate: &G,
    ready: &mut Ready,
)
    requires may { MayMake COUNTED (run_for W.moves given.now) owner.old due.base due.moves }
    ensures { HasMadeFrom COUNTED (run_for W.moves given.now) owner.old due.base due.moves
        owner.new }
{
    let most = at_once(gate) as u64;
    let mut read = ready.read;
    let mut made = 0;
    while made < due.moves {
        let count = (due.moves - made).min(most);
        let some = &mut ready.words[..count as usize];
        gate.before_judge(owner.state.done);
        given.words.fill_words(owner.state.done, some);
        read ^= read_early(given, &owner.state, &*some);
        'moves: for i in 0..some.len() {
            let number = owner.state.done;
            let (decision, again) = decided_alone::<W, COUNTED>(given, owner, due.base, some[i]);
            gate.after_judge(number);
            gate.before_commit(number);
            make_one::<W, COUNTED>(given, owner, &decision, again, near);
        }
        made += count;
    }
    ready.read = read;
}

/// Makes one turn of at most `batch` moves whose redone moves are not counted: no stamp is read or written, and no swap is kept. Afterwards
/// no move counts as judged ahead. An error means that memory ran out; then no move was made.
pub(crate) fn turn_uncounted<W: Words, G: Gate>(
    given: &Given<'_, W>,
    owner: &mut Owner,
    batch: u64,
    gate: &G,
    ready: &mut Ready,
) -> Result<OnBase, AllocError>
    requires at_turn { (t : LastTurn) × (ahead : IsOnBase) ×
        IsAtTurn (run_for W.moves given.now) t owner.old ahead }
    requires batch { (1 ≤ batch) × (batch ≤ 4096) }
    ensures made { MatchResult result
        (HasForgotten (run_for W.moves given.now) owner.old
        (min batch (moves_left (run_for W.moves given.now) (standing_of owner.old.state)))
        owner.new)
        (λ _. HasForgotten (run_for W.moves given.now) owner.old 0 owner.new
        (record { base = owner.old.state.done; moves = 0 })) }
{
    let start = owner.state.done;
    let moves = batch.min(moves_left(&given.schedule, &owner.state));
    owner.swaps.clear();
    reserve_numbers(&mut owner.state.accepted, moves as usize)?;
    let all = OnBase { base: start, moves };
    commit_alone::<W, G, false>(given, owner, all, false, gate, ready);
    let done = owner.state.done;
    Ok(OnBase {
        base: done,
        moves: 0,
    })
}

/// Shows on the dial how far the run has come.
pub(crate) fn show_state<W: Words, R: Wait>(
    rt: &R,
    _given: &Given<'_, W>,
    state: &State,
    dial: &Dial,
    shower: &mut Shower,
)
    requires sound { IsSound (run_for W.moves _given.now) state.now }
    requires own { shower.old.dial ≡ dial.now }
    ensures dial { shower.new.dial ≡ shower.old.dial }
    ensures shown { shower.new.shown ≡
        shower.old.shown ++ reading_at (run_for W.moves _given.now) (standing_of state.now) ∷ [] }
{
    let reading = Reading {
        moves: state.done,
        accepted: state.total,
        cost: state.cost.cost(),
    };
    dial.show(rt, shower, reading);
}
