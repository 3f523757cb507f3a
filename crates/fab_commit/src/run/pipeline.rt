//! What an annealer keeps between turns.

ghost use Rattle.std.specs.Prelude.{◌≡◌, ◌≤◌, [], true, length, IfOk, OnOk};
ghost use Rattle.fab_sched.specs.Annealing.{IsLawful};
ghost use Rattle.fab_commit.specs.Serial.{Run};
ghost use Rattle.fab_commit.specs.Run.Commits.{IsSound, run_for, standing_of};
ghost use Rattle.fab_commit.specs.Run.Owners.{HasMade, HasRoom, IsOwned};
ghost use Rattle.fab_commit.specs.Run.Stages.{HasGone};
ghost use Rattle.fab_commit.specs.Run.Pipelines.{IsAtTurn, IsAfter};
ghost use Rattle.fab_commit.specs.Model.TurnEvents.{LastTurn, no_turn};

use crate::run::alone::{AT_ONCE, Ready};
use crate::run::foreseen::Foreseen;
use crate::run::numbers::reserve_numbers;
use crate::run::owner::Owner;
use crate::run::state::{Given, State};
use fab_move::{Stamps, Verdict};
use fab_site::Words;
use std::alloc::AllocError;

/// What an annealer keeps: the live placement with its owner, and what was judged ahead on the placement at the start of the last turn.
pub(crate) struct Pipeline {
    pub(crate) owner: Owner,
    /// The verdicts that were judged ahead.
    pub(crate) ahead: Vec<Verdict>,
    /// The same judgements as they were foreseen. The next single turn makes its first moves by them.
    pub(crate) foreseen: Vec<Foreseen>,
    /// How many moves were made in the placement that `ahead` was judged on.
    pub(crate) base: u64,
    pub(crate) ready: Ready,
}

impl Drop for Pipeline {
    // This is one call wherever a value goes out of scope. A derived `drop` would be proved again at each place.
    fn drop(self) {
        let Pipeline {
            owner: _,
            ahead: _,
            foreseen: _,
            base: _,
            ready: _,
        } = self;
    }
}

impl Pipeline {
    /// The owner of the live placement.
    pub(crate) fn into_owner(self) -> Owner
        ensures { result ≡ self.owner }
    {
        let Pipeline {
            owner,
            ahead: _,
            foreseen: _,
            base: _,
            ready: _,
        } = self;
        owner
    }
}

/// The pipeline where a run begins or goes on: nothing is judged ahead.
pub(crate) fn first_pipeline<W: Words>(
    given: &Given<'_, W>,
    live: State,
) -> Result<Pipeline, AllocError>
    requires plan { IsLawful given.now.schedule }
    requires sound { IsSound (run_for W.moves given.now) live }
    ensures behind { IfOk result (λ s.
        IsAfter (run_for W.moves given.now) (no_turn (standing_of live)) s) }
    ensures told { IfOk result (λ s.
        (s.ahead.items ≡ []) × (s.owner.swaps.items ≡ []) × (s.owner.state ≡ live) ×
        (s.owner.redone ≡ 0)) }
{
    let alloc = given.alloc;
    let base = live.done;
    let stamps = Stamps::new(alloc, given.design, given.grid)?;
    let owner = Owner {
        state: live,
        swaps: Vec::new(alloc),
        stamps,
        redone: 0,
    };
    Ok(Pipeline {
        owner,
        ahead: Vec::new(alloc),
        foreseen: Vec::new(alloc),
        base,
        ready: Ready {
            words: [[0u32; 4]; AT_ONCE],
            read: 0,
        },
    })
}

/// Reserves room for `moves` accepted moves.
pub(crate) fn reserve(owner: &mut Owner, moves: u64) -> Result<(), AllocError>
    requires { moves ≤ 4096 }
    ensures same { (r : Run) → IsOwned r owner.old → HasMade r owner.old 0 owner.new }
    ensures done { owner.new.state.done ≡ owner.old.state.done }
    ensures stands { standing_of owner.new.state ≡ standing_of owner.old.state }
    ensures redone { owner.new.redone ≡ owner.old.redone }
    ensures stamps { owner.new.stamps ≡ owner.old.stamps }
    ensures room { OnOk result (HasRoom true owner.new moves) }
{
    reserve_numbers(&mut owner.state.accepted, moves as usize)?;
    owner.swaps.reserve(moves as usize)?;
    Ok(())
}

/// Ends a turn that makes no move: none is left, or memory ran out before the first one. Nothing is judged ahead afterwards.
pub(crate) fn cut_turn<W: Words>(_given: &Given<'_, W>, pipeline: &mut Pipeline)
    ensures gone { (t : LastTurn) →
        IsAtTurn (run_for W.moves _given.now) t pipeline.old.owner
        (record { base = pipeline.old.base; moves = length pipeline.old.ahead.items }) →
        HasGone (run_for W.moves _given.now) t pipeline.old.owner 0 0 pipeline.new.owner
        (record { base = pipeline.new.base; moves = 0 }) }
    ensures same { pipeline.new.owner.state ≡ pipeline.old.owner.state }
    ensures none { (pipeline.new.ahead.items ≡ []) × (pipeline.new.foreseen.items ≡ []) }
{
    pipeline.base = pipeline.owner.state.done;
    pipeline.owner.swaps.clear();
    pipeline.ahead.clear();
    pipeline.foreseen.clear();
}
