//! The owner of the live placement, which commits moves in order of number.

ghost use Rattle.std.specs.Prelude.{◌≡◌, ℕ, ◌+◌, ◌^◌, ◌<◌, List, ◌++◌, false, true, Some, IfSome};
ghost use Rattle.fab_sched.specs.Annealing.{IsLawful};
ghost use Rattle.fab_site.specs.Placement.{IsSwapOf};
ghost use Rattle.fab_cost.specs.Swapping.{IsMadeFor};
ghost use Rattle.fab_move.specs.Judge.{IsDecision, Judged};
ghost use Rattle.fab_commit.specs.Serial.{judged_here, one_if};
ghost use Rattle.fab_commit.specs.Run.Commits.{run_for, standing_of};
ghost use Rattle.fab_commit.specs.Run.Owners.{HasRoom, IsOwned, Makes};
ghost use Rattle.fab_commit.specs.Model.Stamps.{AreStamps};
ghost use Rattle.fab_move.specs.StampTables.{IsTable, IsWithin};
ghost use Rattle.fab_commit.specs.Model.Stamps.{AreBefore};
ghost use Rattle.fab_commit.specs.Model.World.{accepted_now};

use crate::run::state::{Given, State, commit};
use crate::run::swaps::{Accepted, enter};
use fab_cost::EdgeBoxes;
use fab_move::{Decision, Stamps};
use fab_site::{Swap, Words};

/// What the owner of the live placement keeps.
pub(crate) struct Owner {
    pub(crate) state: State,
    /// The swaps that the running turn accepted; between turns, those of the last turn.
    pub(crate) swaps: Vec<Accepted>,
    pub(crate) stamps: Stamps,
    /// How many moves were redone.
    pub(crate) redone: u64,
}

impl Drop for Owner {
    // This is one call wherever a value goes out of scope. A derived `drop` would be proved again at each place.
    fn drop(self) {
        let Owner {
            state: _,
            swaps: _,
            stamps: _,
            redone: _,
        } = self;
    }
}

impl Owner {
    /// The state that is owned.
    pub(crate) fn into_state(self) -> State
        ensures { result ≡ self.state }
    {
        let Owner {
            state,
            swaps: _,
            stamps: _,
            redone: _,
        } = self;
        state
    }
}

/// Stamps what a move touches, if it is accepted. Beside a crew, `near` is the wire cost.
#[inline(always)]
pub(crate) fn stamp<W: Words>(
    given: &Given<'_, W>,
    stamps: &mut Stamps,
    number: u64,
    decision: &Decision,
    near: Option<&EdgeBoxes>,
)
    requires table { IsTable given.now.design.now given.now.grid.now stamps.old }
    requires near { IfSome near (λ b. IsMadeFor b.now given.now.design.now) }
    requires within { (s : Swap) → decision.now.swap ≡ Some s →
        IsWithin given.now.design.now given.now.grid.now s }
    requires number { number < 2 ^ 61 }
    ensures table { IsTable given.now.design.now given.now.grid.now stamps.new }
    ensures stamped { (j : Judged) → IsDecision decision.now j → (log : List Accepted) →
        AreBefore number log → AreStamps given.now.design.now given.now.grid.now stamps.old log →
        AreStamps given.now.design.now given.now.grid.now stamps.new
        (log ++ accepted_now number j) }
{
    if !decision.accepted {
        return;
    }
    if let Some(swap) = decision.swap {
        stamps.touch(given.design, given.grid, &swap, number + 1, near);
    }
}

/// The cost, if it is wanted.
fn cost_if(cost: &EdgeBoxes, wanted: bool) -> Option<&EdgeBoxes>
    ensures { IfSome result (λ b. b.now ≡ cost.now) }
{
    if wanted { Some(cost) } else { None }
}

/// Makes a move that is decided. If redone moves are counted (`COUNTED`), notes its swap, stamps what it touches, and counts it if it was
/// redone (`again`). `near` says whether a crew works. Allocates nothing.
#[inline(always)]
pub(crate) fn make_one<W: Words, const COUNTED: bool>(
    given: &Given<'_, W>,
    owner: &mut Owner,
    decision: &Decision,
    again: bool,
    near: bool,
)
    requires plan { IsLawful given.now.schedule }
    requires owned { IsOwned (run_for W.moves given.now) owner.old }
    requires going { owner.old.state.ended ≡ false }
    requires room { HasRoom COUNTED owner.old 1 }
    requires lawful { (s : Swap) → decision.now.swap ≡ Some s →
        IsSwapOf given.now.grid.now owner.old.state.placement.sites s }
    requires decides { IsDecision decision.now
        (judged_here (run_for W.moves given.now) (standing_of owner.old.state)
        owner.old.state.done) }
    ensures made { Makes COUNTED (run_for W.moves given.now) owner.old 1 owner.new }
    ensures redone { COUNTED ≡ true → owner.new.redone ≡ owner.old.redone + one_if again }
    ensures room { (n : ℕ) → HasRoom COUNTED owner.old (n + 1) → HasRoom COUNTED owner.new n }
{
    if !COUNTED {
        commit(given, &mut owner.state, decision);
        return;
    }
    let number = owner.state.done;
    enter(&mut owner.swaps, number, decision);
    let cost = cost_if(&owner.state.cost, near);
    stamp(given, &mut owner.stamps, number, decision, cost);
    commit(given, &mut owner.state, decision);
    owner.redone += u64::from(again);
}
