//! Snapshots of a run before one of its moves.

ghost use Rattle.std.specs.Prelude.{◌≡◌, ℕ, ◌≤◌, ◌<◌, ◌==◌, if◌then◌else◌, false, length, Some, None, IfOk, OnOk};
ghost use Rattle.fab_arch.specs.declared.array.Site.{Site};
ghost use Rattle.fab_site.specs.Placement.{fixed_at};
ghost use Rattle.fab_commit.specs.Run.Commits.{IsSound, run_for, standing_of};
ghost use Rattle.fab_commit.specs.Run.Points.{IsPoint, standing_at};

use crate::run::state::{Given, State};
use fab_net::BlockId;
use fab_sched::{Schedule, Stage};
use fab_site::{Fixed, Placement, Words};
use std::alloc::{AllocError, Global};

/// A snapshot of a run before one of its moves: everything that a later run needs to go on, except the design, the array and the
/// words.
#[derive(Drop)]
pub struct Point {
    /// How the run cools, and how many moves a stage has.
    pub schedule: Schedule,
    /// The running stage. Some of its moves are left.
    pub stage: Stage,
    /// How many moves were accepted in all.
    pub total: u64,
    /// The blocks that must stay where they are.
    pub fixed: Fixed,
    /// The site of each block.
    pub placement: Placement,
}

/// If `block` is fixed in `fixed`, fixes it in `copy` at the same site.
fn fix_too(fixed: &Fixed, copy: &mut Fixed, block: BlockId) -> Result<(), AllocError>
    requires { fixed_at copy.old block.0 ≡ None }
    ensures { OnOk result ((b : ℕ) →
        fixed_at copy.new b ≡
        (if b == block.0 then fixed_at fixed.now b else fixed_at copy.old b)) }
{
    match fixed.site_of(block) {
        Some(site) => copy.fix(block, site),
        None => Ok(()),
    }
}

/// A copy that fixes the same blocks at the same sites. The blocks have numbers below `blocks`.
fn copy_of_fixed(alloc: Global, fixed: &Fixed, blocks: usize) -> Result<Fixed, AllocError>
    requires few { blocks ≤ 65535 }
    requires within { (b : ℕ) (s : Site) → fixed_at fixed.now b ≡ Some s → b < blocks }
    ensures { IfOk result (λ f. (b : ℕ) → fixed_at f b ≡ fixed_at fixed.now b) }
{
    let mut copy = Fixed::none(alloc);
    // In ascending order, so that no block is inserted before another.
    'each: for block in 0..blocks as u32 {
        fix_too(fixed, &mut copy, BlockId(block))?;
    }
    Ok(copy)
}

/// The snapshot of a run that is not over, from copies of its fixed blocks and of its placement.
fn point_with<W: Words>(
    given: &Given<'_, W>,
    state: &State,
    fixed: Fixed,
    placement: Placement,
) -> Point
    requires sound { IsSound (run_for W.moves given.now) state.now }
    requires going { state.now.ended ≡ false }
    requires fixed { (b : ℕ) → fixed_at fixed b ≡ fixed_at given.now.fixed b }
    requires placement { placement ≡ state.now.placement }
    ensures schedule { result.schedule ≡ given.now.schedule }
    ensures stage { result.stage ≡ state.now.stage }
    ensures fixed { (b : ℕ) → fixed_at result.fixed b ≡ fixed_at given.now.fixed b }
    ensures stands { standing_at result ≡ standing_of state.now }
    ensures lawful { IsPoint given.now.design.now given.now.grid.now result }
{
    Point {
        schedule: given.schedule,
        stage: state.stage,
        total: state.total,
        fixed,
        placement,
    }
}

/// A snapshot of a run that is not over, in the memory of `room`. `room` is a snapshot of a run with the same design, array and fixed
/// blocks. Allocates nothing.
pub(crate) fn point_in<W: Words>(given: &Given<'_, W>, state: &State, room: Point) -> Point
    requires sound { IsSound (run_for W.moves given.now) state.now }
    requires going { state.now.ended ≡ false }
    requires lawful { IsPoint given.now.design.now given.now.grid.now room }
    requires fixed { (b : ℕ) → fixed_at room.fixed b ≡ fixed_at given.now.fixed b }
    ensures schedule { result.schedule ≡ given.now.schedule }
    ensures stage { result.stage ≡ state.now.stage }
    ensures fixed { (b : ℕ) → fixed_at result.fixed b ≡ fixed_at given.now.fixed b }
    ensures stands { standing_at result ≡ standing_of state.now }
    ensures lawful { IsPoint given.now.design.now given.now.grid.now result }
{
    let Point {
        fixed,
        mut placement,
        ..
    } = room;
    placement.copy_from(&state.placement);
    point_with(given, state, fixed, placement)
}

/// A snapshot of a run that is not over.
pub(crate) fn point_of<W: Words>(given: &Given<'_, W>, state: &State) -> Result<Point, AllocError>
    requires sound { IsSound (run_for W.moves given.now) state.now }
    requires going { state.now.ended ≡ false }
    ensures schedule { IfOk result (λ p. p.schedule ≡ given.now.schedule) }
    ensures stage { IfOk result (λ p. p.stage ≡ state.now.stage) }
    ensures fixed { IfOk result (λ p. (b : ℕ) → fixed_at p.fixed b ≡ fixed_at given.now.fixed b) }
    ensures stands { IfOk result (λ p. standing_at p ≡ standing_of state.now) }
    ensures lawful { IfOk result (IsPoint given.now.design.now given.now.grid.now) }
{
    let blocks = given.design.blocks();
    let fixed = copy_of_fixed(given.alloc, &given.fixed, blocks)?;
    let placement = state.placement.copy()?;
    Ok(point_with(given, state, fixed, placement))
}
