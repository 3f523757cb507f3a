//! How a swap changes the cost of nets with few terminals. It is two steps of one block each; in the second step the first block is at its
//! new site. The lane-wise minimum of the other blocks' lanes is their box, and the block's own lanes extend it.

ghost use Rattle.std.specs.Prelude.{◌≡◌, ℕ, ◌<◌, ◌≤◌, ◌+◌, ◌^◌, List, IfOk, Some, length, slice_set};
ghost use Rattle.fab_net.specs.declared.netlist_types.BlockId.{BlockId as Block};
ghost use Rattle.std.specs.List.{All};
ghost use Rattle.fab_arch.specs.declared.array.Site.{Site as ArraySite};
ghost use Rattle.fab_net.specs.Netlist.{nets_of};
ghost use Rattle.fab_site.specs.Placement.{swapped, IsSwapOf};
ghost use Rattle.fab_cost.specs.Runs.{AreSeen, HasRecords, IsStep, counted_over, few_all, few_cost, positions_in, table_from, table_of};
ghost use Rattle.fab_cost.specs.Swapping.{Position, positions_after};

use crate::edge_counts::{CountedBox, Edges, NOTHING};
use crate::lanes::{lanes_of, nowhere};
use crate::records::{Moved, NO_BLOCK, change_of_records};
use crate::runs::Runs;
use crate::tally::{Tally, plus};
use fab_arch::{Grid, Site};
use fab_net::{BlockId, Design};
use fab_site::{Placement, Swap};
use std::alloc::{AllocError, Global};
use std::simd::prelude::*;

/// The lanes of each block, and at the end those for no block.
#[tactic(auto, using(crate::proofs::Steps::table_start, crate::proofs::Steps::table_more, crate::proofs::Steps::table_done))]
pub(crate) fn lanes_for(
    alloc: Global,
    grid: &Grid,
    placement: &Placement,
) -> Result<Vec<u16x4>, AllocError>
    requires { length placement.now.sites ≤ 65535 }
    ensures { IfOk result (λ t. t.items ≡ table_of grid.now placement.now.sites) }
{
    let mut lanes = Vec::with_capacity(alloc, placement.blocks() + 1)?;
    'blocks: for number in 0..placement.blocks() {
        let site = placement.site_of(BlockId(number as u32));
        lanes.push(lanes_of(grid, site))?;
    }
    lanes.push(nowhere())?;
    Ok(lanes)
}

/// A block that goes from one site to another.
#[derive(Clone, Copy)]
struct Step {
    block: BlockId,
    from: Site,
    to: Site,
}

/// How the cost of a block's small nets changes by its step. The block of `moved`, if there is one, has other lanes than the table's.
#[tactic(auto, using(crate::proofs::Steps::rows_few, crate::proofs::Steps::rows_within, crate::proofs::Steps::lanes_low))]
#[inline(always)]
fn change_of_step(
    lanes: &[u16x4],
    runs: &Runs,
    design: &Design,
    grid: &Grid,
    moved: &Moved,
    step: &Step,
) -> Tally
    requires records { HasRecords runs.now design.now }
    requires table { length lanes.now ≡ length design.now.kinds + 1 }
    requires block { step.now.block.0 < length design.now.kinds }
    ensures step { (sites : List ArraySite) → length design.now.kinds ≡ length sites →
        AreSeen grid.now sites lanes.now moved.now.block moved.now.place →
        IsStep (few_cost design.now grid.now (slice_set sites step.now.block.0 step.now.from)
        (nets_of design.now step.now.block.0))
        (few_cost design.now grid.now (slice_set sites step.now.block.0 step.now.to)
        (nets_of design.now step.now.block.0)) result.gained result.lost }
    ensures gained { result.gained < 2 ^ 48 }
    ensures lost { result.lost < 2 ^ 48 }
{
    let _nx = grid.nx();
    let _ny = grid.ny();
    let _blocks = design.blocks();
    let base = lanes_of(grid, step.from);
    let target = lanes_of(grid, step.to);
    let row = step.block.0 as usize;
    let one = change_of_records(lanes, moved, base, target, runs.rows.small_row(row));
    let two = change_of_records(lanes, moved, base, target, runs.rows.middle_row(row));
    let three = change_of_records(lanes, moved, base, target, runs.rows.wide_row(row));
    plus(one, plus(two, three))
}

/// How the swap changes the cost of the small nets: first its block goes, then the other. In the first step no block has other lanes than
/// the table's: a block's records do not contain the block itself.
#[inline(always)]
#[tactic(auto, using(crate::proofs::Sited::block_below, crate::proofs::Steps::few_none, crate::proofs::Steps::few_some))]
pub(crate) fn change_of_small(
    lanes: &[u16x4],
    runs: &Runs,
    design: &Design,
    grid: &Grid,
    placement: &Placement,
    swap: &Swap,
) -> Tally
    requires records { HasRecords runs.now design.now }
    requires table { lanes.now ≡ table_of grid.now placement.now.sites }
    requires lawful { IsSwapOf grid.now placement.now.sites swap.now }
    requires whole { length design.now.kinds ≡ length placement.now.sites }
    ensures balance { few_all design.now grid.now (swapped placement.now.sites swap.now) +
        result.lost ≡ few_all design.now grid.now placement.now.sites + result.gained }
    ensures gained { result.gained < 2 ^ 49 }
    ensures lost { result.lost < 2 ^ 49 }
{
    let _blocks = design.blocks();
    let going = Step {
        block: swap.block,
        from: swap.from,
        to: swap.to,
    };
    let nobody = Moved {
        block: NO_BLOCK,
        place: nowhere(),
    };
    let first = change_of_step(lanes, runs, design, grid, &nobody, &going);
    match swap.other {
        None => first,
        Some(other) => {
            let coming = Step {
                block: other,
                from: swap.to,
                to: swap.from,
            };
            let gone = Moved {
                block: swap.block.0,
                place: lanes_of(grid, swap.to),
            };
            plus(
                first,
                change_of_step(lanes, runs, design, grid, &gone, &coming),
            )
        }
    }
}

/// Gives the swap's blocks their new positions.
pub(crate) fn renew_lanes(lanes: &mut Vec<u16x4>, grid: &Grid, swap: &Swap)
    requires block { swap.now.block.0 + 1 < length lanes.old.items }
    requires other { (b : Block) → swap.now.other ≡ Some b → b.0 + 1 < length lanes.old.items }
    ensures swapped { (sites : List ArraySite) → IsSwapOf grid.now sites swap.now →
        lanes.old.items ≡ table_of grid.now sites →
        lanes.new.items ≡ table_of grid.now (swapped sites swap.now) }
    ensures table { (positions : List Position) → lanes.old.items ≡ table_from positions →
        lanes.new.items ≡ table_from (positions_after grid.now positions swap.now) }
{
    lanes[swap.block.0 as usize] = lanes_of(grid, swap.to);
    if let Some(other) = swap.other {
        lanes[other.0 as usize] = lanes_of(grid, swap.from);
    }
}

/// The box of some blocks, with the number of blocks on each edge.
#[tactic(auto, using(crate::proofs::Over::table_low, crate::proofs::Over::edges_few, crate::proofs::Over::box_whole))]
pub(crate) fn box_over(lanes: &[u16x4], blocks: &[u16]) -> CountedBox
    requires table { lanes.now ≡ table_from (positions_in lanes.now) }
    requires within { All (λ k. k < length (positions_in lanes.now)) blocks.now }
    requires few { length blocks.now ≤ 16 }
    ensures { result ≡ counted_over (positions_in lanes.now) blocks.now }
{
    if blocks.is_empty() {
        return NOTHING;
    }
    let first = lanes[blocks[0] as usize].to_array();
    let mut x = Edges::one(first[0]);
    let mut y = Edges::one(first[2]);
    'blocks: for i in 1..blocks.len() {
        let one = lanes[blocks[i] as usize].to_array();
        x = x.with(one[0]);
        y = y.with(one[2]);
    }
    CountedBox { x, y }
}
