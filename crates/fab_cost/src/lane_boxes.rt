//! The box of a net after a swap, computed from the lanes of its blocks, for a judgement. No kept box changes.

ghost use Rattle.std.specs.Prelude.{◌≡◌, ◌<◌, List, [], map, length, take, slice_index_or};
ghost use Rattle.std.specs.List.{All};
ghost use Rattle.fab_arch.specs.declared.array.Site.{Site as ArraySite};
ghost use Rattle.fab_arch.specs.Grid.{GridShape};
ghost use Rattle.fab_net.specs.Netlist.{block_on};
ghost use Rattle.fab_site.specs.Placement.{site_of, swapped, IsSwapOf};
ghost use Rattle.fab_cost.specs.Boxes.{Counts, box_of};
ghost use Rattle.fab_cost.specs.Cost.{box_on, net_box};
ghost use Rattle.fab_cost.specs.Runs.{lanes_at, lanes_in, least_among, table_of};
ghost use Rattle.fab_cost.specs.Swapping.{ComesBack};

use crate::lanes::{joined, lanes_of, nowhere};
use crate::net_box::NetBox;
use crate::swapped_site::comes_back;
use fab_arch::Grid;
use fab_net::{BlockId, Design, NetId, Terminal};
use fab_site::{Placement, Swap};
use std::simd::prelude::*;

/// The lanes of `block` after the swap. The swap's block goes to the lanes `to`, and the block `back` to the lanes `from`.
#[tactic(auto, using(crate::proofs::LaneBoxes::moved, crate::proofs::LaneBoxes::back, crate::proofs::LaneBoxes::still))]
#[inline(always)]
fn lanes_swapped(
    lanes: &[u16x4],
    swap: &Swap,
    back: BlockId,
    to: u16x4,
    from: u16x4,
    block: BlockId,
) -> u16x4
    requires within { block.0 < length lanes.now }
    requires back { ComesBack swap.now.block swap.now.other back }
    ensures { (g : GridShape) (sites : List ArraySite) → IsSwapOf g sites swap.now →
        lanes.now ≡ table_of g sites → to ≡ lanes_at g swap.now.to →
        from ≡ lanes_at g swap.now.from → block.0 < length sites →
        result ≡ lanes_in g (swapped sites swap.now) block.0 }
{
    let here = lanes[block.0 as usize];
    if block == swap.block {
        to
    } else if block == back {
        from
    } else {
        here
    }
}

/// The lane-wise minimum of the terminals' lanes after the swap.
#[tactic(auto, using(crate::proofs::LaneBoxes::low, crate::proofs::LaneBoxes::none, crate::proofs::LaneBoxes::all))]
#[inline(always)]
fn around_swapped(
    lanes: &[u16x4],
    grid: &Grid,
    placement: &Placement,
    swap: &Swap,
    terminals: &[Terminal],
) -> u16x4
    requires table { lanes.now ≡ table_of grid.now placement.now.sites }
    requires within { All (λ t. t.block.0 < length placement.now.sites) terminals.now }
    requires lawful { IsSwapOf grid.now placement.now.sites swap.now }
    ensures { result ≡
        least_among (lanes_in grid.now (swapped placement.now.sites swap.now))
        (map block_on terminals.now) }
{
    let back = comes_back(swap);
    let to = lanes_of(grid, swap.to);
    let from = lanes_of(grid, swap.from);
    let mut all = nowhere();
    'terminals: for i in 0..terminals.len() {
        let one = lanes_swapped(lanes, swap, back, to, from, terminals[i].block);
        all = joined(all, one);
    }
    all
}

/// The box of the net after the swap.
pub(crate) fn box_by_lanes(
    lanes: &[u16x4],
    design: &Design,
    grid: &Grid,
    placement: &Placement,
    swap: &Swap,
    net: NetId,
) -> NetBox
    requires table { lanes.now ≡ table_of grid.now placement.now.sites }
    requires net { Counts design.now net.0 }
    requires lawful { IsSwapOf grid.now placement.now.sites swap.now }
    requires whole { length design.now.kinds ≡ length placement.now.sites }
    ensures { box_of result ≡
        net_box design.now grid.now (swapped placement.now.sites swap.now) net.0 }
{
    let _nx = grid.nx();
    let _ny = grid.ny();
    let _nets = design.nets();
    let terminals = design.terminals(net);
    let all = around_swapped(lanes, grid, placement, swap, terminals).to_array();
    NetBox {
        xmin: all[0],
        xmax: 1001u16.saturating_sub(all[1]),
        ymin: all[2],
        ymax: 1001u16.saturating_sub(all[3]),
    }
}
