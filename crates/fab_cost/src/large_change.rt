//! How a swap changes the cost of a large net that the quick test of its box does not exclude. No kept box changes.

ghost use Rattle.std.specs.Prelude.{◌≡◌, ◌≢◌, ℕ, ◌<◌, ◌+◌, ◌^◌, List, [], Some, MatchOption, length, map, slice_index, slice_index_or};
ghost use Rattle.std.specs.List.{sum_by};
ghost use Rattle.fab_arch.specs.declared.array.Site.{Site as ArraySite};
ghost use Rattle.fab_arch.specs.Grid.{GridShape};
ghost use Rattle.fab_net.specs.declared.netlist_types.BlockId.{BlockId as Block};
ghost use Rattle.fab_net.specs.BlockNets.{net_id};
ghost use Rattle.fab_net.specs.Netlist.{nets_of, has_number};
ghost use Rattle.fab_site.specs.Placement.{swapped, IsSwapOf};
ghost use Rattle.fab_cost.specs.Boxes.{Counts, box_of};
ghost use Rattle.fab_cost.specs.Changes.{IsChange, IsPlainAfter, IsPlainSwapped};
ghost use Rattle.fab_cost.specs.Cost.{cost_of, net_box, net_cost};
ghost use Rattle.fab_cost.specs.Edges.{times, counted_box as box_counted};
ghost use Rattle.fab_cost.specs.Runs.{table_of};
ghost use Rattle.fab_cost.specs.SwapViews.{IsPartOf, IsView, sites_after, sites_before};
ghost use Rattle.fab_cost.specs.Swapping.{HaveBoxes, IsPart, blocks_of, cost_unless, has_block, times_other};

use crate::block_nets::{PinCounts, is_left_out, net_of, own_pins, partner_pins, shares_with};
use crate::edge_counts::{CountedBox, ends_after};
use crate::lane_boxes::box_by_lanes;
use crate::net_box::{NetBox, clipped};
use crate::swap_view::{Part, SwapView};
use crate::tally::{NO_TALLY, Tally};
use fab_arch::{Grid, Site};
use fab_net::{BlockId, Design, NetId, Terminal};
use fab_site::{Placement, Swap};
use std::simd::prelude::*;

/// The box after `count` terminals went from `from` to `to`, or `None` if an edge lost its last terminal.
#[tactic(auto, using(crate::proofs::Changes::plain_after))]
#[inline]
fn moved(old: CountedBox, grid: &Grid, from: Site, to: Site, count: u32) -> Option<NetBox>
    requires { 0 < count }
    ensures { MatchOption result (Unit {0}) (λ b.
        IsPlainAfter grid.now old from to count (box_of b)) }
{
    let nx = grid.nx();
    let ny = grid.ny();
    match ends_after(old.x, clipped(nx, from.x), clipped(nx, to.x), count) {
        None => None,
        Some(x) => match ends_after(old.y, clipped(ny, from.y), clipped(ny, to.y), count) {
            None => None,
            Some(y) => Some(NetBox {
                xmin: x.least,
                xmax: x.greatest,
                ymin: y.least,
                ymax: y.greatest,
            }),
        },
    }
}

/// The box of a net after the swap, with `mine` and `others` of its terminals on the swapped blocks; `None` if an edge lost its last
/// terminal. `mine` and `others` must differ.
#[tactic(auto, using(crate::proofs::Changes::plain_on, crate::proofs::Changes::plain_back))]
#[inline]
fn moved_by(old: CountedBox, grid: &Grid, swap: &Swap, mine: u32, others: u32) -> Option<NetBox>
    requires { mine ≢ others }
    ensures { MatchOption result (Unit {0}) (λ b.
        IsPlainSwapped grid.now old swap.now mine others (box_of b)) }
{
    if others < mine {
        match moved(old, grid, swap.from, swap.to, mine - others) {
            None => None,
            Some(after) => Some(after),
        }
    } else {
        match moved(old, grid, swap.to, swap.from, others - mine) {
            None => None,
            Some(after) => Some(after),
        }
    }
}

/// The box of a net after the swap. The net must have more terminals on one of the swapped blocks than on the other.
#[tactic(auto, using(crate::proofs::Changes::plain_given))]
#[inline]
fn new_box(
    view: &SwapView<'_>,
    lanes: &[u16x4],
    old: CountedBox,
    net: NetId,
    shares: PinCounts,
) -> NetBox
    requires view { IsView view.now }
    requires table { lanes.now ≡ table_of view.now.grid.now (sites_before view.now) }
    requires old { old ≡
        box_counted view.now.design.now view.now.grid.now (sites_before view.now) net.0 }
    requires net { Counts view.now.design.now net.0 }
    requires some { shares.mine ≢ shares.others }
    requires mine { shares.mine ≡
        times view.now.swap.now.block.0 (blocks_of view.now.design.now net.0) }
    requires others { shares.others ≡
        times_other view.now.swap.now.other (blocks_of view.now.design.now net.0) }
    ensures { box_of result ≡
        net_box view.now.design.now view.now.grid.now (sites_after view.now) net.0 }
{
    match moved_by(old, view.grid, view.swap, shares.mine, shares.others) {
        Some(after) => after,
        None => box_by_lanes(
            lanes,
            view.design,
            view.grid,
            view.placement,
            view.swap,
            net,
        ),
    }
}

/// The cost of a net of these terminals with the box `new`, after the swap, and with the box `old`, before it.
#[tactic(auto, using(crate::proofs::Making::net_cost_from, crate::proofs::Nets::counted_cost_from, crate::proofs::Making::terminals_some, crate::proofs::Bounds::terminals_few))]
fn tally_of_boxes(
    design: &Design,
    net: NetId,
    terminals: &[Terminal],
    old: CountedBox,
    new: NetBox,
) -> Tally
    requires net { Counts design.now net.0 }
    requires terminals { terminals.now ≡ slice_index_or design.now.terminals net.0 [] }
    ensures gained { (g : GridShape) (sites : List ArraySite) →
        box_of new ≡ net_box design.now g sites net.0 →
        result.gained ≡ net_cost design.now g sites net.0 }
    ensures lost { (g : GridShape) (sites : List ArraySite) →
        old ≡ box_counted design.now g sites net.0 →
        result.lost ≡ net_cost design.now g sites net.0 }
{
    let _nets = design.nets();
    let count = terminals.len() as u32;
    Tally {
        gained: new.cost(count),
        lost: old.cost(count),
    }
}

/// How the swap changes the cost of net `i` of a block; nothing if it is also a net of the block `but`.
#[tactic(auto, using(crate::proofs::Changes::left_out, crate::proofs::Changes::still, crate::proofs::Changes::changed))]
pub(crate) fn change_of_large_net(
    view: &SwapView<'_>,
    lanes: &[u16x4],
    old: CountedBox,
    part: Part,
    i: usize,
) -> Tally
    requires view { IsView view.now }
    requires part { IsPartOf view.now part }
    requires table { lanes.now ≡ table_of view.now.grid.now (sites_before view.now) }
    requires old { old ≡
        box_counted view.now.design.now view.now.grid.now (sites_before view.now)
        (slice_index (nets_of view.now.design.now part.block.0) i) }
    requires within { i < length (nets_of view.now.design.now part.block.0) }
    ensures { IsChange
        (cost_unless view.now.design.now view.now.grid.now (sites_before view.now) part.but
        (slice_index (nets_of view.now.design.now part.block.0) i))
        (cost_unless view.now.design.now view.now.grid.now (sites_after view.now) part.but
        (slice_index (nets_of view.now.design.now part.block.0) i)) result.gained result.lost }
{
    let _nets = view.design.nets();
    let net = net_of(view.design, part.block, i);
    let own = own_pins(view.design, part.block, i);
    let beside = partner_pins(view.design, view.swap, part.block, part.but, i);
    let shares = shares_with(view.swap, part.block, part.but, own, beside);
    if is_left_out(part.but, shares) {
        return NO_TALLY;
    }
    if shares.mine == shares.others {
        return NO_TALLY;
    }
    let new = new_box(view, lanes, old, net, shares);
    tally_of_boxes(view.design, net, view.design.terminals(net), old, new)
}
