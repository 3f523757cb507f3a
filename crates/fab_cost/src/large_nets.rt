//! The nets with many terminals, whose boxes are kept with edge counts: how a swap changes their cost, and (by `renew_large`) their boxes.

ghost use Rattle.std.specs.Prelude.{◌≡◌, ◌≢◌, ℕ, ◌<◌, ◌≤◌, ◌+◌, ◌^◌, ◌||◌, ◌==◌, true, false, if◌then◌else◌, List, length, map, take, IfOk, Some, slice_index, slice_index_or, slice_set};
ghost use Rattle.std.specs.List.{All, list_any, sum_by};
ghost use Rattle.fab_arch.specs.declared.array.Site.{Site as ArraySite};
ghost use Rattle.fab_arch.specs.Grid.{GridShape};
ghost use Rattle.fab_net.specs.declared.netlist_types.BlockId.{BlockId as Block};
ghost use Rattle.fab_net.specs.declared.netlist_types.NetId.{NetId as Net};
ghost use Rattle.fab_net.specs.Netlist.{nets_of, has_number};
ghost use Rattle.fab_site.specs.Placement.{swapped, IsSwapOf};
ghost use Rattle.fab_cost.specs.Boxes.{Counts};
ghost use Rattle.fab_cost.specs.Changes.{IsChange};
ghost use Rattle.fab_cost.specs.Cost.{cost_of, net_cost};
ghost use Rattle.fab_cost.specs.Edges.{times, counted_box as box_counted};
ghost use Rattle.fab_cost.specs.Runs.{AreInner, AreLarge, AreMost, HasRecords, inner_lanes, large_of, reach_lanes, table_of};
ghost use Rattle.fab_cost.specs.SwapViews.{AreRenewedIf, AreRenewedTo, IsPartOf, IsView, cost_after, cost_before, cost_of_large, nets_in, sites_after, sites_before};
ghost use Rattle.fab_cost.specs.Swapping.{AreRenewed, HaveBoxes, IsPart, blocks_of, cost_unless, counted_at, counted_blocks, has_block, is_on_swap, times_other};

use crate::block_nets::{PinCounts, is_left_out, net_of, own_pins, partner_pins, shares_with};
use crate::counted_box::{counted_box, swapped_box};
use crate::edge_counts::{CountedBox, NOTHING};
use crate::lanes::{edge_lanes_of, holds, inner_lanes_of, reach_of, surrounds};
use crate::large_change::change_of_large_net;
use crate::most_pins::most_pins;
use crate::runs::{Runs, WIDE};
use crate::swap_view::{Part, SwapView};
use crate::tally::{NO_TALLY, Tally, plus};
use fab_arch::Grid;
use fab_net::{BlockId, Design, NetId};
use fab_site::{Placement, Swap};
use std::alloc::{AllocError, Global};
use std::simd::prelude::*;

/// By net number: the box of each large net and its edges as lanes, and a placeholder for every other net.
pub(crate) struct LargeBoxes {
    pub(crate) boxes: Vec<CountedBox>,
    /// The most terminals that one block has on the net.
    pub(crate) most: Vec<u32>,
    /// The edges as lanes. A lane is 1 less if the edge has more terminals than one block can take away.
    inner: Vec<u16x4>,
    ghost alike: { AreInner inner.items most.items boxes.items },
}

impl Drop for LargeBoxes {
    // A `drop` by hand is proved once; a derived `drop` is proved again wherever a value goes out of scope.
    fn drop(self) {
        let LargeBoxes {
            boxes: _,
            most: _,
            inner: _,
        } = self;
    }
}

/// Adds the edges as lanes to each box.
#[tactic(auto, using(crate::proofs::EdgeLanes::inner_to_none))]
fn with_lanes(
    alloc: Global,
    boxes: Vec<CountedBox>,
    most: Vec<u32>,
) -> Result<LargeBoxes, AllocError>
    requires { length most.items ≡ length boxes.items }
    ensures boxes { IfOk result (λ large. large.boxes.items ≡ boxes.items) }
    ensures most { IfOk result (λ large. large.most.items ≡ most.items) }
{
    let mut inner = Vec::with_capacity(alloc, boxes.len())?;
    'boxes: for i in 0..boxes.len() {
        inner.push(inner_lanes_of(most[i], boxes[i]))?;
    }
    Ok(LargeBoxes { boxes, most, inner })
}

impl LargeBoxes {
    /// A copy.
    pub(crate) fn copy(&self) -> Result<LargeBoxes, AllocError>
        ensures boxes { IfOk result (λ large. large.boxes.items ≡ self.now.boxes.items) }
        ensures most { IfOk result (λ large. large.most.items ≡ self.now.most.items) }
    {
        Ok(LargeBoxes {
            boxes: self.boxes.clone()?,
            most: self.most.clone()?,
            inner: self.inner.clone()?,
        })
    }

    /// The box of the net.
    #[tactic(auto, unfolding(crate::specs::Swapping::counted_at))]
    pub(crate) fn kept(&self, net: NetId) -> CountedBox
        requires { net.0 < length self.now.boxes.items }
        ensures { result ≡ counted_at self.now.boxes.items net.0 }
    {
        self.boxes[net.0 as usize]
    }

    /// The lanes of the net.
    #[inline(always)]
    fn inner_of(&self, net: NetId) -> u16x4
        requires { net.0 < length self.now.boxes.items }
        ensures { result ≡
            inner_lanes (slice_index_or self.now.most.items net.0 0)
            (counted_at self.now.boxes.items net.0) }
    {
        self.inner[net.0 as usize]
    }

    /// Sets the box of the net, and its lanes.
    fn set(&mut self, net: NetId, new: CountedBox)
        requires { net.0 < length self.old.boxes.items }
        ensures boxes { self.new.boxes.items ≡ slice_set self.old.boxes.items net.0 new }
        ensures most { self.new.most.items ≡ self.old.most.items }
    {
        self.boxes[net.0 as usize] = new;
        self.inner[net.0 as usize] = inner_lanes_of(self.most[net.0 as usize], new);
    }
}

/// The box of the net at the blocks' sites.
#[tactic(auto, using(crate::proofs::Nets::counted_from, crate::proofs::Making::terminals_some, crate::proofs::Making::terminals_within, crate::proofs::Bounds::terminals_few))]
fn first_box(design: &Design, grid: &Grid, placement: &Placement, net: NetId) -> CountedBox
    requires net { Counts design.now net.0 }
    requires whole { length design.now.kinds ≡ length placement.now.sites }
    ensures { result ≡ box_counted design.now grid.now placement.now.sites net.0 }
{
    let _nets = design.nets();
    let terminals = design.terminals(net);
    counted_box(grid, placement, None, terminals)
}

/// The box of the net after the swap.
#[tactic(auto, using(crate::proofs::Nets::counted_from, crate::proofs::Nets::counted_to, crate::proofs::Nets::times_to, crate::proofs::Nets::times_other_to, crate::proofs::Making::terminals_some, crate::proofs::Making::terminals_within, crate::proofs::Bounds::terminals_few))]
fn renewed(view: &SwapView<'_>, old: CountedBox, net: NetId, shares: PinCounts) -> CountedBox
    requires view { IsView view.now }
    requires old { old ≡
        box_counted view.now.design.now view.now.grid.now (sites_before view.now) net.0 }
    requires net { Counts view.now.design.now net.0 }
    requires mine { shares.mine ≡
        times view.now.swap.now.block.0 (blocks_of view.now.design.now net.0) }
    requires others { shares.others ≡
        times_other view.now.swap.now.other (blocks_of view.now.design.now net.0) }
    ensures { result ≡
        box_counted view.now.design.now view.now.grid.now (sites_after view.now) net.0 }
{
    let _nets = view.design.nets();
    let terminals = view.design.terminals(net);
    swapped_box(old, terminals, view.grid, view.placement, view.swap, shares)
}

/// The cost of a net with this box, in ten-thousandths.
#[tactic(auto, using(crate::proofs::Nets::counted_cost_from, crate::proofs::Making::terminals_some, crate::proofs::Bounds::terminals_few))]
pub(crate) fn cost_of_counted(design: &Design, net: NetId, kept: CountedBox) -> u64
    requires { Counts design.now net.0 }
    ensures { (g : GridShape) (sites : List ArraySite) →
        kept ≡ box_counted design.now g sites net.0 → result ≡ net_cost design.now g sites net.0 }
{
    let _nets = design.nets();
    let terminals = design.terminals(net);
    kept.cost(terminals.len() as u32)
}

/// The cost of the net with the box `new`, after the swap, and with the box `old`, before it.
fn tally_between(design: &Design, net: NetId, old: CountedBox, new: CountedBox) -> Tally
    requires { Counts design.now net.0 }
    ensures gained { (g : GridShape) (sites : List ArraySite) →
        new ≡ box_counted design.now g sites net.0 →
        result.gained ≡ net_cost design.now g sites net.0 }
    ensures lost { (g : GridShape) (sites : List ArraySite) →
        old ≡ box_counted design.now g sites net.0 →
        result.lost ≡ net_cost design.now g sites net.0 }
{
    Tally {
        gained: cost_of_counted(design, net, new),
        lost: cost_of_counted(design, net, old),
    }
}

/// The box `made` if the net is a large one, else a placeholder.
#[tactic(auto, using(crate::proofs::Large::not_large))]
fn if_large(design: &Design, net: NetId, made: CountedBox) -> CountedBox
    requires { Counts design.now net.0 }
    ensures { Counts (large_of design.now) net.0 → result ≡ made }
{
    let _nets = design.nets();
    if WIDE < design.terminals(net).len() {
        made
    } else {
        NOTHING
    }
}

/// The boxes of the large nets, and the cost of all nets.
pub(crate) fn boxes_for(
    alloc: Global,
    design: &Design,
    grid: &Grid,
    placement: &Placement,
) -> Result<(LargeBoxes, u64), AllocError>
    requires { length design.now.kinds ≡ length placement.now.sites }
    ensures have { IfOk result (λ b.
        HaveBoxes b.0.boxes.items (large_of design.now) grid.now placement.now.sites) }
    ensures most { IfOk result (λ b. AreMost b.0.most.items (counted_blocks design.now)) }
    ensures sum { IfOk result (λ b. b.1 ≡ cost_of design.now grid.now placement.now.sites) }
    ensures below { IfOk result (λ b. b.1 < 2 ^ 43) }
{
    let _nx = grid.nx();
    let _ny = grid.ny();
    let nets = design.nets();
    let mut boxes = Vec::with_capacity(alloc, nets)?;
    let mut total: u64 = 0;
    'nets: for number in 0..nets {
        let net = NetId(number as u32);
        if design.is_global(net) {
            boxes.push(NOTHING)?;
        } else {
            let made = first_box(design, grid, placement, net);
            let cost = cost_of_counted(design, net, made);
            boxes.push(if_large(design, net, made))?;
            total += cost;
        }
    }
    let most = most_pins(alloc, design)?;
    Ok((with_lanes(alloc, boxes, most)?, total))
}

/// How the swap changes the cost of large net `k` of a block; nothing if it is also a net of the block `but`. `row` has the places of the
/// block's large nets.
#[tactic(auto, using(crate::proofs::Large::row_within))]
#[inline(always)]
fn change_of_kept(
    view: &SwapView<'_>,
    lanes: &[u16x4],
    large: &LargeBoxes,
    part: Part,
    row: &[u32],
    k: usize,
) -> Tally
    requires view { IsView view.now }
    requires part { IsPartOf view.now part }
    requires table { lanes.now ≡ table_of view.now.grid.now (sites_before view.now) }
    requires have { HaveBoxes large.now.boxes.items (large_of view.now.design.now)
        view.now.grid.now (sites_before view.now) }
    requires large { AreLarge view.now.design.now part.block.0 row.now }
    requires within { k < length row.now }
    requires most { AreMost large.now.most.items (counted_blocks view.now.design.now) }
    ensures { IsChange
        (cost_before view.now part (slice_index (nets_in view.now part) k))
        (cost_after view.now part (slice_index (nets_in view.now part) k))
        result.gained result.lost }
{
    let _nets = view.design.nets();
    let i = row[k] as usize;
    let net = net_of(view.design, part.block, i);
    if holds(large.inner_of(net), u16x4::from_array(view.reach)) {
        NO_TALLY
    } else {
        let old = large.kept(net);
        change_of_large_net(view, lanes, old, part, i)
    }
}

/// How the swap changes the cost of the large nets of a block, without those of the block `but`.
#[tactic(auto, using(crate::proofs::Changes::none, crate::proofs::Changes::more, crate::proofs::Changes::all))]
#[inline(always)]
fn change_of_larges(
    view: &SwapView<'_>,
    lanes: &[u16x4],
    large: &LargeBoxes,
    runs: &Runs,
    part: Part,
) -> Tally
    requires view { IsView view.now }
    requires part { IsPartOf view.now part }
    requires table { lanes.now ≡ table_of view.now.grid.now (sites_before view.now) }
    requires records { HasRecords runs.now view.now.design.now }
    requires have { HaveBoxes large.now.boxes.items (large_of view.now.design.now)
        view.now.grid.now (sites_before view.now) }
    requires most { AreMost large.now.most.items (counted_blocks view.now.design.now) }
    ensures { IsChange
        (sum_by (cost_before view.now part) (nets_in view.now part))
        (sum_by (cost_after view.now part) (nets_in view.now part)) result.gained result.lost }
{
    let _nx = view.grid.nx();
    let _ny = view.grid.ny();
    let _nets = view.design.nets();
    let row = runs.rows.large_row(part.block.0 as usize);
    let mut gained: u64 = 0;
    let mut lost: u64 = 0;
    'places: for k in 0..row.len() {
        let one = change_of_kept(view, lanes, large, part, row, k);
        gained += one.gained;
        lost += one.lost;
    }
    Tally { gained, lost }
}

/// How the swap changes the cost of the large nets.
#[tactic(auto, using(crate::proofs::Sited::block_below, crate::proofs::Changes::whole_none, crate::proofs::Changes::whole_some))]
#[inline(always)]
pub(crate) fn change_of_large(
    view: &SwapView<'_>,
    lanes: &[u16x4],
    large: &LargeBoxes,
    runs: &Runs,
) -> Tally
    requires view { IsView view.now }
    requires table { lanes.now ≡ table_of view.now.grid.now (sites_before view.now) }
    requires records { HasRecords runs.now view.now.design.now }
    requires have { HaveBoxes large.now.boxes.items (large_of view.now.design.now)
        view.now.grid.now (sites_before view.now) }
    requires most { AreMost large.now.most.items (counted_blocks view.now.design.now) }
    ensures balance { cost_of_large view.now (sites_after view.now) + result.lost ≡
        cost_of_large view.now (sites_before view.now) + result.gained }
    ensures gained { result.gained < 2 ^ 43 }
    ensures lost { result.lost < 2 ^ 43 }
{
    let _nx = view.grid.nx();
    let _ny = view.grid.ny();
    let _nets = view.design.nets();
    let part = Part {
        block: view.swap.block,
        but: None,
    };
    let first = change_of_larges(view, lanes, large, runs, part);
    match view.swap.other {
        None => first,
        Some(other) => {
            let part = Part {
                block: other,
                but: Some(view.swap.block),
            };
            let second = change_of_larges(view, lanes, large, runs, part);
            plus(first, second)
        }
    }
}

/// Renews the box of large net `k` of a block, unless it is also a net of the block `but`. `row` has the places of the block's large nets.
/// Returns the net's cost after and before.
#[tactic(auto)]
fn renew_kept(
    view: &SwapView<'_>,
    large: &mut LargeBoxes,
    part: Part,
    row: &[u32],
    k: usize,
) -> Tally
    requires view { IsView view.now }
    requires part { IsPartOf view.now part }
    requires left { AreRenewedTo view.now part k large.old.boxes.items }
    requires large { AreLarge view.now.design.now part.block.0 row.now }
    requires within { k < length row.now }
    ensures boxes { AreRenewedTo view.now part (k + 1) large.new.boxes.items }
    ensures gained { result.gained ≡
        cost_after view.now part (slice_index (nets_in view.now part) k) }
    ensures lost { result.lost ≡
        cost_before view.now part (slice_index (nets_in view.now part) k) }
    ensures most { large.new.most.items ≡ large.old.most.items }
{
    let i = row[k] as usize;
    let net = net_of(view.design, part.block, i);
    let own = own_pins(view.design, part.block, i);
    let beside = partner_pins(view.design, view.swap, part.block, part.but, i);
    let shares = shares_with(view.swap, part.block, part.but, own, beside);
    if is_left_out(part.but, shares) {
        return NO_TALLY;
    }
    let old = large.kept(net);
    let new = renewed(view, old, net, shares);
    large.set(net, new);
    tally_between(view.design, net, old, new)
}

/// Renews the box of large net `k` of a block, if the swap may change it and it is not also a net of the block `but`. Returns how the net's
/// cost changes.
#[tactic(auto, using(crate::proofs::Large::row_within))]
fn renew_net(
    view: &SwapView<'_>,
    large: &mut LargeBoxes,
    part: Part,
    row: &[u32],
    k: usize,
) -> Tally
    requires view { IsView view.now }
    requires part { IsPartOf view.now part }
    requires left { AreRenewedTo view.now part k large.old.boxes.items }
    requires large { AreLarge view.now.design.now part.block.0 row.now }
    requires within { k < length row.now }
    ensures boxes { AreRenewedTo view.now part (k + 1) large.new.boxes.items }
    ensures change { IsChange
        (cost_before view.now part (slice_index (nets_in view.now part) k))
        (cost_after view.now part (slice_index (nets_in view.now part) k))
        result.gained result.lost }
    ensures most { large.new.most.items ≡ large.old.most.items }
{
    let net = net_of(view.design, part.block, row[k] as usize);
    if surrounds(
        edge_lanes_of(large.kept(net)),
        u16x4::from_array(view.reach),
    ) {
        NO_TALLY
    } else {
        renew_kept(view, large, part, row, k)
    }
}

/// Renews the boxes of a block's large nets, except those of the block `but`, which are renewed already. Returns how the
/// nets' cost changes.
#[tactic(auto, using(crate::proofs::Renewals::started, crate::proofs::Changes::none))]
fn renew_larges(view: &SwapView<'_>, large: &mut LargeBoxes, runs: &Runs, part: Part) -> Tally
    requires view { IsView view.now }
    requires part { IsPartOf view.now part }
    requires records { HasRecords runs.now view.now.design.now }
    requires left { AreRenewedIf view.now
        (λ n. has_block part.but (blocks_of view.now.design.now n)) large.old.boxes.items }
    ensures boxes { AreRenewedIf view.now
        (λ n.
        has_block part.but (blocks_of view.now.design.now n) ||
        has_number part.block.0 (blocks_of view.now.design.now n)) large.new.boxes.items }
    ensures change { IsChange
        (sum_by (cost_before view.now part) (nets_in view.now part))
        (sum_by (cost_after view.now part) (nets_in view.now part)) result.gained result.lost }
    ensures most { large.new.most.items ≡ large.old.most.items }
{
    let _nx = view.grid.nx();
    let _ny = view.grid.ny();
    let _nets = view.design.nets();
    let row = runs.rows.large_row(part.block.0 as usize);
    let mut gained: u64 = 0;
    let mut lost: u64 = 0;
    'places: for k in 0..row.len() {
        let one = renew_net(view, large, part, row, k);
        gained += one.gained;
        lost += one.lost;
    }
    Tally { gained, lost }
}

/// Renews the boxes of the large nets of the swap's blocks. Returns how the cost of these nets changes.
#[tactic(auto, using(crate::proofs::Sited::block_below, crate::proofs::Renewals::untouched, crate::proofs::Renewals::first_done, crate::proofs::Changes::whole_none, crate::proofs::Changes::whole_some))]
pub(crate) fn renew_large(
    large: &mut LargeBoxes,
    runs: &Runs,
    design: &Design,
    grid: &Grid,
    placement: &Placement,
    swap: &Swap,
) -> Tally
    requires records { HasRecords runs.now design.now }
    requires have { HaveBoxes large.old.boxes.items (large_of design.now) grid.now
        placement.now.sites }
    requires lawful { IsSwapOf grid.now placement.now.sites swap.now }
    requires whole { length design.now.kinds ≡ length placement.now.sites }
    ensures have { HaveBoxes large.new.boxes.items (large_of design.now) grid.now
        (swapped placement.now.sites swap.now) }
    ensures balance { cost_of (large_of design.now) grid.now
        (swapped placement.now.sites swap.now) + result.lost ≡
        cost_of (large_of design.now) grid.now placement.now.sites + result.gained }
    ensures gained { result.gained < 2 ^ 43 }
    ensures lost { result.lost < 2 ^ 43 }
    ensures most { large.new.most.items ≡ large.old.most.items }
{
    let _nx = grid.nx();
    let _ny = grid.ny();
    let _nets = design.nets();
    let view = SwapView {
        design,
        grid,
        placement,
        swap,
        reach: reach_of(grid, swap).to_array(),
    };
    let part = Part {
        block: swap.block,
        but: None,
    };
    let first = renew_larges(&view, large, runs, part);
    match swap.other {
        None => first,
        Some(other) => {
            let part = Part {
                block: other,
                but: Some(swap.block),
            };
            let second = renew_larges(&view, large, runs, part);
            plus(first, second)
        }
    }
}

/// Copies the boxes of `nets` from `from`.
fn take_nets(large: &mut LargeBoxes, from: &LargeBoxes, nets: &[NetId])
    requires within { All (λ (n : Net). n.0 < length large.old.boxes.items) nets.now }
    requires from { length from.now.boxes.items ≡ length large.old.boxes.items }
    ensures length { length large.new.boxes.items ≡ length large.old.boxes.items }
    ensures most { large.new.most.items ≡ large.old.most.items }
    ensures each { (k : ℕ) →
        counted_at large.new.boxes.items k ≡
        (if list_any (λ (n : Net). k == n.0) nets.now then counted_at from.now.boxes.items k
        else counted_at large.old.boxes.items k) }
{
    for net in nets {
        large.set(*net, from.kept(*net));
    }
}

/// Copies the boxes of the nets of a swap's blocks from `from`.
pub(crate) fn take_boxes(large: &mut LargeBoxes, from: &LargeBoxes, design: &Design, swap: &Swap)
    requires block { swap.now.block.0 < length design.now.kinds }
    requires other { (b : Block) → swap.now.other ≡ Some b → b.0 < length design.now.kinds }
    requires long { length large.old.boxes.items ≡ length design.now.terminals }
    requires from_long { length from.now.boxes.items ≡ length design.now.terminals }
    ensures long { length large.new.boxes.items ≡ length large.old.boxes.items }
    ensures most { large.new.most.items ≡ large.old.most.items }
    ensures each { (n : ℕ) → Counts design.now n →
        counted_at large.new.boxes.items n ≡
        counted_at (if is_on_swap design.now swap.now n then from.now.boxes.items
        else large.old.boxes.items) n }
{
    take_nets(large, from, design.nets_of(swap.block));
    if let Some(other) = swap.other {
        take_nets(large, from, design.nets_of(other));
    }
}
