//! Positions as vectors of four lanes. The lane-wise minimum of some blocks' vectors is their box.

ghost use Rattle.std.specs.Prelude.{◌≡◌, ℕ, ◌<◌, IsTrue};
ghost use Rattle.fab_arch.specs.Grid.{GridShape};
ghost use Rattle.fab_site.specs.declared.placement_types.Swap.{Swap as SwapOf};
ghost use Rattle.fab_cost.specs.declared.edge_counts.CountedBox.{CountedBox as CountedEdges};
ghost use Rattle.fab_cost.specs.Changes.{Holds, Surrounds};
ghost use lib.Lanes.{sum_l};
ghost use Rattle.fab_cost.specs.Runs.{AreFourBelow, edge_lanes, four, inner_lanes, lanes_at, least_of, lowered as less_if_many, reach_lanes};

use crate::edge_counts::CountedBox;
use crate::net_box::clipped;
use fab_arch::{Grid, Site};
use fab_site::Swap;
use std::simd::prelude::*;

/// The lanes for no block: they enlarge no box.
pub(crate) fn nowhere() -> u16x4
    ensures { result ≡ four 65535 65535 65535 65535 }
{
    u16x4::splat(65535)
}

/// The lanes of a site: its clipped column, 1001 minus that, its clipped row, and 1001 minus that.
#[tactic(auto, unfolding(crate::specs::Cost::clip))]
pub(crate) fn lanes_of(grid: &Grid, site: Site) -> u16x4
    ensures { result ≡ lanes_at grid.now site }
{
    let x = clipped(grid.nx(), site.x);
    let y = clipped(grid.ny(), site.y);
    u16x4::from_array([x, 1001 - x, y, 1001 - y])
}

/// The lane-wise minimum.
#[inline(always)]
pub(crate) fn joined(one: u16x4, other: u16x4) -> u16x4
    ensures { result ≡ least_of one other }
{
    one.simd_min(other)
}

/// The sum of the lanes.
#[inline(always)]
pub(crate) fn total(one: u16x4) -> u16
    requires { sum_l one < 65536 }
    ensures { result ≡ sum_l one }
{
    one.strict_reduce_sum()
}

/// The edges of a box as lanes: the least column, 1001 minus the greatest column, the least row, and 1001 minus the greatest row.
pub(crate) fn edge_lanes_of(edges: CountedBox) -> u16x4
    ensures { result ≡ edge_lanes edges }
{
    u16x4::from_array([
        edges.x.least.at,
        1001u16.saturating_sub(edges.x.greatest.at),
        edges.y.least.at,
        1001u16.saturating_sub(edges.y.greatest.at),
    ])
}

/// The lane `lane` of an edge with `count` terminals, or 1 less if the edge has more than `most` terminals.
fn lowered(most: u32, count: u32, lane: u16) -> u16
    ensures { result ≡ less_if_many most count lane }
{
    if most < count {
        lane.saturating_sub(1)
    } else {
        lane
    }
}

/// The edges of a box as lanes. A lane is 1 less if its edge has more than `most` terminals.
pub(crate) fn inner_lanes_of(most: u32, edges: CountedBox) -> u16x4
    ensures { result ≡ inner_lanes most edges }
{
    let right = 1001u16.saturating_sub(edges.x.greatest.at);
    let upper = 1001u16.saturating_sub(edges.y.greatest.at);
    u16x4::from_array([
        lowered(most, edges.x.least.count, edges.x.least.at),
        lowered(most, edges.x.greatest.count, right),
        lowered(most, edges.y.least.count, edges.y.least.at),
        lowered(most, edges.y.greatest.count, upper),
    ])
}

/// The lane-wise minimum of the two sites of a swap: their least column and row, and 1001 minus their greatest column and row.
#[inline(always)]
pub(crate) fn reach_of(grid: &Grid, swap: &Swap) -> u16x4
    ensures { result ≡ reach_lanes grid.now swap.now }
{
    joined(lanes_of(grid, swap.from), lanes_of(grid, swap.to))
}

/// Whether both sites are strictly inside the box with these edges.
#[inline(always)]
pub(crate) fn surrounds(edges: u16x4, reach: u16x4) -> bool
    ensures { (g : GridShape) (b : CountedEdges) (s : SwapOf) → edges ≡ edge_lanes b →
        reach ≡ reach_lanes g s → IsTrue result → Surrounds g b s }
{
    edges.simd_lt(reach).all()
}

/// Whether each lane is below its counterpart.
#[inline(always)]
fn are_below(one: u16x4, other: u16x4) -> bool
    ensures { (a b c d e f g h : ℕ) → one ≡ four a b c d → other ≡ four e f g h → IsTrue result →
        AreFourBelow a b c d e f g h }
{
    one.simd_lt(other).all()
}

/// Whether no site of the swap is outside the box with the lanes `inner`, and none is on an edge with `most` terminals or fewer.
#[inline(always)]
pub(crate) fn holds(inner: u16x4, reach: u16x4) -> bool
    ensures { (most : ℕ) (g : GridShape) (b : CountedEdges) (s : SwapOf) →
        inner ≡ inner_lanes most b → reach ≡ reach_lanes g s → IsTrue result → Holds most g b s }
{
    are_below(inner, reach)
}
