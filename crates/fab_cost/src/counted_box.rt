//! The box of a net with its edge counts, computed from the sites of its terminals, and how a swap changes it.

ghost use Rattle.std.specs.Prelude.{◌≡◌, ℕ, ◌↔◌, ◌<◌, ◌≤◌, map, length, MatchOption, Some, IsTrue};
ghost use Rattle.std.specs.List.{All};
ghost use Rattle.fab_arch.specs.Grid.{GridShape};
ghost use Rattle.fab_net.specs.Netlist.{block_on};
ghost use Rattle.fab_site.specs.Placement.{site_of, swapped, IsSwapOf};
ghost use Rattle.fab_cost.specs.Edges.{counted_on, times};
ghost use Rattle.fab_cost.specs.Swapping.{IsBoxAfter, IsBoxSwapped, IsSmall, IsSwapIfAny, swapped_by, times_other};

use crate::block_nets::PinCounts;
use crate::edge_counts::{CountedBox, Edges};
use crate::net_box::clipped;
use fab_arch::{Grid, Site};
use fab_net::{BlockId, Terminal};
use fab_site::{Placement, Swap};

fn is_other(other: Option<BlockId>, block: BlockId) -> bool
    ensures { IsTrue result ↔ (other ≡ Some block) }
{
    match other {
        None => false,
        Some(other) => other == block,
    }
}

/// The site of the block after the swap; its present site if there is no swap.
#[tactic(auto, using(crate::proofs::Sited::site_of_moved, crate::proofs::Sited::site_of_other, crate::proofs::Sited::site_of_rest))]
fn site_after(placement: &Placement, swap: Option<Swap>, block: BlockId) -> Site
    requires { block.0 < length placement.now.sites }
    ensures { (g : GridShape) → IsSwapIfAny g placement.now.sites swap →
        result ≡ site_of (swapped_by placement.now.sites swap) block.0 }
{
    match swap {
        None => placement.site_of(block),
        Some(swap) => {
            if block == swap.block {
                swap.to
            } else if is_other(swap.other, block) {
                swap.from
            } else {
                placement.site_of(block)
            }
        }
    }
}

/// The box of these terminals after the swap; their present box if there is no swap.
#[tactic(auto, using(crate::proofs::BoxMoves::x_small, crate::proofs::BoxMoves::y_small, crate::proofs::BoxMoves::box_whole))]
pub(crate) fn counted_box(
    grid: &Grid,
    placement: &Placement,
    swap: Option<Swap>,
    terminals: &[Terminal],
) -> CountedBox
    requires some { 0 < length terminals.now }
    requires few { length terminals.now ≤ 1048576 }
    requires within { All (λ t. t.block.0 < length placement.now.sites) terminals.now }
    requires lawful { IsSwapIfAny grid.now placement.now.sites swap }
    ensures { result ≡
        counted_on grid.now
        (map (site_of (swapped_by placement.now.sites swap)) (map block_on terminals.now)) }
{
    let nx = grid.nx();
    let ny = grid.ny();
    let first = site_after(placement, swap, terminals[0].block);
    let mut x = Edges::one(clipped(nx, first.x));
    let mut y = Edges::one(clipped(ny, first.y));
    'terminals: for i in 1..terminals.len() {
        let site = site_after(placement, swap, terminals[i].block);
        x = x.with(clipped(nx, site.x));
        y = y.with(clipped(ny, site.y));
    }
    CountedBox { x, y }
}

/// The box after `count` terminals went from `from` to `to`, or `None` if an edge lost its last terminal.
#[tactic(auto, using(crate::proofs::BoxMoves::box_after))]
fn shifted(old: CountedBox, grid: &Grid, from: Site, to: Site, count: u32) -> Option<CountedBox>
    requires some { 0 < count }
    requires few { count ≤ 1048576 }
    requires small { IsSmall old }
    ensures { MatchOption result (Unit {0}) (λ b. IsBoxAfter grid.now old from to count b) }
{
    let nx = grid.nx();
    let ny = grid.ny();
    match old.x.after(clipped(nx, from.x), clipped(nx, to.x), count) {
        None => None,
        Some(x) => match old.y.after(clipped(ny, from.y), clipped(ny, to.y), count) {
            None => None,
            Some(y) => Some(CountedBox { x, y }),
        },
    }
}

/// The box of a net after the swap, with `mine` and `others` of its terminals on the swapped blocks; `None` if an edge
/// lost its last terminal.
#[tactic(auto, using(crate::proofs::BoxMoves::swapped_still, crate::proofs::BoxMoves::swapped_on, crate::proofs::BoxMoves::swapped_back))]
fn shifted_by(
    old: CountedBox,
    grid: &Grid,
    swap: &Swap,
    mine: u32,
    others: u32,
) -> Option<CountedBox>
    requires mine { mine ≤ 1048576 }
    requires others { others ≤ 1048576 }
    requires small { IsSmall old }
    ensures { MatchOption result (Unit {0}) (λ b.
        IsBoxSwapped grid.now old swap.now mine others b) }
{
    if mine == others {
        Some(old)
    } else if others < mine {
        match shifted(old, grid, swap.from, swap.to, mine - others) {
            None => None,
            Some(after) => Some(after),
        }
    } else {
        match shifted(old, grid, swap.to, swap.from, others - mine) {
            None => None,
            Some(after) => Some(after),
        }
    }
}

/// The box of a net after the swap, with `mine` and `others` of its terminals on the swapped blocks. The sites of
/// the terminals are read only if an edge lost its last terminal.
#[tactic(auto, using(crate::proofs::BoxMoves::mine_few, crate::proofs::BoxMoves::others_few, crate::proofs::BoxMoves::old_small, crate::proofs::BoxMoves::swapped_given))]
pub(crate) fn swapped_box(
    old: CountedBox,
    terminals: &[Terminal],
    grid: &Grid,
    placement: &Placement,
    swap: &Swap,
    shares: PinCounts,
) -> CountedBox
    requires old { old ≡
        counted_on grid.now (map (site_of placement.now.sites) (map block_on terminals.now)) }
    requires some { 0 < length terminals.now }
    requires few { length terminals.now ≤ 1048576 }
    requires within { All (λ t. t.block.0 < length placement.now.sites) terminals.now }
    requires lawful { IsSwapOf grid.now placement.now.sites swap.now }
    requires mine { shares.mine ≡ times swap.now.block.0 (map block_on terminals.now) }
    requires others { shares.others ≡ times_other swap.now.other (map block_on terminals.now) }
    ensures { result ≡
        counted_on grid.now
        (map (site_of (swapped placement.now.sites swap.now)) (map block_on terminals.now)) }
{
    match shifted_by(old, grid, swap, shares.mine, shares.others) {
        Some(after) => after,
        None => counted_box(grid, placement, Some(*swap), terminals),
    }
}
