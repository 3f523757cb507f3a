//! The pad positions near a site: at most one run on each side of the array, counted and indexed by arithmetic.

ghost use Rattle.std.specs.Prelude.{◌≡◌, ℕ, ◌+◌, ◌-◌, ◌<◌, ◌≤◌, ◌^◌, ◌&&◌, min, max, filter, length, slice_index_or};
ghost use Rattle.std.specs.List.{range_with_len};
ghost use Rattle.fab_move.specs.Propose.{near_positions, within};
ghost use Rattle.fab_move.specs.Sides.{positions};

use crate::pad_runs::{Run, Window};
use fab_arch::{Grid, Site};

/// The least and the greatest of the numbers from 1 to `n` that are at most `reach` from `here`. If there are none, the first result is
/// above the second.
pub(crate) fn bounds_near(here: u16, reach: u64, n: u16) -> (u64, u64)
    requires { reach < 2 ^ 63 }
    ensures least { result.0 ≡ max 1 (here - reach) }
    ensures greatest { result.1 ≡ min n (here + reach) }
{
    let least = u64::from(here).saturating_sub(reach).max(1);
    let greatest = (u64::from(here) + reach).min(u64::from(n));
    (least, greatest)
}

/// The numbers from 1 to `n` that are at most `reach` from `here`.
fn run_near(here: u16, reach: u64, n: u16) -> Run
    requires here { here ≤ 1001 }
    requires bound { n ≤ 1000 }
    requires reach { reach < 2 ^ 63 }
    ensures { range_with_len result.first result.count ≡
        filter (within reach here) (range_with_len 1 n) }
{
    let (low, high) = bounds_near(here, reach, n);
    Run {
        first: low as u16,
        count: (high + 1).saturating_sub(low) as u16,
    }
}

/// Whether two coordinates are at most `reach` apart.
fn are_near(reach: u64, a: u16, b: u16) -> bool
    requires { reach < 2 ^ 63 }
    ensures { result ≡ within reach a b }
{
    u64::from(a) <= u64::from(b) + reach && u64::from(b) <= u64::from(a) + reach
}

/// The positions near a site on one side of the array: the numbers from 1 to `n` that are at most `reach` from `along`. If the coordinate
/// of the side, `side`, is more than `reach` from `across`, there are none.
#[tactic(auto, using(crate::proofs::Nearby::side_none))]
fn run_of_side(side: u16, across: u16, along: u16, reach: u64, n: u16) -> Run
    requires along { along ≤ 1001 }
    requires bound { n ≤ 1000 }
    requires reach { reach < 2 ^ 63 }
    ensures { range_with_len result.first result.count ≡ filter (λ i.
        within reach across side && within reach along i) (range_with_len 1 n) }
{
    if !are_near(reach, across, side) {
        return Run { first: 1, count: 0 };
    }
    run_near(along, reach, n)
}

impl Window {
    /// The positions that are at most `reach` from the site `from` in both coordinates.
    pub(crate) fn around(grid: &Grid, from: Site, reach: u64) -> Window
        requires x { from.x ≤ 1001 }
        requires y { from.y ≤ 1001 }
        requires reach { reach < 2 ^ 63 }
        ensures { positions result ≡ near_positions grid.now from reach }
    {
        let nx = grid.nx();
        let ny = grid.ny();
        Window {
            nx,
            ny,
            left: run_of_side(0, from.x, from.y, reach, ny),
            top: run_of_side(ny + 1, from.y, from.x, reach, nx),
            right: run_of_side(nx + 1, from.x, from.y, reach, ny),
            bottom: run_of_side(0, from.y, from.x, reach, nx),
        }
    }

    /// How many positions there are.
    pub(crate) fn len(&self) -> u32
        ensures { result ≡ length (positions self.now) }
    {
        u32::from(self.left.count)
            + u32::from(self.top.count)
            + u32::from(self.right.count)
            + u32::from(self.bottom.count)
    }

    /// Position number `i`, in perimeter order.
    pub(crate) fn at(&self, i: u32) -> (u16, u16)
        requires { i < length (positions self.now) }
        ensures { result ≡ slice_index_or (positions self.now) i (0, 0) }
    {
        let left = u32::from(self.left.count);
        let top = left + u32::from(self.top.count);
        let right = top + u32::from(self.right.count);
        let bottom = right + u32::from(self.bottom.count);
        if i < left {
            (0, self.left.first + i as u16)
        } else if i < top {
            (self.top.first + (i - left) as u16, self.ny + 1)
        } else if i < right {
            (self.nx + 1, self.right.first + (right - 1 - i) as u16)
        } else {
            (self.bottom.first + (bottom - 1 - i) as u16, 0)
        }
    }
}
