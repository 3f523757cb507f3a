//! The nets of a block, each as a record of the other blocks on it, and how their cost changes.

ghost use Rattle.std.specs.Prelude.{◌≡◌, ◌+◌, ◌*◌, ◌<◌, ◌≤◌, ◌^◌, List, ℕ, length, slice_index, slice_index_or};
ghost use Rattle.std.specs.List.{All, sum_by};
ghost use lib.Lanes.{sum_l};
ghost use Rattle.fab_cost.specs.Runs.{AreLanes, AreWithin, least_among, least_of, seen_in, weight};

use crate::lanes::{joined, nowhere, total};
use crate::tally::Tally;
use std::simd::prelude::*;

/// A net with few terminals, for one of its blocks: the other blocks on it, and its cross count. Unused entries of `others` have the number
/// past the last block.
#[derive(Clone, Copy)]
pub struct Record<const W: usize> {
    pub others: [u16; W],
    pub factor: u16,
}

/// No block has this number.
pub(crate) const NO_BLOCK: u32 = 65536;

/// A block that has the lanes `place` instead of those in the table. If `block` is `NO_BLOCK`, there is none.
#[derive(Clone, Copy)]
pub(crate) struct Moved {
    pub(crate) block: u32,
    pub(crate) place: u16x4,
}

/// The lanes of block `other`: those in `moved` if that is the block, else those in the table. This chooses between two addresses, so that
/// no branch is mispredicted.
#[inline(always)]
fn seen<'a>(table: &'a [u16x4], moved: &'a Moved, other: u16) -> &'a u16x4
    requires { other < length table.now }
    ensures { result.now ≡ seen_in table.now moved.now.block moved.now.place other }
{
    if u32::from(other) == moved.block {
        &moved.place
    } else {
        &table[other as usize]
    }
}

/// The lane-wise minimum of the other blocks of a net.
#[tactic(auto, using(crate::proofs::Mins::least_more, crate::proofs::Mins::least_all))]
#[inline(always)]
fn around<const W: usize>(table: &[u16x4], moved: &Moved, net: &Record<W>) -> u16x4
    requires { AreWithin (length table.now) net.now }
    ensures { result ≡
        least_among (seen_in table.now moved.now.block moved.now.place) net.now.others }
{
    let mut all = nowhere();
    'others: for i in 0..W {
        let one = seen(table, moved, net.others[i]);
        all = joined(all, *one);
    }
    all
}

/// The cross count `factor`, times how far a lane sum falls when the net's block goes from `base` to `target`. The lanes are the minimum of
/// the block's and of `all`, the other blocks'. Each lane gets 1,001 more, so that none is below 0: one sum is enough instead of two.
#[inline(always)]
fn weighed(factor: u16, all: u16x4, base: u16x4, target: u16x4) -> u64
    requires base { AreLanes base }
    requires target { AreLanes target }
    ensures fall { result + factor * sum_l (least_of all target) ≡
        4004 * factor + factor * sum_l (least_of all base) }
    ensures few { result < 2 ^ 29 }
{
    let raised = joined(all, base).strict_add(u16x4::splat(1001));
    let fall = total(raised.strict_sub(joined(all, target)));
    u64::from(factor) * u64::from(fall)
}

/// How the cost of the nets in `records` changes when their block goes from `base` to `target`. If a box grows, its lane sum falls.
#[tactic(auto, using(crate::proofs::Mins::change_all))]
#[inline(always)]
pub(crate) fn change_of_records<const W: usize>(
    table: &[u16x4],
    moved: &Moved,
    base: u16x4,
    target: u16x4,
    records: &[Record<W>],
) -> Tally
    requires few { length records.now < 2 ^ 17 }
    requires within { All (AreWithin (length table.now)) records.now }
    requires base { AreLanes base }
    requires target { AreLanes target }
    ensures balance { result.gained +
        sum_by (weight (seen_in table.now moved.now.block moved.now.place) target) records.now ≡
        result.lost +
        sum_by (weight (seen_in table.now moved.now.block moved.now.place) base) records.now }
    ensures gained_few { result.gained < 2 ^ 46 }
    ensures lost_few { result.lost < 2 ^ 46 }
{
    let mut gained: u64 = 0;
    let mut factors: u64 = 0;
    'run: for i in 0..records.len() {
        let net = &records[i];
        let all = around(table, moved, net);
        gained += weighed(net.factor, all, base, target);
        factors += u64::from(net.factor);
    }
    Tally {
        gained,
        lost: 4004 * factors,
    }
}
