//! Numbers by block. They are raised near a block: for the other blocks on its nets with few terminals.

ghost use Rattle.std.specs.Prelude.{◌≡◌, ◌==◌, ◌<◌, ◌≤◌, length};
ghost use Rattle.fab_net.specs.Netlist.{has_number};
ghost use Rattle.fab_cost.specs.Near.{AreLifted, are_neighbours, blocks_in};
ghost use Rattle.fab_cost.specs.Runs.{HasRecords};

use crate::records::Record;
use crate::runs::Runs;
use fab_net::{BlockId, Design};

/// Raises the number of `block` to `stamp`, if it is lower. Does nothing if `numbers` has no entry for `block`.
pub fn lift_one(numbers: &mut Vec<u64>, block: usize, stamp: u64)
    ensures { AreLifted (λ k. k == block) stamp numbers.old.items numbers.new.items }
{
    if block < numbers.len() && numbers[block] < stamp {
        numbers[block] = stamp;
    }
}

/// Raises the numbers of the blocks on a record to `stamp`, if they are lower.
fn lift_record<const W: usize>(numbers: &mut Vec<u64>, net: &Record<W>, stamp: u64)
    ensures { AreLifted (λ k.
        has_number k net.now.others) stamp numbers.old.items numbers.new.items }
{
    'others: for i in 0..W {
        lift_one(numbers, net.others[i] as usize, stamp);
    }
}

/// Raises the numbers of the blocks on some records to `stamp`, if they are lower.
fn lift_records<const W: usize>(numbers: &mut Vec<u64>, records: &[Record<W>], stamp: u64)
    ensures { AreLifted (λ k.
        has_number k (blocks_in records.now)) stamp numbers.old.items numbers.new.items }
{
    'records: for i in 0..records.len() {
        lift_record(numbers, &records[i], stamp);
    }
}

/// Raises numbers to `stamp`, if they are lower: those of the other blocks on the nets of `block` that have up to 16 terminals.
pub(crate) fn lift_near(
    runs: &Runs,
    _design: &Design,
    numbers: &mut Vec<u64>,
    block: BlockId,
    stamp: u64,
)
    requires records { HasRecords runs.now _design.now }
    requires block { block.0 < length _design.now.kinds }
    requires long { length numbers.old.items ≤ length _design.now.kinds }
    ensures { AreLifted (are_neighbours _design.now block.0) stamp numbers.old.items
        numbers.new.items }
{
    let row = block.0 as usize;
    lift_records(numbers, runs.rows.small_row(row), stamp);
    lift_records(numbers, runs.rows.middle_row(row), stamp);
    lift_records(numbers, runs.rows.wide_row(row), stamp);
}
