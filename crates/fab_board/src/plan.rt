//! How the numbers of a turn are cut into units, which the workers of a crew claim.

ghost use Rattle.std.specs.Prelude.{◌≡◌, ◌<◌, ◌≤◌};
ghost use Rattle.fab_board.specs.Plans.{Cut, IsCutInto, IsSharedOut, numbers_of, share_of, units_of};

use std::marker::Model;

/// How the numbers of a turn are cut into units. A unit is some numbers in a row. Every turn has the same number of units; its last ones
/// may be empty.
#[derive(Clone, Copy)]
pub struct Plan {
    /// A unit has 2^`size` numbers.
    size: u32,
    /// A turn has 2^`units` units.
    units: u32,
}

impl Model for Plan {
    ghost use Rattle.std.specs.Prelude.{◌<◌};
    ghost use Rattle.fab_board.specs.Plans.{Cut};

    ghost Value = { Cut };

    ghost view = { λ p. record { size = p.size; units = p.units } };

    ghost inverse = { λ c. record { size = c.size; units = c.units } };

    ghost invariant = { λ p. (p.size < 16) × (p.units < 16) };
}

/// The most numbers that a unit has: in batches of up to 128 numbers, and in longer batches.
const LONGEST: [u64; 2] = [16, 32];

impl Plan {
    /// The plan for turns of at most `batch` numbers, with `workers` workers. `batch` is at most 4,096. A unit has at most the numbers of
    /// one worker's share, so if a batch has enough numbers, a turn has at least one unit for each worker.
    pub fn of(batch: u64, workers: u64) -> Plan
        ensures cut { batch ≤ 4096 → IsCutInto result batch (share_of batch workers) }
        ensures shared { batch ≤ 4096 → IsSharedOut result batch workers }
    {
        let longest = if batch > 128 { LONGEST[1] } else { LONGEST[0] };
        let share = (batch / workers.max(1)).min(longest);
        Plan::by(batch, share)
    }

    /// The plan for turns of at most `batch` numbers whose units are single numbers. `batch` is at most 4,096.
    pub fn single(batch: u64) -> Plan
        ensures cut { batch ≤ 4096 → IsCutInto result batch 1 }
        ensures each { batch ≤ 4096 → batch ≤ units_of result }
    {
        Plan::by(batch, 1)
    }

    /// The plan for turns of at most `batch` numbers whose units have at most `numbers` numbers.
    fn by(batch: u64, numbers: u64) -> Plan
        ensures { batch ≤ 4096 → numbers ≤ 32 → IsCutInto result batch numbers }
    {
        let size = numbers.clamp(1, 32).ilog2();
        let units = batch.min(4096).div_ceil(1 << size);
        Plan {
            size,
            units: units.next_power_of_two().ilog2(),
        }
    }

    /// How many units a turn has.
    pub(crate) fn units(&self) -> u64
        ensures range { (1 ≤ result) × (result ≤ 32768) }
        ensures units { result ≡ units_of self.now }
    {
        1 << self.units
    }

    /// How many numbers a unit has.
    pub(crate) fn size(&self) -> u64
        ensures { result ≡ numbers_of self.now }
    {
        1 << self.size
    }

    /// The turn of a claimed unit.
    pub(crate) fn turn_of(&self, claimed: u64) -> u64 {
        claimed >> (self.units % 16)
    }

    /// The first number of a claimed unit, counted from the first of its turn.
    pub(crate) fn begin_of(&self, claimed: u64) -> u64 {
        (claimed % self.units().max(1)) << (self.size % 16)
    }

    /// The claimed unit that contains the number `number` of turn `turn`, counted from the turn's first.
    pub(crate) fn unit_of(&self, turn: u64, number: u64) -> u64 {
        (turn.min(1 << 40) << (self.units % 16)).saturating_add(number >> (self.size % 16))
    }
}
