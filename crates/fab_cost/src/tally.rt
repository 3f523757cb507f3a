//! By how much a swap changes the cost of some nets.

ghost use Rattle.std.specs.Prelude.{◌≡◌, ◌+◌, ◌<◌, ◌^◌};

/// By how much a swap changes the cost of some nets, in ten-thousandths: `gained` minus `lost`. Only the difference has a meaning. For
/// large nets the two are costs after and before; for small nets they are weighted sums of lanes before and after.
#[derive(Clone, Copy)]
pub(crate) struct Tally {
    pub(crate) gained: u64,
    pub(crate) lost: u64,
}

pub(crate) const NO_TALLY: Tally = Tally { gained: 0, lost: 0 };

/// The sum of two tallies.
pub(crate) fn plus(one: Tally, other: Tally) -> Tally
    requires gained { one.gained + other.gained < 2 ^ 64 }
    requires lost { one.lost + other.lost < 2 ^ 64 }
    ensures gained { result.gained ≡ one.gained + other.gained }
    ensures lost { result.lost ≡ one.lost + other.lost }
{
    Tally {
        gained: one.gained + other.gained,
        lost: one.lost + other.lost,
    }
}
