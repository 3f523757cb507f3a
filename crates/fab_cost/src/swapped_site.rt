//! Where a block is after a swap.

ghost use Rattle.std.specs.Prelude.{◌≡◌, ◌<◌, length};
ghost use Rattle.fab_arch.specs.Grid.{GridShape};
ghost use Rattle.fab_site.specs.Placement.{site_of, swapped, IsSwapOf};
ghost use Rattle.fab_cost.specs.Swapping.{ComesBack};

use fab_arch::Site;
use fab_net::BlockId;
use fab_site::{Placement, Swap};

/// The block that goes to the site that the swap's first block leaves: the other block. If there is none, it is the first block itself,
/// which goes elsewhere.
pub(crate) fn comes_back(swap: &Swap) -> BlockId
    ensures { ComesBack swap.now.block swap.now.other result }
{
    match swap.other {
        None => swap.block,
        Some(other) => other,
    }
}

/// The site of the block after the swap. Reads the same memory for every block, so that no branch is mispredicted.
#[tactic(auto, using(crate::proofs::Sited::site_of_moved, crate::proofs::Sited::site_of_back, crate::proofs::Sited::site_of_still))]
#[inline(always)]
pub(crate) fn site_swapped(
    placement: &Placement,
    swap: &Swap,
    back: BlockId,
    block: BlockId,
) -> Site
    requires within { block.0 < length placement.now.sites }
    requires back { ComesBack swap.now.block swap.now.other back }
    ensures { (g : GridShape) → IsSwapOf g placement.now.sites swap.now →
        result ≡ site_of (swapped placement.now.sites swap.now) block.0 }
{
    let here = placement.site_of(block);
    if block == swap.block {
        swap.to
    } else if block == back {
        swap.from
    } else {
        here
    }
}
