//! A swap, and what is read to compute its change of cost.

use fab_arch::Grid;
use fab_net::{BlockId, Design};
use fab_site::{Placement, Swap};

/// A swap of a placement, with its design and array.
#[derive(Clone, Copy)]
pub(crate) struct SwapView<'a> {
    pub(crate) design: &'a Design,
    pub(crate) grid: &'a Grid,
    pub(crate) placement: &'a Placement,
    pub(crate) swap: &'a Swap,
    /// The lane-wise minimum of the lanes of its two sites.
    pub(crate) reach: [u16; 4],
}

/// One block of a swap, whose nets are looked at. For the first block, `but` is `None`. For the other block, `but` is the first, and nets
/// that are also of the first are left out.
#[derive(Clone, Copy)]
pub(crate) struct Part {
    pub(crate) block: BlockId,
    pub(crate) but: Option<BlockId>,
}
