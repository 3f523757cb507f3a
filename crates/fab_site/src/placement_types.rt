//! The small types of placements.

use fab_arch::Site;
use fab_net::BlockId;

/// One block moves to another site; the block on that site, if any, moves to the first block's site.
#[derive(Clone, Copy, Debug, PartialEq, Eq)]
pub struct Swap {
    pub block: BlockId,
    pub from: Site,
    pub to: Site,
    /// The block on `to` before the swap, if any.
    pub other: Option<BlockId>,
}
