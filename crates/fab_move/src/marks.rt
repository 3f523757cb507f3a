//! The marks of moves: what a judgement rests on, and what an accepted swap touches. The program makes no list of marks; it looks at
//! stamps.

use fab_arch::Site;
use fab_net::{BlockId, NetId};
use smallvec::SmallVec;

/// A block, a site or a net that a judgement rests on, or that an accepted swap touches.
#[derive(Clone, Copy, Debug, PartialEq, Eq)]
pub enum Mark {
    /// A block.
    Block(BlockId),
    /// A site.
    Place(Site),
    /// A net that is not global.
    Net(NetId),
}

/// Fills the inline slots that are not in use.
impl Default for Mark {
    fn default() -> Mark {
        Mark::Net(NetId(0))
    }
}

/// The marks that a judgement rests on. Those of a swap of two blocks with twelve nets each still fit inline.
pub type Footprint = SmallVec<Mark, 28>;
