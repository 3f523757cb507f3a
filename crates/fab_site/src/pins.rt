//! The blocks to which a location file gives a site.

use crate::fixed::Fixed;

/// Blocks that have a site before the first move: fixed ones keep it, begun ones may move later. `start` requires that no block and no site
/// occurs twice in the two lists together.
#[derive(Drop)]
pub struct Pins {
    pub fixed: Fixed,
    pub begun: Fixed,
}
