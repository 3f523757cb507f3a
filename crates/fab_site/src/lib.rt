//! Placements: the site of each block, and the block on each site.
#![tactic(auto)]

pub mod drafts;
pub mod fixed;
pub mod index;
pub mod legal;
pub mod pins;
pub mod placement_types;
pub mod places;
pub mod random_words;
pub mod start_placement;

pub use drafts::Draft;
pub use fixed::Fixed;
pub use legal::is_legal;
pub use pins::Pins;
pub use placement_types::Swap;
pub use places::Placement;
pub use random_words::{ListWords, Words, pick};
pub use start_placement::start;
