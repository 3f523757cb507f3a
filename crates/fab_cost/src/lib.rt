//! The wire cost of placements.
#![tactic(auto)]

mod block_nets;
pub mod counted_box;
pub mod crossings;
pub mod edge_boxes;
pub mod edge_counts;
mod lane_boxes;
mod lanes;
mod large_change;
mod large_nets;
mod most_pins;
pub mod near;
pub mod net_box;
pub mod net_boxes;
mod records;
mod runs;
mod sized_rows;
mod small_nets;
mod swap_view;
mod swapped_site;
mod tally;
mod whole_boxes;
pub mod wire;

pub use crossings::cross;
pub use edge_boxes::EdgeBoxes;
pub use near::lift_one;
pub use net_box::NetBox;
pub use net_boxes::Boxes;
pub use runs::has_many_terminals;
pub use wire::WireCost;
