//! Reads and writes placement texts, and reads location texts.
#![tactic(auto)]

#[cfg(test)]
mod arch_tests;
pub mod block_lines;
#[cfg(test)]
mod cut_tests;
pub mod fault;
pub mod header;
pub mod location_texts;
#[cfg(test)]
mod netlist_tests;
pub mod reading;
#[cfg(test)]
mod refused_tests;
#[cfg(test)]
mod site_tests;
#[cfg(test)]
mod tests;
#[cfg(test)]
mod text_tests;
pub mod words;
pub mod writing;

pub use block_lines::PlaceLines;
pub use fault::PlaceFault;
pub use header::place_size;
pub use location_texts::{location_texts_mean_or_fault, read_pins};
pub use reading::{place_texts_mean_or_fault, read_place};
pub use writing::{Labels, are_labels, write_place, written_texts_read_back};
