//! Architectures: reads an architecture text, and makes the array of sites for the blocks.
#![tactic(auto)]

pub mod architecture;
pub mod array;
pub mod fault;
pub mod reading;

pub use architecture::{Arch, PinKind};
pub use array::{Grid, Site, SiteKind};
pub use fault::{ArchFault, GridFault};
pub use reading::read_arch;
