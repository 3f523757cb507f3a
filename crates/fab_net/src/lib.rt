//! Netlists: blocks, the nets that join their pins, and the reader of the text format.
#![tactic(auto)]

pub mod blocks;
pub mod design;
pub mod fault;
pub mod names;
pub mod netlist_types;
pub mod pins;
pub mod reading;
pub mod rows;

pub use design::Design;
pub use fault::NetFault;
pub use netlist_types::{BlockId, BlockKind, NetId, Terminal};
pub use reading::read_net;
