//! The model that contracts and tests alone use: moves are judged ahead and committed by one event after another. No run executes it.

mod claims;
mod clashes;
pub mod events;
mod judged;
pub mod world;
mod world_state;
