//! Which part of a message an offset is in: the turns that lead there through lists and maps.
#![tactic(auto)]

mod location;
mod node;
mod turn;

pub use location::{Location, locate};
pub use turn::Turn;
