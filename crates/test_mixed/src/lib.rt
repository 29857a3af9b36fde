//! A struct and an enum of mixed fields, which types of other crates hold, and types of which a half is written by hand.
#![tactic(auto)]

mod halves;
mod mixed;

pub use halves::{Buoy, Coast, Light};
pub use mixed::{Course, Spot};
