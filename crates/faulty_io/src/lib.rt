//! A source and a sink for tests: each call moves one byte, and calls fail from a given count on.
#![tactic(auto)]

mod sink;
mod source;

pub use sink::Trickle;
pub use source::Drip;
