//! Types whose values are read as they were written, and what follows for them.
#![tactic(auto)]

pub mod laws;
mod round_trip;
mod turns;

pub use round_trip::{ContentOrd, NeverNil, RoundTrip};
