//! Types for what other programs send: doubles from any float or whole number, and points in time.
#![tactic(auto)]

mod float;
mod timestamp;

pub use float::Float64;
pub use timestamp::Timestamp;
