//! Types whose reads meet an end only inside of a message, and what follows for them.
#![tactic(auto)]

mod ends_inside;
pub mod laws;

pub use ends_inside::EndsInside;
