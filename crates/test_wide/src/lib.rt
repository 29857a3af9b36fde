//! Structs of many fields, some of which are types of another crate, whose implementations and proofs tools/derive.py wrote.
#![tactic(auto)]

mod manifest;
mod rows;
mod surveys;

pub use manifest::Manifest;
pub use rows::{Line, Papers, Row};
pub use surveys::{Chart, Survey};
