//! Enums of many variants, some of which hold types of another crate, whose implementations and proofs tools/derive.py wrote.
#![tactic(auto)]

mod ports;
mod signals;

pub use ports::Entry;
pub use signals::Signal;
