//! Types that borrow what they are read from and are declared alone, whose implementations and proofs tools/derive.py wrote.
#![tactic(auto)]

mod lent;

pub use lent::{Event, Label, Line, Piece};
