//! Messages for programs in C: rmp.h declares these calls, and docs/C.md shows them.
//!
//! Each call returns a status: 0 if it did what it says, and the reason if it didn't.
#![tactic(auto)]

mod canonical;
mod check;
mod head;
mod path;
mod put;
mod scan;
mod skip;
mod walk;
