//! Callers of `canon_lines` that have the lines in memory, and one of `Value`.
#![tactic(auto)]

mod memory;
mod value;

pub use memory::{check_lines, run_lines};
pub use value::canonical;
