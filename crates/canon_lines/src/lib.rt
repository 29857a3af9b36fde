//! Lines of hex, and what the program `mpcanon` prints for each: its messages as trees with their canonical spelling, or
//! whether they are spelled canonically.
#![tactic(auto)]

mod buffer;
pub mod check;
mod digits;
pub mod laws;
mod leaf;
mod lines;
pub mod run;
pub mod show;
pub mod task;
mod text;

pub use buffer::BufSink;
pub use lines::RunFault;
