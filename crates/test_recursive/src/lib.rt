//! Types that contain themselves: enums that the tool derives, and one by hand. They are read as they were written.
#![tactic(auto)]

mod recursive;
mod rounds;
mod tasks;
mod trees;

pub use recursive::Nested;
pub use tasks::{Order, Span, Task};
pub use trees::{Term, Tree};
