//! Types that lead back to themselves through lists and maps, as JSON does. They are read as they were written.
#![tactic(auto)]

mod dirs;
mod json;

pub use dirs::Dir;
pub use json::Json;
