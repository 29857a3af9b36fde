//! For tests: types whose fields are doubles from any sender and points in time.
#![tactic(auto)]

mod readings;

pub use readings::{Alarm, Reading};
