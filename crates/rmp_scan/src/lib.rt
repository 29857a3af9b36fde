//! Messages that arrive in pieces: where each ends, and whether the bytes begin a message at all.
#![tactic(auto)]

mod length;
mod length_of;
mod opening;
mod scanner;
mod small;
mod state;
mod want;

pub use length_of::message_len;
pub use scanner::{Scan, Scanner};
pub use state::State;
