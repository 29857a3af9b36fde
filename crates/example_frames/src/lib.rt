//! Requests of peers that aren't trusted: each in a frame that says how long it is, or one after another on a stream.
#![tactic(auto)]

mod frames;
mod request;
mod stream;

pub use frames::{Refusal, explain_request, next_request, write_request};
pub use request::Request;
pub use stream::{Incoming, StreamRefusal, write_bare};
