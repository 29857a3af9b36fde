//! The requests.
mod derived;

use rmp_serde::Value;

/// A request of a peer.
#[derive(Drop)]
pub enum Request {
    /// A check that the server responds.
    Ping,
    /// What is stored under a number.
    Get(u64),
    /// A value, to be stored under a number.
    Put(u64, Value),
}
