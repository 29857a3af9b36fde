//! What a sensor sends.
mod derived;

use rmp_types::{Float64, Timestamp};

/// The load of a place at a point in time.
#[derive(Drop)]
pub struct Reading {
    pub name: String,
    pub load: Float64,
    pub at: Timestamp,
}

/// What is wrong there.
#[derive(Drop)]
pub enum Alarm {
    Silent {
        since: Timestamp,
        last: Option<Float64>,
    },
    Above(Vec<Float64>),
}
