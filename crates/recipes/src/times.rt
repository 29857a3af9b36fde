//! A point in time in a type of your own.
mod derived;

use crate::failure::Failure;
use rmp_serde::{Timestamp, from_slice, to_vec};
use std::alloc::Global;

/// What happened, and when.
#[derive(Debug, Drop, PartialEq)]
pub struct Event {
    pub time: Timestamp,
    pub what: String,
}

/// Writes what happened so many seconds and nanoseconds after the beginning of 1970. `None`: that many nanoseconds are a second or more.
pub fn write_event(
    alloc: Global,
    seconds: i64,
    nanoseconds: u32,
    what: &str,
) -> Result<Option<Vec<u8>>, Failure> {
    let Some(time) = Timestamp::new(seconds, nanoseconds) else {
        return Ok(None);
    };
    let what = String::from_str(alloc, what)?;
    Ok(Some(to_vec(alloc, &Event { time, what })?))
}

/// Reads the event of such a message.
pub fn read_event(alloc: Global, message: &[u8]) -> Result<Event, Failure> {
    Ok(from_slice(alloc, message)?)
}
