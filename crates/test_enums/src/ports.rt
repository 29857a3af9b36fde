//! Enums of which a variant's fields have defaults, and others are lists beside other fields.
mod derived;

use std::collections::BTreeMap;

/// How many berths a port has where a record doesn't say.
const BERTHS: u16 = 4;

/// How a ship enters a port.
#[derive(Drop)]
pub enum Entry {
    Closed,
    Harbour {
        name: String,
        // derive: default = BERTHS
        berths: u16,
        // derive: default = -1
        depth: i32,
        // derive: default
        notes: Vec<String>,
    },
    Queue(Vec<u16>, u8),
    Convoy {
        ships: Vec<String>,
        led: bool,
    },
    Tally(BTreeMap<String, u64>, i16),
    Shift(Vec<u8>, Vec<(u8, char)>),
    Canal {
        // derive: default = true
        locked: bool,
        width: Option<u16>,
        // derive: default
        berths: u16,
    },
}
