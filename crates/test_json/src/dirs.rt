//! A recursive struct with a map of the type, whose implementation tools/derive.py writes.
mod derived;

use std::collections::BTreeMap;

/// A directory with those in it, each of which has a letter.
#[derive(Drop)]
pub struct Dir {
    pub size: i64,
    pub dirs: BTreeMap<char, Dir>,
}
