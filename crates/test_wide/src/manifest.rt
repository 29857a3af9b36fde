//! A struct of twenty fields, more than are read as nested tuples.
mod derived;

use rmp_wire::{ByteBuf, F64Bits};
use std::collections::{BTreeMap, BTreeSet};
use test_mixed::{Course, Spot};

/// What a ship says of itself in a port.
#[derive(Drop)]
pub struct Manifest {
    pub ship: String,
    pub course: Course,
    pub crew: Vec<(u8, String)>,
    pub seal: u128,
    pub nothing: (),
    pub flag: char,
    pub spot: Spot,
    pub cargo: BTreeMap<String, u64>,
    pub depths: [u16; 3],
    pub last: Option<Spot>,
    pub chart: ByteBuf,
    pub pair: (i64, Option<bool>),
    pub owner: Option<String>,
    pub tonnage: u32,
    pub draught: F64Bits,
    pub ports: Vec<String>,
    pub heading: i16,
    pub debt: i128,
    pub berths: BTreeSet<u16>,
    pub done: bool,
}
