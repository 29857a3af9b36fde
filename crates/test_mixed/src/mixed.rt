//! A struct, and an enum whose variants are of each kind, whose implementations tools/derive.py writes.
mod derived;

use rmp_wire::F64Bits;

/// How a ship sails.
#[derive(Drop)]
pub enum Course {
    Moored,
    Toward(String),
    Between(u16, i32),
    By { wind: F64Bits, sails: [u8; 2] },
}

/// Where a ship is.
#[derive(Drop)]
pub struct Spot {
    pub north: i32,
    pub name: Option<char>,
}
