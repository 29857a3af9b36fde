//! Nine fields or elements, and sixteen elements: of a struct, of a tuple struct, and of variants.
mod derived;

use rmp_wire::{ByteBuf, F64Bits};
use std::collections::BTreeMap;
use test_mixed::Spot;

/// A row of a table.
#[derive(Drop)]
pub struct Row(
    pub u64,
    pub String,
    pub i32,
    pub Option<u16>,
    pub bool,
    pub char,
    pub F64Bits,
    pub Vec<u16>,
    pub [u16; 3],
    pub Spot,
    pub (u8, String),
    pub ByteBuf,
    pub BTreeMap<String, u32>,
    pub i128,
    pub (),
    pub Option<Spot>,
);

/// A line of a table.
#[derive(Drop)]
pub enum Line {
    Empty,
    Short(u8, String, i16, Option<u16>, bool, Vec<u16>, char, Spot, u32),
    Long(
        u64,
        String,
        i32,
        Option<u16>,
        bool,
        char,
        F64Bits,
        Vec<u16>,
        [u16; 3],
        Spot,
        (u8, String),
        ByteBuf,
        BTreeMap<String, u32>,
        i128,
        (),
        Option<Spot>,
    ),
}

/// A dog's papers, of more fields than are handed over at once.
#[derive(Drop)]
pub struct Papers {
    pub number: u64,
    pub name: String,
    pub born: u16,
    pub chip: Option<u64>,
    pub mother: Option<u64>,
    pub father: Option<u64>,
    pub weight: u8,
    pub height: i8,
    pub vaccinated: bool,
}
