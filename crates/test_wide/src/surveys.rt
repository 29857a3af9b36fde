//! A struct of sixteen fields, and one of thirty-two, which are read as two structs of sixteen.
mod derived;

use rmp_wire::{ByteBuf, F64Bits};
use std::collections::{BTreeMap, BTreeSet};
use test_mixed::{Course, Spot};

/// A vet's chart, of as many fields as a struct may have.
#[derive(Drop)]
pub struct Chart {
    pub number: u64,
    pub name: String,
    pub born: u16,
    pub weight: u8,
    pub height: i8,
    pub fever: i16,
    pub offset: i32,
    pub balance: i64,
    pub neutered: bool,
    pub chip: Option<u64>,
    pub owner: Option<String>,
    pub shots: Vec<u16>,
    pub notes: Vec<String>,
    pub heart: u32,
    pub lungs: u32,
    pub last: String,
}

/// What a surveyor says of a ship.
#[derive(Drop)]
pub struct Survey {
    pub ship: String,
    pub course: Course,
    pub crew: Vec<(u8, String)>,
    pub seal: u128,
    pub nothing: (),
    pub flag: char,
    pub spot: Spot,
    pub cargo: BTreeMap<String, u64>,
    pub depths: [u16; 3],
    pub last: Option<Spot>,
    pub chart: ByteBuf,
    pub pair: (i64, Option<bool>),
    pub owner: Option<String>,
    pub tonnage: u32,
    pub draught: F64Bits,
    pub ports: Vec<String>,
    pub heading: i16,
    pub debt: i128,
    pub berths: BTreeSet<u16>,
    pub done: bool,
    pub next: Option<Course>,
    pub marks: Vec<Spot>,
    pub length: u64,
    pub beam: u8,
    pub stores: BTreeMap<u16, String>,
    pub sounding: Option<i64>,
    pub hatches: [bool; 2],
    pub legs: Vec<Course>,
    pub port: (u8, String),
    pub log: Vec<ByteBuf>,
    pub crane: Option<char>,
    pub surveyor: String,
}
