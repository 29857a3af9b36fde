//! An enum of thirty variants of mixed kinds.
mod derived;

use rmp_wire::{ByteBuf, F64Bits};
use std::collections::{BTreeMap, BTreeSet};
use test_mixed::{Course, Spot};

/// What a ship signals.
#[derive(Drop)]
pub enum Signal {
    Silent,
    Call(String),
    At(i32, i32),
    Sail {
        course: Course,
        reef: u8,
    },
    Anchor,
    Depth(u16),
    Depths([u16; 4]),
    Spotted(Spot),
    Crew(Vec<String>),
    Meet {
        spot: Spot,
        hour: u8,
        name: Option<String>,
    },
    Distress,
    Heading(i16),
    Weather(F64Bits, char),
    Cargo(BTreeMap<String, u64>),
    Ports(BTreeSet<u16>),
    Chart {
        name: String,
        seal: u128,
        chart: ByteBuf,
    },
    Answer(bool),
    Course(Course),
    Pair((u8, String)),
    Maybe(Option<u32>),
    Pilot {
        name: String,
    },
    Quarantine,
    Tug(u8, u16, u32, u64),
    Debt(i128),
    Nothing(()),
    Lights {
        left: u8,
        right: u8,
        top: [u8; 2],
        lit: bool,
    },
    Flags(Vec<(u8, char)>),
    Towed {
        by: Box<Spot>,
        since: i64,
    },
    Fog(Option<(u16, u16)>, bool),
    Farewell,
}
