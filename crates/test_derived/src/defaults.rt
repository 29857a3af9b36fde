//! Records of which older ones lack some fields.
mod derived;

use rmp_wire::{ByteBuf, F64Bits};
use std::collections::{BTreeMap, BTreeSet};

/// How many tries there are where a record doesn't say.
const TRIES: i32 = -1;

/// Where a window is where a record doesn't say.
const CORNER: (u16, u16) = (0, 0);

/// How much is told.
#[derive(Drop)]
pub enum Level {
    Quiet,
    Loud,
}

/// What is told where a record doesn't say.
const PLAIN: Level = Level::Quiet;

/// Where a server is, and how it is reached.
#[derive(Drop)]
pub struct Server {
    pub host: String,
    // derive: default = 8080
    pub port: u16,
    // derive: default = TRIES
    pub tries: i32,
    // derive: default
    pub shift: i8,
    pub note: Option<String>,
    // derive: default = '/'
    pub sign: char,
    // derive: default = CORNER
    pub corner: (u16, u16),
    // derive: default = PLAIN
    pub level: Level,
}

/// What a proxy is called where a record doesn't say.
const NAME: &str = "proxy";

/// A proxy, of which a record may say nothing.
#[derive(Drop)]
pub struct Proxy {
    // derive: default = "localhost"
    pub host: String,
    // derive: default = Some(3)
    pub tries: Option<u8>,
    // derive: default = NAME
    pub name: String,
    // derive: default = [127, 0, 0, 1]
    pub address: [u8; 4],
    // derive: default = (80, -1)
    pub ports: (u16, i32),
    // derive: default = 0.5
    pub load: F64Bits,
    // derive: default = Level::Loud
    pub level: Level,
}

/// Values that are empty where a record doesn't have them.
#[derive(Drop)]
pub struct Lists {
    // derive: default
    pub name: String,
    // derive: default, rename = "all"
    pub list: Vec<u16>,
    // derive: default
    pub counts: BTreeMap<String, u64>,
    // derive: default
    pub seen: BTreeSet<u32>,
    // derive: default
    pub raw: ByteBuf,
}

/// A page, and what isn't stored of it.
#[derive(Drop)]
pub struct Page {
    pub title: String,
    // derive: skip
    pub views: u32,
    // derive: skip, default = -1
    pub rank: i32,
    // derive: skip
    pub links: Vec<u32>,
    // derive: skip
    pub seen: Option<u64>,
    // derive: default = 1
    pub edition: u16,
}

/// One field that may be missing.
#[derive(Drop)]
pub struct Once {
    // derive: default = 3
    pub times: u8,
}
