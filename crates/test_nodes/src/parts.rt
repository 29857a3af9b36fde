//! Structs that contain themselves beside parts of many other types, whose implementations tools/derive.py writes.
mod derived;

use std::collections::{BTreeMap, VecDeque};

/// A length, in one of two units.
#[derive(Drop)]
pub enum Width {
    Px(u32),
    Em(String),
}

/// A number by which a box is known.
#[derive(Drop)]
pub struct Id(pub u64);

/// A box of a page, with the boxes in it.
#[derive(Drop)]
pub struct Frame {
    pub id: Id,
    pub width: Width,
    pub hash: [u8; 16],
    pub counts: BTreeMap<String, u64>,
    pub least: Option<Width>,
    pub frames: VecDeque<Frame>,
}

/// A document, as JSON has it, whose objects keep the order of their keys.
#[derive(Drop)]
pub enum Doc {
    Null,
    Wide(Width),
    Framed { id: Id, doc: Box<Doc> },
    Array(Vec<Doc>),
    Object(Vec<(String, Doc)>),
}
