//! Enums that contain themselves, whose implementations tools/derive.py writes.
mod derived;

use rmp_wire::{ByteBuf, F32Bits, F64Bits};

/// A number, or a list of trees.
#[derive(Drop)]
pub enum Tree {
    Leaf(u8),
    Node(Vec<Tree>),
}

/// A term: values of most kinds, and terms in a box, in an option and in a list.
#[derive(Drop)]
pub enum Term {
    Nothing,
    Number(i64),
    Name(String),
    Truth(bool),
    Letter(char),
    Half(F32Bits),
    Whole(F64Bits),
    Bytes(ByteBuf),
    Size(usize),
    Offset(isize),
    Big(u128),
    Wide(i128),
    Not(Box<Term>),
    Next(Option<Box<Term>>),
    Sum(Vec<Term>),
}
