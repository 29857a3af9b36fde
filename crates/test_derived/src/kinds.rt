//! Fields of types of every kind whose values are read as they were written.
mod derived;

use crate::enums::{Four, Mixed};
use crate::structs::{Counted, Dog, Opt};
use std::collections::{BTreeMap, BTreeSet, VecDeque};

/// Two of a kind.
#[derive(Drop)]
pub struct Pair<T>(pub T, pub T);

/// One of two kinds.
#[derive(Drop)]
pub enum Either<T> {
    Left(T),
    Right { by: i32, pair: Option<Pair<T>> },
}

/// A map and a set, whose keys are of types of std or of a parameter.
#[derive(Drop)]
pub struct Sorted<K: Ord> {
    pub dogs: BTreeMap<String, Dog>,
    pub counts: BTreeMap<K, u64>,
    pub numbers: BTreeSet<i16>,
}

/// Types of other files, and types of this one at types of theirs.
#[derive(Drop)]
pub struct Kennel {
    pub dogs: Vec<Dog>,
    pub four: Box<Four>,
    pub pair: Pair<Opt>,
    pub either: Option<Either<bool>>,
}

/// What is left of a row, and how far it is.
#[derive(Drop)]
pub struct Row {
    pub left: VecDeque<(char, i8)>,
    pub far: [u16; 3],
    pub kennel: Kennel,
}

/// Types of other files that have parameters.
#[derive(Drop)]
pub struct Guests {
    pub counted: Counted<Opt>,
    pub mixed: Mixed<bool>,
}
