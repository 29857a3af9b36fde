//! Enums with variants of each kind.
mod derived;

use crate::structs::Dog;

/// A variant without content, and one of two numbers.
#[derive(Drop)]
pub enum V12 {
    V1,
    V2(u32, u32),
}

/// Two variants without content.
#[derive(Clone, Copy, Drop)]
pub enum Two {
    First,
    Second,
}

/// A variant of each kind.
#[derive(Drop)]
pub enum Four {
    Unit,
    New(u8),
    Tup(u8, u16),
    Str { a: u8, b: String },
}

/// A value of another type, or one of the file's own and a dog.
#[derive(Drop)]
pub enum Mixed<T> {
    Other(T),
    Kept { four: Option<Four>, dog: Dog },
}
