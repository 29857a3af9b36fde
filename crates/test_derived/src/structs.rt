//! Structs of each kind.
mod derived;

/// A dog's name and age.
#[derive(Drop)]
pub struct Dog {
    pub name: String,
    pub age: u16,
}

/// One number that may be missing.
#[derive(Drop)]
pub struct Opt {
    pub v: Option<u8>,
}

/// A number and a text.
#[derive(Drop)]
pub struct Point(pub u32, pub String);

/// A newtype struct of a number.
#[derive(Drop)]
pub struct Newtype(pub u64);

/// Nothing.
#[derive(Drop)]
pub struct Unit;

/// A value and how often it is there.
#[derive(Drop)]
pub struct Counted<T> {
    pub value: T,
    pub count: u64,
}
