//! The type that the recipes write and read.
mod derived;

/// A sensor's reading.
#[derive(Debug, Drop, PartialEq)]
pub struct Reading {
    pub second: u32,
    pub sensor: String,
    pub celsius: i16,
}
