//! Types that borrow what they are read from.
mod derived;

use rmp_wire::Bytes;

/// A line of a log, whose texts stand in the message that it is read from.
#[derive(Drop)]
pub struct Line<'a> {
    pub level: u8,
    pub text: &'a str,
    pub tags: Vec<&'a str>,
    pub source: Option<&'a str>,
}

/// A name.
#[derive(Drop)]
pub struct Label<'a>(pub &'a str);

/// Bytes and their place.
#[derive(Drop)]
pub struct Piece<'a>(pub Bytes<'a>, pub u32);

/// What happened.
#[derive(Drop)]
pub enum Event<'a, T> {
    Started,
    Said(&'a str),
    Moved(i16, Label<'a>),
    Put { key: &'a str, size: u32 },
    Held(T),
}
