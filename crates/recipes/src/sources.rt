//! Which source for what.
//!
//! | Bytes | Source | Reads |
//! |---|---|---|
//! | in memory | none: `from_slice`, `Deserializer::from_read_ref` | nothing: it borrows |
//! | a file or a pipe that holds messages and nothing else | `AheadSource` | in large pieces, past the message |
//! | a reader whose bytes after the message another part of the program wants | `IoSource` | exactly the message, in many small calls |
//! | a `BufReader` that the program has already | `BufSource` | exactly the message, from the reader's buffer |
use crate::failure::Failure;
use rmp_serde::IoSource;
use rmp_serde::decode::{self, ReadReader};
use std::alloc::Global;
use std::io::{Cursor, Read};

/// Reads a number, and then the text that follows it, which is no message: `IoSource` leaves it.
pub fn number_then_text(alloc: Global, bytes: &[u8]) -> Result<(u32, String), Failure> {
    let mut source = IoSource::new(Cursor::new(bytes));
    let number = decode::from_read(alloc, &mut source)?;
    let mut text = String::new(alloc);
    source.get_mut().read_to_string(&mut text)?;
    Ok((number, text))
}
