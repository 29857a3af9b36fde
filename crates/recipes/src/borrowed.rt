//! Borrowing: texts and bytes stay in the message, and nothing is copied.
use crate::failure::Failure;
use rmp_serde::{Bytes, from_slice};
use std::alloc::Global;

/// Returns the title and the size of the picture of a message `[title, picture]`.
pub fn title(alloc: Global, message: &[u8]) -> Result<(&str, usize), Failure> {
    let (title, picture): (&str, Bytes<'_>) = from_slice(alloc, message)?;
    Ok((title, picture.as_bytes().len()))
}
