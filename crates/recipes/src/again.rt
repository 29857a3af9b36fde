//! One `Vec` for many messages: its memory is used again.
use crate::failure::Failure;
use crate::reading::Reading;
use rmp_serde::encode;
use std::alloc::Global;

/// Returns how many bytes the messages of these readings have in all.
pub fn total(alloc: Global, readings: &[Reading]) -> Result<usize, Failure> {
    let mut message = Vec::new(alloc);
    let mut total = 0usize;
    for reading in readings {
        message.clear();
        encode::write(alloc, &mut message, reading)?;
        total = total.saturating_add(message.len());
    }
    Ok(total)
}
