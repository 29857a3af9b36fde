//! A caller of `Value` that promises nothing: what it calls is proved to be called as it may be, and nothing is written for it.
use rmp_serde::{Value, from_slice, to_vec};
use std::alloc::Global;

/// The one canonical spelling of a message that may be in any widths.
pub fn canonical(alloc: Global, message: &[u8]) -> Option<Vec<u8>> {
    let value: Value = from_slice(alloc, message).ok()?;
    to_vec(alloc, &value).ok()
}
