//! Input from anybody: limits on nesting, on the length and on the spelling.
use crate::failure::Failure;
use rmp_serde::{Deserialize, Deserializer, Value};
use std::alloc::Global;

/// Reads a message that nests below 16, has canonical heads only, and is followed by nothing.
pub fn careful(alloc: Global, message: &[u8]) -> Result<Option<Value>, Failure> {
    let mut de = Deserializer::from_read_ref(alloc, message);
    de.set_max_depth(16);
    de.set_strict(true);
    let value = Value::deserialize(&mut de)?;
    Ok(de.remaining_slice().is_empty().then_some(value))
}
