//! A message that has no type of its own.
use crate::failure::Failure;
use crate::reading::Reading;
use rmp_serde::{Value, to_value_named};
use std::alloc::Global;

/// Makes a map of a note and a reading, which is a map from its field names.
pub fn noted(alloc: Global, note: &str, reading: &Reading) -> Result<Value, Failure> {
    let pairs = [
        (
            Value::from_text(alloc, "note")?,
            Value::from_text(alloc, note)?,
        ),
        (
            Value::from_text(alloc, "reading")?,
            to_value_named(alloc, reading)?,
        ),
    ];
    Ok(Value::from_pairs(alloc, &pairs)?)
}
