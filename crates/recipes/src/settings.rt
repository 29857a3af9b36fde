//! Structs as maps, and other settings of a `Serializer`.
use crate::failure::Failure;
use crate::reading::Reading;
use rmp_serde::{Serialize, Serializer};
use std::alloc::Global;

/// Writes several readings as maps from field names. The settings stay from one to the next.
pub fn maps(alloc: Global, readings: &[Reading]) -> Result<Vec<u8>, Failure> {
    let mut ser = Serializer::new(alloc, Vec::new(alloc)).with_struct_map();
    for reading in readings {
        reading.serialize(&mut ser)?;
    }
    Ok(ser.into_inner())
}
