//! Bytes as bytes: a `Vec<u8>` is written as a list of numbers, a `ByteBuf` as bytes.
use crate::failure::Failure;
use rmp_serde::config::BytesMode;
use rmp_serde::{ByteBuf, Serialize, Serializer, to_vec};
use std::alloc::Global;

/// The three spellings of two bytes: as a list, as bytes, and as bytes by a setting.
pub fn spellings(alloc: Global) -> Result<[Vec<u8>; 3], Failure> {
    let list = Vec::from_slice(alloc, &[1u8, 200])?;
    let as_list = to_vec(alloc, &list)?;
    let mut ser = Serializer::new(alloc, Vec::new(alloc)).with_bytes(BytesMode::ForceAll);
    list.serialize(&mut ser)?;
    let as_bytes = to_vec(alloc, &ByteBuf::new(list))?;
    Ok([as_list, as_bytes, ser.into_inner()])
}
