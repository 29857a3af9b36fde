//! Callers that promise nothing: what they call is proved to be called as it may be, and nothing is written for it.
use crate::structs::Dog;
use rmp_decode::from_slice;
use rmp_encode::to_vec;
use std::alloc::Global;

/// How many there are of each thing.
type Stock = Vec<(String, u16)>;

/// One more of each thing, or nothing where the message is no such list.
pub fn restocked(alloc: Global, message: &[u8]) -> Option<Vec<u8>> {
    let mut stock: Stock = from_slice(alloc, message).ok()?;
    for (_, count) in &mut stock {
        *count = count.saturating_add(1);
    }
    to_vec(alloc, &stock).ok()
}

/// The message with a dog that is a year older, or nothing where it is no dog or memory is short.
pub fn older(alloc: Global, message: &[u8]) -> Option<Vec<u8>> {
    let mut dog: Dog = from_slice(alloc, message).ok()?;
    dog.age = dog.age.saturating_add(1);
    to_vec(alloc, &dog).ok()
}
