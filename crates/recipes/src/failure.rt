//! Both errors by `?` in one function.
use crate::reading::Reading;
use rmp_serde::{decode, encode, from_slice, to_vec_named};
use std::alloc::{AllocError, AllocFailed, Global};
use std::io;

/// What a program that reads and writes may meet. Each `From` lets `?` convert.
#[derive(Debug, Drop, thiserror::Error)]
pub enum Failure {
    #[error("reading: {0}")]
    Read(#[from] decode::Error),
    #[error("writing: {0}")]
    Write(#[from] encode::Error),
    #[error("{0}")]
    Io(#[from] io::Error),
    #[error("out of memory")]
    Memory,
}

impl From<AllocError> for Failure {
    fn from(_e: AllocError) -> Failure {
        Failure::Memory
    }
}

// What `push` returns: the value that had no room is dropped.
impl<T: Drop> From<AllocFailed<T>> for Failure {
    fn from(_e: AllocFailed<T>) -> Failure {
        Failure::Memory
    }
}

/// Reads a reading in any form, and writes it as a map from field names.
pub fn with_names(alloc: Global, message: &[u8]) -> Result<Vec<u8>, Failure> {
    let reading: Reading = from_slice(alloc, message)?;
    Ok(to_vec_named(alloc, &reading)?)
}
