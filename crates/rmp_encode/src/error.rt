//! Why a write failed.
ghost use Rattle.std.specs.Prelude.{◌≡◌};
ghost use Rattle.rmp_encode.specs.declared.error.Error.TheVariants as errors;

use rmp_wire::ValueWriteError;
use std::alloc::{AllocError, AllocFailed};
use thiserror::Error;

/// Why a write failed.
#[derive(Debug, Drop, Error)]
pub enum Error {
    /// The sink failed: before it took the first byte of an item (`InvalidMarkerWrite`), or after it
    /// (`InvalidDataWrite`). What the `end` of a list, a map or a tuple writes is one item.
    #[error("invalid value write: {0}")]
    InvalidValueWrite(ValueWriteError),
    /// Never returned: lists and maps of unknown length are counted first.
    #[error("attempt to serialize struct, sequence or map with unknown length")]
    UnknownLength,
    /// A length of 2 ^ 32 or more, or a newtype struct with the name of an extension; the text says which.
    #[error("serialize data model is invalid: {0}")]
    InvalidDataModel(&'static str),
    /// Never returned.
    #[error("depth limit exceeded")]
    DepthLimitExceeded,
    /// A type's own refusal.
    #[error("{0}")]
    Syntax(&'static str),
    /// Out of memory.
    #[error("out of memory")]
    OutOfMemory,
}

impl From<ValueWriteError> for Error {
    ghost use Rattle.rmp_encode.specs.Errors.{error_of};

    ghost from_gives = { λ e error. error ≡ error_of e };

    fn from(e: ValueWriteError) -> Error {
        match e {
            ValueWriteError::OutOfMemory => Error::OutOfMemory,
            fault => Error::InvalidValueWrite(fault),
        }
    }
}

impl From<AllocError> for Error {
    ghost from_gives = { λ _ error. error ≡ errors.OutOfMemory };

    fn from(_e: AllocError) -> Error {
        Error::OutOfMemory
    }
}

impl<T: Drop> From<AllocFailed<T>> for Error {
    ghost from_gives = { λ _ error. error ≡ errors.OutOfMemory };

    fn from(_e: AllocFailed<T>) -> Error {
        Error::OutOfMemory
    }
}
