//! Why a read failed.
ghost use Rattle.std.specs.Prelude.{◌≡◌, ◌↔◌, None, Some, true, MatchOption};
ghost use Rattle.rmp_decode.specs.declared.error.Error.TheVariants as errors;

use crate::text::{OwnText, Text};
use rmp_wire::{IoFault, Marker, MarkerReadError, ValueReadError};
use std::alloc::{AllocError, AllocFailed};
use std::io::ErrorKind;
use std::str::Utf8Error;
use thiserror::Error;

/// Why a read failed.
#[derive(Debug, Drop, Error)]
pub enum Error {
    /// The input ended, or the source failed, before a message's first byte.
    #[error("IO error while reading marker: {0}")]
    InvalidMarkerRead(IoFault),
    /// The input ended, or the source failed, after a message's first byte.
    #[error("IO error while reading data: {0}")]
    InvalidDataRead(IoFault),
    /// The marker begins no message of the wanted kind; the byte c1 begins none at all.
    #[error("wrong msgpack marker {0:?}")]
    TypeMismatch(Marker),
    /// A negative number, for a `u128`.
    #[error("numeric cast found out of range")]
    OutOfRange,
    /// A list, a map or bytes of another length than the type has.
    #[error("array had incorrect length, expected {0}")]
    LengthMismatch(u32),
    /// An earlier read of this reader failed.
    #[error("uncategorized error: {0}")]
    Uncategorized(Text),
    /// The message is none that the type reads.
    #[error("{0}")]
    Syntax(Text),
    /// A text that isn't UTF-8.
    #[error("string found to be invalid utf8: {0}")]
    Utf8Error(Utf8Error),
    /// A list or a map that nests too deep.
    #[error("depth limit exceeded")]
    DepthLimitExceeded,
    /// Out of memory.
    #[error("out of memory")]
    OutOfMemory,
    /// A head that isn't canonical, in a strict read.
    #[error("not canonical")]
    NotCanonical,
}

impl Error {
    ghost use Rattle.rmp_decode.specs.Exact.{IsEnd};
    ghost use Rattle.rmp_decode.specs.Words.{field_of, fitting};

    /// Makes `Syntax("missing field")` for a field of this name. It holds the name, or as much of it as fits: its longest
    /// prefix of at most 30 bytes that is UTF-8.
    #[inline(never)]
    pub fn missing_field(name: &str) -> Error
        ensures { field_of result ≡ Some (fitting name.now) }
    {
        Error::Syntax(Text::MissingField(OwnText::cut(name)))
    }

    /// Returns the name of the field that is missing, or as much of it as fits (see `missing_field`), and `None` for
    /// another error.
    ///
    /// A struct that is read from a map names the first of its fields that isn't there and has no default.
    ///
    /// # Examples
    /// ```
    /// use rmp_serde::decode::{Deserializer, Error};
    ///
    /// // a map of one pair: "width" is 5
    /// let mut de = Deserializer::from_read_ref(alloc, b"\x81\xa5width\x05");
    /// let read: Result<(u8, (u8, ())), Error> = de.deserialize_fields(&["width", "height"]);
    /// assert!(rt; matches!(read, Err(e) if e.field() == Some("height")));
    /// ```
    pub fn field(&self) -> Option<&str>
        ensures { MatchOption result (field_of self.now ≡ None) (λ name. field_of self.now ≡ Some name.now) }
    {
        match self {
            Error::Syntax(Text::MissingField(name)) => Some(name.as_str()),
            _ => None,
        }
    }

    /// Returns whether the input ended before the message did: the error is `InvalidMarkerRead` or `InvalidDataRead`
    /// with the kind `UnexpectedEof`. More bytes may then complete the message. Any other error means that something
    /// else is wrong.
    ///
    /// # Examples
    /// ```
    /// use rmp_serde::from_slice;
    ///
    /// // a text of two bytes, of which one is there
    /// let cut = from_slice::<String>(alloc, &[0xa2, 0x69]);
    /// assert!(rt; matches!(cut, Err(e) if e.is_incomplete()));
    /// let number = from_slice::<String>(alloc, &[0x2a]);
    /// assert!(rt; matches!(number, Err(e) if !e.is_incomplete()));
    /// ```
    pub fn is_incomplete(&self) -> bool
        ensures { (result ≡ true) ↔ IsEnd self.now }
    {
        match self {
            Error::InvalidMarkerRead(fault) => fault.kind() == ErrorKind::UnexpectedEof,
            Error::InvalidDataRead(fault) => fault.kind() == ErrorKind::UnexpectedEof,
            _ => false,
        }
    }
}

impl From<MarkerReadError> for Error {
    ghost from_gives = { λ e error. error ≡ errors.InvalidMarkerRead e.0 };

    fn from(e: MarkerReadError) -> Error {
        Error::InvalidMarkerRead(e.0)
    }
}

impl From<ValueReadError> for Error {
    ghost use Rattle.rmp_decode.specs.ReadErrors.{error_of};

    ghost from_gives = { λ e error. error ≡ error_of e };

    fn from(e: ValueReadError) -> Error {
        match e {
            ValueReadError::InvalidMarkerRead(fault) => Error::InvalidMarkerRead(fault),
            ValueReadError::InvalidDataRead(fault) => Error::InvalidDataRead(fault),
            ValueReadError::TypeMismatch(marker) => Error::TypeMismatch(marker),
        }
    }
}

impl From<Utf8Error> for Error {
    ghost from_gives = { λ e error. error ≡ errors.Utf8Error e };

    fn from(e: Utf8Error) -> Error {
        Error::Utf8Error(e)
    }
}

impl From<AllocError> for Error {
    ghost from_gives = { λ _ error. error ≡ errors.OutOfMemory };

    fn from(_e: AllocError) -> Error {
        Error::OutOfMemory
    }
}

impl<T: Drop> From<AllocFailed<T>> for Error {
    ghost from_gives = { λ _ error. error ≡ errors.OutOfMemory };

    fn from(_e: AllocFailed<T>) -> Error {
        Error::OutOfMemory
    }
}
