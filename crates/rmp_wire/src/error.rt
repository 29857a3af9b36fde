//! Why bytes couldn't be written or read.
ghost use Rattle.std.specs.Prelude.{◌≡◌, Some, MatchOption};
ghost use Rattle.std.specs.IoError.{error_kind, raw_os_error};
ghost use Rattle.rmp_wire.specs.Faults.{fault_kind, fault_code, IsPlain};

use crate::marker::Marker;
use std::{fmt, io};
use thiserror::Error;

/// Why a sink or a source failed: the kind of an `io::Error`, and the system's error number if there is one.
///
/// Each error of this library holds it in place of the `io::Error`, which is six times as large. The custom
/// message of an `io::Error` is lost.
#[derive(Clone, Copy, Debug, PartialEq, Eq)]
pub struct IoFault {
    kind: io::ErrorKind,
    os_error: Option<i32>,
}

impl IoFault {
    /// Returns the kind of failure.
    pub fn kind(&self) -> io::ErrorKind
        ensures { result ≡ fault_kind self.now }
    {
        self.kind
    }

    /// Returns the system's error number, if the failure came from the system.
    pub fn raw_os_error(&self) -> Option<i32>
        ensures { result ≡ fault_code self.now }
    {
        self.os_error
    }
}

impl From<io::ErrorKind> for IoFault {
    ghost from_gives = { IsPlain };

    fn from(kind: io::ErrorKind) -> IoFault {
        IoFault {
            kind,
            os_error: None,
        }
    }
}

impl From<io::Error> for IoFault {
    ghost from_gives = { λ e fault. (fault_kind fault ≡ error_kind e) × (fault_code fault ≡ raw_os_error e) };

    fn from(e: io::Error) -> IoFault {
        IoFault {
            kind: e.kind(),
            os_error: e.raw_os_error(),
        }
    }
}

impl From<IoFault> for io::Error {
    ghost from_gives = { λ fault e. MatchOption (fault_code fault) (error_kind e ≡ fault_kind fault) (λ code. raw_os_error e ≡ Some code) };

    fn from(fault: IoFault) -> io::Error {
        match fault.os_error {
            Some(code) => io::Error::from_raw_os_error(code),
            None => io::Error::from(fault.kind),
        }
    }
}

impl fmt::Display for IoFault {
    fn fmt<W: fmt::Write>(&self, f: &mut fmt::Formatter<W>) -> fmt::Result {
        write!(f, "{}", self.kind)
    }
}

impl std::error::Error for IoFault {}

/// Why a write of one item failed. Its `Display` is the variant's name.
#[derive(Clone, Copy, Debug, PartialEq, Eq, Error)]
pub enum ValueWriteError {
    /// The sink failed before it took the item's first byte.
    #[error("InvalidMarkerWrite")]
    InvalidMarkerWrite(IoFault),
    /// The sink failed after it took the item's first byte.
    #[error("InvalidDataWrite")]
    InvalidDataWrite(IoFault),
    /// The sink couldn't allocate memory.
    #[error("OutOfMemory")]
    OutOfMemory,
}

impl ValueWriteError {
    ghost use Rattle.rmp_wire.specs.Faults.{past_first};

    /// Returns the same failure, of an item whose first byte was already written: `InvalidMarkerWrite` becomes
    /// `InvalidDataWrite`.
    #[inline(always)]
    pub fn past_first(self) -> ValueWriteError
        ensures { result ≡ past_first self }
    {
        match self {
            ValueWriteError::InvalidMarkerWrite(fault) => ValueWriteError::InvalidDataWrite(fault),
            other => other,
        }
    }
}

/// Why the first byte of a message couldn't be read: the input ended, or the source failed. Its `Display` is
/// the type's name.
#[derive(Clone, Copy, Debug, PartialEq, Eq, Error)]
#[error("MarkerReadError")]
pub struct MarkerReadError(pub IoFault);

/// Why a head couldn't be read. Its `Display` is the variant's name.
#[derive(Clone, Copy, Debug, PartialEq, Eq, Error)]
pub enum ValueReadError {
    /// The input ended, or the source failed, before a message's first byte.
    #[error("InvalidMarkerRead")]
    InvalidMarkerRead(IoFault),
    /// The input ended, or the source failed, after a message's first byte.
    #[error("InvalidDataRead")]
    InvalidDataRead(IoFault),
    /// The marker begins no message of the wanted kind.
    #[error("TypeMismatch")]
    TypeMismatch(Marker),
}

impl From<MarkerReadError> for ValueReadError {
    ghost use Rattle.rmp_wire.specs.declared.error.ValueReadError.TheVariants.{InvalidMarkerRead};

    ghost from_gives = { λ e answer. answer ≡ InvalidMarkerRead e.0 };

    fn from(e: MarkerReadError) -> ValueReadError {
        ValueReadError::InvalidMarkerRead(e.0)
    }
}
