//! The settings of a serializer.
use rmp_wire::config::BytesMode;

/// How a serializer writes.
#[derive(Clone, Copy, Debug, PartialEq, Eq)]
pub struct Settings {
    /// Structs are written as maps from field names.
    pub named: bool,
    /// Types with a human-readable form are written in it.
    pub human: bool,
    /// Which lists of numbers are written as bytes.
    pub bytes: BytesMode,
}
