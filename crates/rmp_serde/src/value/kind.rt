//! The kinds of message trees.

/// The kind of a message.
#[derive(Clone, Copy, Debug, PartialEq, Eq)]
pub enum Kind {
    /// Nil.
    Nil,
    /// `true` or `false`.
    Truth,
    /// A whole number.
    Whole,
    /// A 32-bit float.
    F32,
    /// A 64-bit float.
    F64,
    /// A text, which needn't be UTF-8.
    Text,
    /// Bytes.
    Bytes,
    /// A list of messages.
    List,
    /// A map: pairs of messages.
    Map,
    /// An extension: a type from -128 to 127, and bytes.
    Ext,
}
