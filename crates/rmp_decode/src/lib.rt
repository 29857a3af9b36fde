//! Reads typed values from the bytes of MessagePack.
//!
//! # The way of a value in
//! `from_slice` (`de`) makes a `Deserializer` over the slice and calls `T::deserialize`, which calls one of the reader's `deserialize_`
//! methods. Each of them takes one of two paths:
//!
//! - **Fast path** (`deserializer/peek`): `take` looks for a head of one kind in the buffered bytes, and consumes it. A kind is a
//!   `Peek`: a pattern of bytes and the head that it says. On `None` nothing was consumed.
//! - **Slow path**: `head` (`deserializer/heads`) consumes any head, from the source or from what was kept back. These functions are called
//!   `slow_`. They are out of line, and `cold_` calls one on a moved reader, so that the caller's reader stays in registers.
//!
//! A message that is its head, as a number, is a `Leaf`, and `read_leaf` has both paths. A text, bytes and an extension have a payload
//! after the head (`content`). A list, a map and a struct are opened (`access/open`), and an access reads the elements or the pairs:
//! `SeqAccess`, `MapAccess`, `FieldAccess`, and `Fields` for a struct in one call.
//!
//! A read marks the reader as failed before it consumes anything, and as ready once its value is whole. So a read that is cut off by an
//! error leaves the reader failed.
#![tactic(auto)]

mod access;
mod content;
mod de;
mod deserializer;
mod error;
mod text;

pub use access::any::{Any, Leaf, RawAccess};
pub use access::field_access::FieldAccess;
pub use access::field_access::recursive::ReadPlaces;
pub use access::fields::Fields as ReadFields;
pub use access::fields::eight::{EightSlots, EightThen};
pub use access::fields::sixteen::{SixteenSlots, SixteenThen};
pub use access::map::MapAccess;
pub use access::read_fields::{
    read_fields_2, read_fields_3, read_fields_4, read_fields_5, read_fields_6, read_fields_7,
    read_fields_8, read_fields_9, read_fields_10, read_fields_11, read_fields_12,
};
pub use access::seq::SeqAccess;
pub use access::variant::Variant;
pub use content::{ReadContent, Slices};
pub use de::defaults::Defaulted;
pub use de::{Deserialize, from_read, from_read_ref, from_slice, from_slice_strict, read};
pub use deserializer::Deserializer;
pub use deserializer::messages::Messages;
pub use error::Error;
pub use text::{OwnText, Text};
