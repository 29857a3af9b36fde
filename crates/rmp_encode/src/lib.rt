//! Writes typed values in the canonical encoding of MessagePack.
//!
//! # The way of a value out
//! `to_vec` and `write` (`encode`) make a `Serializer` over the sink and call `T::serialize` (`ser`), which calls one of the serializer's
//! methods:
//!
//! - **A value** (`serializer`, `serializer/leaves`): one call writes the head, by `rmp_wire::write`, and then the payload.
//! - **Parts** (`serializer/open`): the head is written, and a compound writes the parts, each by its own `serialize`: `Compound` for structs
//!   and variants, `Tuple`, and `MaybeUnknownLengthCompound` (`unknown_length`) for lists and maps.
//! - **All parts in one call** (`elements`): what derived types call. The parts are an `Elements`.
//!
//! Whether structs are written with names, and which lists are written as bytes, are the serializer's `Settings`. An error leaves a beginning of
//! the encoding in the sink.
#![tactic(auto)]

mod compound;
mod elements;
mod encode;
mod error;
mod extension;
pub mod laws;
mod length;
mod ser;
mod serializer;
mod settings;
mod slice;
mod tuple;
mod underlying;
mod unknown_length;

pub use compound::Compound;
pub use elements::{Both, Eight, Elements, Five, Four, One, Seven, Six, Three};
pub use encode::{to_vec, to_vec_named, write, write_named};
pub use error::Error;
pub use extension::{ExtFieldSerializer, ExtSerializer};
pub use ser::Serialize;
pub use serializer::Serializer;
pub use tuple::Tuple;
pub use underlying::UnderlyingWrite;
pub use unknown_length::MaybeUnknownLengthCompound;
