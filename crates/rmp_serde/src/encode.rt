//! Writes values as MessagePack.
pub use rmp_encode::{
    Compound, Error, ExtFieldSerializer, ExtSerializer, MaybeUnknownLengthCompound, Serialize,
    Serializer, Tuple, UnderlyingWrite, to_vec, to_vec_named, write, write_named,
};
/// What derived types are written by.
pub use rmp_encode::{Both, Eight, Elements, Five, Four, One, Seven, Six, Three};
