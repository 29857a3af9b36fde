//! MessagePack for typed values, each with one canonical encoding.
#![tactic(auto)]

mod canonical;
mod check;
pub mod decode;
pub mod encode;
pub mod laws;
mod path;
mod raw;
mod refusal;
mod value;

pub use canonical::{
    Structs, from_slice_canonical, from_slice_canonical_explained, from_slice_canonical_named,
};
pub use check::{Canon, check_canonical};
pub use decode::{Deserializer, from_read, from_read_ref, from_slice, from_slice_strict};
pub use encode::{Serializer, to_vec, to_vec_named};
pub use path::{Path, Step, path_at};
pub use raw::{Raw, RawRef};
pub use refusal::{Explained, explain, from_slice_explained, from_slice_strict_explained};
pub use rmp_decode::Deserialize;
pub use rmp_encode::Serialize;
pub use rmp_ends::EndsInside;
pub use rmp_round_trip::{ContentOrd, NeverNil, RoundTrip};
pub use rmp_scan::{Scan, Scanner, message_len};
pub use rmp_types::{Float64, Timestamp};
pub use rmp_wire as wire;
pub use rmp_wire::{
    AheadSource, BufSource, ByteBuf, Bytes, Ext, F32Bits, F64Bits, IoSink, IoSource,
    MSGPACK_EXT_STRUCT_NAME, Marker, Sink, SliceSink, Source, config,
};
pub use value::{
    Kind, Pairs, Parts, Readable, Value, ValueRef, from_value, to_value, to_value_named,
};
