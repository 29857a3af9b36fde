//! The bytes of MessagePack: markers and heads, the sinks that they are written to, the sources that they are
//! read from, and small types.
#![tactic(auto)]

pub mod buffered;
pub mod config;
pub mod error;
pub mod head;
pub mod marker;
pub mod read;
pub mod read_ahead;
pub mod shortest;
pub mod sink;
pub mod slice;
pub mod source;
pub mod stream;
pub mod types;
pub mod write;

pub use buffered::BufSource;
pub use error::{IoFault, MarkerReadError, ValueReadError, ValueWriteError};
pub use head::Head;
pub use marker::Marker;
pub use read::{next_head, read_head, read_marker};
pub use read_ahead::AheadSource;
pub use shortest::is_canonical;
pub use sink::{Sink, SinkFault, SliceSink};
pub use slice::{ReadReader, ReadRefReader, ReadSlice, Reference, SourceFault};
pub use source::Source;
pub use stream::{IoSink, IoSource};
pub use types::{ByteBuf, Bytes, Ext, F32Bits, F64Bits, MSGPACK_EXT_STRUCT_NAME};
pub use write::{
    write_array_len, write_bin, write_bin_len, write_bool, write_content, write_ext_meta,
    write_f32_bits, write_f64_bits, write_map_len, write_nil, write_sint, write_str, write_str_len,
    write_uint,
};
