//! Reads values from MessagePack.
pub use crate::value::read_value;
pub use rmp_decode::{
    Any, Deserialize, Deserializer, Error, FieldAccess, Leaf, MapAccess, Messages, OwnText,
    RawAccess, SeqAccess, Slices, Text, Variant, from_read, from_read_ref, from_slice,
    from_slice_strict, read,
};
/// What derived types are read by.
pub use rmp_decode::{
    Defaulted, EightThen, ReadContent, ReadFields, ReadPlaces, SixteenThen, read_fields_2,
    read_fields_3, read_fields_4, read_fields_5, read_fields_6, read_fields_7, read_fields_8,
    read_fields_9, read_fields_10, read_fields_11, read_fields_12,
};
pub use rmp_wire::{ReadReader, ReadRefReader, ReadSlice, Reference, SourceFault};
