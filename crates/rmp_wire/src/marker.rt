//! The first byte of a message.
ghost use Rattle.std.specs.Prelude.{◌≡◌};
ghost use Rattle.rmp_wire.specs.Taking.{marker_of, byte_of};

/// What the first byte of a message says (the MessagePack specification's "Formats", "Overview").
///
/// Each of the five fixed markers holds the number or length that is part of the byte itself.
#[derive(Clone, Copy, Debug, PartialEq, Eq)]
pub enum Marker {
    /// A number from 0 to 127.
    FixPos(u8),
    /// A number from -32 to -1.
    FixNeg(i8),
    /// A map of at most 15 pairs.
    FixMap(u8),
    /// A list of at most 15 messages.
    FixArray(u8),
    /// A text of at most 31 bytes.
    FixStr(u8),
    /// c0: nil.
    Null,
    /// The byte c1, which begins no message.
    Reserved,
    /// c2.
    False,
    /// c3.
    True,
    /// c4: bytes, with their number in one byte.
    Bin8,
    /// c5: bytes, with their number in two bytes.
    Bin16,
    /// c6: bytes, with their number in four bytes.
    Bin32,
    /// c7: an extension, with the number of its bytes in one byte.
    Ext8,
    /// c8: an extension, with the number of its bytes in two bytes.
    Ext16,
    /// c9: an extension, with the number of its bytes in four bytes.
    Ext32,
    /// ca: a 32-bit float.
    F32,
    /// cb: a 64-bit float.
    F64,
    /// cc: an unsigned number in one byte.
    U8,
    /// cd: an unsigned number in two bytes.
    U16,
    /// ce: an unsigned number in four bytes.
    U32,
    /// cf: an unsigned number in eight bytes.
    U64,
    /// d0: a signed number in one byte.
    I8,
    /// d1: a signed number in two bytes.
    I16,
    /// d2: a signed number in four bytes.
    I32,
    /// d3: a signed number in eight bytes.
    I64,
    /// d4: an extension of one byte.
    FixExt1,
    /// d5: an extension of two bytes.
    FixExt2,
    /// d6: an extension of four bytes.
    FixExt4,
    /// d7: an extension of eight bytes.
    FixExt8,
    /// d8: an extension of 16 bytes.
    FixExt16,
    /// d9: a text, with the number of its bytes in one byte.
    Str8,
    /// da: a text, with the number of its bytes in two bytes.
    Str16,
    /// db: a text, with the number of its bytes in four bytes.
    Str32,
    /// dc: a list, with the number of its messages in two bytes.
    Array16,
    /// dd: a list, with the number of its messages in four bytes.
    Array32,
    /// de: a map, with the number of its pairs in two bytes.
    Map16,
    /// df: a map, with the number of its pairs in four bytes.
    Map32,
}

impl Marker {
    /// Returns the marker of a byte.
    #[tactic(auto, unfolding(crate::specs::Taking::marker_of, crate::specs::Taking::byte_of))]
    pub fn from_u8(byte: u8) -> Marker
        ensures marker { result ≡ marker_of byte }
        // `to_u8` returns the byte again.
        ensures round { byte_of result ≡ byte }
    {
        match byte {
            0x00..=0x7f => Marker::FixPos(byte),
            0x80..=0x8f => Marker::FixMap(byte - 0x80),
            0x90..=0x9f => Marker::FixArray(byte - 0x90),
            0xa0..=0xbf => Marker::FixStr(byte - 0xa0),
            0xc0 => Marker::Null,
            0xc1 => Marker::Reserved,
            0xc2 => Marker::False,
            0xc3 => Marker::True,
            0xc4 => Marker::Bin8,
            0xc5 => Marker::Bin16,
            0xc6 => Marker::Bin32,
            0xc7 => Marker::Ext8,
            0xc8 => Marker::Ext16,
            0xc9 => Marker::Ext32,
            0xca => Marker::F32,
            0xcb => Marker::F64,
            0xcc => Marker::U8,
            0xcd => Marker::U16,
            0xce => Marker::U32,
            0xcf => Marker::U64,
            0xd0 => Marker::I8,
            0xd1 => Marker::I16,
            0xd2 => Marker::I32,
            0xd3 => Marker::I64,
            0xd4 => Marker::FixExt1,
            0xd5 => Marker::FixExt2,
            0xd6 => Marker::FixExt4,
            0xd7 => Marker::FixExt8,
            0xd8 => Marker::FixExt16,
            0xd9 => Marker::Str8,
            0xda => Marker::Str16,
            0xdb => Marker::Str32,
            0xdc => Marker::Array16,
            0xdd => Marker::Array32,
            0xde => Marker::Map16,
            0xdf => Marker::Map32,
            0xe0..=0xff => Marker::FixNeg(byte.cast_signed()),
        }
    }

    /// Returns the byte of a marker. A number that is out of range counts by its low bits.
    #[tactic(auto, unfolding(crate::specs::Taking::byte_of))]
    pub fn to_u8(self) -> u8
        ensures { result ≡ byte_of self }
    {
        match self {
            Marker::FixPos(n) => n % 0x80,
            Marker::FixNeg(n) => 0xe0 + n.cast_unsigned() % 0x20,
            Marker::FixMap(n) => 0x80 + n % 0x10,
            Marker::FixArray(n) => 0x90 + n % 0x10,
            Marker::FixStr(n) => 0xa0 + n % 0x20,
            Marker::Null => 0xc0,
            Marker::Reserved => 0xc1,
            Marker::False => 0xc2,
            Marker::True => 0xc3,
            Marker::Bin8 => 0xc4,
            Marker::Bin16 => 0xc5,
            Marker::Bin32 => 0xc6,
            Marker::Ext8 => 0xc7,
            Marker::Ext16 => 0xc8,
            Marker::Ext32 => 0xc9,
            Marker::F32 => 0xca,
            Marker::F64 => 0xcb,
            Marker::U8 => 0xcc,
            Marker::U16 => 0xcd,
            Marker::U32 => 0xce,
            Marker::U64 => 0xcf,
            Marker::I8 => 0xd0,
            Marker::I16 => 0xd1,
            Marker::I32 => 0xd2,
            Marker::I64 => 0xd3,
            Marker::FixExt1 => 0xd4,
            Marker::FixExt2 => 0xd5,
            Marker::FixExt4 => 0xd6,
            Marker::FixExt8 => 0xd7,
            Marker::FixExt16 => 0xd8,
            Marker::Str8 => 0xd9,
            Marker::Str16 => 0xda,
            Marker::Str32 => 0xdb,
            Marker::Array16 => 0xdc,
            Marker::Array32 => 0xdd,
            Marker::Map16 => 0xde,
            Marker::Map32 => 0xdf,
        }
    }
}
