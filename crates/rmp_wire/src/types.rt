//! Types that have a MessagePack kind of their own: bytes, the bits of floats, and extensions.
ghost use Rattle.std.specs.Prelude.{◌≡◌, from_bits, to_bits};
ghost use Rattle.std.specs.Float.{binary32, binary64};
ghost use Rattle.rmp_wire.specs.Types.{bytes_of, buffer_bytes, tag_of, ext_bytes};

use std::num::{
    f32_from_bits_with_nan, f32_to_bits_with_nan, f64_from_bits_with_nan, f64_to_bits_with_nan,
};

/// The name of the newtype struct that the Rust crate uses for an extension. Here that name is refused.
pub const MSGPACK_EXT_STRUCT_NAME: &str = "_ExtStruct";

/// Borrowed bytes. They are written as bytes, not as a list of numbers.
#[derive(Clone, Copy, Debug, PartialEq)]
pub struct Bytes<'a> {
    bytes: &'a [u8],
}

impl<'a> Bytes<'a> {
    /// Wraps borrowed bytes.
    pub fn new(bytes: &'a [u8]) -> Bytes<'a>
        ensures { bytes_of result ≡ bytes.now }
    {
        Bytes { bytes }
    }

    /// Returns the bytes, borrowed for as long as what they were made of.
    pub fn as_bytes(&self) -> &'a [u8]
        ensures { result.now ≡ bytes_of self.now }
    {
        self.bytes
    }
}

/// Owned bytes. They are written as bytes, not as a list of numbers.
#[derive(Debug, Drop, PartialEq)]
pub struct ByteBuf {
    bytes: Vec<u8>,
}

impl ByteBuf {
    /// Wraps a vector of bytes.
    pub fn new(bytes: Vec<u8>) -> ByteBuf
        ensures { buffer_bytes result ≡ bytes.items }
    {
        ByteBuf { bytes }
    }

    /// Returns the bytes.
    pub fn as_bytes(&self) -> &[u8]
        ensures { result.now ≡ buffer_bytes self.now }
    {
        self.bytes.as_slice()
    }

    /// Returns the vector of the bytes.
    pub fn into_vec(self) -> Vec<u8>
        ensures { result.items ≡ buffer_bytes self }
    {
        self.bytes
    }
}

/// The bits of a 32-bit float, as `f32::to_bits` returns them.
#[derive(Clone, Copy, Debug, PartialEq, Eq)]
pub struct F32Bits(pub u32);

impl F32Bits {
    /// Makes it of an `f32`. Each NaN becomes the one of the bits 7fc00000.
    pub fn from_f32(value: f32) -> F32Bits
        ensures { result.0 ≡ to_bits binary32 value }
    {
        F32Bits(f32_to_bits_with_nan(value))
    }

    /// Returns the `f32`. Of a NaN nothing but that it is one is kept.
    pub fn to_f32(self) -> f32
        ensures { result ≡ from_bits binary32 self.0 }
    {
        f32_from_bits_with_nan(self.0)
    }
}

/// The bits of a 64-bit float, as `f64::to_bits` returns them.
#[derive(Clone, Copy, Debug, PartialEq, Eq)]
pub struct F64Bits(pub u64);

impl F64Bits {
    /// Makes it of an `f64`. Each NaN becomes the one of the bits 7ff8000000000000.
    pub fn from_f64(value: f64) -> F64Bits
        ensures { result.0 ≡ to_bits binary64 value }
    {
        F64Bits(f64_to_bits_with_nan(value))
    }

    /// Returns the `f64`. Of a NaN nothing but that it is one is kept.
    pub fn to_f64(self) -> f64
        ensures { result ≡ from_bits binary64 self.0 }
    {
        f64_from_bits_with_nan(self.0)
    }
}

/// An extension: a type, from -128 to 127, and its bytes.
///
/// The MessagePack specification reserves the types below 0; -1 is a timestamp.
#[derive(Debug, Drop, PartialEq)]
pub struct Ext {
    tag: i8,
    bytes: Vec<u8>,
}

impl Ext {
    /// Makes an extension of a type and its bytes.
    pub fn new(tag: i8, bytes: Vec<u8>) -> Ext
        ensures tag { tag_of result ≡ tag }
        ensures bytes { ext_bytes result ≡ bytes.items }
    {
        Ext { tag, bytes }
    }

    /// Returns the type.
    pub fn tag(&self) -> i8
        ensures { result ≡ tag_of self.now }
    {
        self.tag
    }

    /// Returns the bytes.
    pub fn as_bytes(&self) -> &[u8]
        ensures { result.now ≡ ext_bytes self.now }
    {
        self.bytes.as_slice()
    }

    /// Returns the vector of the bytes.
    pub fn into_bytes(self) -> Vec<u8>
        ensures { result.items ≡ ext_bytes self }
    {
        self.bytes
    }
}
