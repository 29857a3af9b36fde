//! Writes single items, each in its canonical encoding, to any sink.
//!
//! A head is one piece, the marker and the bytes of its number; each branch knows its size. That of a float is one integer, from its
//! lowest byte on: copying an array that was filled in two steps would wait for both. Texts and bytes are written without a copy. A fault
//! before an item's first byte is `InvalidMarkerWrite`, and a later one `InvalidDataWrite`. No call continues after a fault.
#![tactic(auto, unfolding(crate::specs::Heads::canon_head, crate::specs::Taking::byte_of))]

ghost use Rattle.std.specs.Prelude.{◌≡◌, ℕ, ◌<◌, ◌^◌, [], ◌∷◌, ◌++◌, length, pos};
ghost use Rattle.std.specs.Int.{w8, w16, w32, w64, to_be_bytes};
ghost use Rattle.rmp_wire.specs.Heads.{canon_head};
ghost use Rattle.rmp_wire.specs.Msg.{text, bin};
ghost use Rattle.rmp_wire.specs.Spelling.{canon};
ghost use Rattle.rmp_wire.specs.Taking.{byte_of};
ghost use Rattle.rmp_wire.specs.Writing.{Writes, WritesContent};
ghost use Rattle.rmp_wire.specs.declared.head.Head.TheVariants.{Nil, Truth, Whole, F32Bits, F64Bits, Text, Bin, Array, Map, Ext};

use crate::error::ValueWriteError;
use crate::marker::Marker;
use crate::sink::Sink;

// ---- a marker, and a number that follows it

#[inline(always)]
fn put_marker<W: Sink>(sink: &mut W, marker: Marker) -> Result<(), ValueWriteError>
    ensures writes { Writes W.Sink (byte_of marker ∷ []) sink.old sink.new result }
    ensures place { W.place sink.new ≡ W.place sink.old }
{
    sink.put_all(&[marker.to_u8()])
}

#[inline(always)]
fn put_8<W: Sink>(sink: &mut W, marker: Marker, n: u8) -> Result<(), ValueWriteError>
    ensures writes { Writes W.Sink (byte_of marker ∷ to_be_bytes w8 n) sink.old sink.new result }
    ensures place { W.place sink.new ≡ W.place sink.old }
{
    sink.put_all(&[marker.to_u8(), n])
}

#[inline(always)]
fn put_16<W: Sink>(sink: &mut W, marker: Marker, n: u16) -> Result<(), ValueWriteError>
    ensures writes { Writes W.Sink (byte_of marker ∷ to_be_bytes w16 n) sink.old sink.new result }
    ensures place { W.place sink.new ≡ W.place sink.old }
{
    let mut piece = [marker.to_u8(); 3];
    piece[1..].copy_from_slice(&n.to_be_bytes());
    sink.put_all(&piece)
}

#[inline(always)]
fn put_32<W: Sink>(sink: &mut W, marker: Marker, n: u32) -> Result<(), ValueWriteError>
    ensures writes { Writes W.Sink (byte_of marker ∷ to_be_bytes w32 n) sink.old sink.new result }
    ensures place { W.place sink.new ≡ W.place sink.old }
{
    let mut piece = [marker.to_u8(); 5];
    piece[1..].copy_from_slice(&n.to_be_bytes());
    sink.put_all(&piece)
}

#[inline(always)]
fn put_64<W: Sink>(sink: &mut W, marker: Marker, n: u64) -> Result<(), ValueWriteError>
    ensures writes { Writes W.Sink (byte_of marker ∷ to_be_bytes w64 n) sink.old sink.new result }
    ensures place { W.place sink.new ≡ W.place sink.old }
{
    let mut piece = [marker.to_u8(); 9];
    piece[1..].copy_from_slice(&n.to_be_bytes());
    sink.put_all(&piece)
}

// The same of a float's bits, as one integer.
#[inline(always)]
#[tactic(auto, using(crate::proofs::HeadBytes::head_4))]
fn put_bits_32<W: Sink>(sink: &mut W, marker: Marker, n: u32) -> Result<(), ValueWriteError>
    ensures writes { Writes W.Sink (byte_of marker ∷ to_be_bytes w32 n) sink.old sink.new result }
    ensures place { W.place sink.new ≡ W.place sink.old }
{
    let piece = (u64::from(marker.to_u8()) + 256 * u64::from(n.swap_bytes())).to_le_bytes();
    sink.put_all(&piece[..5])
}

// The same of a float's bits, as one integer.
#[inline(always)]
#[tactic(auto, using(crate::proofs::HeadBytes::head_8))]
fn put_bits_64<W: Sink>(sink: &mut W, marker: Marker, n: u64) -> Result<(), ValueWriteError>
    ensures writes { Writes W.Sink (byte_of marker ∷ to_be_bytes w64 n) sink.old sink.new result }
    ensures place { W.place sink.new ≡ W.place sink.old }
{
    let piece = (u128::from(marker.to_u8()) + 256 * u128::from(n.swap_bytes())).to_le_bytes();
    sink.put_all(&piece[..9])
}

/// Writes nil.
///
/// # Errors
/// Those of `Sink::put_all`.
#[inline(always)]
pub fn write_nil<W: Sink>(sink: &mut W) -> Result<(), ValueWriteError>
    ensures writes { Writes W.Sink (canon_head Nil) sink.old sink.new result }
    ensures place { W.place sink.new ≡ W.place sink.old }
{
    put_marker(sink, Marker::Null)
}

/// Writes a truth value.
///
/// # Errors
/// Those of `Sink::put_all`.
#[inline(always)]
pub fn write_bool<W: Sink>(sink: &mut W, b: bool) -> Result<(), ValueWriteError>
    ensures writes { Writes W.Sink (canon_head (Truth b)) sink.old sink.new result }
    ensures place { W.place sink.new ≡ W.place sink.old }
{
    sink.put_all(&[0xc2 | u8::from(b)])
}

/// Writes an unsigned number in its shortest encoding.
///
/// # Errors
/// Those of `Sink::put_all`.
#[inline(always)]
pub fn write_uint<W: Sink>(sink: &mut W, n: u64) -> Result<(), ValueWriteError>
    ensures writes { Writes W.Sink (canon_head (Whole (pos n))) sink.old sink.new result }
    ensures place { W.place sink.new ≡ W.place sink.old }
{
    if n < 128 {
        return put_marker(sink, Marker::FixPos(n as u8));
    }
    if n < 1 << 8 {
        return put_8(sink, Marker::U8, n as u8);
    }
    if n < 1 << 16 {
        return put_16(sink, Marker::U16, n as u16);
    }
    if n < 1 << 32 {
        return put_32(sink, Marker::U32, n as u32);
    }
    put_64(sink, Marker::U64, n)
}

/// Writes a signed number in its shortest encoding, which is that of `write_uint` from 0 on.
///
/// # Errors
/// Those of `Sink::put_all`.
#[inline(always)]
pub fn write_sint<W: Sink>(sink: &mut W, z: i64) -> Result<(), ValueWriteError>
    ensures writes { Writes W.Sink (canon_head (Whole z)) sink.old sink.new result }
    ensures place { W.place sink.new ≡ W.place sink.old }
{
    if z >= 0 {
        return write_uint(sink, z.cast_unsigned());
    }
    if z >= -32 {
        return put_marker(sink, Marker::FixNeg(z as i8));
    }
    if z >= i64::from(i8::MIN) {
        return put_8(sink, Marker::I8, (z as i8).cast_unsigned());
    }
    if z >= i64::from(i16::MIN) {
        return put_16(sink, Marker::I16, (z as i16).cast_unsigned());
    }
    if z >= i64::from(i32::MIN) {
        return put_32(sink, Marker::I32, (z as i32).cast_unsigned());
    }
    put_64(sink, Marker::I64, z.cast_unsigned())
}

/// Writes the bits of a 32-bit float.
///
/// # Errors
/// Those of `Sink::put_all`.
#[inline(always)]
pub fn write_f32_bits<W: Sink>(sink: &mut W, bits: u32) -> Result<(), ValueWriteError>
    ensures writes { Writes W.Sink (canon_head (F32Bits bits)) sink.old sink.new result }
    ensures place { W.place sink.new ≡ W.place sink.old }
{
    put_bits_32(sink, Marker::F32, bits)
}

/// Writes the bits of a 64-bit float.
///
/// # Errors
/// Those of `Sink::put_all`.
#[inline(always)]
pub fn write_f64_bits<W: Sink>(sink: &mut W, bits: u64) -> Result<(), ValueWriteError>
    ensures writes { Writes W.Sink (canon_head (F64Bits bits)) sink.old sink.new result }
    ensures place { W.place sink.new ≡ W.place sink.old }
{
    put_bits_64(sink, Marker::F64, bits)
}

/// Writes the head of a text of `len` bytes.
///
/// # Errors
/// Those of `Sink::put_all`.
#[inline(always)]
pub fn write_str_len<W: Sink>(sink: &mut W, len: u32) -> Result<(), ValueWriteError>
    ensures writes { Writes W.Sink (canon_head (Text len)) sink.old sink.new result }
    ensures place { W.place sink.new ≡ W.place sink.old }
{
    if len < 32 {
        return put_marker(sink, Marker::FixStr(len as u8));
    }
    if len < 1 << 8 {
        return put_8(sink, Marker::Str8, len as u8);
    }
    if len < 1 << 16 {
        return put_16(sink, Marker::Str16, len as u16);
    }
    put_32(sink, Marker::Str32, len)
}

/// Writes the head of `len` bytes.
///
/// # Errors
/// Those of `Sink::put_all`.
#[inline(always)]
pub fn write_bin_len<W: Sink>(sink: &mut W, len: u32) -> Result<(), ValueWriteError>
    ensures writes { Writes W.Sink (canon_head (Bin len)) sink.old sink.new result }
    ensures place { W.place sink.new ≡ W.place sink.old }
{
    if len < 1 << 8 {
        return put_8(sink, Marker::Bin8, len as u8);
    }
    if len < 1 << 16 {
        return put_16(sink, Marker::Bin16, len as u16);
    }
    put_32(sink, Marker::Bin32, len)
}

/// Writes the head of a list of `len` messages.
///
/// # Errors
/// Those of `Sink::put_all`.
#[inline(always)]
pub fn write_array_len<W: Sink>(sink: &mut W, len: u32) -> Result<(), ValueWriteError>
    ensures writes { Writes W.Sink (canon_head (Array len)) sink.old sink.new result }
    ensures place { W.place sink.new ≡ W.place sink.old }
{
    if len < 16 {
        return put_marker(sink, Marker::FixArray(len as u8));
    }
    if len < 1 << 16 {
        return put_16(sink, Marker::Array16, len as u16);
    }
    put_32(sink, Marker::Array32, len)
}

/// Writes the head of a map of `len` pairs.
///
/// # Errors
/// Those of `Sink::put_all`.
#[inline(always)]
pub fn write_map_len<W: Sink>(sink: &mut W, len: u32) -> Result<(), ValueWriteError>
    ensures writes { Writes W.Sink (canon_head (Map len)) sink.old sink.new result }
    ensures place { W.place sink.new ≡ W.place sink.old }
{
    if len < 16 {
        return put_marker(sink, Marker::FixMap(len as u8));
    }
    if len < 1 << 16 {
        return put_16(sink, Marker::Map16, len as u16);
    }
    put_32(sink, Marker::Map32, len)
}

// An extension's marker, a length of 16 bits, and the type.
#[inline(always)]
fn put_ext_16<W: Sink>(sink: &mut W, len: u16, tag: u8) -> Result<(), ValueWriteError>
    ensures writes { Writes W.Sink (0xc8 ∷ (to_be_bytes w16 len ++ tag ∷ [])) sink.old sink.new result }
    ensures place { W.place sink.new ≡ W.place sink.old }
{
    let mut piece = [tag; 4];
    piece[0] = 0xc8;
    piece[1..3].copy_from_slice(&len.to_be_bytes());
    sink.put_all(&piece)
}

#[inline(always)]
fn put_ext_32<W: Sink>(sink: &mut W, len: u32, tag: u8) -> Result<(), ValueWriteError>
    ensures writes { Writes W.Sink (0xc9 ∷ (to_be_bytes w32 len ++ tag ∷ [])) sink.old sink.new result }
    ensures place { W.place sink.new ≡ W.place sink.old }
{
    let mut piece = [tag; 6];
    piece[0] = 0xc9;
    piece[1..5].copy_from_slice(&len.to_be_bytes());
    sink.put_all(&piece)
}

/// Writes the head of an extension: the length of its payload, `len` bytes, and its type.
///
/// # Errors
/// Those of `Sink::put_all`.
#[inline(always)]
pub fn write_ext_meta<W: Sink>(sink: &mut W, len: u32, tag: i8) -> Result<(), ValueWriteError>
    ensures writes { Writes W.Sink (canon_head (Ext len tag)) sink.old sink.new result }
    ensures place { W.place sink.new ≡ W.place sink.old }
{
    let tag = tag.cast_unsigned();
    match len {
        1 => put_8(sink, Marker::FixExt1, tag),
        2 => put_8(sink, Marker::FixExt2, tag),
        4 => put_8(sink, Marker::FixExt4, tag),
        8 => put_8(sink, Marker::FixExt8, tag),
        16 => put_8(sink, Marker::FixExt16, tag),
        0..=0xff => put_16(sink, Marker::Ext8, (len as u16) << 8 | u16::from(tag)),
        0x100..=0xffff => put_ext_16(sink, len as u16, tag),
        _ => put_ext_32(sink, len, tag),
    }
}

/// Writes the payload that follows a head, without a copy.
///
/// # Errors
/// Those of `Sink::put_all`, each fault as `InvalidDataWrite`.
#[inline(always)]
pub fn write_content<W: Sink>(sink: &mut W, content: &[u8]) -> Result<(), ValueWriteError>
    ensures writes { WritesContent W.Sink content.now sink.old sink.new result }
    ensures place { W.place sink.new ≡ W.place sink.old }
{
    match sink.put_all(content) {
        Ok(()) => Ok(()),
        Err(e) => Err(e.past_first()),
    }
}

/// Writes a text, without a copy. The caller's condition: it has fewer than 2 ^ 32 bytes.
///
/// # Errors
/// Those of `Sink::put_all`.
#[inline(always)]
pub fn write_str<W: Sink>(sink: &mut W, s: &str) -> Result<(), ValueWriteError>
    requires { length s.now < 2 ^ 32 }
    ensures writes { Writes W.Sink (canon (text s.now)) sink.old sink.new result }
    ensures place { W.place sink.new ≡ W.place sink.old }
{
    write_str_len(sink, s.len() as u32)?;
    write_content(sink, s.as_bytes())
}

/// Writes bytes, without a copy. The caller's condition: there are fewer than 2 ^ 32.
///
/// # Errors
/// Those of `Sink::put_all`.
#[inline(always)]
pub fn write_bin<W: Sink>(sink: &mut W, bytes: &[u8]) -> Result<(), ValueWriteError>
    requires { length bytes.now < 2 ^ 32 }
    ensures writes { Writes W.Sink (canon (bin bytes.now)) sink.old sink.new result }
    ensures place { W.place sink.new ≡ W.place sink.old }
{
    write_bin_len(sink, bytes.len() as u32)?;
    write_content(sink, bytes)
}
