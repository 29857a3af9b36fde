//! Reads the head of a message: its first byte, and the number, the length or the type that follows it.
ghost use Rattle.std.specs.Int.{w8, w16, w32, w64};
ghost use Rattle.rmp_wire.specs.Reading.{ReadsMarker, ReadsHead, ReadsNext, ReadsNumber, ReadsTag};

use crate::error::{MarkerReadError, ValueReadError};
use crate::head::Head;
use crate::marker::Marker;
use crate::source::Source;

/// Reads the first byte of a message.
///
/// # Errors
/// `UnexpectedEof` where no byte remains, and otherwise the source's fault. Then nothing is consumed.
#[inline(always)]
pub fn read_marker<S: Source>(source: &mut S) -> Result<Marker, MarkerReadError>
    ensures reads { ReadsMarker S.Source source.old source.new result }
{
    match source.take_1() {
        Ok(bytes) => Ok(Marker::from_u8(u8::from_be_bytes(bytes))),
        Err(fault) => Err(MarkerReadError(fault)),
    }
}

/// Reads the rest of a head, after its marker, and returns the head.
///
/// A marker's number that is out of range counts by its low bits, as in `Marker::to_u8`.
///
/// # Errors
/// `TypeMismatch(Marker::Reserved)` for that marker, which begins no message; nothing is consumed.
/// `InvalidDataRead` where the source fails, or with `UnexpectedEof` where the input ends inside of the head;
/// then part of the head is consumed.
#[inline(always)]
pub fn read_head<S: Source>(marker: Marker, source: &mut S) -> Result<Head, ValueReadError>
    ensures reads { ReadsHead S.Source marker source.old source.new result }
{
    match marker {
        Marker::FixPos(n) => Ok(Head::Whole(i128::from(n % 0x80))),
        Marker::FixNeg(n) => Ok(Head::Whole(i128::from(n.cast_unsigned() % 0x20) - 0x20)),
        Marker::FixMap(n) => Ok(Head::Map(u32::from(n % 0x10))),
        Marker::FixArray(n) => Ok(Head::Array(u32::from(n % 0x10))),
        Marker::FixStr(n) => Ok(Head::Text(u32::from(n % 0x20))),
        Marker::Null => Ok(Head::Nil),
        Marker::Reserved => Err(ValueReadError::TypeMismatch(Marker::Reserved)),
        Marker::False => Ok(Head::Truth(false)),
        Marker::True => Ok(Head::Truth(true)),
        Marker::Bin8 => Ok(Head::Bin(u32::from(number_8(source)?))),
        Marker::Bin16 => Ok(Head::Bin(u32::from(number_16(source)?))),
        Marker::Bin32 => Ok(Head::Bin(number_32(source)?)),
        Marker::Ext8 => Ok(Head::Ext(u32::from(number_8(source)?), tag(source)?)),
        Marker::Ext16 => Ok(Head::Ext(u32::from(number_16(source)?), tag(source)?)),
        Marker::Ext32 => Ok(Head::Ext(number_32(source)?, tag(source)?)),
        Marker::F32 => Ok(Head::F32Bits(number_32(source)?)),
        Marker::F64 => Ok(Head::F64Bits(number_64(source)?)),
        Marker::U8 => Ok(Head::Whole(i128::from(number_8(source)?))),
        Marker::U16 => Ok(Head::Whole(i128::from(number_16(source)?))),
        Marker::U32 => Ok(Head::Whole(i128::from(number_32(source)?))),
        Marker::U64 => Ok(Head::Whole(i128::from(number_64(source)?))),
        Marker::I8 => Ok(Head::Whole(i128::from(number_8(source)?.cast_signed()))),
        Marker::I16 => Ok(Head::Whole(i128::from(number_16(source)?.cast_signed()))),
        Marker::I32 => Ok(Head::Whole(i128::from(number_32(source)?.cast_signed()))),
        Marker::I64 => Ok(Head::Whole(i128::from(number_64(source)?.cast_signed()))),
        Marker::FixExt1 => Ok(Head::Ext(1, tag(source)?)),
        Marker::FixExt2 => Ok(Head::Ext(2, tag(source)?)),
        Marker::FixExt4 => Ok(Head::Ext(4, tag(source)?)),
        Marker::FixExt8 => Ok(Head::Ext(8, tag(source)?)),
        Marker::FixExt16 => Ok(Head::Ext(16, tag(source)?)),
        Marker::Str8 => Ok(Head::Text(u32::from(number_8(source)?))),
        Marker::Str16 => Ok(Head::Text(u32::from(number_16(source)?))),
        Marker::Str32 => Ok(Head::Text(number_32(source)?)),
        Marker::Array16 => Ok(Head::Array(u32::from(number_16(source)?))),
        Marker::Array32 => Ok(Head::Array(number_32(source)?)),
        Marker::Map16 => Ok(Head::Map(u32::from(number_16(source)?))),
        Marker::Map32 => Ok(Head::Map(number_32(source)?)),
    }
}

/// Reads one head, and returns its marker too.
///
/// # Errors
/// `InvalidMarkerRead` where its first byte can't be read, and otherwise as `read_head`.
#[inline(always)]
pub fn next_head<S: Source>(source: &mut S) -> Result<(Marker, Head), ValueReadError>
    ensures reads { ReadsNext S.Source source.old source.new result }
{
    let marker = read_marker(source)?;
    let head = read_head(marker, source)?;
    Ok((marker, head))
}

/// Reads a big-endian number of 8 bits, which follows the first byte of many heads.
///
/// # Errors
/// `InvalidDataRead` where the source fails, or with `UnexpectedEof` where fewer bytes remain.
#[inline(always)]
pub fn number_8<S: Source>(source: &mut S) -> Result<u8, ValueReadError>
    ensures reads { ReadsNumber S.Source w8 source.old source.new result }
{
    match source.take_1() {
        Ok(bytes) => Ok(u8::from_be_bytes(bytes)),
        Err(fault) => Err(ValueReadError::InvalidDataRead(fault)),
    }
}

/// Reads a big-endian number of 16 bits, which follows the first byte of many heads.
///
/// # Errors
/// `InvalidDataRead` where the source fails, or with `UnexpectedEof` where fewer bytes remain.
#[inline(always)]
pub fn number_16<S: Source>(source: &mut S) -> Result<u16, ValueReadError>
    ensures reads { ReadsNumber S.Source w16 source.old source.new result }
{
    match source.take_2() {
        Ok(bytes) => Ok(u16::from_be_bytes(bytes)),
        Err(fault) => Err(ValueReadError::InvalidDataRead(fault)),
    }
}

/// Reads a big-endian number of 32 bits, which follows the first byte of many heads.
///
/// # Errors
/// `InvalidDataRead` where the source fails, or with `UnexpectedEof` where fewer bytes remain.
#[inline(always)]
pub fn number_32<S: Source>(source: &mut S) -> Result<u32, ValueReadError>
    ensures reads { ReadsNumber S.Source w32 source.old source.new result }
{
    match source.take_4() {
        Ok(bytes) => Ok(u32::from_be_bytes(bytes)),
        Err(fault) => Err(ValueReadError::InvalidDataRead(fault)),
    }
}

#[inline(always)]
fn number_64<S: Source>(source: &mut S) -> Result<u64, ValueReadError>
    ensures reads { ReadsNumber S.Source w64 source.old source.new result }
{
    match source.take_8() {
        Ok(bytes) => Ok(u64::from_be_bytes(bytes)),
        Err(fault) => Err(ValueReadError::InvalidDataRead(fault)),
    }
}

/// Reads the type of an extension.
#[inline(always)]
fn tag<S: Source>(source: &mut S) -> Result<i8, ValueReadError>
    ensures reads { ReadsTag S.Source source.old source.new result }
{
    Ok(number_8(source)?.cast_signed())
}
