//! Pieces of the input: lent, copied, or looked at in place.
ghost use Rattle.std.specs.Prelude.{◌≡◌, ◌≢◌, ℕ, true, false, MatchResult, length, encode_utf8};
ghost use Rattle.std.specs.Char.{IsScalar};
ghost use Rattle.rmp_decode.specs.Content.{not_char, not_lent};
ghost use Rattle.rmp_decode.specs.Exact.{IsUtf8Error};
ghost use Rattle.rmp_decode.specs.Kinds.{raw_head};
ghost use Rattle.rmp_decode.specs.Pieces.{Blamed, Copies, Lends, PullsPayload};
ghost use Rattle.rmp_decode.specs.Payloads.{TakesPayload, a_raw, some_bytes, a_str, a_string, a_char, an_ext};

use crate::error::Error;
use crate::text::Text;
use rmp_wire::{Ext, Head, IoFault, ReadSlice, Reference, SourceFault};
use std::alloc::Global;
use std::str;
use std::str::Utf8Error;

// The error of a source's fault after a message's first byte.
#[inline(always)]
pub(crate) fn error_of(fault: SourceFault) -> Error
    ensures { Blamed fault result }
{
    match fault {
        SourceFault::Io(e) => Error::InvalidDataRead(IoFault::from(e)),
        SourceFault::Memory => Error::OutOfMemory,
    }
}

// The next bytes, borrowed for the lifetime of the input if the source lends them.
#[inline(always)]
pub(crate) fn lent<'de, R: ReadSlice<'de>>(
    reader: &mut R,
    len: usize,
) -> Result<Option<&'de [u8]>, Error>
    ensures { PullsPayload R.Source len R.lends (Lends R.lends len) reader.old reader.new result }
{
    match reader.read_slice(len) {
        Ok(Reference::Borrowed(s)) => Ok(Some(s)),
        Ok(Reference::Copied(_)) => Ok(None),
        Err(e) => Err(error_of(e)),
    }
}

// The error of a text or of bytes that can't be borrowed.
#[inline(never)]
fn not_lent(is_text: bool, bytes: &[u8]) -> Error
    ensures { not_lent (raw_head is_text (length bytes.now)) bytes.now result }
{
    if is_text {
        match str::from_utf8(bytes) {
            Ok(_) => Error::Syntax(Text::InvalidType),
            Err(e) => Error::Utf8Error(e),
        }
    } else {
        Error::Syntax(Text::InvalidType)
    }
}

// The error of bytes that aren't UTF-8.
fn not_utf8(is_text: bool, e: Utf8Error) -> Error
    ensures text { is_text ≡ true → IsUtf8Error result }
    ensures bytes { is_text ≡ false → result ≡ Error.Syntax Text.InvalidValue }
{
    if is_text {
        Error::Utf8Error(e)
    } else {
        Error::Syntax(Text::InvalidValue)
    }
}

// Reads the payload of a text or of bytes, borrowed for the lifetime of the input, or an error if the source doesn't lend its bytes.
#[inline(always)]
pub(crate) fn next_bytes<'de, R: ReadSlice<'de>>(
    reader: &mut R,
    is_text: bool,
    len: u32,
) -> Result<&'de [u8], Error>
    ensures { TakesPayload R.Source (some_bytes R.lends) (raw_head is_text len) reader.old reader.new result }
{
    match reader.read_slice(len as usize) {
        Ok(Reference::Borrowed(s)) => Ok(s),
        Ok(Reference::Copied(s)) => Err(not_lent(is_text, s)),
        Err(e) => Err(error_of(e)),
    }
}

// The same of a payload that has to be UTF-8.
#[inline(always)]
pub(crate) fn next_str<'de, R: ReadSlice<'de>>(
    reader: &mut R,
    is_text: bool,
    len: u32,
) -> Result<&'de str, Error>
    ensures { TakesPayload R.Source (a_str R.lends) (raw_head is_text len) reader.old reader.new result }
{
    match reader.read_slice(len as usize) {
        Ok(Reference::Borrowed(s)) => match str::from_utf8(s) {
            Ok(s) => Ok(s),
            Err(e) => Err(not_utf8(is_text, e)),
        },
        Ok(Reference::Copied(s)) => Err(not_lent(is_text, s)),
        Err(e) => Err(error_of(e)),
    }
}

// Copies the payload of a text or of bytes that has to be UTF-8. Buffered bytes are checked in place, and copied once.
#[inline(always)]
pub(crate) fn next_string<'de, R: ReadSlice<'de>>(
    alloc: Global,
    reader: &mut R,
    is_text: bool,
    len: u32,
) -> Result<String, Error>
    ensures { TakesPayload R.Source a_string (raw_head is_text len) reader.old reader.new result }
{
    if len == 0 {
        return Ok(String::new(alloc));
    }
    let piece = match reader.read_slice(len as usize) {
        Ok(piece) => piece,
        Err(e) => return Err(error_of(e)),
    };
    let s = match str::from_utf8(piece.as_bytes()) {
        Ok(s) => s,
        Err(e) => return Err(not_utf8(is_text, e)),
    };
    match String::from_str(alloc, s) {
        Ok(text) => Ok(text),
        Err(_) => Err(Error::OutOfMemory),
    }
}

// Copies the payload of a text or of bytes, and returns whether it was a text.
#[inline(always)]
pub(crate) fn next_raw<'de, R: ReadSlice<'de>>(
    alloc: Global,
    reader: &mut R,
    is_text: bool,
    len: u32,
) -> Result<(bool, Vec<u8>), Error>
    ensures { TakesPayload R.Source a_raw (raw_head is_text len) reader.old reader.new result }
{
    match owned(alloc, reader, len as usize) {
        Ok(bytes) => Ok((is_text, bytes)),
        Err(e) => Err(e),
    }
}

// Copies the payload of an extension.
#[inline(always)]
pub(crate) fn next_ext<'de, R: ReadSlice<'de>>(
    alloc: Global,
    reader: &mut R,
    len: u32,
    tag: i8,
) -> Result<Ext, Error>
    ensures { TakesPayload R.Source an_ext (Head.Ext len tag) reader.old reader.new result }
{
    match owned(alloc, reader, len as usize) {
        Ok(bytes) => Ok(Ext::new(tag, bytes)),
        Err(e) => Err(e),
    }
}

// The next bytes, in a vector.
#[inline(always)]
pub(crate) fn owned<'de, R: ReadSlice<'de>>(
    alloc: Global,
    reader: &mut R,
    len: usize,
) -> Result<Vec<u8>, Error>
    ensures { PullsPayload R.Source len false (Copies len) reader.old reader.new result }
{
    match reader.read_slice(len) {
        Ok(r) => match Vec::from_slice(alloc, r.as_bytes()) {
            Ok(v) => Ok(v),
            Err(_) => Err(Error::OutOfMemory),
        },
        Err(e) => Err(error_of(e)),
    }
}

// The one character that bytes are the UTF-8 of.
fn char_of(bytes: &[u8]) -> Result<char, Error>
    ensures { MatchResult result (λ c. IsScalar c × (bytes.now ≡ encode_utf8 c))
        (λ e. ((c : ℕ) → IsScalar c → bytes.now ≢ encode_utf8 c) × not_char (Head.Text (length bytes.now)) bytes.now e) }
{
    match str::from_utf8(bytes) {
        Ok(text) => match text.parse::<char>() {
            Ok(c) => Ok(c),
            Err(_) => Err(Error::Syntax(Text::InvalidValue)),
        },
        Err(e) => Err(Error::Utf8Error(e)),
    }
}

// Reads the payload of a text as one character, out of line.
#[inline(never)]
pub(crate) fn next_char<'de, R: ReadSlice<'de>>(reader: &mut R, len: u32) -> Result<char, Error>
    ensures { TakesPayload R.Source (a_char R.lends) (Head.Text len) reader.old reader.new result }
{
    match reader.read_slice(len as usize) {
        Ok(r) => match char_of(r.as_bytes()) {
            Ok(c) => Ok(c),
            Err(e) => Err(e),
        },
        Err(e) => Err(error_of(e)),
    }
}
