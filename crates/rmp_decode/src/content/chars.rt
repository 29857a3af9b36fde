//! Characters, decoded in the buffer.
ghost use Rattle.std.specs.Prelude.{◌∷◌, [], Bool, IfSome};
ghost use Rattle.rmp_decode.specs.Ahead.{CharIn, SpellsChar, TakesChar};
ghost use Rattle.rmp_wire.specs.declared.head.Head.TheVariants.{Text};
ghost use Rattle.rmp_decode.specs.Payloads.{TakesPayload, a_char};
ghost use Rattle.rmp_decode.specs.Pieces.{PullsBuffered};

use crate::content::Slices;
use crate::content::pieces::next_char;
use crate::error::Error;
use core::mem::replace_with;
use rmp_wire::{ReadSlice, Source};

// The character of that code, if these two bytes are its UTF-8.
#[inline(always)]
fn coded_2(code: u32, a: u8, b: u8) -> Option<char>
    ensures { IfSome result (λ c. SpellsChar c (a ∷ b ∷ [])) }
{
    if code < 0x80 || code > 0x7ff {
        return None;
    }
    if a as u32 != 0xc0 + code / 0x40 || b as u32 != 0x80 + code % 0x40 {
        return None;
    }
    char::from_u32(code)
}

// The character of two bytes, if they are one's.
#[inline(always)]
fn char_of_2(a: u8, b: u8) -> Option<char>
    ensures { IfSome result (λ c. SpellsChar c (a ∷ b ∷ [])) }
{
    coded_2(a as u32 % 0x20 * 0x40 + b as u32 % 0x40, a, b)
}

// The character of that code, if these three bytes are its UTF-8.
#[inline(always)]
fn coded_3(code: u32, a: u8, b: u8, d: u8) -> Option<char>
    ensures { IfSome result (λ c. SpellsChar c (a ∷ b ∷ d ∷ [])) }
{
    if code < 0x800 || code > 0xffff {
        return None;
    }
    if a as u32 != 0xe0 + code / 0x1000 || b as u32 != 0x80 + code / 0x40 % 0x40 {
        return None;
    }
    if d as u32 != 0x80 + code % 0x40 {
        return None;
    }
    char::from_u32(code)
}

// The character of three bytes, if they are one's.
#[inline(always)]
fn char_of_3(a: u8, b: u8, d: u8) -> Option<char>
    ensures { IfSome result (λ c. SpellsChar c (a ∷ b ∷ d ∷ [])) }
{
    let code = a as u32 % 0x10 * 0x1000 + b as u32 % 0x40 * 0x40 + d as u32 % 0x40;
    coded_3(code, a, b, d)
}

// The character of that code, if these four bytes are its UTF-8.
#[inline(always)]
fn coded_4(code: u32, a: u8, b: u8, d: u8, e: u8) -> Option<char>
    ensures { IfSome result (λ c. SpellsChar c (a ∷ b ∷ d ∷ e ∷ [])) }
{
    if code < 0x10000 || code > 0x10ffff {
        return None;
    }
    if a as u32 != 0xf0 + code / 0x40000 || b as u32 != 0x80 + code / 0x1000 % 0x40 {
        return None;
    }
    if d as u32 != 0x80 + code / 0x40 % 0x40 || e as u32 != 0x80 + code % 0x40 {
        return None;
    }
    char::from_u32(code)
}

// The character of four bytes, if they are one's.
#[inline(always)]
fn char_of_4(a: u8, b: u8, d: u8, e: u8) -> Option<char>
    ensures { IfSome result (λ c. SpellsChar c (a ∷ b ∷ d ∷ e ∷ [])) }
{
    let high = a as u32 % 8 * 0x40000 + b as u32 % 0x40 * 0x1000;
    let code = high + d as u32 % 0x40 * 0x40 + e as u32 % 0x40;
    coded_4(code, a, b, d, e)
}

// The character that the first `len` bytes are, if they are one's.
#[inline(always)]
fn char_at(front: &[u8], len: u32) -> Option<char>
    ensures { IfSome result (λ c. CharIn c len front.now) }
{
    match len {
        1 => match front {
            [a, ..] => {
                if *a < 0x80 {
                    Some(char::from(*a))
                } else {
                    None
                }
            }
            _ => None,
        },
        2 => match front {
            [a, b, ..] => char_of_2(*a, *b),
            _ => None,
        },
        3 => match front {
            [a, b, d, ..] => char_of_3(*a, *b, *d),
            _ => None,
        },
        4 => match front {
            [a, b, d, e, ..] => char_of_4(*a, *b, *d, *e),
            _ => None,
        },
        _ => None,
    }
}

// Consumes `len` buffered bytes as one character. Returns `None` and consumes nothing otherwise.
#[inline(always)]
fn char_ahead<S: Source>(source: &mut S, len: u32) -> Option<char>
    ensures { PullsBuffered S.Source (TakesChar len) source.old source.new result }
{
    let c = match char_at(source.front(), len) {
        Some(c) => c,
        None => return None,
    };
    if !source.skip(len as usize) {
        return None;
    }
    Some(c)
}

// Reads a character that isn't buffered whole. The bound names no lifetime, since a function that passes a closure can
// have none that does.
pub(crate) trait ReadChar<R: Source> {
    ghost lends: { Bool };

    // The next bytes, as one character.
    fn payload(reader: &mut R, len: u32) -> Result<char, Error>
        ensures { TakesPayload R.Source (a_char lends) (Text len) reader.old reader.new result };
}

impl<'de, R: ReadSlice<'de>> ReadChar<R> for Slices<'de> {
    ghost lends = { R.lends };

    #[inline(always)]
    fn payload(reader: &mut R, len: u32) -> Result<char, Error> {
        next_char(reader, len)
    }
}

// Reads the next `len` bytes as one character, out of line and on a moved reader.
#[inline(always)]
fn cold_char_payload<R: Source, P: ReadChar<R>>(reader: &mut R, len: u32) -> Result<char, Error>
    ensures { TakesPayload R.Source (a_char P.lends) (Text len) reader.old reader.new result }
{
    replace_with(
        reader,
        len,
        |mut reader: R, len: u32|
            ensures { TakesPayload R.Source (a_char P.lends) (Text len) reader result.0 result.1 }
        {
            let read = P::payload(&mut reader, len);
            (reader, read)
        },
    )
}

// Reads the next `len` bytes as one character: by the fast path where they are buffered, and out of line otherwise.
#[inline(always)]
pub(crate) fn char_taken<R: Source, P: ReadChar<R>>(reader: &mut R, len: u32) -> Result<char, Error>
    ensures { TakesPayload R.Source (a_char P.lends) (Text len) reader.old reader.new result }
{
    match char_ahead(reader, len) {
        Some(c) => Ok(c),
        None => cold_char_payload::<R, P>(reader, len),
    }
}
