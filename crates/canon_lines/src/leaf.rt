//! The fast path for canonical messages that nest little: the text of one without parts, or of a list or a map of such, is made without a
//! tree.
ghost use Rattle.std.specs.Prelude.{◌≡◌, ◌≢◌, [], ◌++◌, true, pos, length, IfOk, IfSome, OnOk};
ghost use Rattle.rmp_wire.specs.Heads.{fits_head};
ghost use Rattle.rmp_wire.specs.Kinds.{content_len};
ghost use Rattle.canon_lines.specs.Firsts.{BeginsHead, TellsLeaf, TakesContent, TakesMessage, TakesParts, TakesRow, TellsFirst};
ghost use Rattle.canon_lines.specs.Firsts.{separator_text, next_separator, opening, closing};
ghost use Rattle.canon_lines.specs.Texts.{text_bytes};

use crate::text::Text;
use rmp_serde::wire::read::{number_16, number_32};
use rmp_serde::wire::{Head, is_canonical, next_head};
use std::alloc::AllocError;
use std::str;

// The number, where it is one from 0 on that has 64 bits.
#[inline(always)]
fn unsigned(number: i128) -> Option<u64>
    ensures { IfSome result (λ n. number ≡ pos n) }
{
    if number >= 0 && number <= i128::from(u64::MAX) {
        Some(number as u64)
    } else {
        None
    }
}

// The number, where it is one below zero that has 64 bits.
#[inline(always)]
fn signed(number: i128) -> Option<i64>
    ensures { IfSome result (λ n. number ≡ n) }
{
    if number < 0 && number >= i128::from(i64::MIN) {
        Some(number as i64)
    } else {
        None
    }
}

// Appends the tree of a message of this head and this payload, and says whether there is one: not for a list or a map, nor for a text
// that isn't UTF-8. An extension is rare, and left to the trees.
#[inline(always)]
fn push_payload(text: &mut Text, head: Head, payload: &[u8]) -> Result<bool, AllocError>
    requires long { length payload.now ≡ content_len head }
    ensures told { IfOk result (λ known. known ≡ true → TellsLeaf head payload.now (text_bytes text.old) (text_bytes text.new)) }
{
    match head {
        Head::Nil => text.push(b"nil")?,
        Head::Truth(true) => text.push(b"true")?,
        Head::Truth(false) => text.push(b"false")?,
        Head::Whole(number) => match unsigned(number) {
            Some(number) => text.push_printed(number)?,
            None => match signed(number) {
                Some(number) => text.push_printed(number)?,
                None => return Ok(false),
            },
        },
        Head::F32Bits(bits) => {
            text.push(b"f32:")?;
            text.push_digits(&bits.to_be_bytes())?;
        }
        Head::F64Bits(bits) => {
            text.push(b"f64:")?;
            text.push_digits(&bits.to_be_bytes())?;
        }
        Head::Text(_) => {
            let Ok(_) = str::from_utf8(payload) else {
                return Ok(false);
            };
            text.push(b"t:")?;
            text.push_digits(payload)?;
        }
        Head::Bin(_) => {
            text.push(b"b:")?;
            text.push_digits(payload)?;
        }
        _ => return Ok(false),
    }
    Ok(true)
}

// A canonical head at the beginning, and what follows it, where it is one of the common ones, of one, three or five bytes.
#[inline(always)]
#[tactic(auto, unfolding(rmp_wire::specs::Heads::canon_head, rmp_wire::specs::Heads::fits_head))]
fn short_head(bytes: &[u8]) -> Option<(Head, &[u8])>
    ensures head { IfSome result (λ p. BeginsHead p.0 p.1.now bytes.now) }
{
    let (first, after) = bytes.split_first()?;
    let first = *first;
    if first < 0x80 {
        return Some((Head::Whole(i128::from(first)), after));
    }
    if first < 0x90 {
        return Some((Head::Map(u32::from(first - 0x80)), after));
    }
    if first < 0xa0 {
        return Some((Head::Array(u32::from(first - 0x90)), after));
    }
    if first < 0xc0 {
        return Some((Head::Text(u32::from(first - 0xa0)), after));
    }
    let mut rest: &[u8] = after;
    match first {
        0xc0 => Some((Head::Nil, after)),
        0xc2 => Some((Head::Truth(false), after)),
        0xc3 => Some((Head::Truth(true), after)),
        0xcd => match number_16(&mut rest) {
            Ok(number) if number >= 1 << 8 => Some((Head::Whole(i128::from(number)), rest)),
            _ => None,
        },
        0xce => match number_32(&mut rest) {
            Ok(number) if number >= 1 << 16 => Some((Head::Whole(i128::from(number)), rest)),
            _ => None,
        },
        _ => None,
    }
}

// A canonical head at the beginning, and what follows it.
#[inline(never)]
fn long_head(bytes: &[u8]) -> Option<(Head, &[u8])>
    ensures head { IfSome result (λ p. BeginsHead p.0 p.1.now bytes.now) }
{
    let mut rest: &[u8] = bytes;
    let Ok((marker, head)) = next_head(&mut rest) else {
        return None;
    };
    if !is_canonical(marker, &head) {
        return None;
    }
    Some((head, rest))
}

// The same, without a call for a common one.
#[inline(always)]
fn head_at(bytes: &[u8]) -> Option<(Head, &[u8])>
    ensures head { IfSome result (λ p. BeginsHead p.0 p.1.now bytes.now) }
{
    match short_head(bytes) {
        Some(found) => Some(found),
        None => long_head(bytes),
    }
}

// Appends the tree of a message of this head, which is followed by these bytes, and returns what follows the message: `None` where it has
// parts, is cut, or its tree isn't told here.
#[inline(always)]
fn push_content<'a>(
    text: &mut Text,
    head: Head,
    bytes: &'a [u8],
) -> Result<Option<&'a [u8]>, AllocError>
    requires fits { fits_head head }
    ensures told { IfOk result (λ after. IfSome after (λ rest. TakesContent head bytes.now rest.now (text_bytes text.old) (text_bytes text.new))) }
{
    let len = head.content_len() as usize;
    if len > bytes.len() {
        return Ok(None);
    }
    let (payload, after) = bytes.split_at(len);
    if !push_payload(text, head, payload)? {
        return Ok(None);
    }
    Ok(Some(after))
}

// What separates a part from the one before it.
#[derive(Clone, Copy)]
pub enum Separator {
    Nothing,
    Comma,
    Equals,
}

impl Separator {
    fn push(self, text: &mut Text) -> Result<(), AllocError>
        ensures text { OnOk result (text_bytes text.new ≡ text_bytes text.old ++ separator_text self) }
    {
        match self {
            Separator::Nothing => text.push(b""),
            Separator::Comma => text.push(b","),
            Separator::Equals => text.push(b"="),
        }
    }

    // What comes before the next part.
    fn next(self, is_map: bool) -> Separator
        ensures { result ≡ next_separator is_map self }
    {
        match self {
            Separator::Nothing | Separator::Comma if is_map => Separator::Equals,
            _ => Separator::Comma,
        }
    }
}

// Appends the tree of a canonical message without parts, and returns what follows it: `None` where there is none that is told here.
#[inline(always)]
fn push_leaf<'a>(text: &mut Text, bytes: &'a [u8]) -> Result<Option<&'a [u8]>, AllocError>
    ensures told { IfOk result (λ after. IfSome after (λ rest. TakesMessage 0 bytes.now rest.now (text_bytes text.old) (text_bytes text.new))) }
{
    let Some((head, rest)) = head_at(bytes) else {
        return Ok(None);
    };
    push_content(text, head, rest)
}

// Appends the trees of so many canonical messages without parts, and returns what follows them: `None` where one isn't such.
fn push_parts<'a>(
    text: &mut Text,
    is_map: bool,
    count: u64,
    bytes: &'a [u8],
) -> Result<Option<&'a [u8]>, AllocError>
    ensures told { IfOk result (λ after. IfSome after (λ rest. (separator : Separator)
        × TakesParts is_map count separator bytes.now rest.now (text_bytes text.old) (text_bytes text.new))) }
{
    let mut left = bytes;
    let mut separator = Separator::Nothing;
    for _part in 0..count {
        separator.push(text)?;
        let Some(after) = push_leaf(text, left)? else {
            return Ok(None);
        };
        separator = separator.next(is_map);
        left = after;
    }
    Ok(Some(left))
}

fn opening_of(is_map: bool) -> &'static [u8]
    ensures { result.now ≡ opening is_map }
{
    if is_map { b"{" } else { b"[" }
}

fn closing_of(is_map: bool) -> &'static [u8]
    ensures { result.now ≡ closing is_map }
{
    if is_map { b"}" } else { b"]" }
}

// The same, between brackets.
fn push_row<'a>(
    text: &mut Text,
    is_map: bool,
    count: u64,
    bytes: &'a [u8],
) -> Result<Option<&'a [u8]>, AllocError>
    ensures told { IfOk result (λ after. IfSome after (λ rest. TakesRow is_map count bytes.now rest.now (text_bytes text.old) (text_bytes text.new))) }
{
    text.push(opening_of(is_map))?;
    let Some(after) = push_parts(text, is_map, count, bytes)? else {
        return Ok(None);
    };
    text.push(closing_of(is_map))?;
    Ok(Some(after))
}

// Appends the tree of the first message, where it is canonical, and its parts have none, and returns what follows it.
#[inline(always)]
fn push_flat<'a>(text: &mut Text, bytes: &'a [u8]) -> Result<Option<&'a [u8]>, AllocError>
    ensures told { IfOk result (λ after. IfSome after (λ rest. TakesMessage 1 bytes.now rest.now (text_bytes text.old) (text_bytes text.new))) }
{
    let Some((head, rest)) = head_at(bytes) else {
        return Ok(None);
    };
    match head {
        Head::Array(len) => push_row(text, false, u64::from(len), rest),
        Head::Map(len) => push_row(text, true, 2 * u64::from(len), rest),
        _ => push_content(text, head, rest),
    }
}

/// Holds the text of the first message, and returns how many bytes it has. Returns 0 where that has parts in its parts, is no message or
/// isn't canonical, and for some rare kinds.
pub fn tell_flat(bytes: &[u8], text: &mut Text) -> Result<usize, AllocError>
    ensures told { IfOk result (λ n. n ≢ 0 → TellsFirst n bytes.now (text_bytes text.new)) }
{
    text.clear();
    let Some(after) = push_flat(text, bytes)? else {
        return Ok(0);
    };
    let taken = bytes.len() - after.len();
    text.push_hex(&bytes[..taken])?;
    Ok(taken)
}
