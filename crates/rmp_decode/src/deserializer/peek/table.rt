//! Heads of any kind that are buffered whole, except those of extensions of more than 255 bytes.
ghost use Rattle.std.specs.Prelude.{◌<ℤ◌, true, false, IfSome};
ghost use Rattle.rmp_decode.specs.Ahead.{LeafHeadIn};
ghost use Rattle.rmp_decode.specs.BufferedHeads.{HeadIn, bound_of};

use crate::deserializer::peek::{F32Head, F64Head, Peek, unsigned_at};
use crate::deserializer::skip::leaf_in;
use rmp_wire::{Head, Marker, is_canonical};

// A head of one byte that isn't a number's.
#[inline(always)]
fn short_at(front: &[u8]) -> Option<(Head, usize)>
    ensures { IfSome result (λ p. HeadIn false p.1 p.0 front.now) }
{
    match front {
        [first, ..] => match first {
            0x80..=0x8f => Some((Head::Map(u32::from(*first - 0x80)), 1)),
            0x90..=0x9f => Some((Head::Array(u32::from(*first - 0x90)), 1)),
            0xa0..=0xbf => Some((Head::Text(u32::from(*first - 0xa0)), 1)),
            0xc0 => Some((Head::Nil, 1)),
            0xc2 => Some((Head::Truth(false), 1)),
            0xc3 => Some((Head::Truth(true), 1)),
            _ => None,
        },
        _ => None,
    }
}

// A head of bytes.
#[inline(always)]
fn bytes_at(front: &[u8]) -> Option<(Head, usize)>
    ensures { IfSome result (λ p. HeadIn false p.1 p.0 front.now) }
{
    match front {
        [first, following @ ..] => match first {
            0xc4 => match following {
                [a, ..] => Some((Head::Bin(u32::from(*a)), 2)),
                _ => None,
            },
            0xc5 => match following {
                [a, b, ..] => Some((Head::Bin(u32::from(u16::from_be_bytes([*a, *b]))), 3)),
                _ => None,
            },
            0xc6 => match following {
                [a, b, c, d, ..] => Some((Head::Bin(u32::from_be_bytes([*a, *b, *c, *d])), 5)),
                _ => None,
            },
            _ => None,
        },
        _ => None,
    }
}

// A head of a text of any length.
#[inline(always)]
fn long_text_at(front: &[u8]) -> Option<(Head, usize)>
    ensures { IfSome result (λ p. HeadIn false p.1 p.0 front.now) }
{
    match front {
        [first, following @ ..] => match first {
            0xd9 => match following {
                [a, ..] => Some((Head::Text(u32::from(*a)), 2)),
                _ => None,
            },
            0xda => match following {
                [a, b, ..] => Some((Head::Text(u32::from(u16::from_be_bytes([*a, *b]))), 3)),
                _ => None,
            },
            0xdb => match following {
                [a, b, c, d, ..] => Some((Head::Text(u32::from_be_bytes([*a, *b, *c, *d])), 5)),
                _ => None,
            },
            _ => None,
        },
        _ => None,
    }
}

// A head of a list or of a map of any length.
#[inline(always)]
fn long_parts_at(front: &[u8]) -> Option<(Head, usize)>
    ensures { IfSome result (λ p. HeadIn false p.1 p.0 front.now) }
{
    match front {
        [first, following @ ..] => match first {
            0xdc => match following {
                [a, b, ..] => Some((Head::Array(u32::from(u16::from_be_bytes([*a, *b]))), 3)),
                _ => None,
            },
            0xdd => match following {
                [a, b, c, d, ..] => Some((Head::Array(u32::from_be_bytes([*a, *b, *c, *d])), 5)),
                _ => None,
            },
            0xde => match following {
                [a, b, ..] => Some((Head::Map(u32::from(u16::from_be_bytes([*a, *b]))), 3)),
                _ => None,
            },
            0xdf => match following {
                [a, b, c, d, ..] => Some((Head::Map(u32::from_be_bytes([*a, *b, *c, *d])), 5)),
                _ => None,
            },
            _ => None,
        },
        _ => None,
    }
}

// A number at the front in a format with a sign, and the length of its head.
#[inline(always)]
pub(crate) fn signed_at(front: &[u8]) -> Option<(i64, usize)>
    ensures any { IfSome result (λ p. HeadIn false p.1 (Head.Whole p.0) front.now) }
    ensures canonical { IfSome result (λ p. p.0 <ℤ bound_of p.1 → HeadIn true p.1 (Head.Whole p.0) front.now) }
{
    match front {
        [first, following @ ..] => match first {
            0xe0..=0xff => Some((i64::from(first.cast_signed()), 1)),
            0xd0 => match following {
                [a, ..] => Some((i64::from(a.cast_signed()), 2)),
                _ => None,
            },
            0xd1 => match following {
                [a, b, ..] => {
                    let n = u16::from_be_bytes([*a, *b]);
                    Some((i64::from(n.cast_signed()), 3))
                }
                _ => None,
            },
            0xd2 => match following {
                [a, b, c, d, ..] => {
                    let n = u32::from_be_bytes([*a, *b, *c, *d]);
                    Some((i64::from(n.cast_signed()), 5))
                }
                _ => None,
            },
            0xd3 => match following {
                [a, b, c, d, e, f, g, h, ..] => {
                    let n = u64::from_be_bytes([*a, *b, *c, *d, *e, *f, *g, *h]);
                    Some((n.cast_signed(), 9))
                }
                _ => None,
            },
            _ => None,
        },
        _ => None,
    }
}

// A head of any width and any kind, but of an extension of more than 255 bytes, and the count of its bytes.
#[inline(always)]
pub(crate) fn any_at(front: &[u8]) -> Option<(Head, usize)>
    ensures { IfSome result (λ p. HeadIn false p.1 p.0 front.now) }
{
    match front {
        [first, ..] => match first {
            0x80..=0xbf | 0xc0 | 0xc2 | 0xc3 => short_at(front),
            0xc4..=0xc6 => bytes_at(front),
            0xca => match F32Head.at(front, false) {
                Some((bits, len)) => Some((Head::F32Bits(bits), len)),
                None => None,
            },
            0xcb => match F64Head.at(front, false) {
                Some((bits, len)) => Some((Head::F64Bits(bits), len)),
                None => None,
            },
            0xc7 | 0xd4..=0xd8 => match ext_at(front) {
                Some((n, tag, len)) => Some((Head::Ext(n, tag), len)),
                None => None,
            },
            0xd9..=0xdb => long_text_at(front),
            0xdc..=0xdf => long_parts_at(front),
            0xd0..=0xd3 | 0xe0..=0xff => match signed_at(front) {
                Some((z, len)) => Some((Head::Whole(i128::from(z)), len)),
                None => None,
            },
            _ => match unsigned_at(front) {
                Some((n, len)) => Some((Head::Whole(i128::from(n)), len)),
                None => None,
            },
        },
        _ => None,
    }
}

// A canonical head, and the count of its bytes. Out of line: so the reads of any width keep nothing of a head for the test.
#[inline(never)]
pub(crate) fn canonical_at(front: &[u8]) -> Option<(Head, usize)>
    ensures { IfSome result (λ p. HeadIn true p.1 p.0 front.now) }
{
    match any_at(front) {
        Some((head, len)) => {
            if is_canonical(Marker::from_u8(front[0]), &head) {
                Some((head, len))
            } else {
                None
            }
        }
        None => None,
    }
}

// A head of bytes, of any width: the count of the bytes, and of the head's.
#[inline(always)]
pub(crate) fn any_bin_at(front: &[u8]) -> Option<(u32, usize)>
    ensures { IfSome result (λ p. HeadIn false p.1 (Head.Bin p.0) front.now) }
{
    match bytes_at(front) {
        Some((head, len)) => match head.as_bin() {
            Some(n) => Some((n, len)),
            None => None,
        },
        None => None,
    }
}

// A canonical head of bytes: the count of the bytes, and of the head's.
#[inline(always)]
pub(crate) fn canonical_bin_at(front: &[u8]) -> Option<(u32, usize)>
    ensures { IfSome result (λ p. HeadIn true p.1 (Head.Bin p.0) front.now) }
{
    match canonical_at(front) {
        Some((head, len)) => match head.as_bin() {
            Some(n) => Some((n, len)),
            None => None,
        },
        None => None,
    }
}

// A head of a leaf, of any width, but of an extension of more than 255 bytes: how many bytes of content follow, and the count of its own.
#[inline(always)]
fn any_leaf_at(front: &[u8]) -> Option<(u32, usize)>
    ensures { IfSome result (λ p. LeafHeadIn false p.1 p.0 front.now) }
{
    match any_at(front) {
        Some((head, len)) => match leaf_in(head) {
            Some(n) => Some((n, len)),
            None => None,
        },
        None => None,
    }
}

// A canonical head of a leaf. Out of line: so the other path keeps nothing of a head.
#[inline(never)]
fn canonical_leaf_at(front: &[u8]) -> Option<(u32, usize)>
    ensures { IfSome result (λ p. LeafHeadIn true p.1 p.0 front.now) }
{
    match canonical_at(front) {
        Some((head, len)) => match leaf_in(head) {
            Some(n) => Some((n, len)),
            None => None,
        },
        None => None,
    }
}

// The head of a leaf that may be read: any, or where reading is strict a canonical one.
#[inline(always)]
pub(crate) fn leaf_at(front: &[u8], strict: bool) -> Option<(u32, usize)>
    ensures { IfSome result (λ p. LeafHeadIn strict p.1 p.0 front.now) }
{
    if strict {
        canonical_leaf_at(front)
    } else {
        any_leaf_at(front)
    }
}

// An extension of a length that has a head of its own: how many bytes it has, and its type. Its head has two bytes.
#[inline(always)]
fn fixed_ext_at(front: &[u8]) -> Option<(u32, i8)>
    ensures { IfSome result (λ p. HeadIn false 2 (Head.Ext p.0 p.1) front.now) }
{
    match front {
        [first, following @ ..] => match following {
            [tag, ..] => match first {
                0xd4 => Some((1, tag.cast_signed())),
                0xd5 => Some((2, tag.cast_signed())),
                0xd6 => Some((4, tag.cast_signed())),
                0xd7 => Some((8, tag.cast_signed())),
                0xd8 => Some((16, tag.cast_signed())),
                _ => None,
            },
            _ => None,
        },
        _ => None,
    }
}

// An extension of up to 255 bytes whose head tells its length: how many bytes it has, and its type. Its head has three bytes.
#[inline(always)]
fn short_ext_at(front: &[u8]) -> Option<(u32, i8)>
    ensures { IfSome result (λ p. HeadIn false 3 (Head.Ext p.0 p.1) front.now) }
{
    match front {
        [first, following @ ..] => match first {
            0xc7 => match following {
                [len, tag, ..] => Some((u32::from(*len), tag.cast_signed())),
                _ => None,
            },
            _ => None,
        },
        _ => None,
    }
}

// The head of an extension of up to 255 bytes at the front: how many bytes it has, its type, and the count of the head's
// bytes.
#[inline(always)]
pub(super) fn ext_at(front: &[u8]) -> Option<(u32, i8, usize)>
    ensures { IfSome result (λ p. HeadIn false p.2 (Head.Ext p.0 p.1) front.now) }
{
    match fixed_ext_at(front) {
        Some((n, tag)) => Some((n, tag, 2)),
        None => match short_ext_at(front) {
            Some((n, tag)) => Some((n, tag, 3)),
            None => None,
        },
    }
}
