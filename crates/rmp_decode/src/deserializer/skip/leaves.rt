//! Leaves that are skipped by a table of first bytes.
ghost use Rattle.std.specs.Prelude.{◌<◌, ◌≤◌, Bool, IfSome, length, take};
ghost use Rattle.rmp_decode.specs.Ahead.{LeafHeadIn};
ghost use Rattle.rmp_decode.specs.LeafTable.{SpellsLeaf, Tells, PassesLeaves};

use crate::deserializer::peek::may_begin;
use crate::deserializer::peek::table::leaf_at;

// No block has so many bytes after a first byte.
const NEVER: u32 = u32::MAX;

// How many bytes of a leaf follow each first byte: first in a read of any width, then in a strict one. It is `NEVER` for a list or a map,
// where the first byte doesn't tell, and where reading is strict and only some of such heads are canonical.
const PAYLOADS: [u32; 512] = [
    0, 0, 0, 0, 0, 0, 0, 0, 0, 0, 0, 0, 0, 0, 0, 0, 0, 0, 0, 0, 0, 0, 0, 0, 0, 0, 0, 0, 0, 0, 0, 0,
    0, 0, 0, 0, 0, 0, 0, 0, 0, 0, 0, 0, 0, 0, 0, 0, 0, 0, 0, 0, 0, 0, 0, 0, 0, 0, 0, 0, 0, 0, 0, 0,
    0, 0, 0, 0, 0, 0, 0, 0, 0, 0, 0, 0, 0, 0, 0, 0, 0, 0, 0, 0, 0, 0, 0, 0, 0, 0, 0, 0, 0, 0, 0, 0,
    0, 0, 0, 0, 0, 0, 0, 0, 0, 0, 0, 0, 0, 0, 0, 0, 0, 0, 0, 0, 0, 0, 0, 0, 0, 0, 0, 0, 0, 0, 0, 0,
    0, 0, 0, 0, 0, 0, 0, 0, 0, 0, 0, 0, 0, 0, 0, 0, 0, 0, 0, 0, 0, 0, 0, 0, 0, 0, 0, 0, 0, 0, 0, 0,
    0, 0, 0, 0, 0, 0, 0, 0, 0, 0, 0, 0, 0, 0, 0, 0, 0, 0, 0, 0, 0, 0, 0, 0, 0, 0, 0, 0, 0, 0, 0, 0,
    0, 0, 0, 0, 0, 0, 0, 0, 0, 0, 0, 0, 0, 0, 0, 0, 0, 0, 0, 0, 0, 0, 0, 0, 0, 0, 0, 0, 0, 0, 0, 0,
    0, 0, 0, 0, 0, 0, 0, 0, 0, 0, 0, 0, 0, 0, 0, 0, 0, 0, 0, 0, 0, 0, 0, 0, 0, 0, 0, 0, 0, 0, 0, 0,
    NEVER, NEVER, NEVER, NEVER, NEVER, NEVER, NEVER, NEVER, NEVER, NEVER, NEVER, NEVER, NEVER,
    NEVER, NEVER, NEVER, NEVER, NEVER, NEVER, NEVER, NEVER, NEVER, NEVER, NEVER, NEVER, NEVER,
    NEVER, NEVER, NEVER, NEVER, NEVER, NEVER, NEVER, NEVER, NEVER, NEVER, NEVER, NEVER, NEVER,
    NEVER, NEVER, NEVER, NEVER, NEVER, NEVER, NEVER, NEVER, NEVER, NEVER, NEVER, NEVER, NEVER,
    NEVER, NEVER, NEVER, NEVER, NEVER, NEVER, NEVER, NEVER, NEVER, NEVER, NEVER, NEVER, 0, 0, 1, 1,
    2, 2, 3, 3, 4, 4, 5, 5, 6, 6, 7, 7, 8, 8, 9, 9, 10, 10, 11, 11, 12, 12, 13, 13, 14, 14, 15, 15,
    16, 16, 17, 17, 18, 18, 19, 19, 20, 20, 21, 21, 22, 22, 23, 23, 24, 24, 25, 25, 26, 26, 27, 27,
    28, 28, 29, 29, 30, 30, 31, 31, 0, 0, NEVER, NEVER, 0, 0, 0, 0, NEVER, NEVER, NEVER, NEVER,
    NEVER, NEVER, NEVER, NEVER, NEVER, NEVER, NEVER, NEVER, 4, 4, 8, 8, 1, NEVER, 2, NEVER, 4,
    NEVER, 8, NEVER, 1, NEVER, 2, NEVER, 4, NEVER, 8, NEVER, 2, 2, 3, 3, 5, 5, 9, 9, 17, 17, NEVER,
    NEVER, NEVER, NEVER, NEVER, NEVER, NEVER, NEVER, NEVER, NEVER, NEVER, NEVER, NEVER, NEVER, 0,
    0, 0, 0, 0, 0, 0, 0, 0, 0, 0, 0, 0, 0, 0, 0, 0, 0, 0, 0, 0, 0, 0, 0, 0, 0, 0, 0, 0, 0, 0, 0, 0,
    0, 0, 0, 0, 0, 0, 0, 0, 0, 0, 0, 0, 0, 0, 0, 0, 0, 0, 0, 0, 0, 0, 0, 0, 0, 0, 0, 0, 0, 0, 0,
];

#[inline(always)]
fn following(first: u8, strict: bool) -> u32
    ensures { Tells strict first result }
{
    let at = 2 * first as usize;
    if strict {
        PAYLOADS[at + 1]
    } else {
        PAYLOADS[at]
    }
}

const BLOCK: usize = NEVER as usize;

// The head of bytes or of a text whose length is in the second byte: how many bytes of content follow, and the count of its own.
#[inline(always)]
fn sized_at(front: &[u8], strict: bool) -> Option<(u32, usize)>
    ensures { IfSome result (λ p. LeafHeadIn strict p.1 p.0 front.now) }
{
    match front {
        [first, following @ ..] => match first {
            0xc4 => match following {
                [len, ..] => Some((u32::from(*len), 2)),
                _ => None,
            },
            0xd9 => match following {
                [len, ..] if may_begin(u64::from(*len), 32, strict) => Some((u32::from(*len), 2)),
                _ => None,
            },
            _ => None,
        },
        _ => None,
    }
}

// How many bytes the leaf has that these bytes begin with, by its head, or 0 where there is none, or it isn't whole.
#[inline(always)]
fn whole(bytes: &[u8], head: Option<(u32, usize)>) -> usize
    ensures within { result ≤ length bytes.now }
    ensures leaf { (strict : Bool) → IfSome head (λ p. LeafHeadIn strict p.1 p.0 bytes.now) → 0 < result → SpellsLeaf strict (take result bytes.now) }
{
    match head {
        Some((payload, len)) => {
            if len <= bytes.len() && payload as usize <= bytes.len() - len {
                len + payload as usize
            } else {
                0
            }
        }
        None => 0,
    }
}

// How many bytes the leaf has that these bytes begin with, by a head of any width, or 0. Out of line, so that the loop over the table keeps nothing of a head.
#[inline(never)]
fn whole_leaf(bytes: &[u8], strict: bool) -> usize
    ensures within { result ≤ length bytes.now }
    ensures leaf { 0 < result → SpellsLeaf strict (take result bytes.now) }
{
    whole(bytes, leaf_at(bytes, strict))
}

// As `whole_leaf`, with a fast path for a length in the second byte.
#[inline(always)]
fn long_leaf(bytes: &[u8], strict: bool) -> usize
    ensures within { result ≤ length bytes.now }
    ensures leaf { 0 < result → SpellsLeaf strict (take result bytes.now) }
{
    let head = sized_at(bytes, strict);
    if head.is_some() {
        whole(bytes, head)
    } else {
        whole_leaf(bytes, strict)
    }
}

// As `long_leaf`, and 0 for a short list or map, by its first byte.
#[inline(always)]
fn other_leaf(bytes: &[u8], strict: bool) -> usize
    ensures within { result ≤ length bytes.now }
    ensures leaf { 0 < result → SpellsLeaf strict (take result bytes.now) }
{
    match bytes {
        [first, ..] => match first {
            0x80..=0x9f => 0,
            _ => long_leaf(bytes, strict),
        },
        _ => 0,
    }
}

// Skips leaves that are whole in these bytes, at most `most`, by the table first. Returns how many bytes they have, and
// how many of the `most` messages remain.
#[inline(always)]
pub(super) fn pass_leaves(bytes: &[u8], strict: bool, most: u64) -> (usize, u64)
    ensures within { result.0 ≤ length bytes.now }
    ensures fewer { result.1 ≤ most }
    ensures passes { PassesLeaves strict most result.1 (take result.0 bytes.now) }
{
    let len = bytes.len().min(BLOCK);
    let mut at: usize = 0;
    let mut wanted = most;
    'leaves: while wanted > 0 && at < len {
        let payload = following(bytes[at], strict) as usize;
        if payload < len - at {
            at += 1 + payload;
            wanted -= 1;
            continue;
        }
        let size = other_leaf(&bytes[at..], strict);
        if size == 0 {
            break;
        }
        at += size;
        wanted -= 1;
    }
    (at, wanted)
}
