//! The fast path: a buffered head of one kind is recognized by its bytes, and consumed. A message that is only a head is read by it, or by
//! the slow path.
ghost use Rattle.rmp_decode.specs.Leaves.{ReadsLeaf};
ghost use Rattle.std.specs.Prelude.{◌≡◌, ◌<◌, ◌≤◌, ◌≤ℤ◌, pos, true, false, IfSome, IfNone, Ok, IfOk, IfErr, ◌<ℤ◌, ◌+◌, ◌*◌, length, get_or, MatchOption};
ghost use Rattle.rmp_wire.specs.declared.head.Head.TheVariants as heads;
ghost use Rattle.rmp_decode.specs.BufferedHeads.{HeadIn, ConsumesHead, bound_of, least_of};
ghost use Rattle.rmp_decode.specs.Kinds.{raw_head};
ghost use Rattle.rmp_decode.specs.Law.{ReadsHead};
ghost use Rattle.rmp_decode.specs.State.{is_failed, kept_of};
ghost use Rattle.rmp_decode.specs.declared.deserializer.Kept.TheVariants.{Nothing};

pub(crate) mod table;

use crate::deserializer::leaf::Leaf;
use crate::deserializer::peek::table::{
    any_at, any_bin_at, canonical_at, canonical_bin_at, ext_at, signed_at,
};
use crate::deserializer::{Deserializer, Kept};
use crate::error::Error;
use core::mem::replace_with;
use rmp_wire::config::SerializerConfig;
use rmp_wire::{Head, Source};

// A kind of head, and what is looked for in one.
pub(crate) trait Peek: Copy {
    ghost use Rattle.std.specs.Prelude.{◌≡◌, IfSome};
    ghost use Rattle.rmp_wire.specs.declared.head.Head.{Head};
    ghost use Rattle.rmp_decode.specs.BufferedHeads.{HeadIn};

    type Value: Copy;

    // the head that holds a value
    ghost head: { Self → Self.Value → Head };

    // what is wanted of a value
    ghost wants: { Self → Self.Value → Type 0 } = { λ _ _. Unit {0} };

    // The value whose head is at the front, and the count of the head's bytes.
    fn at(self, front: &[u8], strict: bool) -> Option<(Self::Value, usize)>
        ensures starts { IfSome result (λ p. HeadIn strict p.1 (head self p.0) front.now) }
        ensures wanted { IfSome result (λ p. wants self p.0) };
}

impl<R: Source, C: SerializerConfig> Deserializer<R, C> {
    // Consumes a buffered head. The reader counts as failed until the message is read. Returns `None` and consumes
    // nothing otherwise.
    #[inline(always)]
    pub(crate) fn take<K: Peek>(&mut self, kind: K) -> Option<K::Value>
        ensures taken { IfSome result (λ v. ConsumesHead R.Source (K.head kind v) self.old self.new) }
        ensures wanted { IfSome result (λ v. K.wants kind v) }
        ensures kept { IfNone result (self.new ≡ self.old) }
    {
        if !self.begins_ahead() {
            return None;
        }
        match kind.at(self.reader.front(), self.strict) {
            Some((value, len)) => {
                if self.reader.skip(len) {
                    self.failed = true;
                    Some(value)
                } else {
                    None
                }
            }
            None => None,
        }
    }

    // Consumes the buffered head of a list or a map, if a level of nesting is left for it.
    #[inline(always)]
    pub(crate) fn take_nested<K: Peek>(&mut self, kind: K) -> Option<K::Value>
        ensures deep { IfSome result (λ _. 1 < self.old.room) }
        ensures taken { IfSome result (λ v. ConsumesHead R.Source (K.head kind v) self.old self.new) }
        ensures wanted { IfSome result (λ v. K.wants kind v) }
        ensures kept { IfNone result (self.new ≡ self.old) }
    {
        if self.is_deepest() {
            return None;
        }
        self.take(kind)
    }

    // Whether a list or a map would nest too deep here.
    #[inline(always)]
    pub(crate) fn is_deepest(&self) -> bool
        ensures deep { result ≡ true → self.now.room ≤ 1 }
        ensures fits { result ≡ false → 1 < self.now.room }
    {
        self.room <= 1
    }

    // Whether the next message begins with the source's next bytes: nothing was kept back, and no read failed.
    #[inline(always)]
    pub(crate) fn begins_ahead(&self) -> bool
        ensures fresh { result ≡ true → is_failed self.now ≡ false }
        ensures clean { result ≡ true → kept_of self.now ≡ Nothing }
    {
        match self.kept {
            Kept::Nothing => !self.failed,
            _ => false,
        }
    }

    // Consumes a head of any kind. The reader counts as failed until the message is read. A short list is looked for
    // first, so that it is opened without a head.
    #[inline(always)]
    pub(crate) fn any_head(&mut self) -> Result<Head, Error>
        ensures ok { IfOk result (λ h. ConsumesHead R.Source h self.old self.new) }
        ensures err { IfErr result (λ e. ReadsHead R.Source self.old self.new (Err e)) }
    {
        match self.take(ListHead) {
            Some(n) => Ok(Head::Array(n)),
            None => match self.take(AnyHead) {
                Some(head) => Ok(head),
                None => self.slow_head(),
            },
        }
    }

    // The slow path of `any_head`.
    #[inline(never)]
    fn slow_head(&mut self) -> Result<Head, Error>
        ensures ok { IfOk result (λ h. ConsumesHead R.Source h self.old self.new) }
        ensures err { IfErr result (λ e. ReadsHead R.Source self.old self.new (Err e)) }
    {
        match self.head() {
            Ok((_, head)) => Ok(head),
            Err(e) => Err(e),
        }
    }
}

impl<R: Source, C: SerializerConfig> Deserializer<R, C> {
    // Reads a message that is only a head: by the fast path if it is buffered, as a number that was kept back, or out
    // of line.
    #[inline(always)]
    pub(crate) fn read_leaf<K: Leaf>(&mut self, kind: K) -> Result<K::Value, Error>
        ensures { ReadsLeaf R.Source (K.reads kind) K.refused self.old self.new result }
    {
        match self.take(kind) {
            Some(value) => {
                self.failed = false;
                Ok(value)
            }
            None => match self.offered(kind) {
                Some(value) => Ok(value),
                None => self.cold_leaf(kind),
            },
        }
    }

    // Consumes a number that was kept back, if it is read as this kind. Returns `None` and consumes nothing otherwise.
    #[inline(always)]
    fn offered<K: Leaf>(&mut self, kind: K) -> Option<K::Value>
        ensures { MatchOption result (self.new ≡ self.old) (λ v. ReadsLeaf R.Source (K.reads kind) K.refused self.old self.new (Ok v)) }
    {
        if self.failed {
            return None;
        }
        match self.kept {
            Kept::Number(byte) => match kind.held_byte(byte) {
                Some(value) => {
                    self.kept = Kept::Nothing;
                    Some(value)
                }
                None => None,
            },
            _ => None,
        }
    }

    // The slow path of `read_leaf`, on a moved reader.
    #[inline(always)]
    fn cold_leaf<K: Leaf>(&mut self, kind: K) -> Result<K::Value, Error>
        ensures { ReadsLeaf R.Source (K.reads kind) K.refused self.old self.new result }
    {
        replace_with(
            self,
            kind,
            |mut de: Deserializer<R, C>, kind: K|
                ensures { ReadsLeaf R.Source (K.reads kind) K.refused de result.0 result.1 }
            {
                let read = de.slow_leaf(kind);
                (de, read)
            },
        )
    }

    // The slow path of `read_leaf`.
    #[inline(never)]
    fn slow_leaf<K: Leaf>(&mut self, kind: K) -> Result<K::Value, Error>
        ensures { ReadsLeaf R.Source (K.reads kind) K.refused self.old self.new result }
    {
        match self.head() {
            Ok((marker, head)) => match kind.held(head) {
                Some(value) => {
                    self.failed = false;
                    Ok(value)
                }
                None => Err(K::refusal(marker, head)),
            },
            Err(e) => Err(e),
        }
    }
}

// Nil.
#[derive(Clone, Copy)]
pub(crate) struct NilHead;

impl Peek for NilHead {
    type Value = ();

    ghost head = { λ _ _. heads.Nil };

    #[inline(always)]
    fn at(self, front: &[u8], _strict: bool) -> Option<((), usize)> {
        match front {
            [first, ..] => match first {
                0xc0 => Some(((), 1)),
                _ => None,
            },
            _ => None,
        }
    }
}

// A truth.
#[derive(Clone, Copy)]
pub(crate) struct TruthHead;

impl Peek for TruthHead {
    type Value = bool;

    ghost head = { λ _ t. heads.Truth t };

    #[inline(always)]
    fn at(self, front: &[u8], _strict: bool) -> Option<(bool, usize)> {
        match front {
            [first, ..] => match first {
                0xc2 => Some((false, 1)),
                0xc3 => Some((true, 1)),
                _ => None,
            },
            _ => None,
        }
    }
}

// The bits of a float of 32 bits.
#[derive(Clone, Copy)]
pub(crate) struct F32Head;

impl Peek for F32Head {
    type Value = u32;

    ghost head = { λ _ n. heads.F32Bits n };

    #[inline(always)]
    fn at(self, front: &[u8], _strict: bool) -> Option<(u32, usize)> {
        match front {
            [first, following @ ..] => match first {
                0xca => match following {
                    [a, b, c, d, ..] => Some((u32::from_be_bytes([*a, *b, *c, *d]), 5)),
                    _ => None,
                },
                _ => None,
            },
            _ => None,
        }
    }
}

// The bits of a float of 64 bits.
#[derive(Clone, Copy)]
pub(crate) struct F64Head;

impl Peek for F64Head {
    type Value = u64;

    ghost head = { λ _ n. heads.F64Bits n };

    #[inline(always)]
    fn at(self, front: &[u8], _strict: bool) -> Option<(u64, usize)> {
        match front {
            [first, following @ ..] => match first {
                0xcb => match following {
                    [a, b, c, d, e, f, g, h, ..] => {
                        Some((u64::from_be_bytes([*a, *b, *c, *d, *e, *f, *g, *h]), 9))
                    }
                    _ => None,
                },
                _ => None,
            },
            _ => None,
        }
    }
}

// An unsigned number, up to `most`.
#[derive(Clone, Copy)]
pub(crate) struct Unsigned {
    pub(crate) most: u64,
}

impl Peek for Unsigned {
    type Value = u64;

    ghost head = { λ _ n. heads.Whole (pos n) };

    ghost wants = { λ k n. n ≤ k.most };

    #[inline(always)]
    fn at(self, front: &[u8], strict: bool) -> Option<(u64, usize)> {
        match unsigned_at(front) {
            Some((n, len)) => {
                if n <= self.most && (!strict || needs_bytes(n, len)) {
                    Some((n, len))
                } else {
                    None
                }
            }
            None => None,
        }
    }
}

// A signed number between two others.
#[derive(Clone, Copy)]
pub(crate) struct WithSign {
    pub(crate) least: i64,
    pub(crate) most: i64,
}

impl Peek for WithSign {
    type Value = i64;

    ghost head = { λ _ z. heads.Whole z };

    ghost wants = { λ k z. (k.least ≤ℤ z) × (z ≤ℤ k.most) };

    #[inline(always)]
    fn at(self, front: &[u8], strict: bool) -> Option<(i64, usize)> {
        match signed_at(front) {
            Some((z, len)) => {
                if z >= self.least && z <= self.most && (!strict || needs_signed_bytes(z, len)) {
                    Some((z, len))
                } else {
                    None
                }
            }
            None => None,
        }
    }
}

// A text of up to 255 bytes.
#[derive(Clone, Copy)]
pub(crate) struct TextHead;

impl Peek for TextHead {
    type Value = u32;

    ghost head = { λ _ n. heads.Text n };

    #[inline(always)]
    fn at(self, front: &[u8], strict: bool) -> Option<(u32, usize)> {
        match front {
            [first, following @ ..] => match first {
                0xa0..=0xbf => Some((u32::from(*first - 0xa0), 1)),
                0xd9 => match following {
                    [a, ..] if may_begin(u64::from(*a), 32, strict) => Some((u32::from(*a), 2)),
                    _ => None,
                },
                _ => None,
            },
            _ => None,
        }
    }
}

// Bytes of any count.
#[derive(Clone, Copy)]
pub(crate) struct BinHead;

impl Peek for BinHead {
    type Value = u32;

    ghost head = { λ _ n. heads.Bin n };

    #[inline(always)]
    fn at(self, front: &[u8], strict: bool) -> Option<(u32, usize)> {
        if strict {
            canonical_bin_at(front)
        } else {
            any_bin_at(front)
        }
    }
}

// A text of up to 255 bytes, or bytes of any count: whether it is a text, and how many bytes it has.
#[derive(Clone, Copy)]
pub(crate) struct RawHead;

impl Peek for RawHead {
    type Value = (bool, u32);

    ghost head = { λ _ p. raw_head p.0 p.1 };

    #[inline(always)]
    fn at(self, front: &[u8], strict: bool) -> Option<((bool, u32), usize)> {
        match TextHead.at(front, strict) {
            Some((n, len)) => Some(((true, n), len)),
            None => match BinHead.at(front, strict) {
                Some((n, len)) => Some(((false, n), len)),
                None => None,
            },
        }
    }
}

// Sixteen bytes.
#[derive(Clone, Copy)]
pub(crate) struct SixteenHead;

impl Peek for SixteenHead {
    type Value = ();

    ghost head = { λ _ _. heads.Bin 16 };

    #[inline(always)]
    fn at(self, front: &[u8], _strict: bool) -> Option<((), usize)> {
        match front {
            [first, following @ ..] => match first {
                0xc4 => match following {
                    [a, ..] if *a == 16 => Some(((), 2)),
                    _ => None,
                },
                _ => None,
            },
            _ => None,
        }
    }
}

// A list of up to 15 elements, whose head has one byte.
#[derive(Clone, Copy)]
pub(crate) struct ListHead;

impl Peek for ListHead {
    type Value = u32;

    ghost head = { λ _ n. heads.Array n };

    #[inline(always)]
    fn at(self, front: &[u8], _strict: bool) -> Option<(u32, usize)> {
        match front {
            [first, ..] => match first {
                0x90..=0x9f => Some((u32::from(*first - 0x90), 1)),
                _ => None,
            },
            _ => None,
        }
    }
}

// A map of up to 15 pairs, whose head has one byte.
#[derive(Clone, Copy)]
pub(crate) struct MapHead;

impl Peek for MapHead {
    type Value = u32;

    ghost head = { λ _ n. heads.Map n };

    #[inline(always)]
    fn at(self, front: &[u8], _strict: bool) -> Option<(u32, usize)> {
        match front {
            [first, ..] => match first {
                0x80..=0x8f => Some((u32::from(*first - 0x80), 1)),
                _ => None,
            },
            _ => None,
        }
    }
}

// A list of `count` elements, whose head has one byte.
#[derive(Clone, Copy)]
pub(crate) struct ListOf {
    pub(crate) count: usize,
}

impl Peek for ListOf {
    type Value = ();

    ghost head = { λ k _. heads.Array k.count };

    #[inline(always)]
    fn at(self, front: &[u8], strict: bool) -> Option<((), usize)> {
        match ListHead.at(front, strict) {
            Some((n, len)) if n as usize == self.count => Some(((), len)),
            _ => None,
        }
    }
}

// A map of `count` pairs, whose head has one byte.
#[derive(Clone, Copy)]
pub(crate) struct MapOf {
    pub(crate) count: usize,
}

impl Peek for MapOf {
    type Value = ();

    ghost head = { λ k _. heads.Map k.count };

    #[inline(always)]
    fn at(self, front: &[u8], strict: bool) -> Option<((), usize)> {
        match MapHead.at(front, strict) {
            Some((n, len)) if n as usize == self.count => Some(((), len)),
            _ => None,
        }
    }
}

// An extension of up to 255 bytes, where any width may be read: how many bytes it has, and its type.
#[derive(Clone, Copy)]
pub(crate) struct ExtHead;

impl Peek for ExtHead {
    type Value = (u32, i8);

    ghost head = { λ _ p. heads.Ext p.0 p.1 };

    #[inline(always)]
    fn at(self, front: &[u8], strict: bool) -> Option<((u32, i8), usize)> {
        if strict {
            return None;
        }
        match ext_at(front) {
            Some((n, tag, len)) => Some(((n, tag), len)),
            None => None,
        }
    }
}

// A head of any kind, but of an extension of more than 255 bytes.
#[derive(Clone, Copy)]
pub(crate) struct AnyHead;

impl Peek for AnyHead {
    type Value = Head;

    ghost head = { λ _ h. h };

    #[inline(always)]
    fn at(self, front: &[u8], strict: bool) -> Option<(Head, usize)> {
        if strict {
            canonical_at(front)
        } else {
            any_at(front)
        }
    }
}

// A head of one byte, of a number from 0 on, a text, a list or a map: the most common heads, which are canonical.
#[derive(Clone, Copy)]
pub(crate) struct OneByteHead;

impl Peek for OneByteHead {
    type Value = Head;

    ghost head = { λ _ h. h };

    #[inline(always)]
    #[tactic(auto, using(crate::proofs::BufferedHeads::small_starts))]
    fn at(self, front: &[u8], _strict: bool) -> Option<(Head, usize)> {
        match front {
            [first, ..] => match first {
                0x00..=0x7f => Some((Head::Whole(i128::from(*first)), 1)),
                0x80..=0x8f => Some((Head::Map(u32::from(*first - 0x80)), 1)),
                0x90..=0x9f => Some((Head::Array(u32::from(*first - 0x90)), 1)),
                0xa0..=0xbf => Some((Head::Text(u32::from(*first - 0xa0)), 1)),
                _ => None,
            },
            _ => None,
        }
    }
}

// Whether a number or a length may be read in a format that is meant for those from `least` on: any where reading isn't strict.
#[inline(always)]
pub(crate) fn may_begin(n: u64, least: u64, strict: bool) -> bool
    ensures { result ≡ true → strict ≡ true → least ≤ n }
{
    !strict || n >= least
}

// Whether the canonical head of a number without a sign has `len` bytes or more. It is computed from `len`, so that a
// lenient read keeps nothing but the number and `len`.
#[inline(always)]
fn needs_bytes(n: u64, len: usize) -> bool
    ensures { result ≡ true → least_of len ≤ n }
{
    let least = match len {
        1 => 0,
        2 => 0x80,
        3 => 1 << 8,
        5 => 1 << 16,
        _ => 1 << 32,
    };
    n >= least
}

// Whether the canonical head of a number below zero has `len` bytes or more.
#[inline(always)]
fn needs_signed_bytes(z: i64, len: usize) -> bool
    ensures { result ≡ true → z <ℤ bound_of len }
{
    let bound = match len {
        1 => 0,
        2 => -0x20,
        3 => -0x80,
        5 => -0x8000,
        _ => -0x8000_0000,
    };
    z < bound
}

// The number that the first two bytes are. These three bear no hint to inline always: what is inlined always counts towards how large a
// caller may grow before its own hint is dropped, and they are inlined without it.
fn number_16_at(bytes: &[u8]) -> Option<u16>
    ensures long { IfSome result (λ n. 2 ≤ length bytes.now) }
    ensures value { IfSome result (λ n. n ≡ get_or bytes.now 0 0 * 256 + get_or bytes.now 1 0) }
{
    match bytes {
        [a, b, ..] => Some(u16::from_be_bytes([*a, *b])),
        _ => None,
    }
}

// The number that the first four bytes are.
fn number_32_at(bytes: &[u8]) -> Option<u32>
    ensures long { IfSome result (λ n. 4 ≤ length bytes.now) }
    ensures value { IfSome result (λ n. n ≡ get_or bytes.now 0 0 * 0x1000000 + get_or bytes.now 1 0 * 0x10000 + get_or bytes.now 2 0 * 0x100
        + get_or bytes.now 3 0) }
{
    match bytes {
        [a, b, c, d, ..] => Some(u32::from_be_bytes([*a, *b, *c, *d])),
        _ => None,
    }
}

// The number that the first eight bytes are.
fn number_64_at(bytes: &[u8]) -> Option<u64>
    ensures long { IfSome result (λ n. 8 ≤ length bytes.now) }
    ensures value { IfSome result (λ n. n ≡ get_or bytes.now 0 0 * 0x100000000000000 + get_or bytes.now 1 0 * 0x1000000000000
        + get_or bytes.now 2 0 * 0x10000000000 + get_or bytes.now 3 0 * 0x100000000 + get_or bytes.now 4 0 * 0x1000000 + get_or bytes.now 5 0 * 0x10000
        + get_or bytes.now 6 0 * 0x100 + get_or bytes.now 7 0) }
{
    match bytes {
        [a, b, c, d, e, f, g, h, ..] => {
            Some(u64::from_be_bytes([*a, *b, *c, *d, *e, *f, *g, *h]))
        }
        _ => None,
    }
}

// A number without a sign whose head, of any width, is at the front, and the length of that head.
#[inline(always)]
fn unsigned_at(front: &[u8]) -> Option<(u64, usize)>
    ensures any { IfSome result (λ p. HeadIn false p.1 (Head.Whole (pos p.0)) front.now) }
    ensures canonical { IfSome result (λ p. least_of p.1 ≤ p.0 → HeadIn true p.1 (Head.Whole (pos p.0)) front.now) }
{
    match front {
        [first, following @ ..] => match first {
            0x00..=0x7f => Some((u64::from(*first), 1)),
            0xcc => match following {
                [a, ..] => Some((u64::from(*a), 2)),
                _ => None,
            },
            0xcd => match number_16_at(following) {
                Some(n) => Some((u64::from(n), 3)),
                None => None,
            },
            0xce => match number_32_at(following) {
                Some(n) => Some((u64::from(n), 5)),
                None => None,
            },
            0xcf => match number_64_at(following) {
                Some(n) => Some((n, 9)),
                None => None,
            },
            _ => None,
        },
        _ => None,
    }
}
