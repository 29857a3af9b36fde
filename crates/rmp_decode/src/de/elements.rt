//! The elements of a list, or the numbers of bytes, read one after another into what holds them.
ghost use Rattle.std.specs.Prelude.{◌≡◌, ◌<◌, ◌≤◌, ◌++◌, ◌∷◌, [], ℕ, Bool, List, Ok, IfSome, IfNone, true, false, length};
ghost use Rattle.rmp_decode.specs.Inside.{RowRead};
ghost use Rattle.rmp_decode.specs.Seq.{TakesSeqHead};
ghost use Rattle.rmp_decode.specs.State.{kept_of};
ghost use Rattle.rmp_decode.specs.declared.deserializer.Kept.TheVariants.{Nothing};

use crate::access::parts::inner_room;
use crate::access::seq::data_fault;
use crate::de::Deserialize;
use crate::deserializer::peek::{BinHead, ListHead};
use crate::deserializer::{Deserializer, Kept};
use crate::error::Error;
use core::mem::replace_with;
use rmp_wire::config::SerializerConfig;
use rmp_wire::{ReadSlice, Source};
use std::marker::PhantomData;
use std::mem::size_of_val;

// A collection that elements are read into.
pub(crate) trait Row<T: Drop>: Drop {
    // whether it has these values
    ghost holds: { Self → List T → Type 0 };

    // how many it takes of a count
    ghost most: { ℕ → ℕ };

    // whether memory may be short for an element
    ghost grows: { Bool };

    // Returns how many elements it takes of a count.
    fn wanted(count: u32) -> u32
        ensures most { result ≡ most count }
        ensures within { result ≤ count };

    // Appends an element to the `at` others, of which `left` more follow. Returns whether it could.
    fn put(&mut self, item: T, at: u32, left: u32) -> bool
        requires { (vs : List T) × (all : ℕ) × holds self.old vs × (length vs ≡ at) × (at < most all) }
        ensures held { result ≡ true → (vs : List T) → holds self.old vs → length vs ≡ at → holds self.new (vs ++ item ∷ []) }
        ensures full { result ≡ false → grows ≡ true };
}

// Whether an element is as small as a byte, so that many of them are likely to come as bytes.
#[inline(always)]
pub(crate) fn is_small<T: Drop>() -> bool {
    let none: Option<T> = None;
    size_of_val(&none) <= 2
}

impl<R: Source, C: SerializerConfig> Deserializer<R, C> {
    // Consumes the head of a short list, if it is buffered. Returns `None` and consumes nothing otherwise.
    #[inline(always)]
    pub(crate) fn short_list(&mut self) -> Option<u32>
        ensures opened { IfSome result (λ n. TakesSeqHead R.Source self.old self.new (Ok (false, n))) }
        ensures kept { IfNone result (self.new ≡ self.old) }
    {
        self.take_nested(ListHead)
    }

    // Consumes the head of bytes, if they are `wanted`, it is buffered whole, and reading isn't strict. Returns `None` and consumes
    // nothing otherwise.
    #[inline(always)]
    pub(crate) fn buffered_bytes(&mut self, wanted: bool) -> Option<u32>
        ensures opened { IfSome result (λ n. TakesSeqHead R.Source self.old self.new (Ok (true, n))) }
        ensures kept { IfNone result (self.new ≡ self.old) }
    {
        if !wanted || self.strict {
            return None;
        }
        self.take(BinHead)
    }
}

// Reads `count` elements of a list, or bytes as numbers, after the head was consumed, and returns how many remain. The
// depth is set once for all of them. What each read leaves of the reader is set again, so that the compiler knows it
// for the next one.
#[inline(always)]
pub(crate) fn read_row<
    'de,
    R: ReadSlice<'de>,
    C: SerializerConfig,
    T: Deserialize<'de, R>,
    W: Row<T>,
>(de: &mut Deserializer<R, C>, bytes: bool, count: u32, row: &mut W) -> Result<u32, Error>
    requires clean { kept_of de.old ≡ Nothing }
    requires empty { W.holds row.old [] }
    ensures { RowRead R.Source C.human R.lends T.reads T.refuses W.holds W.most W.grows de.old bytes count de.new row.new result }
{
    let outer = de.room;
    de.room = inner_room(outer, bytes);
    de.failed = false;
    de.kept = Kept::Nothing;
    let rest = count - W::wanted(count);
    let mut left = count;
    while left > rest {
        match de.offer_part(bytes) {
            Ok(()) => {}
            Err(fault) => {
                de.room = outer;
                de.failed = true;
                return Err(data_fault(fault));
            }
        }
        match T::deserialize(de) {
            Ok(item) => {
                de.failed = false;
                de.kept = Kept::Nothing;
                let at = count - left;
                left -= 1;
                if !row.put(item, at, left) {
                    de.room = outer;
                    de.failed = true;
                    return Err(Error::OutOfMemory);
                }
            }
            Err(e) => {
                de.room = outer;
                // (a list is one level; the room in it would have to be kept for the whole loop)
                de.levels = de.levels.saturating_add(if bytes { 0 } else { 1 });
                return Err(e);
            }
        }
    }
    de.room = outer;
    Ok(left)
}

// Reads bytes as numbers into a collection. The bound names no lifetime, since a function that passes a closure can
// have none that does.
pub(crate) trait ReadNumbers<R: Source, T: Drop, W: Row<T>> {
    ghost use Rattle.std.specs.Prelude.{Bool};
    ghost use Rattle.rmp_wire.specs.Msg.{Msg};
    ghost use Rattle.rmp_decode.specs.Refusing.{Setting, Refusals};

    ghost lends: { Bool };

    ghost reads: { Bool → Bool → Msg → T → Type 0 };

    ghost refuses: { Setting → Refusals };

    fn read<C: SerializerConfig>(
        de: &mut Deserializer<R, C>,
        count: u32,
        row: &mut W,
    ) -> Result<u32, Error>
        requires clean { kept_of de.old ≡ Nothing }
        requires empty { W.holds row.old [] }
        ensures { RowRead R.Source C.human lends reads refuses W.holds W.most W.grows de.old true count de.new row.new result };
}

// Numbers that are read by their type.
pub(crate) struct ByType<'de> {
    of: PhantomData<&'de [u8]>,
}

impl<'de, R: ReadSlice<'de>, T: Deserialize<'de, R>, W: Row<T>> ReadNumbers<R, T, W>
    for ByType<'de> {
    ghost lends = { R.lends };

    ghost reads = { T.reads };

    ghost refuses = { T.refuses };

    #[inline(always)]
    fn read<C: SerializerConfig>(
        de: &mut Deserializer<R, C>,
        count: u32,
        row: &mut W,
    ) -> Result<u32, Error> {
        read_row(de, true, count, row)
    }
}

// Reads bytes as numbers. The reader is moved into a local variable and back, so that its fields stay in registers.
#[inline(always)]
pub(crate) fn numbers_taken_out<
    R: Source,
    C: SerializerConfig,
    T: Drop,
    W: Row<T>,
    P: ReadNumbers<R, T, W>,
>(de: &mut Deserializer<R, C>, count: u32, row: W) -> (Result<u32, Error>, W)
    requires clean { kept_of de.old ≡ Nothing }
    requires empty { W.holds row [] }
    ensures { RowRead R.Source C.human P.lends P.reads P.refuses W.holds W.most W.grows de.old true count de.new result.1 result.0 }
{
    replace_with(
        de,
        (count, row),
        |mut de: Deserializer<R, C>, given: (u32, W)|
            requires clean { kept_of de ≡ Nothing }
            requires empty { W.holds given.1 [] }
            ensures { RowRead R.Source C.human P.lends P.reads P.refuses W.holds W.most W.grows de true given.0 result.0 result.1.1 result.1.0 }
        {
            let (count, mut row) = given;
            let read = P::read(&mut de, count, &mut row);
            (de, (read, row))
        },
    )
}
