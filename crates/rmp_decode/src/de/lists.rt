//! Vectors and queues, from lists or bytes.
ghost use Rattle.std.specs.Prelude.{◌≡◌, ◌<◌, None, true, vec_len, vec_capacity};
ghost use Rattle.rmp_decode.specs.Inside.{ReadsInside, ListOf, values_of};
ghost use Rattle.rmp_decode.specs.Refusing.{ReadsAs, RefusesEach};
ghost use Rattle.rmp_decode.specs.Rows.{ReadsEach};
ghost use Rattle.rmp_decode.specs.Seq.{OfRow};
ghost use Rattle.rmp_decode.specs.State.{kept_of};
ghost use Rattle.rmp_decode.specs.declared.deserializer.Kept.TheVariants.{Nothing};

use crate::de::Deserialize;
use crate::de::elements::{Row, is_small, read_row};
use crate::deserializer::Deserializer;
use crate::error::Error;
use core::mem::replace_with;
use rmp_wire::config::SerializerConfig;
use rmp_wire::{ReadSlice, Source};
use std::collections::VecDeque;
use std::marker::PhantomData;
use std::mem::size_of_val;

impl<T: Drop> Row<T> for Vec<T> {
    ghost holds = { λ v vs. v.items ≡ vs };

    ghost most = { λ n. n };

    ghost grows = { true };

    #[inline(always)]
    fn wanted(count: u32) -> u32 {
        count
    }

    // It makes room for further elements only after the first one was read.
    #[inline(always)]
    fn put(&mut self, item: T, _at: u32, left: u32) -> bool {
        if self.len() >= self.capacity() && !made_room(self, left) {
            return false;
        }
        self.push_reserved(item);
        true
    }
}

// Whether there is room for one more, of which so many are to follow it. The call is given the vector by value, so that its parts
// stay in registers where there is room.
#[inline(always)]
fn made_room<T: Drop>(items: &mut Vec<T>, left: u32) -> bool
    ensures items { items.new.items ≡ items.old.items }
    ensures room { result ≡ true → vec_len items.new < vec_capacity items.new }
{
    replace_with(
        items,
        left,
        |mut items: Vec<T>, left: u32|
            ensures items { result.0.items ≡ items.items }
            ensures room { result.1 ≡ true → vec_len result.0 < vec_capacity result.0 }
        {
            let made = make_room(&mut items, left);
            (items, made)
        },
    )
}

// Makes room for one more, and says whether it could. The first elements get room for 16, or for 128 where they are small, so that a
// short list is never moved; where that is refused, less is asked for.
#[inline(never)]
fn make_room<T: Drop>(items: &mut Vec<T>, left: u32) -> bool
    ensures items { items.new.items ≡ items.old.items }
    ensures room { result ≡ true → vec_len items.new < vec_capacity items.new }
{
    if items.is_empty() {
        let none: Option<T> = None;
        let most = if size_of_val(&none) <= 8 { 128 } else { 16 };
        if items.reserve((left as usize + 1).min(most)).is_ok() {
            return true;
        }
    }
    items.reserve(1).is_ok()
}

// Reads `count` elements of a list, or bytes as numbers, after the head was consumed.
#[inline(always)]
fn vec_row<'de, R: ReadSlice<'de>, C: SerializerConfig, T: Deserialize<'de, R>>(
    de: &mut Deserializer<R, C>,
    bytes: bool,
    count: u32,
) -> Result<Vec<T>, Error>
    requires clean { kept_of de.old ≡ Nothing }
    ensures { ReadsInside R.Source C.human R.lends (ListOf (T.reads C.human R.lends)) (RefusesEach T.reads T.refuses) de.old bytes count de.new
        (values_of (λ v. v.items) result) }
{
    let mut items = Vec::new(de.alloc());
    match read_row(de, bytes, count, &mut items) {
        Ok(_) => Ok(items),
        Err(e) => Err(e),
    }
}

// Reads the elements of a list, or bytes as numbers: by a loop for each, so that neither has to test which it is.
#[inline(always)]
fn read_vec<'de, R: ReadSlice<'de>, C: SerializerConfig, T: Deserialize<'de, R>>(
    de: &mut Deserializer<R, C>,
) -> Result<Vec<T>, Error>
    ensures { ReadsAs R.Source C.human R.lends true (ListOf (T.reads C.human R.lends)) (RefusesEach T.reads T.refuses) de.old de.new
        (values_of (λ v. v.items) result) }
{
    match de.open_row(is_small::<T>()) {
        Ok((true, count)) => vec_row(de, true, count),
        Ok((false, count)) => vec_row(de, false, count),
        Err(e) => Err(e),
    }
}

// Reads elements into a queue.
#[inline(always)]
fn read_queue<'de, R: ReadSlice<'de>, C: SerializerConfig, T: Deserialize<'de, R>>(
    de: &mut Deserializer<R, C>,
) -> Result<VecDeque<T>, Error>
    ensures { ReadsAs R.Source C.human R.lends true (ListOf (T.reads C.human R.lends)) (RefusesEach T.reads T.refuses) de.old de.new
        (values_of (λ v. v.items) result) }
{
    match read_vec(de) {
        Ok(items) => Ok(VecDeque::from(items)),
        Err(e) => Err(e),
    }
}

// Reads a value. The bound names no lifetime, since a function that passes a closure can have none that does.
trait ReadHere<R: Source, V: Drop> {
    ghost use Rattle.std.specs.Prelude.{Bool};
    ghost use Rattle.rmp_wire.specs.Msg.{Msg};
    ghost use Rattle.rmp_decode.specs.Refusing.{Setting, Refusals};

    ghost lends: { Bool };

    ghost reads: { Bool → Bool → Msg → V → Type 0 };

    ghost refuses: { Setting → Refusals };

    fn read<C: SerializerConfig>(de: &mut Deserializer<R, C>) -> Result<V, Error>
        ensures { ReadsAs R.Source C.human lends true (reads C.human lends) refuses de.old de.new result };
}

// Lists whose elements are read by their type.
struct Items<'de> {
    of: PhantomData<&'de [u8]>,
}

impl<'de, R: ReadSlice<'de>, T: Deserialize<'de, R>> ReadHere<R, Vec<T>> for Items<'de> {
    ghost lends = { R.lends };

    ghost reads = { λ human lends m v. OfRow (λ ms. ReadsEach (T.reads human lends) ms v.items) m };

    ghost refuses = { RefusesEach T.reads T.refuses };

    #[inline(always)]
    fn read<C: SerializerConfig>(de: &mut Deserializer<R, C>) -> Result<Vec<T>, Error> {
        read_vec(de)
    }
}

impl<'de, R: ReadSlice<'de>, T: Deserialize<'de, R>> ReadHere<R, VecDeque<T>> for Items<'de> {
    ghost lends = { R.lends };

    ghost reads = { λ human lends m v. OfRow (λ ms. ReadsEach (T.reads human lends) ms v.items) m };

    ghost refuses = { RefusesEach T.reads T.refuses };

    #[inline(always)]
    fn read<C: SerializerConfig>(de: &mut Deserializer<R, C>) -> Result<VecDeque<T>, Error> {
        read_queue(de)
    }
}

// Reads a value. The reader is moved into a local variable and back, so that its fields stay in registers.
#[inline(always)]
fn taken_out<R: Source, C: SerializerConfig, V: Drop, P: ReadHere<R, V>>(
    de: &mut Deserializer<R, C>,
) -> Result<V, Error>
    ensures { ReadsAs R.Source C.human P.lends true (P.reads C.human P.lends) P.refuses de.old de.new result }
{
    replace_with(
        de,
        (),
        |mut de: Deserializer<R, C>, _none: ()|
            ensures { ReadsAs R.Source C.human P.lends true (P.reads C.human P.lends) P.refuses de result.0 result.1 }
        {
            let read = P::read(&mut de);
            (de, read)
        },
    )
}

impl<'de, R: ReadSlice<'de>, T: Deserialize<'de, R>> Deserialize<'de, R> for Vec<T> {
    ghost reads = { λ human lends m v. OfRow (λ ms. ReadsEach (T.reads human lends) ms v.items) m };

    ghost absent = { None };

    ghost refuses = { RefusesEach T.reads T.refuses };

    fn deserialize<C: SerializerConfig>(de: &mut Deserializer<R, C>) -> Result<Vec<T>, Error> {
        taken_out::<R, C, Vec<T>, Items<'de>>(de)
    }

    fn missing() -> Option<Vec<T>> {
        None
    }
}

impl<'de, R: ReadSlice<'de>, T: Deserialize<'de, R>> Deserialize<'de, R> for VecDeque<T> {
    ghost reads = { λ human lends m v. OfRow (λ ms. ReadsEach (T.reads human lends) ms v.items) m };

    ghost absent = { None };

    ghost refuses = { RefusesEach T.reads T.refuses };

    fn deserialize<C: SerializerConfig>(de: &mut Deserializer<R, C>) -> Result<VecDeque<T>, Error> {
        taken_out::<R, C, VecDeque<T>, Items<'de>>(de)
    }

    fn missing() -> Option<VecDeque<T>> {
        None
    }
}
