//! Arrays, from lists of as many elements, or bytes of as many.
ghost use Rattle.std.specs.Prelude.{◌≡◌, ◌⊎◌, ◌<◌, true, false, None, Some, IsSome, All, map, min, slice_index_or, slice_set};
ghost use Rattle.rmp_decode.specs.Arrays.{PlacesFit, Exactly, HoldsFirst, RefusesArray};
ghost use Rattle.rmp_decode.specs.Inside.{ReadsInside};
ghost use Rattle.rmp_decode.specs.Refusing.{ReadsAs, RefusesTimes};
ghost use Rattle.rmp_decode.specs.Seq.{OfRow};
ghost use Rattle.rmp_decode.specs.State.{is_failed, kept_of};
ghost use Rattle.rmp_decode.specs.declared.deserializer.Kept.TheVariants.{Nothing};
ghost use Rattle.rmp_decode.specs.declared.error.Error.TheVariants.{OutOfMemory};

use crate::de::Deserialize;
use crate::de::elements::{ByType, Row, is_small, numbers_taken_out, read_row};
use crate::deserializer::Deserializer;
use crate::error::Error;
use crate::text::Text;
use rmp_wire::ReadSlice;
use rmp_wire::config::SerializerConfig;
use std::array::from_fn;
use std::mem::size_of_val;

// Whether an array of `N` options fits in memory.
#[inline(always)]
fn places_fit<T: Drop, const N: usize>() -> bool
    ensures fit { result ≡ true → PlacesFit T.row N }
    ensures unfit { result ≡ false → PlacesFit T.row N → ⊥ }
{
    let none: Option<T> = None;
    match size_of_val(&none).checked_mul(N) {
        Some(size) => size < 1 << 63,
        None => false,
    }
}

// The values of places that each hold one.
#[inline(always)]
fn values_of<T: Drop, const N: usize>(mut places: [Option<T>; N]) -> [T; N]
    requires { All (λ p. IsSome p) places }
    ensures { map (λ v. Some v) result ≡ places }
{
    from_fn(
        move |i|
            requires within { i < N }
            requires there { IsSome (slice_index_or places i None) }
            ensures value { slice_index_or places.entry i None ≡ Some result }
            ensures rest { places.exit ≡ slice_set places.entry i None }
        {
            match places[i].take() {
                Some(value) => value,
                None => unreachable!(),
            }
        },
    )
}

// Places of which the first ones hold the elements so far.
impl<T: Drop, const N: usize> Row<T> for [Option<T>; N] {
    ghost holds = { HoldsFirst N };

    ghost most = { min N };

    ghost grows = { false };

    #[inline(always)]
    fn wanted(count: u32) -> u32 {
        if N < count as usize { N as u32 } else { count }
    }

    #[inline(always)]
    fn put(&mut self, item: T, at: u32, _left: u32) -> bool {
        self[at as usize] = Some(item);
        true
    }
}

// Reads `count` elements of a list whose head was consumed.
#[inline(always)]
fn array_row<'de, R: ReadSlice<'de>, C: SerializerConfig, T: Deserialize<'de, R>, const N: usize>(
    de: &mut Deserializer<R, C>,
    count: u32,
) -> Result<[T; N], Error>
    requires clean { kept_of de.old ≡ Nothing }
    requires failed { is_failed de.old ≡ true }
    ensures { ReadsInside R.Source C.human R.lends (λ m v. OfRow (Exactly N (T.reads C.human R.lends) v) m) (RefusesArray T.row N T.reads T.refuses) de.old false
        count de.new result }
{
    if !places_fit::<T, N>() {
        return Err(Error::OutOfMemory);
    }
    let mut places: [Option<T>; N] = Default::default();
    match read_row(de, false, count, &mut places) {
        Ok(left) => {
            if (count as usize) < N {
                return Err(de.refuse(Error::Syntax(Text::InvalidLength)));
            }
            if left > 0 {
                return Err(de.refuse(Error::LengthMismatch(count.saturating_sub(left))));
            }
            Ok(values_of(places))
        }
        Err(e) => Err(e),
    }
}

// Reads `count` bytes as numbers. The reader is moved into a local variable and back.
#[inline(always)]
fn number_row<'de, R: ReadSlice<'de>, C: SerializerConfig, T: Deserialize<'de, R>, const N: usize>(
    de: &mut Deserializer<R, C>,
    count: u32,
) -> Result<[T; N], Error>
    requires clean { kept_of de.old ≡ Nothing }
    requires failed { is_failed de.old ≡ true }
    ensures { ReadsInside R.Source C.human R.lends (λ m v. OfRow (Exactly N (T.reads C.human R.lends) v) m) (RefusesArray T.row N T.reads T.refuses) de.old true
        count de.new result }
{
    if !places_fit::<T, N>() {
        return Err(Error::OutOfMemory);
    }
    let none: [Option<T>; N] = Default::default();
    let (read, places) = numbers_taken_out::<R, C, T, [Option<T>; N], ByType<'de>>(de, count, none);
    match read {
        Ok(left) => {
            if (count as usize) < N {
                return Err(de.refuse(Error::Syntax(Text::InvalidLength)));
            }
            if left > 0 {
                return Err(de.refuse(Error::LengthMismatch(count.saturating_sub(left))));
            }
            Ok(values_of(places))
        }
        Err(e) => Err(e),
    }
}

// The slow path of an array's read: its head isn't buffered, or is of another kind. It is a call that reads the elements too, so that the fast
// path doesn't merge its head with a refusal.
#[inline(never)]
fn slow_array<'de, R: ReadSlice<'de>, C: SerializerConfig, T: Deserialize<'de, R>, const N: usize>(
    de: &mut Deserializer<R, C>,
) -> Result<[T; N], Error>
    ensures { ReadsAs R.Source C.human R.lends true (λ m v. OfRow (Exactly N (T.reads C.human R.lends) v) m) (RefusesArray T.row N T.reads T.refuses) de.old
        de.new result }
{
    match de.open_tuple() {
        Ok((true, count)) => number_row(de, count),
        Ok((false, count)) => array_row(de, count),
        Err(e) => Err(e),
    }
}

impl<'de, R: ReadSlice<'de>, T: Deserialize<'de, R>, const N: usize> Deserialize<'de, R>
    for [T; N] {
    ghost reads = { λ human lends m v. OfRow (Exactly N (T.reads human lends) v) m };

    ghost absent = { None };

    // The read is out of memory where the array doesn't fit in memory.
    ghost refuses = { λ s before after known e. ((PlacesFit T.row N → ⊥) × (e ≡ OutOfMemory)) ⊎ RefusesTimes N T.reads T.refuses s before after known e };

    fn deserialize<C: SerializerConfig>(de: &mut Deserializer<R, C>) -> Result<[T; N], Error> {
        match de.short_list() {
            Some(count) => array_row(de, count),
            None => match de.buffered_bytes(is_small::<T>()) {
                Some(count) => number_row(de, count),
                None => slow_array(de),
            },
        }
    }

    fn missing() -> Option<[T; N]> {
        None
    }
}
